// The laws of the engine's moves, for every kind of value. The functions do nothing: what they promise is the law.
// kept: `meaning_of` in each clause: a law holds of any zero, truth and outcomes, and asks for no forms, as the trait's own record would.
ghost use Rattle.machine.specs.Effect.{meaning_of};
ghost use Rattle.model.specs.Laws.{Kept, AtFirst, FaultInside, FaultOutside};

use value::Kind;

// Each accepted call keeps the invariant, and moves the undone state by none, one or a whole fragment of the strong machine's events.
pub fn moves_keep_stands<K: Kind>()
    ensures { Kept (meaning_of K.Kind) }
{}

// The invariant holds where no transaction is open.
#[tactic(auto, using(crate::proofs::Kept::at_first_stands))]
pub fn at_first_stands<K: Kind>()
    ensures { AtFirst (meaning_of K.Kind) }
{}

// The faults of a transaction that is not stale are faults of the strong machine.
pub fn fault_inside_stands<K: Kind>()
    ensures { FaultInside (meaning_of K.Kind) }
{}

// So are the faults outside.
#[tactic(auto, using(crate::proofs::Faults::fault_outside_stands))]
pub fn fault_outside_stands<K: Kind>()
    ensures { FaultOutside (meaning_of K.Kind) }
{}
