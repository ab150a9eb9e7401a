// The laws of the strong machine and of its fragments, for every kind of value. The functions do nothing: what they promise is the law.
// kept: `meaning_of` in each clause: a law holds of any zero, truth and outcomes, and asks for no forms, as the trait's own record would.
ghost use Rattle.machine.specs.Effect.{meaning_of};
ghost use Rattle.machine.specs.MachineLaws.{OneAtATime, Lasts, FaultsStop, Undisturbed};
ghost use Rattle.machine.specs.FragmentLaws.{Frame, Embedding, Faithful, OwnSide, Determined, Whole, FaultMet};

use value::Kind;

// Never are two tasks active at once.
#[tactic(auto, using(crate::proofs::Singly::one_at_a_time_stands))]
pub fn one_at_a_time_stands<K: Kind>()
    ensures { OneAtATime (meaning_of K.Kind) }
{}

// What is separated from the start on is so from every later state on.
#[tactic(auto, using(crate::proofs::Passing::lasts_stands))]
pub fn lasts_stands<K: Kind>()
    ensures { Lasts (meaning_of K.Kind) }
{}

// A task that faces a fault does not run.
#[tactic(auto, using(crate::proofs::Inverts::faults_stop_stands))]
pub fn faults_stop_stands<K: Kind>()
    ensures { FaultsStop (meaning_of K.Kind) }
{}

// Between a fragment's opening and its end no mode and no other task's phase changes.
#[tactic(auto, using(crate::proofs::Faithfully::undisturbed_stands))]
pub fn undisturbed_stands<K: Kind>()
    ensures { Undisturbed (meaning_of K.Kind) }
{}

// A private run is the same over other cells that agree where it read.
#[tactic(auto, using(crate::proofs::Frames::frame_stands))]
pub fn frame_stands<K: Kind>()
    ensures { Frame (meaning_of K.Kind) }
{}

// The strong machine follows a private run, through each cell that the run touched.
pub fn embedding_stands<K: Kind>()
    ensures { Embedding (meaning_of K.Kind) }
{}

// Each fragment of the strong machine is a private run.
#[tactic(auto, using(crate::proofs::Faithfully::faithful_stands))]
pub fn faithful_stands<K: Kind>()
    ensures { Faithful (meaning_of K.Kind) }
{}

// Under separation a private run touches only cells that fragments may touch.
pub fn own_side_stands<K: Kind>()
    ensures { OwnSide (meaning_of K.Kind) }
{}

// From the same cells and start, a fragment has one end.
#[tactic(auto, using(crate::proofs::Determines::determined_stands))]
pub fn determined_stands<K: Kind>()
    ensures { Determined (meaning_of K.Kind) }
{}

// A private run that comes to a leave or a finish is a whole fragment.
pub fn whole_stands<K: Kind>()
    ensures { Whole (meaning_of K.Kind) }
{}

// A private run that comes to a fault leads the strong machine to it.
#[tactic(auto, using(crate::proofs::Wholes::fault_met_stands))]
pub fn fault_met_stands<K: Kind>()
    ensures { FaultMet (meaning_of K.Kind) }
{}
