// The definitions tried on examples. The functions do nothing: what they promise was computed or proved of the example.
ghost use Rattle.machine.specs.Handover.{Taken, Added, Kept, Broken};
ghost use Rattle.machine.specs.Table.{Tabulated};
ghost use Rattle.machine.specs.Waiting.{Unasked};

// Each operation on each side, and each event, on one small state.
pub fn table_stands()
    ensures { Tabulated }
{}

// A task takes a cell over, as a driver: the events of both orders, computed.
#[tactic(auto, using(crate::proofs::Samples::taken, crate::proofs::Samples::added))]
pub fn handover_ends()
    ensures taken { Taken }
    ensures added { Added }
{}

// The same program keeps separation in every order.
#[tactic(auto, using(crate::proofs::Keeps::keeps))]
pub fn handover_is_separated()
    ensures { Kept }
{}

// Programs that differ little from it break separation, each in another way.
#[tactic(auto, using(crate::proofs::Samples::broken))]
pub fn careless_is_not_separated()
    ensures { Broken }
{}

// A driver whose turn never comes is not asked to keep separation.
#[tactic(auto, using(crate::proofs::Blocks::unasked))]
pub fn waiting_is_separated()
    ensures { Unasked }
{}
