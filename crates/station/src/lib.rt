// The station: the engine with what every station keeps, and the calls that people make.
#![tactic(auto)]

mod calls;
mod kept;
mod laws;
mod laying;
mod sheets;

pub use board::{Board, Row, TaskState};
pub use engine::{Event, PLACES};
pub use faults::{Refusal, Side, StepFault, TaskFault};
pub use kept::Station;
pub use laws::stations_keep_stands;
