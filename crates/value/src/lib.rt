// Kinds of value: whole numbers and readings, their operations and the forms that sheets have for them.
#![tactic(auto)]

mod bearings;
mod codes;
mod forms;
mod hex;
mod integers;
mod kinds;
mod readings;
mod wholes;

pub use codes::{Cause, Fault, Operation};
pub use kinds::Kind;
pub use readings::Reading;
pub use wholes::Whole;
