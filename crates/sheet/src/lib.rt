// Hand-over sheets: reading them from bytes and writing them back.
#![tactic(auto)]

mod filled;
mod kept;
mod laws;
mod lines_out;
mod notices;
mod operations;
mod output;
mod parts;

pub use kept::Sheet;
pub use laws::round_trips_stand;
pub use parts::{Cell, LineFault, Notice, Refusal};
