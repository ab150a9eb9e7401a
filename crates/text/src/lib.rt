// Text: cutting bytes into pieces, numbers, tokens of values, frames of lines, and lines to be written.
#![tactic(auto)]

mod cut;
mod decimals;
mod frame;
mod output;
mod token;
mod tokens;

pub use cut::{before, split_once};
pub use decimals::number;
pub use frame::framed;
pub use output::Line;
pub use token::Token;
pub use tokens::lex;
