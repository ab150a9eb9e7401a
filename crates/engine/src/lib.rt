// The engine on plain data: transactions side by side over shared cells, each undone by itself, and drivers on their own cells.
#![tactic(auto)]

use board::Board;
use program::Program;

mod both;
mod calls;
mod ends;
mod inside;
mod layout;
mod order;
mod outside;
mod turn;

pub use layout::{CONSTANTS, PLACES};

// A book, the board, and the program with the numbers of cells and constants. The values stand in the caller's slice.
#[derive(Drop)]
pub struct Engine<B> {
    pub book: B,
    pub board: Board,
    pub program: Program,
    pub cells: usize,
    pub consts: usize,
}

// What a call asks of a task.
#[derive(Clone, Copy)]
pub enum Event {
    Admit,
    Open,
    Step,
    Commit,
    Undo,
}
