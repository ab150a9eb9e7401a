// What a sheet's tasks are made of: the modes of cells, and the operations of tasks in one plain table.
#![tactic(auto)]

use value::Operation;

mod table;

pub use table::{Full, Program};

// Which side a cell is on: protected cells are for transactions, unprotected ones for drivers.
#[derive(Clone, Copy)]
pub enum Mode {
    Protected,
    Unprotected,
}

// The thirteen operations. `Finish` stands first: a place past a task's end reads as it.
#[derive(Clone, Copy)]
pub enum Op {
    Finish,
    Read {
        to: u8,
        cell: u8,
    },
    Write {
        cell: u8,
        from: u8,
    },
    Constant {
        to: u8,
        constant: u8,
    },
    Apply {
        operation: Operation,
        to: u8,
        left: u8,
        right: u8,
    },
    Jump {
        target: u16,
    },
    JumpIfFalse {
        test: u8,
        target: u16,
    },
    Await {
        test: u8,
    },
    Start {
        task: u8,
    },
    Leave,
    Enter,
    Protect {
        cell: u8,
    },
    Unprotect {
        cell: u8,
    },
}
