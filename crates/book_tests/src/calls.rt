// Calls on a book, drawn at random.
use book::Book;

#[derive(Clone, Copy)]
pub enum Call {
    Rest,
    Begin {
        task: usize,
    },
    Forget {
        task: usize,
    },
    Note {
        task: usize,
        cell: usize,
        held: bool,
    },
    Finish {
        task: usize,
        cells: [bool; 64],
    },
}

pub fn make<B: Book>(book: &mut B, call: &Call) {
    match call {
        Call::Rest => book.rest(),
        Call::Begin { task } => book.begin(*task),
        Call::Forget { task } => book.forget(*task),
        Call::Note { task, cell, held } => book.note(*task, *cell, *held),
        Call::Finish { task, cells } => book.finish(*task, cells),
    }
}

// The most that this call may take from what a cell has left; `None` after a rest.
pub fn spends(call: &Call, c: usize) -> Option<u8> {
    match call {
        Call::Rest => None,
        Call::Finish { task, cells } if *task < 16 && c < 64 && cells[c] => Some(1),
        _ => Some(0),
    }
}

// A linear congruential generator.
#[derive(Drop)]
pub struct Random {
    state: u32,
}

impl Random {
    pub fn new(seed: u32) -> Random {
        Random { state: seed }
    }

    fn next(&mut self) -> usize {
        self.state = self
            .state
            .wrapping_mul(1_664_525)
            .wrapping_add(1_013_904_223);
        (self.state >> 16) as usize
    }

    // A set of a few cells.
    fn cells(&mut self) -> [bool; 64] {
        let mut cells = [false; 64];
        for _ in 0..self.next() % 4 {
            cells[self.next() % 64] = true;
        }
        cells
    }

    // Mostly tasks and cells that a station has, and few cells, so that calls meet.
    pub fn call(&mut self) -> Call {
        let task = self.next() % 17;
        match self.next() % 64 {
            0 => Call::Rest,
            1..=6 => Call::Begin { task },
            7..=10 => Call::Forget { task },
            11..=40 => Call::Note {
                task,
                cell: self.next() % 66,
                held: self.next() % 16 == 0,
            },
            _ => Call::Finish {
                task,
                cells: self.cells(),
            },
        }
    }
}
