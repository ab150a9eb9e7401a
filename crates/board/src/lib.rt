// A station's tasks and cells as plain data, and what a call does for all of them.
#![tactic(auto)]

ghost use Rattle.std.specs.Prelude.{◌≡◌, false, not, is_ok, replicate, if◌then◌else◌};
ghost use Rattle.board.specs.Boards.{row_at, idle_row, mine, with_owners, with_rows};
ghost use Rattle.board.specs.Laying.{laid, tabulated};
ghost use Rattle.board.specs.Loops.{busy, at_work, overfull, delivered, released, owned};

use program::Mode;
use std::array;

// Where a task is in its life. A transaction runs inside, and keeps the place where it opened.
#[derive(Clone, Copy)]
pub enum TaskState {
    Idle,
    Ready { place: u16 },
    Inside { place: u16, opening: u16 },
    Outside { place: u16 },
}

// A task: the calls that it is owed, where it is, and the calls that its transaction has started.
#[derive(Clone, Copy)]
pub struct Row {
    pub owed: u8,
    pub state: TaskState,
    pub own: [u8; 16],
}

// The sides of the cells, the tasks whose transactions own them, and the tasks.
// kept: modes and owners are two arrays: a sheet gives all modes, and a commit or an undo goes over all owners; only a write
// looks at both of one cell.
#[derive(Clone, Copy)]
pub struct Board {
    pub modes: [Mode; 64],
    pub owners: [Option<u8>; 64],
    pub rows: [Row; 16],
}

// Some task would be owed over 255 calls.
#[derive(Clone, Copy, Debug, PartialEq, Eq)]
pub struct Overfull;

impl Board {
    // Whether a transaction is open.
    pub fn is_busy(&self) -> bool
        ensures { result ≡ busy self.now }
    {
        self.rows
            .iter()
            .any(|row| matches!(row.state, TaskState::Inside { .. }))
    }

    // Whether some task is not idle.
    pub fn is_at_work(&self) -> bool
        ensures { result ≡ at_work self.now }
    {
        self.rows
            .iter()
            .any(|row| !matches!(row.state, TaskState::Idle))
    }

    // The calls that each task is owed.
    pub fn owed(&self) -> [u8; 16]
        ensures { result ≡ tabulated (λ t. (row_at self.now t).owed) 16 }
    {
        array::from_fn(|t| self.rows[t].owed)
    }

    // Whether with these counts some task would be owed over 255 calls.
    fn is_overfull(&self, counts: &[u8; 16]) -> bool
        ensures { result ≡ overfull counts.now self.now }
    {
        self.rows
            .iter()
            .zip(counts)
            .any(|(row, &count)| row.owed.checked_add(count).is_none())
    }

    fn add_owed(&mut self, counts: &[u8; 16])
        requires { overfull counts.now self.old ≡ false }
        ensures { self.new ≡ with_rows self.old (delivered counts.now self.old.rows 16) }
    {
        // kept: the rows by index: no clause says what a zip of `iter_mut` leaves, and an array made anew would copy all rows.
        for (u, &count) in counts.iter().enumerate() {
            self.rows[u].owed += count;
        }
    }

    // Each task is owed as many calls more as the counts say; nothing is done if that were over 255 for one.
    pub fn deliver(&mut self, counts: &[u8; 16]) -> Result<(), Overfull>
        ensures room { is_ok result ≡ not (overfull counts.now self.old) }
        ensures board { self.new ≡ (if overfull counts.now self.old then self.old else with_rows self.old (delivered counts.now self.old.rows 16)) }
    {
        if self.is_overfull(counts) {
            return Err(Overfull);
        }
        self.add_owed(counts);
        Ok(())
    }

    // Which cells t owns.
    pub fn owned_by(&self, t: usize) -> [bool; 64]
        ensures { result ≡ owned t self.now.owners 64 }
    {
        array::from_fn(|c| is_task(self.owners[c], t))
    }

    // The cells that t owns have no owner any more.
    pub fn release(&mut self, t: usize)
        ensures { self.new ≡ with_owners self.old (released t self.old.owners 64) }
    {
        for owner in self.owners.iter_mut() {
            if is_task(*owner, t) {
                *owner = None;
            }
        }
    }
}

// Whether the owner is task t.
fn is_task(owner: Option<u8>, t: usize) -> bool
    ensures { result ≡ mine t owner }
{
    owner.is_some_and(|u| usize::from(u) == t)
}

fn idle(owed: u8) -> Row
    ensures { result ≡ idle_row owed }
{
    Row {
        owed,
        state: TaskState::Idle,
        own: [0; 16],
    }
}

// Idle tasks that are owed so many calls; the rest of the 16 are owed none.
pub fn rows_of(owed: &[u8]) -> [Row; 16]
    ensures { result ≡ laid idle_row 0 owed.now (replicate 16 (idle_row 0)) }
{
    array::from_fn(|t| idle(owed.get(t).copied().unwrap_or(0)))
}
