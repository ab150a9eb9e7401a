// Marks: a book that keeps the readers of each cell.
ghost use Rattle.std.specs.Prelude.{◌≡◌, ℕ, ◌<◌, true, false, ◌||◌, get_or, if◌then◌else◌, nat_eq, slice_index_or};
ghost use Rattle.book.specs.Seen.{meets, rested};
ghost use Rattle.book.specs.Marked.{reads, marked, always};

use crate::Book;
use std::array;

// A finish makes the readers of its cells stale at once, so nothing is ever counted.
#[derive(Drop)]
pub struct Marks {
    // For each cell the tasks that noted it.
    readers: [[bool; 16]; 64],
    stale: [bool; 16],
}

impl Marks {
    // Nothing is noted, nobody is stale, and every cell has 255 left.
    pub fn new() -> Marks
        ensures notes { marked result ≡ rested }
        ensures spare { (c : ℕ) → always result c ≡ 255 }
    {
        Marks {
            readers: [[false; 16]; 64],
            stale: [false; 16],
        }
    }
}

// Takes task t from the readers of every cell.
fn strike(readers: &mut [[bool; 16]; 64], t: usize)
    requires { t < 16 }
    ensures { (u c : ℕ) → reads readers.new u c ≡ (if nat_eq u t then false else reads readers.old u c) }
{
    for row in readers.iter_mut() {
        row[t] = false;
    }
}

// Adds task t to the readers of a cell.
fn enlist(row: &mut [bool; 16], t: usize)
    requires { t < 16 }
    ensures { (u : ℕ) → slice_index_or row.new u false ≡ (if nat_eq u t then true else slice_index_or row.old u false) }
{
    row[t] = true;
}

// Makes the readers of one cell stale.
fn taint(stale: &mut [bool; 16], row: &[bool; 16])
    ensures { (u : ℕ) → slice_index_or stale.new u false ≡ (slice_index_or stale.old u false || slice_index_or row.now u false) }
{
    *stale = array::from_fn(|u| stale[u] | row[u]);
}

// Makes the readers of each of the cells stale.
// kept: a loop of its own beside that of counts, which goes over counts and tasks: a shared one would take two closures.
fn taint_all(stale: &mut [bool; 16], readers: &[[bool; 16]; 64], cells: &[bool; 64])
    ensures { (u : ℕ) → slice_index_or stale.new u false ≡ (slice_index_or stale.old u false || meets (reads readers.now u) (λ c. get_or cells.now c false)) }
{
    for (row, &hit) in readers.iter().zip(cells) {
        if hit {
            taint(stale, row);
        }
    }
}

impl Book for Marks {
    ghost seen = { marked };

    ghost left = { always };

    // kept: `t < 16` and no `get_mut`: no clause says what an array holds after a write through it.
    fn begin(&mut self, t: usize) {
        if t < 16 {
            strike(&mut self.readers, t);
            self.stale[t] = false;
        }
    }

    fn note(&mut self, t: usize, c: usize, held: bool) {
        if t < 16 && c < 64 {
            enlist(&mut self.readers[c], t);
            self.stale[t] |= held;
        }
    }

    fn finish(&mut self, t: usize, cells: &[bool; 64]) {
        if t < 16 {
            taint_all(&mut self.stale, &self.readers, cells);
            self.forget(t);
        }
    }

    fn rest(&mut self) {
        *self = Marks::new();
    }

    fn is_stale(&self, t: usize) -> bool {
        self.stale.get(t).is_some_and(|&stale| stale)
    }

    fn left_of(&self, c: usize) -> u8 {
        if c < 64 { 255 } else { 0 }
    }
}
