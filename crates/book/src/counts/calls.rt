// What counts do at each call.
ghost use Rattle.std.specs.Prelude.{◌≡◌, ℕ, slice_index};
ghost use Rattle.book.specs.Seen.{rested};
ghost use Rattle.book.specs.Counted.{risen, counted, remaining};

use super::Counts;
use super::tasks::{Task, flag_worn};
use crate::Book;
use std::array;

impl Counts {
    // Nothing is noted, nobody is stale, and every cell has 255 left.
    pub fn new() -> Counts
        ensures notes { counted result ≡ rested }
        ensures spare { (c : ℕ) → remaining result c ≡ 255 }
    {
        Counts {
            tasks: [Task::begun(); 16],
            commits: [0; 64],
        }
    }
}

// Counts a commit of each of these cells.
fn count_all(commits: &mut [u8; 64], cells: &[bool; 64])
    ensures { (c : ℕ) → slice_index commits.new c ≡ risen cells.now commits.old c }
{
    *commits = array::from_fn(|c| commits[c].saturating_add(u8::from(cells[c])));
}

impl Book for Counts {
    ghost seen = { counted };

    ghost left = { remaining };

    // kept: `t < 16` and no `get_mut`, as in `marks`.
    fn begin(&mut self, t: usize) {
        if t < 16 {
            self.tasks[t] = Task::begun();
        }
    }

    fn note(&mut self, t: usize, c: usize, held: bool) {
        if t < 16 && c < 64 {
            self.tasks[t].note(c, self.commits[c], held);
        }
    }

    fn finish(&mut self, t: usize, cells: &[bool; 64]) {
        if t < 16 {
            flag_worn(&mut self.tasks, cells, &self.commits);
            count_all(&mut self.commits, cells);
            self.forget(t);
        }
    }

    fn rest(&mut self) {
        *self = Counts::new();
    }

    fn is_stale(&self, t: usize) -> bool {
        self.tasks
            .get(t)
            .is_some_and(|task| task.is_stale(&self.commits))
    }

    fn left_of(&self, c: usize) -> u8 {
        self.commits.get(c).map_or(0, |count| 255 - count)
    }
}
