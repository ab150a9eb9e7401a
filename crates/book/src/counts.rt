// Counts: a book that counts the commits of each cell. What it does is in `calls`.
ghost use Rattle.std.specs.Prelude.{◌≡◌, ℕ, ◌≤◌, Some, slice_index};
ghost use Rattle.book.specs.Tasks.{first_note};

mod calls;
mod tasks;

use tasks::Task;

// A task is stale if its flag is set, or if a cell that it noted has been committed since. A count
// stays at 255, where the flag takes over.
#[derive(Drop)]
pub struct Counts {
    tasks: [Task; 16],
    // How often the cell was committed since the book rested.
    commits: [u8; 64],
    // No first note is above the cell's count.
    ghost ok: { (t c n : ℕ) → first_note tasks t c ≡ Some n → n ≤ slice_index commits c },
}
