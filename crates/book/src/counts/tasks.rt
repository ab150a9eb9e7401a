// What counts keep of each task.
ghost use Rattle.std.specs.Prelude.{◌≡◌, ℕ, ◌<◌, ◌||◌, is_some, Some, None, if◌then◌else◌, not, nat_eq, ◌&&◌, slice_index_or};
ghost use Rattle.book.specs.Tasks.{fresh, task_at, first_note, flagging};
ghost use Rattle.book.specs.Counted.{moved, outdated, worn};

#[derive(Clone, Copy)]
pub(super) struct Task {
    // It read a cell that another held, or a cell that it noted was committed with none left.
    pub(super) flag: bool,
    // The count of each cell that it noted, when it first noted it.
    pub(super) first: [Option<u8>; 64],
}

impl Task {
    // It has noted nothing.
    pub(super) fn begun() -> Task
        ensures { result ≡ fresh }
    {
        Task {
            flag: false,
            first: [None; 64],
        }
    }

    // Keeps the count of a cell that is noted for the first time; the flag is set if another holds it.
    pub(super) fn note(&mut self, c: usize, count: u8, held: bool)
        requires { c < 64 }
        ensures flag { self.new.flag ≡ (self.old.flag || held) }
        ensures first { (d : ℕ) → slice_index_or self.new.first d None ≡ (if nat_eq d c && not (is_some (slice_index_or self.old.first c None)) then Some count else slice_index_or self.old.first d None) }
    {
        self.first[c].get_or_insert(count);
        self.flag |= held;
    }

    // Whether the flag is set, or some noted cell has another count than when it was first noted.
    pub(super) fn is_stale(&self, commits: &[u8; 64]) -> bool
        ensures { result ≡ (self.now.flag || outdated self.now.first commits.now) }
    {
        self.flag
            || self
                .first
                .iter()
                .zip(commits)
                .any(|(&first, &count)| has_moved(first, count))
    }
}

// Whether a cell has another count than when it was first noted.
fn has_moved(first: Option<u8>, count: u8) -> bool
    ensures { result ≡ moved first count }
{
    first.is_some_and(|then| then != count)
}

// Flags every task that noted cell c.
fn flag_readers(tasks: &mut [Task; 16], c: usize)
    requires { c < 64 }
    ensures { (u : ℕ) → task_at tasks.new u ≡ flagging (is_some (first_note tasks.old u c)) (task_at tasks.old u) }
{
    for task in tasks.iter_mut() {
        task.flag |= task.first[c].is_some();
    }
}

// Flags every task that noted one of these cells where it can count no further.
pub(super) fn flag_worn(tasks: &mut [Task; 16], cells: &[bool; 64], commits: &[u8; 64])
    ensures { (u : ℕ) → task_at tasks.new u ≡ flagging (worn (task_at tasks.old u).first cells.now commits.now) (task_at tasks.old u) }
{
    for (c, &count) in commits.iter().enumerate() {
        if cells[c] && count == 255 {
            flag_readers(tasks, c);
        }
    }
}
