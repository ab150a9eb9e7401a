// The book of a station: who has read what, and who may still commit.
#![tactic(auto)]

ghost use Rattle.std.specs.Prelude.{◌≡◌, ℕ, false, slice_index_or};
ghost use Rattle.book.specs.Seen.{Seen, begun, noting, finished, rested, stale_of, left_at, Lines, spending, full};

pub mod counts;
pub mod marks;
pub mod worked;

// A station's conflict tracker. It tells which tasks read a cell that another task has committed
// since, and so may not commit. `seen` is what it knows, and each call fixes that; `left` is how
// many commits each cell can still count before the book must rest, and is only bounded.
// A call with a task or a cell that no station has does nothing.
pub trait Book: Drop {
    ghost seen: { Self → Seen };

    ghost left: { Self → ℕ → ℕ };

    // Task t starts anew: it has noted nothing and is not stale.
    fn begin(&mut self, t: usize)
        ensures notes { seen self.new ≡ begun t (seen self.old) }
        ensures spare { left self.new ≡ left self.old };

    // Task t read cell c, which another task holds or not.
    fn note(&mut self, t: usize, c: usize, held: bool)
        ensures notes { seen self.new ≡ noting t c held (seen self.old) }
        ensures spare { left self.new ≡ left self.old };

    // Task t committed these cells.
    fn finish(&mut self, t: usize, cells: &[bool; 64])
        ensures notes { seen self.new ≡ finished t (λ c. slice_index_or cells.now c false) (seen self.old) }
        ensures spare { Lines (spending t (λ c. slice_index_or cells.now c false)) (left self.old) (left self.new) };

    // Task t gave up.
    fn forget(&mut self, t: usize)
        ensures notes { seen self.new ≡ begun t (seen self.old) }
        ensures spare { left self.new ≡ left self.old }
    {
        self.begin(t)
    }

    // Nobody is under way.
    fn rest(&mut self)
        ensures notes { seen self.new ≡ rested }
        ensures spare { Lines full (left self.old) (left self.new) };

    // Whether task t is stale.
    fn is_stale(&self, t: usize) -> bool
        ensures { result ≡ stale_of t (seen self.now) };

    // How many commits cell c has left.
    fn left_of(&self, c: usize) -> u8
        ensures { result ≡ left_at c (left self.now) };
}
