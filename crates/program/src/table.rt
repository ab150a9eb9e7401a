ghost use Rattle.std.specs.Prelude.{◌≡◌, ℕ, ◌<◌, ◌≤◌, length, take, sum, slice_index};
ghost use Rattle.program.specs.Spans.{firsts, lens};

use crate::Op;

mod edit;
mod look;

// Where a task's operations stand in the table.
#[derive(Clone, Copy)]
struct Span {
    first: u16,
    len: u16,
}

// There is no room for what was to be added.
#[derive(Clone, Copy, PartialEq, Eq, Debug)]
pub struct Full;

// The operations of at most 16 tasks, 1,024 in all, task after task.
// kept: `ops` with `used`, and `spans` with `count`: one plain inner table is a rule of the project, and a program is public and `Copy`.
#[derive(Clone, Copy)]
pub struct Program {
    ops: [Op; 1024],
    used: usize,
    spans: [Span; 16],
    count: usize,
    ghost sizes: { (length ops ≡ 1024) × (length spans ≡ 16) × (count ≤ 16) × (used ≤ 1024) },
    ghost filled: { sum (take count (lens spans)) ≡ used },
    ghost placed: { (t : ℕ) → t < count → slice_index (firsts spans) t ≡ sum (take t (lens spans)) },
}
