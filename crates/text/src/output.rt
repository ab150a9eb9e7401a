ghost use Rattle.std.specs.Prelude.{◌≡◌, ◌≤◌, length};

mod edit;

// One line of output: up to 32 bytes, which is more than any line of a sheet has.
// kept: a buffer with a length: `Line` is public and `Copy`, and an `ArrayVec` is not.
#[derive(Clone, Copy)]
pub struct Line {
    bytes: [u8; 32],
    len: usize,
    ghost ok: { (len ≤ 32) × (length bytes ≡ 32) },
}
