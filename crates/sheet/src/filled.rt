ghost use Rattle.std.specs.Prelude.{◌≡◌, ◌≤◌, length};

mod edit;

// The first places of N, as many as are filled.
// kept: no `ArrayVec`: it would ask a `Default` of its items, and so of every kind, whose values are constants as they stand.
#[derive(Drop)]
pub(crate) struct Filled<T, const N: usize> {
    pub(crate) items: [T; N],
    len: usize,
    ghost sizes: { (length items ≡ N) × (len ≤ N) },
}
