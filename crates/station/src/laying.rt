// A sheet's cells and constants are laid into a slice and a board.
ghost use Rattle.std.specs.Prelude.{◌≡◌, ◌≤◌, length};
ghost use Rattle.std.specs.Fn.{FnReturnsAt};
ghost use Rattle.board.specs.Laying.{blanked, laid};

use engine::PLACES;
use value::Kind;

// All 320 places become the kind's zero.
pub(crate) fn blank<K: Kind>(slice: &mut [K])
    requires { 320 ≤ length slice.old }
    ensures { slice.new ≡ blanked K.ZERO slice.old 320 }
{
    slice[..PLACES].copy_from_slice(&[K::ZERO; PLACES]);
}

// What `f` makes of each item is laid from a place on; what would fall past the end falls away.
// kept: `out` by index: no clause says what a zip of `iter_mut` leaves.
pub(crate) fn lay<T, U, F: Fn(&T) -> U>(out: &mut [U], start: usize, items: &[T], f: F)
where
    U: Drop,
    F: Drop,
    requires { F.IsAlwaysCallable f }
    ensures { (g : T → U) → ((x : T) (y : U) → FnReturnsAt F.Fn f x y → y ≡ g x) → out.new ≡ laid g start items.now out.old }
{
    let room = out.len().saturating_sub(start);
    for (i, item) in items.iter().enumerate() {
        if i < room {
            out[start + i] = f(item);
        }
    }
}
