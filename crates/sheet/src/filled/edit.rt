ghost use Rattle.std.specs.Prelude.{◌≡◌, ◌≤◌, [], ◌∷◌, ◌++◌, length, take, if◌then◌else◌, is_ok, nat_lt};
ghost use Rattle.sheet.specs.Filled.{held};

use super::Filled;
use program::Full;

impl<T: Copy, const N: usize> Filled<T, N> {
    // The first `len` of these, or all.
    pub(crate) fn of(items: [T; N], len: usize) -> Filled<T, N>
        ensures { held result ≡ take len items }
    {
        Filled {
            items,
            len: len.min(N),
        }
    }

    // One more, where there is room.
    pub(crate) fn push(&mut self, item: T) -> Result<(), Full>
        ensures value { is_ok result ≡ nat_lt (length (held self.old)) N }
        ensures after { held self.new ≡ (if is_ok result then held self.old ++ (item ∷ []) else held self.old) }
    {
        let n = self.len;
        if n >= N {
            return Err(Full);
        }
        self.items[n] = item;
        self.len = n + 1;
        Ok(())
    }

    pub(crate) fn len(&self) -> usize
        ensures value { result ≡ length (held self.now) }
        ensures bound { result ≤ N }
    {
        self.len
    }

    pub(crate) fn as_slice(&self) -> &[T]
        ensures value { result.now ≡ held self.now }
        ensures bound { length result.now ≤ N }
    {
        &self.items[..self.len]
    }
}
