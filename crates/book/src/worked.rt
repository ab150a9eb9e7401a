// A worked case, proved for every book from the interface alone.
ghost use Rattle.std.specs.Prelude.{◌≡◌, ℕ, ◌<◌, ◌≤◌, false, ◌==◌, nat_eq, slice_index_or};
ghost use Rattle.book.specs.Seen.{stale_of, begun, noting, finished, rested};

use crate::Book;
use std::array;

// The answer of `is_stale` for each task of a station.
pub fn stale_flags<B: Book>(book: &B) -> [bool; 16]
    ensures { (t : ℕ) → slice_index_or result t false ≡ stale_of t (B.seen book.now) }
{
    array::from_fn(|t| book.is_stale(t))
}

// Task 2 notes cell 5, and task 3 finishes with cell 5: then task 2 is stale, and nobody else is.
pub fn caught<B: Book>(book: &mut B) -> [bool; 16]
    ensures flags { (t : ℕ) → slice_index_or result t false ≡ (t == 2) }
    ensures notes { B.seen book.new ≡ finished 3 (λ c. nat_eq c 5) (noting 2 5 false (begun 2 rested)) }
    ensures spare { (c : ℕ) → c < 64 → 199 ≤ B.left book.new c }
{
    let mut cells = [false; 64];
    cells[5] = true;
    book.rest();
    book.begin(2);
    book.note(2, 5, false);
    book.finish(3, &cells);
    stale_flags(book)
}
