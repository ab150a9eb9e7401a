// A session's input: a sheet, and after a line `(calls)` the calls to be made.
#![tactic(auto)]

ghost use Rattle.std.specs.Prelude.{◌≡◌, ◌+◌, ◌≤◌, length, IfSome};
ghost use Rattle.text.specs.Cut.{cut};
ghost use Rattle.session.specs.Input.{calls_from};

use text::split_once;

mod calls;

pub use calls::{Call, call_of};

// Where the line `(calls)` begins, and its number.
#[derive(Clone, Copy)]
pub struct CallsLine {
    pub at: usize,
    pub line: usize,
}

// The first line that is `(calls)` and nothing else, ended by a line feed. What stands before it is the sheet.
#[tactic(auto, using(crate::proofs::Lines::found))]
pub fn calls_line(input: &[u8]) -> Option<CallsLine>
    ensures value { result ≡ calls_from 0 1 (cut 10 input.now) }
    ensures within { IfSome result (λ f. (f.at + 8 ≤ length input.now) × (f.line ≤ f.at + 1)) }
{
    let mut at = 0;
    let mut line = 1;
    let mut rest = input;
    while let Some((first, after)) = split_once(b'\n', rest) {
        if first == b"(calls)".as_slice() {
            return Some(CallsLine { at, line });
        }
        at += first.len() + 1;
        line += 1;
        rest = after;
    }
    None
}
