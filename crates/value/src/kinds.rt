ghost use Rattle.std.specs.Prelude.{◌≡◌, ℕ, ◌≤◌, Bool, List, map, length, Some, Ok, Option, Result};
ghost use Rattle.std.specs.List.{flat_map};
ghost use Rattle.std.specs.Option.{option_map};
ghost use Rattle.text.specs.Line.{spelt};
ghost use Rattle.text.specs.Tokens.{Tok, seen, text, lexed};
ghost use Rattle.value.specs.Forms.{Bracketed};
ghost use Rattle.value.specs.declared.codes.Cause.{Cause};
ghost use Rattle.value.specs.declared.codes.Fault.{Fault};
ghost use Rattle.value.specs.declared.codes.Operation.{Operation};

use crate::codes::{Cause, Fault, Operation};
use text::{Line, Token};

// A kind of value. Its ghost members are its meaning, which its constant and its functions give.
pub trait Kind: Copy + Drop {
    // the value of registers and cells that nothing was put in
    const ZERO: Self;

    ghost ZERO: { Self };

    ghost truth: { Self → Bool };

    // the value or the cause that an operation gives
    ghost outcome: { Operation → Self → Self → Result Self Cause };

    // the bytes of a value that a sheet may hold
    ghost form: { Self → Option (List ℕ) };

    // what the tokens of a value's place are read as
    ghost reads: { List Tok → Result Self Fault };

    fn is_true(self) -> bool
        ensures { result ≡ truth self };

    fn apply(op: Operation, a: Self, b: Self) -> Result<Self, Cause>
        ensures { result ≡ outcome op a b };

    // What the tokens of a value's place are read as.
    fn read(tokens: &[Token]) -> Result<Self, Fault>
        ensures { result ≡ reads (map seen tokens.now) };

    // The value's form, if a sheet may hold the value.
    fn spell(self) -> Option<Line>
        ensures { option_map spelt result ≡ form self };

    ghost short: { (v : Self) (bs : List ℕ) → form v ≡ Some bs → length bs ≤ 16 };

    ghost bracketed: { (v : Self) (bs : List ℕ) → form v ≡ Some bs → Bracketed bs };

    // no two values have one form
    ghost apart: { (v w : Self) (bs : List ℕ) → form v ≡ Some bs → form w ≡ Some bs → v ≡ w };

    // a value's form is read as the value
    ghost back: { (v : Self) (bs : List ℕ) → form v ≡ Some bs → reads (lexed bs) ≡ Ok v };

    // nothing else is read as it
    ghost there: { (v : Self) (ts : List Tok) → reads ts ≡ Ok v → form v ≡ Some (flat_map text ts) };
}
