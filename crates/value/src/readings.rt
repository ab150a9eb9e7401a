ghost use Rattle.std.specs.Prelude.{◌≡◌, [], ◌∷◌, refl};
ghost use Rattle.text.specs.Line.{spelt};
ghost use Rattle.value.specs.Readings.{reading_zero, reading_truth, reading_outcome, reading_form, reading_reads, bearings};
ghost use Rattle.value.specs.Answers.{apart_by};
ghost use Rattle.value.specs.Forms.{lone};
ghost use Rattle.value.specs.ReadingKindLemmas;

use crate::bearings::{is_on_circle, read_bearing, spell_bearing, turn_back, turn_on};
use crate::codes::{Cause, Fault, Operation};
use crate::forms::{is_blank, part_after, read_integer, spell_integer};
use crate::integers::combine;
use crate::kinds::Kind;
use text::{Line, Token};

// What an instrument gave: nothing, a count, or a bearing in degrees.
#[derive(Clone, Copy, PartialEq, Debug)]
pub enum Reading {
    Blank,
    Count(i32),
    Bearing(f32),
}

// What the operation gives for two bearings.
fn combine_bearings(op: Operation, a: f32, b: f32) -> Result<Reading, Cause>
    ensures { result ≡ bearings op a b }
{
    match op {
        Operation::Quotient => Err(Cause::Mixed),
        _ if !(is_on_circle(a) && is_on_circle(b)) => Err(Cause::OutOfRange),
        Operation::Sum => Ok(Reading::Bearing(turn_on(a, b))),
        Operation::Difference => Ok(Reading::Bearing(turn_back(a, b))),
        // kept: the first of 0 and minus zero, between which `min` leaves the choice open
        Operation::Smaller => Ok(Reading::Bearing(if a <= b { a } else { b })),
        Operation::Equal => Ok(Reading::Count(i32::from(a == b))),
        Operation::Less => Ok(Reading::Count(i32::from(a < b))),
    }
}

// `(e)`.
fn spell_blank() -> Line
    ensures { spelt result ≡ 40 ∷ 101 ∷ 41 ∷ [] }
{
    let mut line = Line::new();
    line.extend(b"(e)");
    line
}

impl Kind for Reading {
    const ZERO: Reading = Reading::Blank;

    ghost ZERO = { reading_zero };

    ghost truth = { reading_truth };

    ghost outcome = { reading_outcome };

    ghost form = { reading_form };

    ghost reads = { reading_reads };

    ghost short = { λ v bs e. ReadingKindLemmas.short v bs e };

    ghost bracketed = { λ v bs e. ReadingKindLemmas.bracketed v bs e };

    ghost apart = { λ v w bs e f. apart_by reading_reads bs v w (ReadingKindLemmas.back v bs e) (ReadingKindLemmas.back w bs f) };

    ghost back = { λ v bs e. ReadingKindLemmas.back v bs e };

    ghost there = { λ v ts e. ReadingKindLemmas.there v ts (lone 101 ts) refl e };

    fn is_true(self) -> bool {
        !matches!(self, Reading::Blank | Reading::Count(0))
    }

    fn apply(op: Operation, a: Reading, b: Reading) -> Result<Reading, Cause> {
        match (a, b) {
            (Reading::Blank, _) | (_, Reading::Blank) => Err(Cause::Blank),
            (Reading::Count(x), Reading::Count(y)) => Ok(Reading::Count(combine(op, x, y)?)),
            (Reading::Bearing(x), Reading::Bearing(y)) => combine_bearings(op, x, y),
            _ => Err(Cause::Mixed),
        }
    }

    fn read(tokens: &[Token]) -> Result<Reading, Fault> {
        if is_blank(tokens) {
            return Ok(Reading::Blank);
        }
        if let Some(part) = part_after(b'n', tokens) {
            return Ok(Reading::Count(read_integer(part)?));
        }
        if let Some(part) = part_after(b'a', tokens) {
            return Ok(Reading::Bearing(read_bearing(part)?));
        }
        Err(Fault::Form)
    }

    fn spell(self) -> Option<Line> {
        match self {
            Reading::Blank => Some(spell_blank()),
            Reading::Count(n) => Some(spell_integer(n)),
            Reading::Bearing(x) => spell_bearing(x),
        }
    }
}
