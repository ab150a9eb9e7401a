ghost use Rattle.value.specs.Wholes.{whole_zero, whole_truth, whole_outcome, whole_form, whole_reads};
ghost use Rattle.value.specs.Answers.{apart_by};
ghost use Rattle.value.specs.WholeKindLemmas;
ghost use Rattle.std.specs.Prelude.{refl};
ghost use Rattle.value.specs.Forms.{tagged_part};

use crate::codes::{Cause, Fault, Operation};
use crate::forms::{part_after, read_integer, spell_integer};
use crate::integers::combine;
use crate::kinds::Kind;
use text::{Line, Token};

// A whole number of 32 bits with a sign.
#[derive(Clone, Copy, PartialEq, Eq, Debug)]
pub struct Whole {
    pub value: i32,
}

impl Kind for Whole {
    const ZERO: Whole = Whole { value: 0 };

    ghost ZERO = { whole_zero };

    ghost truth = { whole_truth };

    ghost outcome = { whole_outcome };

    ghost form = { whole_form };

    ghost reads = { whole_reads };

    ghost short = { λ v bs e. WholeKindLemmas.short v bs e };

    ghost bracketed = { λ v bs e. WholeKindLemmas.bracketed v bs e };

    ghost apart = { λ v w bs e f. apart_by whole_reads bs v w (WholeKindLemmas.back v bs e) (WholeKindLemmas.back w bs f) };

    ghost back = { λ v bs e. WholeKindLemmas.back v bs e };

    ghost there = { λ v ts e. WholeKindLemmas.there v ts (tagged_part 110 ts) refl e };

    fn is_true(self) -> bool {
        self.value != 0
    }

    fn apply(op: Operation, a: Whole, b: Whole) -> Result<Whole, Cause> {
        let value = combine(op, a.value, b.value)?;
        Ok(Whole { value })
    }

    fn read(tokens: &[Token]) -> Result<Whole, Fault> {
        let part = part_after(b'n', tokens).ok_or(Fault::Form)?;
        let value = read_integer(part)?;
        Ok(Whole { value })
    }

    fn spell(self) -> Option<Line> {
        Some(spell_integer(self.value))
    }
}
