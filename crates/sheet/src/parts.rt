ghost use Rattle.std.specs.Prelude.{◌≡◌};
ghost use Rattle.sheet.specs.declared.parts.LineFault.TheVariants.{TooMany};
ghost use Rattle.sheet.specs.Lines.{line_fault};

use program::{Full, Mode};
use value::Fault;

// A cell: which side it is on, and its value.
#[derive(Clone, Copy)]
pub struct Cell<K> {
    pub mode: Mode,
    pub value: K,
}

// Why a line is refused, by the number that its notice has.
#[derive(Clone, Copy)]
pub enum LineFault {
    BadForm = 3,
    PastBound = 4,
    TooMany = 5,
}

impl From<Fault> for LineFault {
    ghost from_gives = { λ f r. r ≡ line_fault f };

    fn from(fault: Fault) -> LineFault {
        match fault {
            Fault::Form => LineFault::BadForm,
            Fault::Bound => LineFault::PastBound,
        }
    }
}

impl From<Full> for LineFault {
    ghost from_gives = { λ _ r. r ≡ TooMany };

    fn from(_full: Full) -> LineFault {
        LineFault::TooMany
    }
}

// What a refusal tells: its number, the layer that it comes from, two places and a cause.
// kept: numbers, since a notice is what is printed; what is refused and why are enums.
#[derive(Clone, Copy)]
pub struct Notice {
    pub number: u8,
    pub layer: u8,
    pub first: usize,
    pub second: usize,
    pub cause: u8,
}

// Why a sheet is not read, or not written.
#[derive(Clone, Copy)]
pub enum Refusal {
    TooLong,
    Line { fault: LineFault, line: usize },
    OpenTask { line: usize },
    StrayTarget { line: usize },
    Unlawful,
    OutputShort,
}
