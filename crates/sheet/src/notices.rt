ghost use Rattle.std.specs.Prelude.{◌≡◌, Some};
ghost use Rattle.sheet.specs.Refusals.{notice, told as notice_of, notice_text};

use crate::parts::{Notice, Refusal};
use std::fmt;

impl Notice {
    fn of(layer: u8, number: u8, first: usize) -> Notice
        ensures { result ≡ notice number layer first 0 0 }
    {
        Notice {
            number,
            layer,
            first,
            second: 0,
            cause: 0,
        }
    }

    fn on_sheet(number: u8, line: usize) -> Notice
        ensures { result ≡ notice number 1 line 0 0 }
    {
        Notice::of(1, number, line)
    }

    // A notice of the station, with one place.
    pub fn on_station(number: u8, first: usize) -> Notice
        ensures { result ≡ notice number 2 first 0 0 }
    {
        Notice::of(2, number, first)
    }
}

impl Refusal {
    // What the refusal tells people.
    pub fn told(self) -> Notice
        ensures { result ≡ notice_of self }
    {
        match self {
            Refusal::TooLong => Notice::on_sheet(2, 0),
            Refusal::Line { fault, line } => Notice::on_sheet(fault as u8, line),
            Refusal::OpenTask { line } => Notice::on_sheet(6, line),
            Refusal::StrayTarget { line } => Notice::on_sheet(7, line),
            Refusal::Unlawful => Notice::on_station(8, 0),
            Refusal::OutputShort => Notice::on_station(26, 0),
        }
    }
}

// `(no N LAYER PLACE PLACE CAUSE)`
impl fmt::Display for Notice {
    ghost output = { λ n. Some (notice_text n) };

    fn fmt<W: fmt::Write>(&self, f: &mut fmt::Formatter<W>) -> fmt::Result {
        let number = self.number;
        let layer = self.layer;
        let first = self.first;
        let second = self.second;
        let cause = self.cause;
        write!(f, "(no {number} {layer} {first} {second} {cause})")
    }
}
