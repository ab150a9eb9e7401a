ghost use Rattle.std.specs.Prelude.{◌≡◌, ◌≤◌, IfOk, Ok, Err, MatchResult};
ghost use Rattle.sheet.specs.Content.{nothing};
ghost use Rattle.sheet.specs.Laws.{WritesBack};
ghost use Rattle.sheet.specs.Reading.{settled, read_text};
ghost use Rattle.sheet.specs.Sheets.{Answers, content};

use super::Sheet;
use super::ends::{open_task, stray_target};
use crate::filled::Filled;
use crate::parts::{Cell, LineFault, Refusal};
use program::{Mode, Program};
use text::split_once;
use value::Kind;

impl<K: Kind> Sheet<K> {
    // The sheet with no line.
    pub fn new() -> Sheet<K>
        ensures { content result ≡ nothing }
    {
        let zero = K::ZERO;
        let cell = Cell {
            mode: Mode::Protected,
            value: zero,
        };
        Sheet {
            cells: Filled::of([cell; 64], 0),
            consts: Filled::of([zero; 64], 0),
            owed: [0; 16],
            program: Program::new(),
        }
    }

    // What is looked at after the last line.
    fn settle(&self) -> Result<(), Refusal>
        ensures { Answers result (settled (content self.now)) (content self.now) }
    {
        let first = self.cells.len() + self.consts.len() + 1;
        if let Some(line) = open_task(&self.program, first) {
            return Err(Refusal::OpenTask { line });
        }
        if let Some(line) = stray_target(&self.program, first) {
            return Err(Refusal::StrayTarget { line });
        }
        Ok(())
    }

    // Takes line after line, and looks at the whole after the last.
    fn take_text(text: &[u8]) -> Result<Sheet<K>, Refusal>
        ensures { MatchResult result (λ s. read_text K.Kind.reads text.now ≡ Ok (content s)) (λ e. read_text K.Kind.reads text.now ≡ Err e) }
    {
        if text.len() > 65536 {
            return Err(Refusal::TooLong);
        }
        let mut sheet = Sheet::<K>::new();
        let mut rest = text;
        let mut line = 1;
        while let Some((first, after)) = split_once(b'\n', rest) {
            sheet
                .take_line(first)
                .map_err(|fault| Refusal::Line { fault, line })?;
            rest = after;
            line += 1;
        }
        if !rest.is_empty() {
            return Err(Refusal::Line {
                fault: LineFault::BadForm,
                line,
            });
        }
        sheet.settle()?;
        Ok(sheet)
    }

    // The sheet that the bytes write, or what is wrong with them and where. What is read writes back to the same bytes.
    pub fn read(text: &[u8]) -> Result<Sheet<K>, Refusal>
        ensures value { MatchResult result (λ s. read_text K.Kind.reads text.now ≡ Ok (content s)) (λ e. read_text K.Kind.reads text.now ≡ Err e) }
        ensures back { IfOk result (λ s. WritesBack K.Kind.form text.now (content s)) }
    {
        Sheet::take_text(text)
    }
}
