ghost use Rattle.std.specs.Prelude.{◌≡◌, length, take, IfOk};
ghost use Rattle.sheet.specs.Laws.{ReadsBack};
ghost use Rattle.sheet.specs.Output.{over};
ghost use Rattle.sheet.specs.Sheets.{content};
ghost use Rattle.sheet.specs.Writing.{lawful, written, write_answer, write_out};

use super::Sheet;
use crate::lines_out::const_line;
use crate::output::Out;
use crate::parts::{Cell, Refusal};
use value::Kind;

impl<K: Kind> Sheet<K> {
    // The cells, in order.
    pub fn cells(&self) -> &[Cell<K>]
        ensures { result.now ≡ (content self.now).cells }
    {
        self.cells.as_slice()
    }

    // The constants, in order.
    pub fn consts(&self) -> &[K]
        ensures { result.now ≡ (content self.now).consts }
    {
        self.consts.as_slice()
    }

    // Each value is one that a sheet may hold.
    fn is_lawful(&self) -> bool
        ensures { result ≡ lawful K.Kind.form (content self.now) }
    {
        self.cells().iter().all(|c| c.value.spell().is_some())
            && self.consts().iter().all(|v| v.spell().is_some())
    }

    // Writes all lines from the start on, as far as the output goes, and gives how long they are.
    fn put_all(&self, out: &mut [u8]) -> usize
        ensures text { out.new ≡ over 0 (written K.Kind.form (content self.now)) out.old }
        ensures end { result ≡ length (written K.Kind.form (content self.now)) }
    {
        let mut out = Out { bytes: out, end: 0 };
        out.put_lines(self.cells(), |c| c.line());
        out.put_lines(self.consts(), const_line);
        out.put_tasks(&self.owed, &self.program);
        out.end
    }

    // Looks at all values and at the length first, so that a refusal leaves no trace.
    fn put_sheet(&self, out: &mut [u8]) -> Result<usize, Refusal>
        ensures answer { result ≡ write_answer K.Kind.form (content self.now) out.old }
        ensures text { out.new ≡ write_out K.Kind.form (content self.now) out.old }
    {
        if !self.is_lawful() {
            return Err(Refusal::Unlawful);
        }
        let mut none = [0u8; 0];
        if self.put_all(&mut none) > out.len() {
            return Err(Refusal::OutputShort);
        }
        Ok(self.put_all(out))
    }

    // Writes the sheet, and gives its length; later output stays, and a refusal leaves all of it. What is written reads back.
    pub fn write(&self, out: &mut [u8]) -> Result<usize, Refusal>
        ensures answer { result ≡ write_answer K.Kind.form (content self.now) out.old }
        ensures text { out.new ≡ write_out K.Kind.form (content self.now) out.old }
        ensures back { IfOk result (λ n. ReadsBack K.Kind.reads (content self.now) (take n out.new)) }
    {
        self.put_sheet(out)
    }
}
