ghost use Rattle.std.specs.Prelude.{◌≡◌};
ghost use Rattle.text.specs.Number.{numeral};
ghost use Rattle.text.specs.Tokens.{tokens};
ghost use Rattle.sheet.specs.Lines.{cell_in, const_in, task_on, op_in, judged};
ghost use Rattle.sheet.specs.Sheets.{Answers, content};

use super::Sheet;
use crate::operations::op_line;
use crate::parts::{Cell, LineFault};
use program::Mode;
use text::{framed, lex, number};
use value::{Fault, Kind};

// The value in a value's place, by the kind's own reader of its tokens.
fn value_in<K: Kind>(place: &[u8]) -> Result<K, Fault>
    ensures { result ≡ K.Kind.reads (tokens place.now) }
{
    K::read(lex(place).as_slice())
}

impl<K: Kind> Sheet<K> {
    fn take_cell(&mut self, mode: Mode, place: &[u8]) -> Result<(), LineFault>
        ensures { Answers result (cell_in K.Kind.reads (content self.old) mode place.now) (content self.new) }
    {
        if self.consts.len() != 0 || self.program.tasks() != 0 {
            return Err(LineFault::BadForm);
        }
        let value = value_in::<K>(place)?;
        self.cells.push(Cell { mode, value })?;
        Ok(())
    }

    fn take_const(&mut self, place: &[u8]) -> Result<(), LineFault>
        ensures { Answers result (const_in K.Kind.reads (content self.old) place.now) (content self.new) }
    {
        if self.program.tasks() != 0 {
            return Err(LineFault::BadForm);
        }
        let value = value_in::<K>(place)?;
        self.consts.push(value)?;
        Ok(())
    }

    fn take_task(&mut self, part: &[u8]) -> Result<(), LineFault>
        ensures { Answers result (task_on (content self.old) (numeral part.now)) (content self.new) }
    {
        let owed = number(part).ok_or(LineFault::BadForm)?;
        let owed = u8::try_from(owed).map_err(|_| LineFault::PastBound)?;
        let t = self.program.tasks();
        self.program.add_task()?;
        self.owed[t] = owed;
        Ok(())
    }

    // An operation, over the cells and constants given so far.
    fn take_op(&mut self, line: &[u8]) -> Result<(), LineFault>
        ensures { Answers result (op_in (content self.old) line.now) (content self.new) }
    {
        if self.program.tasks() == 0 {
            return Err(LineFault::BadForm);
        }
        let op = op_line(line, self.cells.len(), self.consts.len())?;
        self.program.add_op(op)?;
        Ok(())
    }

    // Adds what the line says.
    // kept: a test for each head: what stands after it goes to a function of its own.
    pub(super) fn take_line(&mut self, line: &[u8]) -> Result<(), LineFault>
        ensures { Answers result (judged K.Kind.reads (content self.old) line.now) (content self.new) }
    {
        if let Some(place) = framed(line, b"(cell p ") {
            return self.take_cell(Mode::Protected, place);
        }
        if let Some(place) = framed(line, b"(cell u ") {
            return self.take_cell(Mode::Unprotected, place);
        }
        if let Some(place) = framed(line, b"(const ") {
            return self.take_const(place);
        }
        if let Some(part) = framed(line, b"(task ") {
            return self.take_task(part);
        }
        self.take_op(line)
    }
}
