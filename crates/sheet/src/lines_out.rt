ghost use Rattle.std.specs.Prelude.{◌≡◌, ◌≤◌, [], length};
ghost use Rattle.std.specs.Option.{unwrap_or};
ghost use Rattle.text.specs.Line.{spelt, added};
ghost use Rattle.sheet.specs.Writing.{line_end, value_text, cell_text, const_text, task_text, op_words, op_text};

use crate::parts::Cell;
use program::{Mode, Op};
use text::Line;
use value::Kind;

// A value's form; nothing where no sheet may hold the value.
fn form_of<K: Kind>(value: K) -> Line
    ensures { spelt result ≡ unwrap_or (K.Kind.form value) [] }
{
    value.spell().unwrap_or_else(Line::new)
}

// Closes the bracket and the line.
fn close(line: &mut Line)
    ensures { spelt line.new ≡ added (spelt line.old) line_end }
{
    line.extend(b")\n")
}

// The line of a value, after the text in front of it.
#[inline]
fn value_line<K: Kind>(head: &[u8], value: K) -> Line
    ensures { length head.now ≤ 8 → spelt result ≡ value_text head.now (unwrap_or (K.Kind.form value) []) }
{
    let form = form_of(value);
    let mut line = Line::new();
    line.extend(head);
    line.extend(form.as_slice());
    close(&mut line);
    line
}

impl<K: Kind> Cell<K> {
    // The cell's line as a sheet has it.
    pub fn line(self) -> Line
        ensures { spelt result ≡ cell_text K.Kind.form self }
    {
        match self.mode {
            Mode::Protected => value_line(b"(cell p ", self.value),
            Mode::Unprotected => value_line(b"(cell u ", self.value),
        }
    }
}

pub(crate) fn const_line<K: Kind>(value: &K) -> Line
    ensures { spelt result ≡ const_text K.Kind.form value.now }
{
    value_line(b"(const ", *value)
}

pub(crate) fn task_line(owed: u8) -> Line
    ensures { spelt result ≡ task_text owed }
{
    let mut line = Line::new();
    line.extend(b"(task ");
    line.push_number(u64::from(owed));
    close(&mut line);
    line
}

// A letter and up to four numbers.
#[inline]
fn words(letter: u8, numbers: &[u16]) -> Line
    ensures { length numbers.now ≤ 4 → spelt result ≡ op_words letter numbers.now }
{
    let mut line = Line::new();
    line.push(b'(');
    line.push(letter);
    for n in numbers {
        line.push(b' ');
        line.push_number(u64::from(*n));
    }
    close(&mut line);
    line
}

#[inline]
pub(crate) fn op_line_of(op: &Op) -> Line
    ensures { spelt result ≡ op_text op.now }
{
    match *op {
        Op::Finish => words(b'f', &[]),
        Op::Read { to, cell } => words(b'r', &[u16::from(to), u16::from(cell)]),
        Op::Write { cell, from } => words(b'w', &[u16::from(cell), u16::from(from)]),
        Op::Constant { to, constant } => words(b'k', &[u16::from(to), u16::from(constant)]),
        Op::Apply {
            operation,
            to,
            left,
            right,
        } => {
            words(
                b'a',
                &[
                    u16::from(u8::from(operation)),
                    u16::from(to),
                    u16::from(left),
                    u16::from(right),
                ],
            )
        }
        Op::Jump { target } => words(b'j', &[target]),
        Op::JumpIfFalse { test, target } => words(b'z', &[u16::from(test), target]),
        Op::Await { test } => words(b'b', &[u16::from(test)]),
        Op::Start { task } => words(b's', &[u16::from(task)]),
        Op::Leave => words(b'l', &[]),
        Op::Enter => words(b'e', &[]),
        Op::Protect { cell } => words(b'p', &[u16::from(cell)]),
        Op::Unprotect { cell } => words(b'u', &[u16::from(cell)]),
    }
}
