ghost use Rattle.std.specs.Prelude.{◌≡◌, ℕ, ◌<◌, ◌≤◌, min, List, length, if◌then◌else◌, Some, Ok, Err, MatchOption, nat_le, nat_lt};
ghost use Rattle.std.specs.Option.{ok_or};
ghost use Rattle.text.specs.Cut.{cut};
ghost use Rattle.value.specs.Codes.{operation_at};
ghost use Rattle.value.specs.declared.codes.Fault.TheVariants.{Bound};
ghost use Rattle.sheet.specs.Lines.{all_numbers, op_line as written_op};
ghost use Rattle.sheet.specs.Operations.{applied, target, started, operation as operation_of};

use arrayvec::ArrayVec;
use program::Op;
use text::{framed, number};
use value::{Fault, Operation};

// A number below a count: a cell or a constant that is given.
fn below(n: u64, count: usize) -> Result<u8, Fault>
    requires { count ≤ 64 }
    ensures { result ≡ (if nat_lt n count then Ok n else Err Bound) }
{
    if n < count as u64 {
        Ok(n as u8)
    } else {
        Err(Fault::Bound)
    }
}

// One of the four registers of a task.
fn register(n: u64) -> Result<u8, Fault>
    ensures { result ≡ (if nat_le n 3 then Ok n else Err Bound) }
{
    below(n, 4)
}

// A jump's target: all that lie past every task are one.
fn place(n: u64) -> u16
    ensures { result ≡ target n }
{
    u16::try_from(n).unwrap_or(u16::MAX)
}

// A task to be started, likewise.
fn task(n: u64) -> u8
    ensures { result ≡ started n }
{
    u8::try_from(n).unwrap_or(u8::MAX)
}

fn apply(o: u64, d: u64, i: u64, j: u64) -> Result<Op, Fault>
    ensures { result ≡ applied (operation_at o) d i j }
{
    Ok(Op::Apply {
        operation: Operation::try_from(o)?,
        to: register(d)?,
        left: register(i)?,
        right: register(j)?,
    })
}

// The operation that a letter and its numbers write.
fn operation(letter: char, args: &[u64], cells: usize, consts: usize) -> Result<Op, Fault>
    requires few_cells { cells ≤ 64 }
    requires few_consts { consts ≤ 64 }
    ensures { result ≡ operation_of cells consts letter args.now }
{
    match (letter, args) {
        ('r', [d, c]) => Ok(Op::Read {
            to: register(*d)?,
            cell: below(*c, cells)?,
        }),
        ('w', [c, s]) => Ok(Op::Write {
            cell: below(*c, cells)?,
            from: register(*s)?,
        }),
        ('k', [d, n]) => Ok(Op::Constant {
            to: register(*d)?,
            constant: below(*n, consts)?,
        }),
        ('a', [o, d, i, j]) => apply(*o, *d, *i, *j),
        ('j', [n]) => Ok(Op::Jump { target: place(*n) }),
        ('z', [s, n]) => Ok(Op::JumpIfFalse {
            test: register(*s)?,
            target: place(*n),
        }),
        ('b', [s]) => Ok(Op::Await {
            test: register(*s)?,
        }),
        ('s', [t]) => Ok(Op::Start { task: task(*t) }),
        ('l', []) => Ok(Op::Leave),
        ('e', []) => Ok(Op::Enter),
        ('p', [c]) => Ok(Op::Protect {
            cell: below(*c, cells)?,
        }),
        ('u', [c]) => Ok(Op::Unprotect {
            cell: below(*c, cells)?,
        }),
        ('f', []) => Ok(Op::Finish),
        _ => Err(Fault::Form),
    }
}

// The numbers between single spaces, up to four; no operation has more.
fn numbers_in(bytes: &[u8]) -> Option<ArrayVec<u64, 4>>
    ensures { MatchOption result ((ns : List ℕ) → all_numbers (cut 32 bytes.now) ≡ Some ns → 4 < length ns) (λ r. all_numbers (cut 32 bytes.now) ≡ Some r.items) }
{
    let mut numbers = ArrayVec::new();
    for part in bytes.split(|b| *b == b' ') {
        let n = number(part)?;
        if numbers.is_full() {
            return None;
        }
        numbers.push(n);
    }
    Some(numbers)
}

// The operation that a line writes.
pub(crate) fn op_line(line: &[u8], cells: usize, consts: usize) -> Result<Op, Fault>
    requires few_cells { cells ≤ 64 }
    requires few_consts { consts ≤ 64 }
    ensures { result ≡ written_op cells consts line.now }
{
    match framed(line, b"(") {
        Some([letter]) => operation(*letter as char, &[], cells, consts),
        Some([letter, b' ', rest @ ..]) => {
            let args = numbers_in(rest).ok_or(Fault::Form)?;
            operation(*letter as char, args.as_slice(), cells, consts)
        }
        _ => Err(Fault::Form),
    }
}
