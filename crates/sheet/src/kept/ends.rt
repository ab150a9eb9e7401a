ghost use Rattle.std.specs.Prelude.{◌≡◌, ◌≤◌, length};
ghost use Rattle.program.specs.Program.{code};
ghost use Rattle.sheet.specs.Ends.{closes as closing, closed, lands as landing, first_open, stray_in, first_stray};

use program::{Op, Program};

// No place follows a jump or a finish.
fn closes(op: Op) -> bool
    ensures { result ≡ closing op }
{
    matches!(&op, Op::Finish | Op::Jump { .. })
}

// In a task of so many operations, the operation leads to a place or a task that is given.
// kept: a match and no test: what is compared hangs on the operation.
fn lands(op: Op, len: usize, tasks: usize) -> bool
    ensures { result ≡ landing len tasks op }
{
    match op {
        Op::Jump { target } | Op::JumpIfFalse { target, .. } => (target as usize) < len,
        Op::Start { task } => (task as usize) < tasks,
        _ => true,
    }
}

// A task has an operation, and its last one closes it.
fn is_closed(ops: &[Op]) -> bool
    ensures { result ≡ closed ops.now }
{
    ops.last().is_some_and(|op| closes(*op))
}

// The line of the first task that is empty or goes on past its end; the first task stands on line `first`.
// kept: two loops with a running line, here and below: over a closure each would ask a bound of the line and be no plainer.
pub(super) fn open_task(program: &Program, first: usize) -> Option<usize>
    requires { first ≤ 65536 }
    ensures { result ≡ first_open first (code program.now) }
{
    let mut line = first;
    for t in 0..program.tasks() {
        let ops = program.ops(t);
        if !is_closed(ops) {
            return Some(line);
        }
        line += 1 + ops.len();
    }
    None
}

// The line of a task's first operation that leads nowhere; its operations begin on line `first`.
fn stray_op(ops: &[Op], tasks: usize, first: usize) -> Option<usize>
    requires near { first ≤ 131072 }
    requires few { length ops.now ≤ 1024 }
    ensures { result ≡ stray_in (length ops.now) tasks first ops.now }
{
    let place = ops.iter().position(|op| !lands(*op, ops.len(), tasks))?;
    Some(first + place)
}

// The line of the first operation of all that leads nowhere.
pub(super) fn stray_target(program: &Program, first: usize) -> Option<usize>
    requires { first ≤ 65536 }
    ensures { result ≡ first_stray (length (code program.now)) first (code program.now) }
{
    let mut line = first;
    let tasks = program.tasks();
    for t in 0..tasks {
        let ops = program.ops(t);
        if let Some(at) = stray_op(ops, tasks, line + 1) {
            return Some(at);
        }
        line += 1 + ops.len();
    }
    None
}
