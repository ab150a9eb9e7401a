ghost use Rattle.std.specs.Prelude.{◌≡◌};
ghost use Rattle.session.specs.Calls.{task_after, called};

use text::{framed, number};

// What is asked of a station, and of which task.
// kept: a case for each call, and no engine's event beside a task: a session stands on no engine.
#[derive(Clone, Copy)]
pub enum Call {
    Admit(usize),
    Open(usize),
    Step(usize),
    Commit(usize),
    Undo(usize),
}

// The task's number, where the line has the name in front. (Inlined, so that a name is compared as a constant.)
#[inline(always)]
fn task_of(line: &[u8], head: &[u8]) -> Option<usize>
    ensures { result ≡ task_after head.now line.now }
{
    let n = number(framed(line, head)?)?;
    Some(n as usize)
}

// The call that a line writes, as `(admit 0)`. Its second byte says which name alone it can have.
pub fn call_of(line: &[u8]) -> Option<Call>
    ensures { result ≡ called line.now }
{
    match *line.get(1)? {
        b'a' => Some(Call::Admit(task_of(line, b"(admit ")?)),
        b'o' => Some(Call::Open(task_of(line, b"(open ")?)),
        b's' => Some(Call::Step(task_of(line, b"(step ")?)),
        b'c' => Some(Call::Commit(task_of(line, b"(commit ")?)),
        b'u' => Some(Call::Undo(task_of(line, b"(undo ")?)),
        _ => None,
    }
}
