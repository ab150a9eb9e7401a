ghost use Rattle.std.specs.Prelude.{◌≡◌, ◌≤◌, [], length, slice_index_or};
ghost use Rattle.program.specs.declared.Op.TheVariants.{Finish};
ghost use Rattle.program.specs.Program.{code};

use super::Program;
use crate::Op;

impl Program {
    // How many tasks there are.
    pub fn tasks(&self) -> usize
        ensures value { result ≡ length (code self.now) }
        ensures bound { result ≤ 16 }
    {
        self.count
    }

    // A task's operations, in order; none where there is no such task.
    pub fn ops(&self, t: usize) -> &[Op]
        ensures value { result.now ≡ slice_index_or (code self.now) t [] }
        ensures bound { length result.now ≤ 1024 }
    {
        let Program {
            ops,
            spans,
            count,
            ..
        } = self;
        let Some(span) = spans[..*count].get(t) else {
            return &[];
        };
        let first = span.first as usize;
        &ops[first..first + span.len as usize]
    }

    // How many operations a task has; none where there is no such task.
    pub fn len(&self, t: usize) -> usize
        ensures value { result ≡ length (slice_index_or (code self.now) t []) }
        ensures bound { result ≤ 1024 }
    {
        self.ops(t).len()
    }

    // The operation at a task's place; `Finish` where there is none.
    pub fn op(&self, t: usize, place: usize) -> Op
        ensures { result ≡ slice_index_or (slice_index_or (code self.now) t []) place Finish }
    {
        self.ops(t).get(place).copied().unwrap_or(Op::Finish)
    }
}
