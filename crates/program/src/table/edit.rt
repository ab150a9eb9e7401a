ghost use Rattle.std.specs.Prelude.{◌≡◌, ◌&&◌, [], ◌∷◌, ◌++◌, length, if◌then◌else◌, is_ok, sum_by, nat_lt};
ghost use Rattle.program.specs.Code.{on_last};
ghost use Rattle.program.specs.Program.{code};

use super::{Full, Program, Span};
use crate::Op;

impl Program {
    // No task.
    pub fn new() -> Program
        ensures { code result ≡ [] }
    {
        Program {
            ops: [Op::Finish; 1024],
            used: 0,
            spans: [Span { first: 0, len: 0 }; 16],
            count: 0,
        }
    }

    // One more task, with no operation yet, unless there are 16.
    pub fn add_task(&mut self) -> Result<(), Full>
        ensures value { is_ok result ≡ nat_lt (length (code self.old)) 16 }
        ensures after { code self.new ≡ (if is_ok result then code self.old ++ ([] ∷ []) else code self.old) }
    {
        let t = self.count;
        if t >= 16 {
            return Err(Full);
        }
        self.spans[t] = Span {
            first: self.used as u16,
            len: 0,
        };
        self.count = t + 1;
        Ok(())
    }

    // One more operation of the last task, unless there is no task, or there are 1,024 operations.
    pub fn add_op(&mut self, op: Op) -> Result<(), Full>
        ensures value { is_ok result ≡ (nat_lt 0 (length (code self.old)) && nat_lt (sum_by length (code self.old)) 1024) }
        ensures after { code self.new ≡ (if is_ok result then on_last (code self.old) op else code self.old) }
    {
        let t = self.count;
        let n = self.used;
        if t == 0 || n >= 1024 {
            return Err(Full);
        }
        self.ops[n] = op;
        self.used = n + 1;
        self.spans[t - 1].len += 1;
        Ok(())
    }
}
