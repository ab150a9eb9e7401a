ghost use Rattle.std.specs.Prelude.{◌≡◌, ℕ, ◌+◌, ◌*◌, ◌≤◌, List, length, take};
ghost use Rattle.std.specs.List.{flat_map};
ghost use Rattle.program.specs.Program.{code};
ghost use Rattle.text.specs.Line.{spelt};
ghost use Rattle.sheet.specs.Output.{Lays, Spells};
ghost use Rattle.sheet.specs.Writing.{tasks_text};

use crate::lines_out::{op_line_of, task_line};
use program::Program;
use text::Line;

// An output, and the place from which on it is written next; bytes past its end fall away.
#[derive(Drop)]
pub(crate) struct Out<'a> {
    pub(crate) bytes: &'a mut [u8],
    pub(crate) end: usize,
}

impl Out<'_> {
    // Writes the line, as far as the output goes.
    #[inline]
    fn put(&mut self, line: &Line)
        requires { self.old.end ≤ 1000000 }
        ensures text { Lays self.old self.new (spelt line.now) }
        ensures bound { self.new.end ≤ self.old.end + 32 }
    {
        let bytes = line.as_slice();
        let at = self.end;
        if at < self.bytes.len() {
            let n = bytes.len().min(self.bytes.len() - at);
            self.bytes[at..at + n].copy_from_slice(&bytes[..n]);
        }
        self.end = at + bytes.len();
    }

    // Writes the line of each item.
    #[inline]
    pub(crate) fn put_lines<T, F: Fn(&T) -> Line>(&mut self, items: &[T], line_of: F)
        requires near { self.old.end ≤ 900000 }
        requires few { length items.now ≤ 1024 }
        requires callable { F.IsAlwaysCallable line_of }
        ensures text { (text : T → List ℕ) → Spells F.Fn line_of text → Lays self.old self.new (flat_map text items.now) }
        ensures bound { self.new.end ≤ self.old.end + 32 * length items.now }
    {
        for item in items {
            self.put(&line_of(item));
        }
    }

    // Writes each task's line, and then those of its operations.
    pub(crate) fn put_tasks(&mut self, owed: &[u8; 16], program: &Program)
        requires { self.old.end ≤ 200000 }
        ensures { Lays self.old self.new (tasks_text (take (length (code program.now)) owed.now) (code program.now)) }
    {
        let given = &owed[..program.tasks()];
        for (t, calls) in given.iter().enumerate() {
            self.put(&task_line(*calls));
            self.put_lines(program.ops(t), op_line_of);
        }
    }
}
