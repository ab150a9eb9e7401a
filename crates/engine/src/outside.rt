// One step of a driver.
ghost use Rattle.engine.specs.Lookup.{op_at};
ghost use Rattle.engine.specs.Turns.{Acts};
ghost use Rattle.engine.specs.Operations.{starts_outside, sets_mode, unprotects, step_outside};

use crate::layout::CONSTANTS;
use crate::order::{Cell, Order, Task};
use crate::turn::Turn;
use board::TaskState;
use book::Book;
use faults::StepFault;
use program::Mode;
use value::Kind;

impl<B: Book, K: Kind> Turn<'_, '_, B, K> {
    // A task is owed one call more.
    fn start_outside(&mut self, task: Task, next: TaskState) -> Result<(), StepFault>
        ensures { Acts B.Book K.Kind self.old self.new result (λ k w t. starts_outside k w t task.index next) }
    {
        let row = &mut self.engine.board.rows[task.index];
        row.owed = row.owed.checked_add(1).ok_or(StepFault::TooManyOwed)?;
        self.go(next)
    }

    // A cell changes its side.
    fn set_mode(&mut self, cell: Cell, mode: Mode, next: TaskState) -> Result<(), StepFault>
        ensures { Acts B.Book K.Kind self.old self.new result (λ k w t. sets_mode k w t cell.index mode next) }
    {
        self.engine.board.modes[cell.index] = mode;
        self.go(next)
    }

    // A cell becomes unprotected, unless a transaction owns it.
    fn unprotect(&mut self, cell: Cell, next: TaskState) -> Result<(), StepFault>
        ensures { Acts B.Book K.Kind self.old self.new result (λ k w t. unprotects k w t cell.index next) }
    {
        match self.engine.board.owners[cell.index] {
            Some(_) => Err(StepFault::Owned),
            None => self.set_mode(cell, Mode::Unprotected, next),
        }
    }

    // One step of a driver, on the cells themselves and without the book.
    pub(crate) fn step_outside(&mut self, place: u16) -> Result<(), StepFault>
        ensures { Acts B.Book K.Kind self.old self.new result (λ k w t. step_outside k w t place (op_at w.code t place)) }
    {
        let at = |place| TaskState::Outside { place };
        match self.order_at(place) {
            Order::Read { to, cell } => self.fetch(to, cell.index, at(place + 1)),
            Order::Write { cell, from } => self.put(cell, from, at(place + 1)),
            Order::Constant { to, constant } => {
                self.fetch(to, CONSTANTS + constant.index, at(place + 1))
            }
            Order::Apply {
                operation,
                to,
                left,
                right,
            } => self.apply(operation, to, left, right, at(place + 1)),
            Order::Jump { target } => self.go(at(target)),
            Order::JumpIfFalse { test, target } => self.branch(test, at(place + 1), at(target)),
            Order::Await { test } => self.wait(test, at(place + 1)),
            Order::Start { task } => self.start_outside(task, at(place + 1)),
            Order::Leave => Err(StepFault::WrongSide),
            Order::Enter => self.go(TaskState::Ready { place: place + 1 }),
            Order::Protect { cell } => self.set_mode(cell, Mode::Protected, at(place + 1)),
            Order::Unprotect { cell } => self.unprotect(cell, at(place + 1)),
            Order::Finish => self.go(TaskState::Idle),
        }
    }
}
