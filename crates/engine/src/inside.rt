// One step of a transaction.
ghost use Rattle.engine.specs.Lookup.{op_at};
ghost use Rattle.engine.specs.Turns.{Acts, left_in};
ghost use Rattle.engine.specs.Operations.{reads_inside, acquires, writes_inside, starts_inside, step_inside};

use crate::layout::{CONSTANTS, SAVED};
use crate::order::{Cell, Order, Register, Task};
use crate::turn::Turn;
use board::TaskState;
use book::Book;
use faults::StepFault;
use program::Mode;
use value::Kind;

impl<B: Book, K: Kind> Turn<'_, '_, B, K> {
    // A register takes a cell. Every read is noted, also of a cell that the transaction owns.
    fn read_inside(&mut self, to: Register, cell: Cell, next: TaskState) -> Result<(), StepFault>
        ensures { Acts B.Book K.Kind self.old self.new result (λ k w t. reads_inside k w t to.index cell.index next) }
    {
        let c = cell.index;
        let held = self.engine.board.owners[c].is_some_and(|u| u as usize != self.t);
        self.engine.book.note(self.t, c, held);
        self.fetch(to, c, next)
    }

    // A cell that nobody owns is saved, owned and written.
    fn acquire(&mut self, cell: Cell, from: Register, next: TaskState) -> Result<(), StepFault>
        ensures { Acts B.Book K.Kind self.old self.new result (λ k w t. acquires k w t cell.index from.index next) }
    {
        let c = cell.index;
        self.slice[SAVED + c] = self.slice[c];
        self.engine.board.owners[c] = Some(self.t as u8);
        self.put(cell, from, next)
    }

    // A cell takes a register, if the transaction owns the cell or may come to own it.
    fn write_inside(&mut self, cell: Cell, from: Register, next: TaskState) -> Result<(), StepFault>
        ensures { Acts B.Book K.Kind self.old self.new result (λ k w t. writes_inside k w t (left_in B.Book self.old) cell.index from.index next) }
    {
        let c = cell.index;
        match (self.engine.board.owners[c], self.engine.board.modes[c]) {
            (Some(u), _) if u as usize == self.t => self.put(cell, from, next),
            (Some(_), _) => Err(StepFault::Owned),
            (None, Mode::Unprotected) => Err(StepFault::Unprotected),
            (None, Mode::Protected) if self.engine.book.left_of(c) == 0 => Err(StepFault::NoneLeft),
            (None, Mode::Protected) => self.acquire(cell, from, next),
        }
    }

    // The transaction counts one more call of a task; none is delivered before it commits.
    fn start_inside(&mut self, task: Task, next: TaskState) -> Result<(), StepFault>
        ensures { Acts B.Book K.Kind self.old self.new result (λ k w t. starts_inside k w t task.index next) }
    {
        let row = &mut self.engine.board.rows[self.t];
        let u = task.index;
        row.own[u] = row.own[u].checked_add(1).ok_or(StepFault::TooManyOwed)?;
        row.state = next;
        Ok(())
    }

    // One step of a transaction that opened at a place.
    pub(crate) fn step_inside(&mut self, place: u16, opening: u16) -> Result<(), StepFault>
        ensures { Acts B.Book K.Kind self.old self.new result (λ k w t. step_inside k w t (left_in B.Book self.old) place opening (op_at w.code t place)) }
    {
        let at = |place| TaskState::Inside { place, opening };
        match self.order_at(place) {
            Order::Read { to, cell } => self.read_inside(to, cell, at(place + 1)),
            Order::Write { cell, from } => self.write_inside(cell, from, at(place + 1)),
            Order::Constant { to, constant } => {
                self.fetch(to, CONSTANTS + constant.index, at(place + 1))
            }
            Order::Apply {
                operation,
                to,
                left,
                right,
            } => self.apply(operation, to, left, right, at(place + 1)),
            Order::Jump { target } => self.go(at(target)),
            Order::JumpIfFalse { test, target } => self.branch(test, at(place + 1), at(target)),
            Order::Await { test } => self.wait(test, at(place + 1)),
            Order::Start { task } => self.start_inside(task, at(place + 1)),
            Order::Finish | Order::Leave => Err(StepFault::AtEnd),
            Order::Enter | Order::Protect { .. } | Order::Unprotect { .. } => Err(
                StepFault::WrongSide,
            ),
        }
    }
}
