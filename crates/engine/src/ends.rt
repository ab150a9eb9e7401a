// How a transaction ends: it commits, or it is undone.
ghost use Rattle.std.specs.Prelude.{◌≡◌, ◌≤◌, length, if◌then◌else◌};
ghost use Rattle.book.specs.Seen.{Lines, same, full, rested, finished, spending};
ghost use Rattle.engine.specs.World.{SameTable, settles};
ghost use Rattle.board.specs.Loops.{busy};
ghost use Rattle.engine.specs.Lookup.{op_at};
ghost use Rattle.engine.specs.Restoring.{restored};
ghost use Rattle.engine.specs.Turns.{Acts, Lays};
ghost use Rattle.engine.specs.Calls.{own_cells, let_go, ends, commits, undoes};

use crate::Engine;
use crate::layout::{SAVED, copy};
use crate::order::Order;
use crate::turn::Turn;
use board::TaskState;
use book::Book;
use faults::{Refusal, StepFault};
use value::Kind;

impl<B: Book> Engine<B> {
    // When the last transaction has ended, the book rests.
    fn settle(&mut self)
        ensures board { self.new.board ≡ self.old.board }
        ensures notes { B.Book.seen self.new.book ≡ (if busy self.old.board then B.Book.seen self.old.book else rested) }
        ensures spare { Lines (if busy self.old.board then same else full) (B.Book.left self.old.book) (B.Book.left self.new.book) }
        ensures table { SameTable self.old self.new }
    {
        if !self.board.is_busy() {
            self.book.rest();
        }
    }
}

impl<B: Book, K: Kind> Turn<'_, '_, B, K> {
    // The cells are released, the book finishes with them, and the task goes on as `next`.
    fn close(&mut self, next: TaskState) -> Result<(), StepFault>
        ensures { Acts B.Book K.Kind self.old self.new result (λ k w t. settles w (let_go w.board t next) w.slice (finished t (own_cells w.board t) w.seen) (spending t (own_cells w.board t))) }
    {
        let cells = self.engine.board.owned_by(self.t);
        self.engine.board.release(self.t);
        self.engine.board.rows[self.t].state = next;
        self.engine.book.finish(self.t, &cells);
        self.engine.settle();
        Ok(())
    }

    // A transaction that came to its end, if it is not stale and its calls can be delivered.
    fn end(&mut self, next: TaskState) -> Result<(), StepFault>
        ensures { Acts B.Book K.Kind self.old self.new result (λ k w t. ends k w t next) }
    {
        if self.engine.book.is_stale(self.t) {
            return Err(StepFault::Stale);
        }
        let own = self.engine.board.rows[self.t].own;
        self.engine
            .board
            .deliver(&own)
            .map_err(|_| StepFault::TooManyOwed)?;
        self.close(next)
    }

    // A transaction commits at a leave or a finish.
    pub(crate) fn commit_at(&mut self, place: u16) -> Result<(), StepFault>
        ensures { Acts B.Book K.Kind self.old self.new result (λ k w t. commits k w t place (op_at w.code t place)) }
    {
        match self.order_at(place) {
            Order::Leave => self.end(TaskState::Outside { place: place + 1 }),
            Order::Finish => self.end(TaskState::Idle),
            _ => Err(StepFault::NotAtEnd),
        }
    }

    // The cells that the task owns take their saved values.
    fn restore(&mut self)
        ensures { Lays self.old self.new (restored self.old.t K.ZERO self.old.engine.now.board.owners self.old.slice.now 64) }
    {
        let (board, t) = (&self.engine.board, self.t);
        let slice = &mut *self.slice;
        for (c, owner) in board.owners.iter().enumerate() {
            if owner.is_some_and(|u| u as usize == t) {
                copy(slice, SAVED + c, c);
            }
        }
    }

    // Owned cells and registers come back, and the task is ready where its transaction opened.
    pub(crate) fn undo_to(&mut self, opening: u16) -> Result<(), Refusal>
        ensures { Acts B.Book K.Kind self.old self.new result (λ k w t. undoes k w t opening) }
    {
        self.restore();
        self.engine.board.release(self.t);
        self.take_registers_back();
        self.engine.board.rows[self.t].state = TaskState::Ready { place: opening };
        self.engine.book.forget(self.t);
        self.engine.settle();
        Ok(())
    }
}
