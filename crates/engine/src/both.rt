// The operations that are the same on both sides.
// kept: five arms stand in the match of each side. One function for them would match on the order once more, and its
// clause would have to say what five cases of both sides' definitions say.
ghost use Rattle.std.specs.Prelude.{◌<◌};
ghost use Rattle.engine.specs.Turns.{Acts};
ghost use Rattle.engine.specs.Operations.{fetches, applies, branches, awaits, writes_cell};

use crate::order::{Cell, Register};
use crate::turn::Turn;
use board::TaskState;
use book::Book;
use faults::StepFault;
use value::{Kind, Operation};

impl<B: Book, K: Kind> Turn<'_, '_, B, K> {
    // A register takes what stands at a place of the slice.
    pub(crate) fn fetch(
        &mut self,
        to: Register,
        place: usize,
        next: TaskState,
    ) -> Result<(), StepFault>
        requires { place < 320 }
        ensures { Acts B.Book K.Kind self.old self.new result (λ k w t. fetches k w t to.index place next) }
    {
        let to = self.register(to);
        self.slice[to] = self.slice[place];
        self.go(next)
    }

    // A register takes what an operation gives, unless it gives a cause.
    pub(crate) fn apply(
        &mut self,
        operation: Operation,
        to: Register,
        left: Register,
        right: Register,
        next: TaskState,
    ) -> Result<(), StepFault>
        ensures { Acts B.Book K.Kind self.old self.new result (λ k w t. applies k w t operation to.index left.index right.index next) }
    {
        let (to, left, right) = (self.register(to), self.register(left), self.register(right));
        self.slice[to] = K::apply(operation, self.slice[left], self.slice[right])?;
        self.go(next)
    }

    // The task goes on at one place if a register is true, and at another if not.
    pub(crate) fn branch(
        &mut self,
        test: Register,
        next: TaskState,
        far: TaskState,
    ) -> Result<(), StepFault>
        ensures { Acts B.Book K.Kind self.old self.new result (λ k w t. branches k w t test.index next far) }
    {
        let truth = self.slice[self.register(test)].is_true();
        self.go(if truth { next } else { far })
    }

    // The task goes on once a register is true.
    pub(crate) fn wait(&mut self, test: Register, next: TaskState) -> Result<(), StepFault>
        ensures { Acts B.Book K.Kind self.old self.new result (λ k w t. awaits k w t test.index next) }
    {
        if !self.slice[self.register(test)].is_true() {
            return Err(StepFault::Waiting);
        }
        self.go(next)
    }

    // A cell takes a register.
    pub(crate) fn put(
        &mut self,
        cell: Cell,
        from: Register,
        next: TaskState,
    ) -> Result<(), StepFault>
        ensures { Acts B.Book K.Kind self.old self.new result (λ k w t. writes_cell k w t cell.index from.index next) }
    {
        self.slice[cell.index] = self.slice[self.register(from)];
        self.go(next)
    }
}
