ghost use Rattle.std.specs.Prelude.{◌≡◌, ◌<◌, ◌≤◌, length};

use crate::Engine;
use crate::order::Order;
use board::TaskState;
use book::Book;
use faults::StepFault;
use value::Kind;

// What a call works on: the engine, the caller's slice, which is long enough, and the task that takes its turn.
#[derive(Drop)]
pub(crate) struct Turn<'e, 's, B, K> {
    pub(crate) engine: &'e mut Engine<B>,
    pub(crate) slice: &'s mut [K],
    pub(crate) t: usize,
    ghost task: { t < 16 },
    ghost long: { 320 ≤ length slice.now },
}

impl<B: Book, K: Kind> Turn<'_, '_, B, K> {
    ghost use Rattle.program.specs.Program.{code};
    ghost use Rattle.engine.specs.Lookup.{op_at};
    ghost use Rattle.engine.specs.Orders.{ordered, Within};
    ghost use Rattle.engine.specs.Turns.{Acts};
    ghost use Rattle.engine.specs.Operations.{moves};

    // The order at the task's place; a finish, where a station has no such place or argument.
    pub(crate) fn order_at(&self, place: u16) -> Order
        ensures op { ordered result ≡ op_at (code self.now.engine.now.program) self.now.t place }
        ensures place { Within place result }
    {
        if place >= 1024 {
            return Order::Finish;
        }
        let op = self.engine.program.op(self.t, place as usize);
        Order::of(op).unwrap_or(Order::Finish)
    }

    // The task goes on.
    pub(crate) fn go(&mut self, next: TaskState) -> Result<(), StepFault>
        ensures { Acts B.Book K.Kind self.old self.new result (λ k w t. moves k w t next) }
    {
        self.engine.board.rows[self.t].state = next;
        Ok(())
    }
}
