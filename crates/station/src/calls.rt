// The calls that name a task. A refused call changes nothing.
// kept: five public names, each one line over `call`, and the slice with each call: a station holds no slice.
ghost use Rattle.machine.specs.Effect.{meaning_of};
ghost use Rattle.engine.specs.World.{world_of, Does};
ghost use Rattle.engine.specs.Calls.{called};
ghost use Rattle.engine.specs.declared.Event.TheVariants.{Admit, Open, Step, Commit, Undo};

use crate::kept::Station;
use book::Book;
use engine::Event;
use faults::Refusal;
use value::Kind;

impl<B: Book> Station<B> {
    // One call, whatever it asks of the task.
    pub fn call<K: Kind>(&mut self, slice: &mut [K], t: usize, event: Event) -> Result<(), Refusal>
        ensures { Does B.Book self.old.engine self.new.engine slice.new result (called (meaning_of K.Kind) (world_of B.Book self.old.engine slice.old) t (B.Book.left self.old.engine.book) event) }
    {
        self.engine.call(slice, t, event)
    }

    // An idle task that is owed a call becomes ready at place 0, with four zeros for registers.
    pub fn admit<K: Kind>(&mut self, slice: &mut [K], t: usize) -> Result<(), Refusal>
        ensures { Does B.Book self.old.engine self.new.engine slice.new result (called (meaning_of K.Kind) (world_of B.Book self.old.engine slice.old) t (B.Book.left self.old.engine.book) Admit) }
    {
        self.call(slice, t, Event::Admit)
    }

    // A ready task opens a transaction.
    pub fn open<K: Kind>(&mut self, slice: &mut [K], t: usize) -> Result<(), Refusal>
        ensures { Does B.Book self.old.engine self.new.engine slice.new result (called (meaning_of K.Kind) (world_of B.Book self.old.engine slice.old) t (B.Book.left self.old.engine.book) Open) }
    {
        self.call(slice, t, Event::Open)
    }

    // A task that is inside or outside runs its next operation.
    pub fn step<K: Kind>(&mut self, slice: &mut [K], t: usize) -> Result<(), Refusal>
        ensures { Does B.Book self.old.engine self.new.engine slice.new result (called (meaning_of K.Kind) (world_of B.Book self.old.engine slice.old) t (B.Book.left self.old.engine.book) Step) }
    {
        self.call(slice, t, Event::Step)
    }

    // A transaction at a leave or a finish takes effect as one.
    pub fn commit<K: Kind>(&mut self, slice: &mut [K], t: usize) -> Result<(), Refusal>
        ensures { Does B.Book self.old.engine self.new.engine slice.new result (called (meaning_of K.Kind) (world_of B.Book self.old.engine slice.old) t (B.Book.left self.old.engine.book) Commit) }
    {
        self.call(slice, t, Event::Commit)
    }

    // A transaction leaves no trace.
    pub fn undo<K: Kind>(&mut self, slice: &mut [K], t: usize) -> Result<(), Refusal>
        ensures { Does B.Book self.old.engine self.new.engine slice.new result (called (meaning_of K.Kind) (world_of B.Book self.old.engine slice.old) t (B.Book.left self.old.engine.book) Undo) }
    {
        self.call(slice, t, Event::Undo)
    }
}
