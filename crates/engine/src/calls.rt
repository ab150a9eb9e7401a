// The calls.
ghost use Rattle.machine.specs.Effect.{meaning_of};
ghost use Rattle.board.specs.Boards.{state_at};
ghost use Rattle.engine.specs.World.{world_of, Does};
ghost use Rattle.engine.specs.Turns.{Acts, left_in};
ghost use Rattle.engine.specs.Calls.{admits, opens, meets, called};

use crate::layout::PLACES;
use crate::turn::Turn;
use crate::{Engine, Event};
use board::TaskState;
use book::Book;
use faults::{Refusal, Side, StepFault, placing};
use value::Kind;

impl<B: Book, K: Kind> Turn<'_, '_, B, K> {
    // An idle task that is owed a call is ready to begin.
    fn admit_idle(&mut self) -> Result<(), Refusal>
        ensures { Acts B.Book K.Kind self.old self.new result admits }
    {
        let row = &mut self.engine.board.rows[self.t];
        row.owed = row
            .owed
            .checked_sub(1)
            .ok_or(Refusal::NoneOwed { task: self.t })?;
        row.state = TaskState::Ready { place: 0 };
        self.clear_registers();
        Ok(())
    }

    // A ready task's transaction opens; its place and registers are kept.
    fn open_ready(&mut self, place: u16) -> Result<(), Refusal>
        ensures { Acts B.Book K.Kind self.old self.new result (λ k w t. opens k w t place) }
    {
        let row = &mut self.engine.board.rows[self.t];
        row.state = TaskState::Inside {
            place,
            opening: place,
        };
        row.own = [0; 16];
        self.keep_registers();
        self.engine.book.begin(self.t);
        Ok(())
    }

    // An event meets the state of its task.
    fn meet(&mut self, event: Event) -> Result<(), Refusal>
        ensures { Acts B.Book K.Kind self.old self.new result (λ k w t. meets k w t (left_in B.Book self.old) (state_at w.board t) event) }
    {
        let t = self.t;
        match (self.engine.board.rows[t].state, event) {
            (TaskState::Idle, Event::Admit) => self.admit_idle(),
            (TaskState::Ready { place }, Event::Open) => self.open_ready(place),
            (TaskState::Inside { place, opening }, Event::Step) => {
                Ok(placing(self.step_inside(place, opening), t, place, Side::Inside)?)
            }
            (TaskState::Outside { place }, Event::Step) => {
                Ok(placing(self.step_outside(place), t, place, Side::Outside)?)
            }
            (TaskState::Inside { place, .. }, Event::Commit) => {
                Ok(placing(self.commit_at(place), t, place, Side::Inside)?)
            }
            (TaskState::Inside { opening, .. }, Event::Undo) => self.undo_to(opening),
            _ => Err(Refusal::WrongState { task: t }),
        }
    }
}

impl<B: Book> Engine<B> {
    // kept: the slice and the task come with each call: an engine holds no slice, and the turn is made once both are good.
    // One call: the slice is looked at first, then whether there is such a task, then its state.
    // A refused call changes nothing.
    pub fn call<K: Kind>(&mut self, slice: &mut [K], t: usize, event: Event) -> Result<(), Refusal>
        ensures { Does B.Book self.old self.new slice.new result (called (meaning_of K.Kind) (world_of B.Book self.old slice.old) t (B.Book.left self.old.book) event) }
    {
        if slice.len() < PLACES {
            return Err(Refusal::ShortSlice { task: t });
        }
        if t >= self.program.tasks() {
            return Err(Refusal::NoSuchTask { task: t });
        }
        let mut turn = Turn {
            engine: self,
            slice,
            t,
        };
        turn.meet(event)
    }
}
