ghost use Rattle.std.specs.Prelude.{◌≡◌, ◌+◌, ◌<◌, ◌≤◌, length};
ghost use Rattle.engine.specs.Layout.{register_place, copied, kept, taken_back, cleared};
ghost use Rattle.engine.specs.Turns.{Lays};

use crate::order::Register;
use crate::turn::Turn;
use book::Book;
use value::Kind;

// The working slice: where each part begins, and how many places there are. Cells begin at 0.
pub const SAVED: usize = 64;

pub const REGISTERS: usize = 128;

pub const OPENINGS: usize = 192;

pub const CONSTANTS: usize = 256;

pub const PLACES: usize = 320;

// A place takes what stands at another. (A function of its own for the loop in `restore`: an index there leaves the
// loop's goal open.)
pub(crate) fn copy<K: Kind>(slice: &mut [K], from: usize, to: usize)
    requires from { from < length slice.old }
    requires to { to < length slice.old }
    ensures { slice.new ≡ copied K.ZERO slice.old from to }
{
    slice[to] = slice[from];
}

impl<B: Book, K: Kind> Turn<'_, '_, B, K> {
    // The place of one of the task's registers.
    pub(crate) fn register(&self, register: Register) -> usize
        ensures { result ≡ register_place self.now.t register.index }
    {
        REGISTERS + 4 * self.t + register.index
    }

    // The task's registers are kept as its opening ones.
    #[tactic(auto, using(crate::proofs::Copies::four_within))]
    pub(crate) fn keep_registers(&mut self)
        ensures { Lays self.old self.new (kept K.ZERO self.old.slice.now self.old.t) }
    {
        let (first, kept) = (REGISTERS + 4 * self.t, OPENINGS + 4 * self.t);
        self.slice.copy_within(first..first + 4, kept);
    }

    // Its opening registers come back.
    #[tactic(auto, using(crate::proofs::Copies::four_within))]
    pub(crate) fn take_registers_back(&mut self)
        ensures { Lays self.old self.new (taken_back K.ZERO self.old.slice.now self.old.t) }
    {
        let (first, kept) = (REGISTERS + 4 * self.t, OPENINGS + 4 * self.t);
        self.slice.copy_within(kept..kept + 4, first);
    }

    // Its registers become the kind's zero.
    #[tactic(auto, using(crate::proofs::Copies::four_filled))]
    pub(crate) fn clear_registers(&mut self)
        ensures { Lays self.old self.new (cleared K.ZERO self.old.slice.now self.old.t) }
    {
        let first = REGISTERS + 4 * self.t;
        self.slice[first..first + 4].copy_from_slice(&[K::ZERO; 4]);
    }
}
