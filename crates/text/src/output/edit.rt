ghost use Rattle.std.specs.Prelude.{◌≡◌, [], ◌∷◌, decimal};
ghost use Rattle.text.specs.Line.{spelt, added};

use super::Line;
use itoa::Buffer;

impl Line {
    pub fn new() -> Line
        ensures { spelt result ≡ [] }
    {
        Line {
            bytes: [0; 32],
            len: 0,
        }
    }

    // One byte more, where there is room.
    #[tactic(auto, using(crate::proofs::Lines::push_room, crate::proofs::Lines::push_full))]
    pub fn push(&mut self, b: u8)
        ensures { spelt self.new ≡ added (spelt self.old) (b ∷ []) }
    {
        let n = self.len;
        if n < 32 {
            self.bytes[n] = b;
            self.len = n + 1;
        }
    }

    #[tactic(auto, using(crate::proofs::Lines::held, crate::proofs::Lines::extend_more))]
    pub fn extend(&mut self, more: &[u8])
        ensures { spelt self.new ≡ added (spelt self.old) more.now }
    {
        for b in more {
            self.push(*b);
        }
    }

    // The number's digits, with no needless zero in front.
    pub fn push_number(&mut self, n: u64)
        ensures { spelt self.new ≡ added (spelt self.old) (decimal n) }
    {
        self.extend(Buffer::new().format(n).as_bytes());
    }

    pub fn as_slice(&self) -> &[u8]
        ensures { result.now ≡ spelt self.now }
    {
        &self.bytes[0..self.len]
    }
}
