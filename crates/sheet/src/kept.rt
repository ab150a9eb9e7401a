ghost use Rattle.std.specs.Prelude.{◌≡◌, length};

use crate::filled::Filled;
use crate::parts::Cell;
use program::Program;

mod ends;
mod lines;
mod parts;
mod reading;
mod writing;

// A hand-over sheet: what people fill in to set a station up, and what a station is written back to.
// kept: `owed` beside the program: as many places count as it has tasks.
#[derive(Drop)]
pub struct Sheet<K> {
    cells: Filled<Cell<K>, 64>,
    consts: Filled<K, 64>,
    owed: [u8; 16],
    program: Program,
    ghost sizes: { length owed ≡ 16 },
}
