// A station is set up from a sheet, and written back to one.
ghost use Rattle.std.specs.Prelude.{◌≡◌, ◌≤◌, [], length, Ok};
ghost use Rattle.book.specs.Seen.{Lines, rested, full};
ghost use Rattle.program.specs.Program.{code};
ghost use Rattle.sheet.specs.Sheets.{content};
ghost use Rattle.board.specs.Laying.{tabulated};
ghost use Rattle.station.specs.Sheets.{no_board, fresh_board, cell_in, cell_of, constant_in, sets_up, reads_sheet, sheet_of, writes_answer, writes_out};
ghost use Rattle.engine.specs.World.{world_of, Leaves};

use crate::kept::Station;
use crate::laying::{blank, lay};
use board::{Board, rows_of};
use book::Book;
use engine::{CONSTANTS, Engine, PLACES};
use faults::Refusal;
use program::{Mode, Program};
use sheet::{Cell, Sheet};
use std::array;
use value::Kind;

fn board_of<K: Kind>(cells: &[Cell<K>], owed: &[u8]) -> Board
    ensures { result ≡ fresh_board cells.now owed.now }
{
    let mut modes = [Mode::Protected; 64];
    lay(&mut modes, 0, cells, |cell| cell.mode);
    Board {
        modes,
        owners: [None; 64],
        rows: rows_of(owed),
    }
}

// The constants in their places of the slice.
// kept: that the slice is long stands in five clauses, four here: an array of 320 places would make the definitions speak of
// a part of it.
fn consts_in<K: Kind>(slice: &[K]) -> [K; 64]
    requires { 320 ≤ length slice.now }
    ensures { result ≡ tabulated (constant_in K.ZERO slice.now) 64 }
{
    array::from_fn(|n| slice[CONSTANTS + n])
}

// The cells with their modes.
fn cells_in<K: Kind>(board: &Board, slice: &[K]) -> [Cell<K>; 64]
    requires { 320 ≤ length slice.now }
    ensures { result ≡ tabulated (cell_in K.ZERO board.now slice.now) 64 }
{
    array::from_fn(|c| Cell {
        mode: board.modes[c],
        value: slice[c],
    })
}

// Sets the engine up as the sheet says; the book rests.
fn set_up<B: Book, K: Kind>(engine: &mut Engine<B>, slice: &mut [K], sheet: &Sheet<K>)
    requires { 320 ≤ length slice.old }
    ensures { Leaves B.Book engine.old engine.new slice.new (Ok (length (content sheet.now).code)) (sets_up K.Kind.ZERO (world_of B.Book engine.old slice.old) (content sheet.now)) }
{
    let cells = sheet.cells();
    let consts = sheet.consts();
    blank(slice);
    lay(slice, 0, cells, |cell| cell.value);
    lay(slice, CONSTANTS, consts, |value| *value);
    engine.board = board_of(cells, sheet.owed());
    engine.cells = cells.len();
    engine.consts = consts.len();
    engine.program = sheet.program();
    engine.book.rest();
}

// What a sheet would say of the engine and its slice.
fn sheet_in<B: Book, K: Kind>(engine: &Engine<B>, slice: &[K]) -> Sheet<K>
    requires { 320 ≤ length slice.now }
    ensures { content result ≡ sheet_of K.Kind.ZERO (world_of B.Book engine.now slice.now) }
{
    let cells = cells_in(&engine.board, slice);
    let consts = consts_in(slice);
    let owed = engine.board.owed();
    Sheet::of(
        cells,
        engine.cells,
        consts,
        engine.consts,
        owed,
        engine.program,
    )
}

impl<B: Book> Station<B> {
    // A station that has read nothing: no cell, no constant and no task.
    pub fn new(book: B) -> Station<B>
        ensures board { result.engine.board ≡ no_board }
        ensures table { code result.engine.program ≡ [] }
        ensures counts { (result.engine.cells ≡ 0) × (result.engine.consts ≡ 0) }
        ensures notes { B.Book.seen result.engine.book ≡ rested }
        ensures spare { Lines full (B.Book.left book) (B.Book.left result.engine.book) }
    {
        let mut book = book;
        book.rest();
        let board = Board {
            modes: [Mode::Protected; 64],
            owners: [None; 64],
            rows: rows_of(&[]),
        };
        let program = Program::new();
        Station {
            engine: Engine {
                book,
                board,
                program,
                cells: 0,
                consts: 0,
            },
        }
    }

    // Reads a sheet into the station, whatever its state, and gives the number of tasks.
    // A refusal leaves station, book and slice as they were.
    pub fn read<K: Kind>(&mut self, slice: &mut [K], text: &[u8]) -> Result<usize, Refusal>
        ensures { Leaves B.Book self.old.engine self.new.engine slice.new result (reads_sheet K.Kind.ZERO K.Kind.reads text.now (world_of B.Book self.old.engine slice.old)) }
    {
        // kept: task 0 where a call has no task, here and below: the notice of a short slice has one place, and prints 0 in it.
        if slice.len() < PLACES {
            return Err(Refusal::ShortSlice { task: 0 });
        }
        let sheet = Sheet::<K>::read(text)?;
        set_up(&mut self.engine, slice, &sheet);
        Ok(self.engine.program.tasks())
    }

    // A cell with its mode and value; none where no such cell is given, or the slice is too short.
    pub fn cell<K: Kind>(&self, slice: &[K], c: usize) -> Option<Cell<K>>
        ensures { result ≡ cell_of K.Kind.ZERO (world_of B.Book self.now.engine slice.now) c }
    {
        if slice.len() < PLACES || c >= self.engine.cells || c >= 64 {
            return None;
        }
        Some(Cell {
            mode: self.engine.board.modes[c],
            value: slice[c],
        })
    }

    // Writes the station's sheet, if every task is idle, and gives its length.
    pub fn write<K: Kind>(&self, slice: &[K], out: &mut [u8]) -> Result<usize, Refusal>
        ensures answer { result ≡ writes_answer K.Kind.ZERO K.Kind.form (world_of B.Book self.now.engine slice.now) out.old }
        ensures text { out.new ≡ writes_out K.Kind.ZERO K.Kind.form (world_of B.Book self.now.engine slice.now) out.old }
    {
        if slice.len() < PLACES {
            return Err(Refusal::ShortSlice { task: 0 });
        }
        if self.engine.board.is_at_work() {
            return Err(Refusal::NotIdle);
        }
        let written = sheet_in(&self.engine, slice).write(out)?;
        Ok(written)
    }
}
