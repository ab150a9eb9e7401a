ghost use Rattle.std.specs.Prelude.{◌≡◌};
ghost use Rattle.program.specs.Program.{code};
ghost use Rattle.sheet.specs.Sheets.{content, of_parts};

use super::Sheet;
use crate::filled::Filled;
use crate::parts::Cell;
use program::Program;
use value::Kind;

impl<K: Kind> Sheet<K> {
    // The sheet with the first of these cells and constants, and with what each task of the program is owed.
    // kept: arrays with their counts, as the station has them: a sheet alone keeps them together.
    pub fn of(
        cells: [Cell<K>; 64],
        cell_count: usize,
        consts: [K; 64],
        const_count: usize,
        owed: [u8; 16],
        program: Program,
    ) -> Sheet<K>
        ensures { content result ≡ of_parts cells cell_count consts const_count owed (code program) }
    {
        Sheet {
            cells: Filled::of(cells, cell_count),
            consts: Filled::of(consts, const_count),
            owed,
            program,
        }
    }

    // What each task is owed, in order.
    pub fn owed(&self) -> &[u8]
        ensures { result.now ≡ (content self.now).owed }
    {
        &self.owed[..self.program.tasks()]
    }

    // The operations of the tasks.
    pub fn program(&self) -> Program
        ensures { code result ≡ (content self.now).code }
    {
        let Sheet { program, .. } = self;
        *program
    }
}
