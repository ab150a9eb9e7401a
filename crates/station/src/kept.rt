ghost use Rattle.program.specs.Program.{code};
ghost use Rattle.station.specs.Rules.{BoardSizes, RowSizes, TableSizes, OwnedWell, StandsWell, InBounds, TasksClosed};

use engine::Engine;

// A station: its tasks run side by side over cells that stand in the caller's working slice. The ghost fields are what every station keeps.
#[derive(Drop)]
pub struct Station<B> {
    pub(crate) engine: Engine<B>,
    ghost sizes: { BoardSizes engine.board },
    ghost counts: { RowSizes engine.board },
    ghost limits: { TableSizes (code engine.program) engine.cells engine.consts },
    ghost bounds: { InBounds (code engine.program) engine.cells engine.consts },
    ghost ends: { TasksClosed (code engine.program) },
    ghost owners: { OwnedWell (code engine.program) engine.board },
    ghost places: { StandsWell (code engine.program) engine.board },
}
