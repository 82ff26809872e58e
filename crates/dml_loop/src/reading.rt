ghost use Rattle.std.specs.Prelude.{◌≡◌, ◌≤◌};
ghost use Rattle.dml_exec.specs.CodeRuns.{CanRun};
ghost use Rattle.dml_loop.specs.Evaluation.{cell_of, read_at};

use crate::fault::LoopFault;
use aw_cell::Cell;
use dml_exec::{Cells, Code, Place, Stack, run};

/// Code, and what it reads at each place of a loop.
#[derive(Drop)]
pub struct Reading<'a, C> {
    pub code: &'a Code,
    pub cells: &'a C,
    /// A slot for each fix of the code.
    pub fixed: &'a [u16],
    pub locals: &'a [Cell],
}

/// The cell that the code gives at a place.
pub fn cell_at<C: Cells>(
    reading: &Reading<C>,
    place: &Place,
    stack: &mut Stack,
) -> Result<Cell, LoopFault>
    requires room { reading.now.code.now.deepest ≤ stack.old.room }
    requires fits { CanRun reading.now.code.now (read_at (C.cell_at reading.now.cells.now) (C.name_at reading.now.cells.now) reading.now.fixed.now reading.now.locals.now place.now) (C.may_read reading.now.cells.now) (C.may_name reading.now.cells.now) }
    ensures value { result ≡ cell_of reading.now.code.now (read_at (C.cell_at reading.now.cells.now) (C.name_at reading.now.cells.now) reading.now.fixed.now reading.now.locals.now place.now) }
    ensures room { stack.new.room ≡ stack.old.room }
{
    Ok(run(
        reading.code,
        reading.cells,
        place,
        reading.fixed,
        reading.locals,
        stack,
    )?)
}
