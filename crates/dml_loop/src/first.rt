ghost use Rattle.std.specs.Prelude.{◌≡◌, ◌∷◌, [], IfOk};
ghost use Rattle.dml_loop.specs.Fixes.{Answers};
ghost use Rattle.dml_loop.specs.Evaluation.{cell_of, read_at, first_of, first_place, first_places, shown, CanLoop};

use crate::fault::LoopFault;
use crate::list::DimensionList;
use crate::reading::{Reading, cell_at};
use aw_cell::Cell;
use aw_lists::List;
use dml_exec::{Cells, Place, Stack};
use std::alloc::Global;

fn first_of(list: &DimensionList) -> Result<(u16, u16), LoopFault>
    ensures { result ≡ first_of list.now.0 list.now.1 }
{
    match list.slots {
        [slot, ..] => Ok((list.dimension, *slot)),
        [] => Err(LoopFault::Empty {
            dimension: list.dimension,
        }),
    }
}

/// Each dimension at the first slot of its list. The first dimension whose list is empty is refused
/// (docs/ARCHITECTURE.md, "Loops").
pub fn first_place(alloc: Global, lists: &[DimensionList]) -> Result<Place, LoopFault>
    ensures { Answers (first_place lists.now) result }
{
    let mut place = List::from_vec(Vec::with_capacity(alloc, lists.len())?);
    for list in lists {
        let entry = first_of(list)?;
        place.push(entry)?;
    }
    Ok(place)
}

/// The cell at the first slot of each list, as SHOW prints it (docs/ARCHITECTURE.md, "Loops").
pub fn shown<C: Cells>(
    alloc: Global,
    reading: &Reading<C>,
    lists: &[DimensionList],
    stack: &mut Stack,
) -> Result<Cell, LoopFault>
    requires { CanLoop reading.now.code.now (read_at (C.cell_at reading.now.cells.now) (C.name_at reading.now.cells.now) reading.now.fixed.now reading.now.locals.now) (first_places lists.now) (C.may_read reading.now.cells.now) (C.may_name reading.now.cells.now) }
    ensures { Answers (shown (λ place. cell_of reading.now.code.now (read_at (C.cell_at reading.now.cells.now) (C.name_at reading.now.cells.now) reading.now.fixed.now reading.now.locals.now place)) lists.now) result }
{
    let place = first_place(alloc, lists)?;
    stack.reserve(reading.code)?;
    cell_at(reading, &place, stack)
}
