//! Cells that are written over a copy of a variable.

ghost use Rattle.std.specs.Prelude.{◌≡◌, ◌<◌, ◌≤◌, ◌↔◌, IfOk, IsTrue, IsErr};
ghost use Rattle.std.specs.List.{list_all};
ghost use Rattle.aw_var.specs.CellPatch.{overwritten as cells_after};
ghost use Rattle.aw_var.specs.Pages.{page_count};
ghost use Rattle.aw_var.specs.Variable.{IsVariable};
ghost use Rattle.aw_body.specs.BodyPatches.{AreChangesOf};

use crate::fault::ViewFault;
use aw_cell::Cell;
use aw_lists::Coord;
use aw_var::{VarFault, Variable};
use std::alloc::AllocError;

/// A variable with these cells, one after the other. `Full` where it would then lie on more than 65,536
/// pages.
pub fn overwritten(variable: &Variable, cells: &[(Coord, Cell)]) -> Result<Variable, ViewFault>
    requires { AreChangesOf variable.now cells.now }
    ensures value { IfOk result (λ newer. newer ≡ record variable.now { cells = cells_after variable.now.cells cells.now }) }
    ensures room { IfOk result (λ newer. page_count newer.cells ≤ 65536) }
    ensures full { result ≡ Err ViewFault.Full → 65536 < page_count (cells_after variable.now.cells cells.now) }
    ensures valid { IfOk result (λ newer. IsVariable newer) }
{
    let newer = with_cells(variable, cells)?;
    within_pages(newer)
}

fn with_cells(variable: &Variable, cells: &[(Coord, Cell)]) -> Result<Variable, AllocError>
    requires { AreChangesOf variable.now cells.now }
    ensures { IfOk result (λ newer. newer ≡ record variable.now { cells = cells_after variable.now.cells cells.now }) }
{
    let mut newer = variable.copied()?;
    for (at, cell) in cells {
        match newer.put(at, *cell) {
            Ok(()) => {}
            Err(error) => return Err(error),
        }
    }
    Ok(newer)
}

/// A variable whose cells lie on at most 65,536 pages. Setting one cell to what it is tells that.
fn within_pages(mut variable: Variable) -> Result<Variable, ViewFault>
    ensures value { IfOk result (λ same. same ≡ variable) }
    ensures room { IfOk result (λ same. page_count same.cells ≤ 65536) }
    ensures full { result ≡ Err ViewFault.Full → 65536 < page_count variable.cells }
    ensures valid { IsVariable variable }
{
    let _ = variable.is_empty();
    let zeros = [0; 6];
    let Some(at) = Coord::of(&zeros[..usize::from(variable.slots())]) else {
        unreachable!()
    };
    let cell = variable.get(&at);
    match variable.set(&at, cell) {
        Ok(()) => Ok(variable),
        Err(VarFault::Full) => Err(ViewFault::Full),
        Err(VarFault::NoMemory) => Err(ViewFault::NoMemory),
    }
}
