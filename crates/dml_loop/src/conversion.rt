ghost use Rattle.std.specs.Prelude.{◌≡◌};
ghost use Rattle.aw_cell.specs.CellArithmetic.{converted};
ghost use Rattle.dml_loop.specs.declared.conversion.Target.TheVariants.{Relation};
ghost use Rattle.dml_loop.specs.Evaluation.{stored};

use crate::fault::LoopFault;
use crate::fixes::{Slots, slot_or};
use aw_cell::{Arith, Cell, Kind};

/// Where cells are stored.
#[derive(Clone, Copy)]
pub enum Target {
    /// In a variable or a local of this kind.
    Kind(Kind),
    /// In a relation to the dimension with this number.
    Relation(u16),
}

fn converted(kind: Kind, cell: Cell) -> Result<Cell, Arith>
    ensures { result ≡ converted kind cell }
{
    match (kind, &cell) {
        (Kind::Num, Cell::Int(_)) | (Kind::Int, Cell::Num(_)) => cell.convert(kind),
        _ => Ok(cell),
    }
}

fn related<S: Slots>(slots: &S, dimension: u16, cell: Cell) -> Result<Cell, LoopFault>
    ensures { result ≡ stored (S.slot_of slots.now) (Relation dimension) cell }
{
    match &cell {
        Cell::Text(value) => slot_or(slots, dimension, value).map(Cell::Slot),
        _ => Ok(cell),
    }
}

/// What a cell becomes in its target.
pub fn stored<S: Slots>(slots: &S, target: Target, cell: Cell) -> Result<Cell, LoopFault>
    ensures { result ≡ stored (S.slot_of slots.now) target cell }
{
    match target {
        Target::Kind(kind) => Ok(converted(kind, cell)?),
        Target::Relation(dimension) => related(slots, dimension, cell),
    }
}
