ghost use Rattle.std.specs.Prelude.{◌≡◌};
ghost use Rattle.aw_page.specs.Fitting.{is_of_kind};

use aw_cell::{Cell, Kind};

/// Whether a cell is NA or of a kind (docs/LANGUAGE.md, "Cells and texts").
pub fn is_fitting(kind: Kind, cell: &Cell) -> bool
    ensures { result ≡ is_of_kind kind cell.now }
{
    match cell {
        Cell::Na => true,
        Cell::Num(_) => kind == Kind::Num,
        Cell::Int(_) => kind == Kind::Int,
        Cell::Text(_) => kind == Kind::Text,
        Cell::Bool(_) => kind == Kind::Bool,
        Cell::Slot(_) => kind == Kind::Slot,
    }
}
