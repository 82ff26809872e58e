ghost use Rattle.std.specs.Prelude.{◌≡◌, ◌↔◌, IsTrue};
ghost use Rattle.aw_cell.specs.Cell.{same_cell};

use crate::number::Number;
use crate::text::Text;

/// The value of one cell: NA, or a value of one of the kinds (docs/LANGUAGE.md, "Cells and texts").
#[derive(Clone, Copy, Debug)]
pub enum Cell {
    /// No value.
    Na,
    /// A NUMBER.
    Num(Number),
    /// An INTEGER.
    Int(i32),
    /// A TEXT.
    Text(Text),
    /// A BOOLEAN.
    Bool(bool),
    /// A value of a dimension, by its slot.
    Slot(u16),
}

impl PartialEq for Cell {
    ghost use Rattle.aw_cell.specs.Cell.{same_cell};
    ghost use Rattle.aw_cell.specs.SameCell.{same_cell_partial_equivalence};

    ghost eq = { same_cell };

    ghost laws = { same_cell_partial_equivalence };

    fn eq(&self, other: &Cell) -> bool
        ensures same { result ≡ same_cell self.now other.now }
        ensures equal { IsTrue result ↔ (self.now ≡ other.now) }
    {
        match (self, other) {
            (Cell::Na, Cell::Na) => true,
            (Cell::Num(left), Cell::Num(right)) => left == right,
            (Cell::Int(left), Cell::Int(right)) => left == right,
            (Cell::Text(left), Cell::Text(right)) => left == right,
            (Cell::Bool(left), Cell::Bool(right)) => left == right,
            (Cell::Slot(left), Cell::Slot(right)) => left == right,
            _ => false,
        }
    }
}

impl Eq for Cell {
    ghost use Rattle.aw_cell.specs.SameCell.{same_cell_equivalence};

    ghost laws = { same_cell_equivalence };
}

/// The kinds of values that a cell holds where it isn't NA (docs/LANGUAGE.md, "Cells and texts").
#[derive(Clone, Copy, Debug, PartialEq, Eq)]
pub enum Kind {
    /// A NUMBER.
    Num,
    /// An INTEGER.
    Int,
    /// A TEXT.
    Text,
    /// A BOOLEAN.
    Bool,
    /// A value of a dimension.
    Slot,
}
