ghost use Rattle.std.specs.Prelude.{◌≡◌, IsTrue};
ghost use Rattle.aw_cell.specs.Logic.{is_truth, both, either, negated, filled};

use crate::cell::Cell;

impl Cell {
    /// AND of two BOOLEANs, each of which may be NA (docs/LANGUAGE.md, "AND, OR, NOT").
    pub fn and(self, other: Cell) -> Cell
        requires left { IsTrue (is_truth self) }
        requires right { IsTrue (is_truth other) }
        ensures { result ≡ both self other }
    {
        match (self, other) {
            (Cell::Bool(false), _) => Cell::Bool(false),
            (_, Cell::Bool(false)) => Cell::Bool(false),
            (Cell::Bool(true), Cell::Bool(true)) => Cell::Bool(true),
            _ => Cell::Na,
        }
    }

    /// OR of two BOOLEANs, each of which may be NA (docs/LANGUAGE.md, "AND, OR, NOT").
    pub fn or(self, other: Cell) -> Cell
        requires left { IsTrue (is_truth self) }
        requires right { IsTrue (is_truth other) }
        ensures { result ≡ either self other }
    {
        match (self, other) {
            (Cell::Bool(true), _) => Cell::Bool(true),
            (_, Cell::Bool(true)) => Cell::Bool(true),
            (Cell::Bool(false), Cell::Bool(false)) => Cell::Bool(false),
            _ => Cell::Na,
        }
    }

    /// NOT of a BOOLEAN, which may be NA (docs/LANGUAGE.md, "AND, OR, NOT").
    pub fn not(self) -> Cell
        requires { IsTrue (is_truth self) }
        ensures { result ≡ negated self }
    {
        match self {
            Cell::Bool(truth) => Cell::Bool(!truth),
            _ => Cell::Na,
        }
    }

    /// NAFILL: this cell, or the other one where this is NA (docs/LANGUAGE.md, "NA").
    pub fn fill(self, other: Cell) -> Cell
        ensures { result ≡ filled self other }
    {
        match self {
            Cell::Na => other,
            _ => self,
        }
    }
}
