ghost use Rattle.std.specs.Prelude.{◌≡◌};
ghost use Rattle.dml_kinds.specs.Trees as spec;

use crate::types::ValueType;
use aw_cell::{Cell, Kind, Text};
use aw_lists::{Coord, List};
use dml_tree::Joint;
use sqlite_items::Boxed;

/// A value of a dimension at which an object is taken.
#[derive(Clone, Copy, Debug)]
pub struct FixedValue {
    /// The number of the dimension.
    pub dimension: u16,
    /// The name of the value.
    pub value: Text,
}

/// An object over dimensions, and the values at which it is taken.
#[derive(Debug, Drop)]
pub struct Taken {
    /// Its number.
    pub object: u16,
    /// Its dimensions by their numbers, in order.
    pub dimensions: Coord,
    /// The values that are fixed, in the order written.
    pub fixes: List<FixedValue>,
}

/// An expression with what its names mean in place of the names. Where an INTEGER meets a NUMBER, it
/// is taken as a NUMBER (docs/LANGUAGE.md, "Types").
#[derive(Debug, Drop)]
pub enum Tree {
    /// A literal, or NA.
    Literal(Cell),
    /// The local with this number, and its kind.
    Local(usize, Kind),
    /// The name of the place's value in the dimension with this number.
    Dimension(u16),
    /// The cell of a variable, and its kind.
    Variable(Kind, Taken),
    /// The name of the value to which a relation goes, which is one of the dimension with this number.
    Relation(u16, Taken),
    /// The expression of a formula, and its kind.
    Formula(Kind, Taken),
    /// NOT
    Not(Boxed<Tree>),
    /// The negation of a number of this kind.
    Negative(Kind, Boxed<Tree>),
    /// ABS of a number of this kind.
    Abs(Kind, Boxed<Tree>),
    /// An INTEGER as a NUMBER.
    AsNumber(Boxed<Tree>),
    /// Two operands, and the type in which they meet.
    Joined(Joint, ValueType, Boxed<Tree>, Boxed<Tree>),
    /// The type of the two branches, the condition, and the branches.
    If(ValueType, Boxed<Tree>, Boxed<Tree>, Boxed<Tree>),
}

/// The type of a literal.
fn cell_type(cell: &Cell) -> ValueType
    ensures { result ≡ spec.cell_type cell.now }
{
    match cell {
        Cell::Num(_) => ValueType::Of(Kind::Num),
        Cell::Int(_) => ValueType::Of(Kind::Int),
        Cell::Text(_) => ValueType::Of(Kind::Text),
        Cell::Bool(_) => ValueType::Of(Kind::Bool),
        _ => ValueType::Na,
    }
}

/// The type of what a joint gives, where its operands meet in this one.
fn joined_type(joint: Joint, met: ValueType) -> ValueType
    ensures { result ≡ spec.joined_type joint met }
{
    match joint {
        Joint::Or | Joint::And | Joint::Compare(_) => ValueType::Of(Kind::Bool),
        _ => met,
    }
}

impl Tree {
    /// Its type.
    pub fn kind(&self) -> ValueType
        ensures { result ≡ spec.tree_type self.now }
    {
        match self {
            Tree::Literal(cell) => cell_type(cell),
            Tree::Dimension(_) | Tree::Relation(..) => ValueType::Of(Kind::Text),
            Tree::Local(_, kind)
            | Tree::Variable(kind, _)
            | Tree::Formula(kind, _)
            | Tree::Negative(kind, _)
            | Tree::Abs(kind, _) => ValueType::Of(*kind),
            Tree::Not(_) => ValueType::Of(Kind::Bool),
            Tree::AsNumber(_) => ValueType::Of(Kind::Num),
            Tree::Joined(joint, met, _, _) => joined_type(*joint, *met),
            Tree::If(kind, _, _, _) => *kind,
        }
    }
}
