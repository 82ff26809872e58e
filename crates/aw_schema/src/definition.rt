ghost use Rattle.std.specs.Prelude.{◌≡◌};

use aw_cell::{Kind, Text};
use aw_lists::{Coord, List};

/// The definition of an object: its name and what it is (docs/LANGUAGE.md, "Definitions").
#[derive(Debug, PartialEq, Eq, Drop)]
pub struct Def {
    /// Its name, as it was written in the definition.
    pub name: Text,
    /// What kind of object it is.
    pub kind: DefKind,
}

/// The kinds of objects. Other objects are named by their numbers, which count from 0 in the order
/// of definition. Dimensions, relations, valuesets and variables are kept, and have generations.
#[derive(Debug, PartialEq, Eq, Drop)]
pub enum DefKind {
    /// A dimension, whose values are named by texts.
    Dimension,
    /// For each value of the dimension `base` a value of the dimension `target`, or none.
    Relation { target: u16, base: u16 },
    /// A list of values of a dimension.
    Valueset { dimension: u16 },
    /// Cells of one kind, one for each combination of values of the dimensions.
    Variable { kind: Kind, dimensions: Coord },
    /// An expression under a name, as its text.
    Formula { text: List<u8> },
    /// Statements under a name, as their text.
    Program { text: List<u8> },
    /// How cells are aggregated along relations, as its text.
    Aggmap { text: List<u8> },
}

impl DefKind {
    ghost use Rattle.aw_schema.specs.Definitions as spec;

    /// Whether it is a dimension.
    pub(crate) fn is_dimension(&self) -> bool
        ensures { result ≡ spec.is_dimension self.now }
    {
        matches!(self, DefKind::Dimension)
    }
}
