ghost use Rattle.std.specs.Prelude.{◌≡◌};
ghost use Rattle.agg_map.specs.declared.fault.MapFault.TheVariants as fault;

use aw_cell::Text;
use std::alloc::AllocError;

/// Why a text is no aggregation map. Lines count from 1 in the text (docs/LANGUAGE.md, "Aggregation
/// maps").
#[derive(Clone, Copy, Debug, PartialEq, Eq)]
pub enum MapFault {
    /// The tokens up to and with the one at this place begin no line of a map, or they end too early
    /// there. Columns count from 1.
    Syntax {
        /// The line.
        line: u32,
        /// The column.
        column: u32,
    },
    /// No object has this name, which is as it is written.
    Unknown {
        /// The line.
        line: u32,
        /// The name.
        name: Text,
    },
    /// The object of this name is no relation from a dimension to itself, or it is one too many.
    WrongKind {
        /// The line.
        line: u32,
        /// The object's name.
        name: Text,
    },
    /// The relation is along a dimension of an earlier line.
    Repeat {
        /// The line.
        line: u32,
        /// The dimension's name.
        name: Text,
    },
    /// There was no memory for the map.
    NoMemory,
}

impl From<AllocError> for MapFault {
    ghost from_gives = { λ _ e. e ≡ fault.NoMemory };

    fn from(_: AllocError) -> MapFault {
        MapFault::NoMemory
    }
}
