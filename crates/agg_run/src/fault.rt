ghost use Rattle.std.specs.Prelude.{◌≡◌};

use aw_lists::Coord;
use std::alloc::{AllocError, AllocFailed};

/// Why an aggregation is refused (docs/LANGUAGE.md, "Aggregation").
#[derive(Clone, Copy, Debug)]
pub enum AggFault {
    /// On the relation of this line, counted from 0, the value with this slot is its own proper
    /// ancestor.
    Loop { line: u16, slot: u16 },
    /// There are so many combinations of the dimensions' values.
    TooLarge(u128),
    /// The cell with this key would be out of range.
    Overflow(Coord),
    /// There isn't enough memory.
    NoMemory,
}

impl From<AllocError> for AggFault {
    ghost use Rattle.agg_run.specs.declared.fault.AggFault.TheVariants.{NoMemory};

    ghost from_gives = { λ _ fault. fault ≡ NoMemory };

    fn from(_: AllocError) -> AggFault {
        AggFault::NoMemory
    }
}

impl<T: Drop> From<AllocFailed<T>> for AggFault {
    ghost use Rattle.agg_run.specs.declared.fault.AggFault.TheVariants.{NoMemory};

    ghost from_gives = { λ _ fault. fault ≡ NoMemory };

    fn from(_: AllocFailed<T>) -> AggFault {
        AggFault::NoMemory
    }
}
