ghost use Rattle.std.specs.Prelude.{◌≡◌};

use std::alloc::{AllocError, AllocFailed};

/// Why a relation is no hierarchy (docs/LANGUAGE.md, "Hierarchies").
#[derive(Clone, Copy, Debug, PartialEq, Eq)]
pub enum RelFault {
    /// The value with this slot is its own proper ancestor, and no value before it in the dimension is.
    Loop { slot: u16 },
    /// There isn't enough memory.
    NoMemory,
}

impl From<AllocError> for RelFault {
    ghost use Rattle.aw_rel.specs.declared.fault.RelFault.TheVariants.{NoMemory};

    ghost from_gives = { λ _ fault. fault ≡ NoMemory };

    fn from(_: AllocError) -> RelFault {
        RelFault::NoMemory
    }
}

impl<T: Drop> From<AllocFailed<T>> for RelFault {
    ghost use Rattle.aw_rel.specs.declared.fault.RelFault.TheVariants.{NoMemory};

    ghost from_gives = { λ _ fault. fault ≡ NoMemory };

    fn from(_: AllocFailed<T>) -> RelFault {
        RelFault::NoMemory
    }
}
