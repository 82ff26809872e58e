ghost use Rattle.std.specs.Prelude.{◌≡◌};
ghost use Rattle.aw_dim.specs.declared.fault.DimFault.TheVariants.{NoMemory};

use std::alloc::{AllocError, AllocFailed};

/// Why a dimension wasn't changed.
#[derive(Clone, Copy, Debug, PartialEq, Eq)]
pub enum DimFault {
    /// Another value has the name.
    Duplicate,
    /// All 65,536 slots were given.
    Full,
    /// No value has the slot.
    NoValue,
    /// There was no memory for a value.
    NoMemory,
}

impl From<AllocError> for DimFault {
    ghost from_gives = { λ _ fault. fault ≡ NoMemory };

    fn from(_: AllocError) -> DimFault {
        DimFault::NoMemory
    }
}

impl<T: Drop> From<AllocFailed<T>> for DimFault {
    ghost from_gives = { λ _ fault. fault ≡ NoMemory };

    fn from(_: AllocFailed<T>) -> DimFault {
        DimFault::NoMemory
    }
}
