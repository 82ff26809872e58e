ghost use Rattle.std.specs.Prelude.{◌≡◌};
ghost use Rattle.dim_maintain.specs.declared.fault.MaintainFault.TheVariants.{NoMemory};

use aw_cell::Text;
use std::alloc::AllocError;

/// Why the values of a dimension aren't changed (docs/LANGUAGE.md, "MAINTAIN").
#[derive(Clone, Copy, Debug, PartialEq, Eq)]
pub enum MaintainFault {
    /// No value has this name, or it is empty, as no value's name is.
    NoValue(Text),
    /// This name was written before, is that of a value already, or is a moved value's own place.
    Repeated(Text),
    /// More than 65,536 slots would be given.
    Full,
    /// There isn't enough memory.
    NoMemory,
}

impl From<AllocError> for MaintainFault {
    ghost from_gives = { λ _ fault. fault ≡ NoMemory };

    fn from(_: AllocError) -> MaintainFault {
        MaintainFault::NoMemory
    }
}
