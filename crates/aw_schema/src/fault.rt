ghost use Rattle.std.specs.Prelude.{◌≡◌};
ghost use Rattle.aw_schema.specs.declared.fault.SchemaFault.TheVariants as fault;

use aw_cell::Text;
use std::alloc::{AllocError, AllocFailed};

/// Why a definition wasn't accepted (docs/LANGUAGE.md, "Definitions").
#[derive(Clone, Copy, Debug, PartialEq, Eq)]
pub enum SchemaFault {
    /// An object has this name already; or this dimension comes twice among the dimensions of a
    /// variable.
    Repeat(Text),
    /// There are as many objects as there may be, 4,096.
    TooMany,
    /// No object has this number.
    Unknown(u16),
    /// The object of this name is no dimension.
    WrongKind(Text),
    /// There was no memory for the definition.
    NoMemory,
}

impl From<AllocError> for SchemaFault {
    ghost from_gives = { λ _ e. e ≡ fault.NoMemory };

    fn from(_: AllocError) -> SchemaFault {
        SchemaFault::NoMemory
    }
}

impl<T: Drop> From<AllocFailed<T>> for SchemaFault {
    ghost from_gives = { λ _ e. e ≡ fault.NoMemory };

    fn from(_: AllocFailed<T>) -> SchemaFault {
        SchemaFault::NoMemory
    }
}
