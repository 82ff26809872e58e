ghost use Rattle.std.specs.Prelude.{◌≡◌};
ghost use Rattle.dml_kinds.specs.declared.fault.TypeFault.TheVariants as fault;

use aw_cell::Text;
use std::alloc::AllocError;

/// Why a statement or an expression isn't accepted: the first of these that applies
/// (docs/LANGUAGE.md, "Order of refusals").
#[derive(Clone, Copy, Debug)]
pub enum TypeFault {
    /// The first name of which nothing is known, as written.
    Unknown(Text),
    /// The first name that means something of another kind, as defined.
    WrongKind(Text),
    /// The first name that stands twice, as defined.
    Repeat(Text),
    /// Types don't fit.
    Mismatch,
    /// Dimensions don't fit, or there are more than six.
    Dimensions,
    /// It weighs more than 4,096.
    TooMany,
    /// There was no memory.
    NoMemory,
}

impl From<AllocError> for TypeFault {
    ghost from_gives = { λ _ e. e ≡ fault.NoMemory };

    fn from(_: AllocError) -> TypeFault {
        TypeFault::NoMemory
    }
}
