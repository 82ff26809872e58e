use std::alloc::AllocError;

/// Why a status wasn't changed.
#[derive(Clone, Copy, Debug, PartialEq, Eq)]
pub enum StatusFault {
    /// No value would be left.
    NullStatus,
    /// There isn't enough memory.
    NoMemory,
}

impl From<AllocError> for StatusFault {
    ghost use Rattle.std.specs.Prelude.{◌≡◌};
    ghost use Rattle.aw_status.specs.declared.fault.StatusFault.TheVariants.{NoMemory};

    ghost from_gives = { λ _ fault. fault ≡ NoMemory };

    fn from(_: AllocError) -> StatusFault {
        StatusFault::NoMemory
    }
}
