use std::alloc::{AllocError, AllocFailed};

/// Why a cell can't be set (docs/LANGUAGE.md, "Limits").
#[derive(Clone, Copy, Debug, PartialEq, Eq)]
pub enum VarFault {
    /// The cells would need more than 65,536 pages.
    Full,
    /// There isn't enough memory.
    NoMemory,
}

impl From<AllocError> for VarFault {
    ghost use Rattle.std.specs.Prelude.{◌≡◌};
    ghost use Rattle.aw_var.specs.declared.fault.VarFault.TheVariants.{NoMemory};

    ghost from_gives = { λ _ fault. fault ≡ NoMemory };

    fn from(_: AllocError) -> VarFault {
        VarFault::NoMemory
    }
}
