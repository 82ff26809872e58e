use std::alloc::AllocError;

/// Why cells can't be written (docs/LANGUAGE.md, "Limits").
#[derive(Clone, Copy, Debug, PartialEq, Eq)]
pub enum ViewFault {
    /// The cells would lie on more than 65,536 pages.
    Full,
    /// There isn't enough memory.
    NoMemory,
}

impl From<AllocError> for ViewFault {
    ghost use Rattle.std.specs.Prelude.{◌≡◌};
    ghost use Rattle.mv_view.specs.declared.fault.ViewFault.TheVariants.{NoMemory};

    ghost from_gives = { λ _ fault. fault ≡ NoMemory };

    fn from(_: AllocError) -> ViewFault {
        ViewFault::NoMemory
    }
}
