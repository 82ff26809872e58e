use std::alloc::AllocError;

/// Why ops are no code.
#[derive(Clone, Copy, Debug, PartialEq, Eq)]
pub enum CodeFault {
    /// The op at this place is the first bad one; or no op is bad, and the end, behind as many ops,
    /// hasn't just one cell.
    Bad { at: u32 },
    /// There isn't enough memory.
    NoMemory,
}

impl From<AllocError> for CodeFault {
    ghost use Rattle.std.specs.Prelude.{◌≡◌};
    ghost use Rattle.dml_exec.specs.declared.fault.CodeFault.TheVariants.{NoMemory};

    ghost from_gives = { λ _ fault. fault ≡ NoMemory };

    fn from(_: AllocError) -> CodeFault {
        CodeFault::NoMemory
    }
}
