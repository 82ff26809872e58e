use aw_cell::{Arith, Text};
use std::alloc::AllocError;

/// Why a loop ends without an answer.
#[derive(Clone, Copy, Debug)]
pub enum LoopFault {
    /// Arithmetic has no result.
    Arith(Arith),
    /// A dimension has no value of this name.
    NoValue(Text),
    /// The list of this dimension is empty.
    Empty { dimension: u16 },
    /// There are more places than the statement may go to.
    TooMany,
    /// There isn't enough memory.
    NoMemory,
}

impl From<AllocError> for LoopFault {
    ghost use Rattle.std.specs.Prelude.{◌≡◌};
    ghost use Rattle.dml_loop.specs.declared.fault.LoopFault.TheVariants.{NoMemory};

    ghost from_gives = { λ _ fault. fault ≡ NoMemory };

    fn from(_: AllocError) -> LoopFault {
        LoopFault::NoMemory
    }
}

impl From<Arith> for LoopFault {
    ghost use Rattle.std.specs.Prelude.{◌≡◌};
    ghost use Rattle.dml_loop.specs.declared.fault.LoopFault.TheVariants.{Arith};

    ghost from_gives = { λ why fault. fault ≡ Arith why };

    fn from(why: Arith) -> LoopFault {
        LoopFault::Arith(why)
    }
}
