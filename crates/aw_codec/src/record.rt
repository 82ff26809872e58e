ghost use Rattle.std.specs.Prelude.{◌≡◌};
ghost use Rattle.aw_codec.specs.declared.record.BadRecord.TheVariants as bad;
ghost use Rattle.aw_codec.specs.declared.record.CodeLong.TheVariants as long;

use aw_body::Change;
use aw_lists::List;
use aw_schema::Def;
use std::alloc::{AllocError, AllocFailed};

/// A record (docs/FORMATS.md, "Records").
#[derive(Drop)]
pub enum Decoded {
    /// The definitions of a workspace, in their order.
    Definitions(List<Def>),
    /// The changes of a commit, by rising number of their objects.
    Commit(List<Change>),
}

/// Why bytes weren't read as a record.
#[derive(Clone, Copy, Debug, PartialEq, Eq)]
pub enum BadRecord {
    /// They are no record: the offset, in bytes from 0, of the first field that may not stand there
    /// or in which they end, or of the first byte behind a whole record.
    At(u64),
    /// There was no memory for the record.
    NoMemory,
}

impl From<AllocError> for BadRecord {
    ghost from_gives = { λ _ e. e ≡ bad.NoMemory };

    fn from(_: AllocError) -> BadRecord {
        BadRecord::NoMemory
    }
}

impl<T: Drop> From<AllocFailed<T>> for BadRecord {
    ghost from_gives = { λ _ e. e ≡ bad.NoMemory };

    fn from(_: AllocFailed<T>) -> BadRecord {
        BadRecord::NoMemory
    }
}

/// Why a record wasn't spelled.
#[derive(Clone, Copy, Debug, PartialEq, Eq)]
pub enum CodeLong {
    /// It would have more than 67,108,864 bytes: how many, and 2^64-1 where they are more than that.
    TooLarge(u64),
    /// There was no memory for its bytes.
    NoMemory,
}

impl From<AllocError> for CodeLong {
    ghost from_gives = { λ _ e. e ≡ long.NoMemory };

    fn from(_: AllocError) -> CodeLong {
        CodeLong::NoMemory
    }
}

impl<T: Drop> From<AllocFailed<T>> for CodeLong {
    ghost from_gives = { λ _ e. e ≡ long.NoMemory };

    fn from(_: AllocFailed<T>) -> CodeLong {
        CodeLong::NoMemory
    }
}
