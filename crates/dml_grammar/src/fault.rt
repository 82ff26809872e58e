use std::alloc::AllocError;

/// Why the tokens of a line or a block are no statement or definition (docs/LANGUAGE.md, "How a line
/// is read").
#[derive(Clone, Copy, Debug, PartialEq, Eq)]
pub enum ParseFault {
    /// The tokens up to and with the one at this place begin nothing, or they end too early there.
    /// Columns count from 1 in the whole line. Lines count from 1 in a block, and the line of a
    /// statement or of a definition of one line is 0.
    Syntax {
        /// The line.
        line: u32,
        /// The column.
        column: u32,
    },
    /// This line of a program begins with a word that stands only in lines of a session.
    NotHere {
        /// The line, counted from 1 at the DEFINE line.
        line: u32,
    },
    /// There was no memory for the tree.
    NoMemory,
}

/// Why a part wasn't read.
#[derive(Clone, Copy, Debug)]
pub enum Fault {
    /// The first token that is left doesn't go on.
    Syntax,
    /// There was no memory for the tree.
    NoMemory,
}

impl From<AllocError> for Fault {
    ghost use Rattle.std.specs.Prelude.{◌≡◌};
    ghost use Rattle.dml_grammar.specs.declared.fault.Fault.TheVariants.{NoMemory};

    ghost from_gives = { λ _ e. e ≡ NoMemory };

    fn from(_: AllocError) -> Fault {
        Fault::NoMemory
    }
}

impl From<AllocError> for ParseFault {
    ghost use Rattle.std.specs.Prelude.{◌≡◌};
    ghost use Rattle.dml_grammar.specs.declared.fault.ParseFault.TheVariants.{NoMemory};

    ghost from_gives = { λ _ e. e ≡ NoMemory };

    fn from(_: AllocError) -> ParseFault {
        ParseFault::NoMemory
    }
}
