ghost use Rattle.std.specs.Prelude.{◌≡◌};
ghost use Rattle.dml_tree.specs.Sorts.{sort_of, count_of, same_sort};

use crate::word::Word;
use aw_cell::{Number, Text};
use std::alloc::AllocError;

/// A token that is one byte (docs/LANGUAGE.md, "Tokens").
#[derive(Clone, Copy, Debug, PartialEq, Eq)]
pub enum Symbol {
    /// `=`
    Equals,
    /// `(`
    Open,
    /// `)`
    Close,
    /// `,`
    Comma,
    /// `<`
    Less,
    /// `>`
    Greater,
    /// `+`
    Plus,
    /// `-`
    Minus,
    /// `*`
    Star,
    /// `/`
    Slash,
}

/// What a token is (docs/LANGUAGE.md, "Tokens").
#[derive(Clone, Copy, Debug)]
pub enum Lexeme {
    /// A name, as it is written.
    Name(Text),
    /// A reserved word.
    Word(Word),
    /// A numeral without a point, up to 2147483647.
    Integer(i32),
    /// A numeral without a point that is greater, which is a NUMBER.
    Whole(Number),
    /// A numeral with a point, which is a NUMBER.
    Decimal(Number),
    /// A text, without its quotes and escapes and with spaces for its tabs.
    Text(Text),
    /// A token of one byte.
    Symbol(Symbol),
    /// The end of the line.
    End,
}

/// What a token is without what it says: which rule of the grammar it fits.
#[derive(Clone, Copy, Debug)]
pub enum Sort {
    /// A name.
    Name,
    /// A numeral without a point, up to 2147483647.
    Integer,
    /// A numeral without a point that is greater.
    Whole,
    /// A numeral with a point.
    Decimal,
    /// A text.
    Text,
    /// The end of the line.
    End,
    /// This symbol.
    Symbol(Symbol),
    /// This reserved word.
    Word(Word),
}

/// A token of a line, and where it stands: its first byte is at `from`, counted from 0 in the whole
/// line, and `to` is the place behind its last one (docs/LANGUAGE.md, "Tokens").
#[derive(Clone, Copy, Debug)]
pub struct Token {
    /// What it is.
    pub what: Lexeme,
    /// The place of its first byte.
    pub from: u32,
    /// The place behind its last byte.
    pub to: u32,
}

/// Why a line has no list of tokens (docs/LANGUAGE.md, "Tokens").
#[derive(Clone, Copy, Debug)]
pub enum TokenFault {
    /// No token begins at this column, or the one that begins there is faulty. Columns count from 1 in
    /// the whole line.
    Lexical {
        /// The column.
        column: u32,
    },
    /// There was no memory for the list.
    NoMemory,
}

impl From<AllocError> for TokenFault {
    ghost use Rattle.std.specs.Prelude.{◌≡◌};
    ghost use Rattle.dml_tree.specs.declared.token.TokenFault.TheVariants.{NoMemory};

    ghost from_gives = { λ _ e. e ≡ NoMemory };

    fn from(_: AllocError) -> TokenFault {
        TokenFault::NoMemory
    }
}

impl Lexeme {
    /// Its sort.
    pub fn sort(&self) -> Sort
        ensures { result ≡ sort_of self.now }
    {
        match self {
            Lexeme::Name(_) => Sort::Name,
            Lexeme::Word(word) => Sort::Word(*word),
            Lexeme::Integer(_) => Sort::Integer,
            Lexeme::Whole(_) => Sort::Whole,
            Lexeme::Decimal(_) => Sort::Decimal,
            Lexeme::Text(_) => Sort::Text,
            Lexeme::Symbol(symbol) => Sort::Symbol(*symbol),
            Lexeme::End => Sort::End,
        }
    }

    /// How many a numeral without a point counts, and `None` for any other token.
    pub fn count(&self) -> Option<u64>
        ensures { result ≡ count_of self.now }
    {
        match self {
            Lexeme::Integer(whole) => Some(whole.unsigned_abs() as u64),
            Lexeme::Whole(number) => Some(number.units().unsigned_abs() / 10_000),
            _ => None,
        }
    }
}

impl Sort {
    /// Whether two sorts are the same.
    pub fn is(&self, other: Sort) -> bool
        ensures { result ≡ same_sort self.now other }
    {
        match (self, &other) {
            (Sort::Word(one), Sort::Word(other)) => one == other,
            (Sort::Symbol(one), Sort::Symbol(other)) => one == other,
            (Sort::Name, Sort::Name)
            | (Sort::Integer, Sort::Integer)
            | (Sort::Whole, Sort::Whole)
            | (Sort::Decimal, Sort::Decimal)
            | (Sort::Text, Sort::Text)
            | (Sort::End, Sort::End) => true,
            _ => false,
        }
    }
}
