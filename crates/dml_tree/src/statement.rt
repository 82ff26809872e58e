use crate::expr::{Expr, Target};
use aw_cell::Text;
use aw_lists::List;

/// How a session attaches (docs/LANGUAGE.md, "AW").
#[derive(Clone, Copy, Debug, PartialEq, Eq)]
pub enum Mode {
    /// MULTI: it may change objects.
    Multi,
    /// RO: it only reads.
    ReadOnly,
}

/// Where values come to stand in their dimension (docs/LANGUAGE.md, "MAINTAIN").
#[derive(Clone, Copy, Debug)]
pub enum Place {
    /// FIRST
    First,
    /// LAST, also where ADD names no place.
    Last,
    /// BEFORE this value.
    Before(Text),
    /// AFTER this value.
    After(Text),
}

/// Values in a selection (docs/LANGUAGE.md, "LIMIT").
#[derive(Clone, Copy, Debug)]
pub enum Range {
    /// This value.
    Value(Text),
    /// The values from one to another.
    Through(Text, Text),
}

/// What LIMIT does with a status (docs/LANGUAGE.md, "LIMIT").
#[derive(Clone, Copy, Debug, PartialEq, Eq)]
pub enum Limiting {
    /// TO
    To,
    /// ADD
    Add,
    /// KEEP
    Keep,
    /// REMOVE
    Remove,
    /// COMPLEMENT
    Complement,
}

/// Which way a selection goes along a relation (docs/LANGUAGE.md, "LIMIT").
#[derive(Clone, Copy, Debug, PartialEq, Eq)]
pub enum Kin {
    /// PARENTS
    Parents,
    /// CHILDREN
    Children,
    /// ANCESTORS
    Ancestors,
    /// DESCENDANTS
    Descendants,
}

/// What LIMIT selects (docs/LANGUAGE.md, "LIMIT").
#[derive(Debug, Drop)]
pub enum Select {
    /// ALL
    All,
    /// Values and ranges of values, in the order written.
    Ranges(List<Range>),
    /// FIRST, with how many.
    First(u64),
    /// LAST, with how many.
    Last(u64),
    /// TOP, with how many and by what.
    Top(u64, Expr),
    /// BOTTOM, with how many and by what.
    Bottom(u64, Expr),
    /// The kin of the current values by the relation of this name.
    Kin(Kin, Text),
    /// Where an expression is YES, or the values of the valueset that it names alone.
    Where(Expr),
}

/// A statement as it is written; names are as written, and a list of names that isn't written is empty
/// (docs/LANGUAGE.md, "Statements").
#[derive(Debug, Drop)]
pub enum Statement {
    /// AW ATTACH
    Attach(Mode),
    /// AW DETACH
    Detach,
    /// COMMIT
    Commit,
    /// ACQUIRE: plain names, those behind RESYNC, and those behind CONSISTENT WITH.
    Acquire(List<Text>, List<Text>, List<Text>),
    /// RESYNC
    Resync(List<Text>),
    /// RELEASE
    Release(List<Text>),
    /// REVERT, of all objects where no name is written.
    Revert(List<Text>),
    /// UPDATE, of all objects where no name is written.
    Update(List<Text>),
    /// MAINTAIN a dimension ADD values at a place.
    Add(Text, List<Text>, Place),
    /// MAINTAIN a dimension DELETE values.
    Delete(Text, List<Text>),
    /// MAINTAIN a dimension MOVE values to a place.
    Move(Text, List<Text>, Place),
    /// MAINTAIN a dimension RENAME an old value to a new one.
    Rename(Text, Text, Text),
    /// An assignment to a target.
    Assign(Target, Expr),
    /// SHOW
    Show(Expr),
    /// REPORT
    Report(Expr),
    /// LIMIT a dimension or valueset.
    Limit(Text, Limiting, Select),
    /// AGGREGATE a variable USING an aggmap.
    Aggregate(Text, Text),
    /// ALLOCATE a source BASIS a basis TARGET a target USING an aggmap.
    Allocate(Text, Text, Text, Text),
    /// CALL a program with arguments.
    Call(Text, List<Expr>),
}
