use crate::expr::Expr;
use crate::statement::Statement;
use aw_cell::{Kind, Operator, Rest, Text};
use aw_lists::List;
use sqlite_items::Items;

/// An argument or a variable of a program. Lines count from 1 at the DEFINE line (docs/LANGUAGE.md,
/// "Programs").
#[derive(Clone, Copy, Debug)]
pub struct Local {
    /// The line in which it stands.
    pub line: u32,
    /// Its name, as written.
    pub name: Text,
    /// Its kind.
    pub kind: Kind,
}

/// A step of a program, with the line in which it begins, counted from 1 at the DEFINE line
/// (docs/LANGUAGE.md, "Programs").
#[derive(Debug, Drop)]
pub enum Step {
    /// A plain statement.
    Plain(u32, Statement),
    /// RETURN
    Return(u32),
    /// WHILE a condition holds.
    While(u32, Expr, Items<Step>),
    /// FOR each value of a dimension in status.
    For(u32, Text, Items<Step>),
    /// IF, with the steps behind THEN and those behind ELSE, none where it has no ELSE.
    If(u32, Expr, Items<Step>, Items<Step>),
}

/// The body of a program (docs/LANGUAGE.md, "Programs").
#[derive(Debug, Drop)]
pub struct Program {
    /// Its arguments in the order written.
    pub arguments: List<Local>,
    /// Its own variables in the order written.
    pub variables: List<Local>,
    /// Its steps.
    pub steps: Items<Step>,
}

/// Which child of an allocation gets what is left: what REMOPERATOR writes (docs/LANGUAGE.md,
/// "Aggregation maps").
#[derive(Clone, Copy, Debug, PartialEq, Eq)]
pub enum Remainder {
    /// No REMOPERATOR is written.
    Unwritten,
    /// REMOPERATOR, and which.
    To(Rest),
}

/// A line of an aggmap. Lines count from 1 at the DEFINE line (docs/LANGUAGE.md, "Aggregation maps").
#[derive(Clone, Copy, Debug)]
pub struct MapLine {
    /// The line in which it stands.
    pub line: u32,
    /// The name of the relation, as written.
    pub relation: Text,
    /// What it does along the relation.
    pub operator: Operator,
    /// What its REMOPERATOR writes.
    pub rest: Remainder,
}

/// What is defined (docs/LANGUAGE.md, "Definitions").
#[derive(Debug, Drop)]
pub enum Defined {
    /// A dimension.
    Dimension,
    /// A relation to the dimension of the first name, over the dimension of the second one.
    Relation(Text, Text),
    /// A valueset of this dimension.
    ValueSet(Text),
    /// A variable of this kind over these dimensions.
    Variable(Kind, List<Text>),
    /// A formula: its expression, and the places in the line of its first byte and behind its last one.
    Formula(Expr, u32, u32),
    /// A program.
    Program(Program),
    /// An aggmap, with its lines.
    AggMap(List<MapLine>),
}

/// A definition as it is written (docs/LANGUAGE.md, "Definitions").
#[derive(Debug, Drop)]
pub struct Definition {
    /// The name, as written.
    pub name: Text,
    /// What it is the name of.
    pub what: Defined,
}
