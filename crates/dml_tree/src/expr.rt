use aw_cell::{Number, Order, Text};
use aw_lists::List;
use sqlite_items::Boxed;

/// A value of a dimension at which an object is taken: `dimension 'value'` (docs/LANGUAGE.md,
/// "Expressions").
#[derive(Clone, Copy, Debug)]
pub struct Fix {
    /// The name of the dimension, as written.
    pub dimension: Text,
    /// The name of the value.
    pub value: Text,
}

/// A name and the values at which it is taken, none of them where there are no parentheses
/// (docs/LANGUAGE.md, "Expressions").
#[derive(Debug, Drop)]
pub struct Target {
    /// The name of the object or local, as written.
    pub name: Text,
    /// The fixed values in the order written.
    pub fixes: List<Fix>,
}

/// What joins two operands (docs/LANGUAGE.md, "Expressions").
#[derive(Clone, Copy, Debug, PartialEq, Eq)]
pub enum Joint {
    /// OR
    Or,
    /// AND
    And,
    /// EQ, NE, LT, LE, GT or GE
    Compare(Order),
    /// `+`
    Add,
    /// `-`
    Sub,
    /// `*`
    Mul,
    /// `/`
    Div,
    /// MIN
    Min,
    /// MAX
    Max,
    /// NAFILL
    NaFill,
}

/// An expression as it is written (docs/LANGUAGE.md, "Expressions").
#[derive(Debug, Drop)]
pub enum Expr {
    /// NA
    Na,
    /// A numeral that is an INTEGER.
    Integer(i32),
    /// A numeral that is a NUMBER.
    Number(Number),
    /// A text.
    Text(Text),
    /// YES and TRUE, or NO and FALSE.
    Truth(bool),
    /// A name, with the values at which it is taken.
    Object(Target),
    /// An expression in parentheses.
    Grouped(Boxed<Expr>),
    /// NOT
    Not(Boxed<Expr>),
    /// `-` in front of an operand.
    Negative(Boxed<Expr>),
    /// ABS
    Abs(Boxed<Expr>),
    /// Two operands.
    Joined(Joint, Boxed<Expr>, Boxed<Expr>),
    /// The condition, and the expressions behind THEN and ELSE.
    If(Boxed<Expr>, Boxed<Expr>, Boxed<Expr>),
}
