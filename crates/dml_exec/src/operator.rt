//! The operators, by how many operands they take.
ghost use Rattle.std.specs.Prelude.{◌≡◌, Some, IsSome};
ghost use Rattle.dml_exec.specs.Operators.{of_one, of_two, kind_of_one, kind_of_two, is_number, is_decimal, is_boolean, are_numbers, are_alike, can_compare};

use aw_cell::{Arith, Cell, Kind, Order};

/// An operator of one operand.
#[derive(Clone, Copy)]
pub enum Unary {
    Neg,
    Abs,
    Convert(Kind),
    Not,
}

/// An operator of two operands.
#[derive(Clone, Copy)]
pub enum Binary {
    Add,
    Sub,
    Mul,
    Div,
    Min,
    Max,
    NaFill,
    Compare(Order),
    And,
    Or,
}

fn is_number(kind: Kind) -> bool
    ensures { result ≡ is_number kind }
{
    match kind {
        Kind::Num => true,
        Kind::Int => true,
        _ => false,
    }
}

fn is_decimal(kind: Kind) -> bool
    ensures { result ≡ is_decimal kind }
{
    match kind {
        Kind::Num => true,
        _ => false,
    }
}

fn is_boolean(kind: Kind) -> bool
    ensures { result ≡ is_boolean kind }
{
    match kind {
        Kind::Bool => true,
        _ => false,
    }
}

fn are_numbers(left: Kind, right: Kind) -> bool
    ensures { result ≡ are_numbers left right }
{
    match (left, right) {
        (Kind::Num, Kind::Num) => true,
        (Kind::Int, Kind::Int) => true,
        _ => false,
    }
}

fn are_alike(left: Kind, right: Kind) -> bool
    ensures { result ≡ are_alike left right }
{
    match (left, right) {
        (Kind::Text, Kind::Text) => true,
        (Kind::Bool, Kind::Bool) => true,
        _ => are_numbers(left, right),
    }
}

fn can_compare(order: Order, left: Kind, right: Kind) -> bool
    ensures { result ≡ can_compare order left right }
{
    match (order, left, right) {
        (Order::Eq, Kind::Bool, Kind::Bool) => true,
        (Order::Ne, Kind::Bool, Kind::Bool) => true,
        (_, Kind::Text, Kind::Text) => true,
        _ => are_numbers(left, right),
    }
}

impl Unary {
    /// What it gives of a cell that it can take.
    pub fn of(self, cell: Cell) -> Result<Cell, Arith>
        requires { IsSome (of_one self cell) }
        ensures { of_one self cell ≡ Some result }
    {
        match self {
            Unary::Neg => cell.neg(),
            Unary::Abs => cell.abs(),
            Unary::Convert(kind) => cell.convert(kind),
            Unary::Not => Ok(cell.not()),
        }
    }

    /// The kind of what it gives of a kind, or `None` where it can't take it.
    pub fn kind(self, kind: Kind) -> Option<Kind>
        ensures { result ≡ kind_of_one self kind }
    {
        match self {
            Unary::Neg => is_number(kind).then_some(kind),
            Unary::Abs => is_number(kind).then_some(kind),
            Unary::Convert(to) => (is_number(to) && is_number(kind)).then_some(to),
            Unary::Not => is_boolean(kind).then_some(kind),
        }
    }
}

impl Binary {
    /// What it gives of two cells that it can take.
    pub fn of(self, left: Cell, right: Cell) -> Result<Cell, Arith>
        requires { IsSome (of_two self left right) }
        ensures { of_two self left right ≡ Some result }
    {
        match self {
            Binary::Add => left.add(right),
            Binary::Sub => left.sub(right),
            Binary::Mul => left.mul(right),
            Binary::Div => left.div(right),
            Binary::Min => left.min(right),
            Binary::Max => left.max(right),
            Binary::NaFill => Ok(left.fill(right)),
            Binary::Compare(order) => Ok(left.compare(order, right)),
            Binary::And => Ok(left.and(right)),
            Binary::Or => Ok(left.or(right)),
        }
    }

    /// The kind of what it gives of two kinds, or `None` where it can't take them.
    pub fn kind(self, left: Kind, right: Kind) -> Option<Kind>
        ensures { result ≡ kind_of_two self left right }
    {
        match self {
            Binary::Add => are_numbers(left, right).then_some(left),
            Binary::Sub => are_numbers(left, right).then_some(left),
            Binary::Mul => are_numbers(left, right).then_some(left),
            Binary::Div => (is_decimal(left) && are_numbers(left, right)).then_some(left),
            Binary::Min => are_numbers(left, right).then_some(left),
            Binary::Max => are_numbers(left, right).then_some(left),
            Binary::NaFill => are_alike(left, right).then_some(left),
            Binary::Compare(order) => can_compare(order, left, right).then_some(Kind::Bool),
            Binary::And => (is_boolean(left) && is_boolean(right)).then_some(left),
            Binary::Or => (is_boolean(left) && is_boolean(right)).then_some(left),
        }
    }
}
