ghost use Rattle.std.specs.Prelude.{◌≡◌, ◌↔◌, ◌*ℤ◌, IsTrue, IsOk};
ghost use Rattle.aw_cell.specs.CellArithmetic.{in_one_kind, is_numeric, integer_cell, number_cell, cell_sum, cell_difference, cell_product, cell_quotient, cell_negation, cell_size, cell_least, cell_greatest, keeps_range, converted, can_be_converted};

use crate::cell::{Cell, Kind};
use crate::number::{Arith, Number};

/// Two operands in one kind, where neither is NA.
enum Operands {
    /// One is NA.
    Na,
    /// Two INTEGERs.
    Integers(i32, i32),
    /// Two NUMBERs, one of which may have been an INTEGER.
    Numbers(Number, Number),
}

fn in_one_kind(left: Cell, right: Cell) -> Operands
    ensures { result ≡ in_one_kind left right }
{
    match (&left, &right) {
        (Cell::Int(left), Cell::Int(right)) => Operands::Integers(*left, *right),
        (Cell::Int(left), Cell::Num(right)) => Operands::Numbers(Number::of_whole(*left), *right),
        (Cell::Num(left), Cell::Int(right)) => Operands::Numbers(*left, Number::of_whole(*right)),
        (Cell::Num(left), Cell::Num(right)) => Operands::Numbers(*left, *right),
        _ => Operands::Na,
    }
}

fn integer(whole: i64) -> Result<Cell, Arith>
    ensures { result ≡ integer_cell whole }
{
    if whole < -2_147_483_647 || whole > 2_147_483_647 {
        return Err(Arith::Overflow);
    }
    Ok(Cell::Int(whole as i32))
}

fn integer_product(left: i32, right: i32) -> Result<Cell, Arith>
    ensures { result ≡ integer_cell (left *ℤ right) }
{
    integer(left as i64 * right as i64)
}

fn number(computed: Result<Number, Arith>) -> Result<Cell, Arith>
    ensures { result ≡ number_cell computed }
{
    match computed {
        Ok(number) => Ok(Cell::Num(number)),
        Err(why) => Err(why),
    }
}

impl Cell {
    /// The sum of two numbers, each of which may be NA: an INTEGER of two INTEGERs, else a NUMBER.
    /// `Overflow` where it is out of range (docs/LANGUAGE.md, "Numbers").
    pub fn add(self, other: Cell) -> Result<Cell, Arith>
        requires left { IsTrue (is_numeric self) }
        requires right { IsTrue (is_numeric other) }
        ensures { result ≡ cell_sum self other }
    {
        match in_one_kind(self, other) {
            Operands::Na => Ok(Cell::Na),
            Operands::Integers(left, right) => integer(left as i64 + right as i64),
            Operands::Numbers(left, right) => number(left.add(right)),
        }
    }

    /// The difference of two numbers, each of which may be NA: an INTEGER of two INTEGERs, else a
    /// NUMBER. `Overflow` where it is out of range (docs/LANGUAGE.md, "Numbers").
    pub fn sub(self, other: Cell) -> Result<Cell, Arith>
        requires left { IsTrue (is_numeric self) }
        requires right { IsTrue (is_numeric other) }
        ensures { result ≡ cell_difference self other }
    {
        match in_one_kind(self, other) {
            Operands::Na => Ok(Cell::Na),
            Operands::Integers(left, right) => integer(left as i64 - right as i64),
            Operands::Numbers(left, right) => number(left.sub(right)),
        }
    }

    /// The product of two numbers, each of which may be NA: an INTEGER of two INTEGERs, else a
    /// NUMBER, rounded. `Overflow` where it is out of range (docs/LANGUAGE.md, "Numbers").
    pub fn mul(self, other: Cell) -> Result<Cell, Arith>
        requires left { IsTrue (is_numeric self) }
        requires right { IsTrue (is_numeric other) }
        ensures { result ≡ cell_product self other }
    {
        match in_one_kind(self, other) {
            Operands::Na => Ok(Cell::Na),
            Operands::Integers(left, right) => integer_product(left, right),
            Operands::Numbers(left, right) => number(left.mul(right)),
        }
    }

    /// The quotient of two numbers, each of which may be NA: a NUMBER, rounded. `DivideByZero` for a
    /// zero divisor where neither is NA, and `Overflow` where the quotient is out of range
    /// (docs/LANGUAGE.md, "Numbers").
    pub fn div(self, other: Cell) -> Result<Cell, Arith>
        requires left { IsTrue (is_numeric self) }
        requires right { IsTrue (is_numeric other) }
        ensures { result ≡ cell_quotient self other }
    {
        match in_one_kind(self, other) {
            Operands::Na => Ok(Cell::Na),
            Operands::Integers(left, right) => {
                number(Number::of_whole(left).div(Number::of_whole(right)))
            }
            Operands::Numbers(left, right) => number(left.div(right)),
        }
    }

    /// MIN: the lesser of two numbers, each of which may be NA: an INTEGER of two INTEGERs, else a
    /// NUMBER. `Overflow` where it is -2147483648, which is no INTEGER (docs/LANGUAGE.md,
    /// "Numbers").
    pub fn min(self, other: Cell) -> Result<Cell, Arith>
        requires left { IsTrue (is_numeric self) }
        requires right { IsTrue (is_numeric other) }
        ensures { result ≡ cell_least self other }
    {
        match in_one_kind(self, other) {
            Operands::Na => Ok(Cell::Na),
            Operands::Integers(left, right) => integer(left.min(right) as i64),
            Operands::Numbers(left, right) => Ok(Cell::Num(left.min(right))),
        }
    }

    /// MAX: the greater of two numbers, each of which may be NA: an INTEGER of two INTEGERs, else a
    /// NUMBER. `Overflow` where it is -2147483648, which is no INTEGER (docs/LANGUAGE.md,
    /// "Numbers").
    pub fn max(self, other: Cell) -> Result<Cell, Arith>
        requires left { IsTrue (is_numeric self) }
        requires right { IsTrue (is_numeric other) }
        ensures { result ≡ cell_greatest self other }
    {
        match in_one_kind(self, other) {
            Operands::Na => Ok(Cell::Na),
            Operands::Integers(left, right) => integer(left.max(right) as i64),
            Operands::Numbers(left, right) => Ok(Cell::Num(left.max(right))),
        }
    }

    /// The negation of a number, which may be NA, in its own kind. `Overflow` where it is no INTEGER
    /// (docs/LANGUAGE.md, "Numbers").
    pub fn neg(self) -> Result<Cell, Arith>
        requires { IsTrue (is_numeric self) }
        ensures { result ≡ cell_negation self }
    {
        match self {
            Cell::Int(whole) => integer(-(whole as i64)),
            Cell::Num(number) => Ok(Cell::Num(number.neg())),
            _ => Ok(Cell::Na),
        }
    }

    /// ABS: how far a number, which may be NA, lies from zero, in its own kind. `Overflow` where this
    /// is no INTEGER (docs/LANGUAGE.md, "Numbers").
    pub fn abs(self) -> Result<Cell, Arith>
        requires { IsTrue (is_numeric self) }
        ensures { result ≡ cell_size self }
    {
        match self {
            Cell::Int(whole) => integer((whole as i64).abs()),
            Cell::Num(number) => Ok(Cell::Num(number.abs())),
            _ => Ok(Cell::Na),
        }
    }

    /// This cell in another kind: an INTEGER as the same NUMBER, a NUMBER rounded to an INTEGER;
    /// a cell of that kind and NA stay. `Overflow` where the rounded NUMBER is no INTEGER
    /// (docs/LANGUAGE.md, "Conversions").
    pub fn convert(self, kind: Kind) -> Result<Cell, Arith>
        requires { IsTrue (can_be_converted kind self) }
        ensures value { result ≡ converted kind self }
        ensures range { IsOk result ↔ IsTrue (keeps_range kind self) }
    {
        match (kind, self) {
            (Kind::Num, Cell::Int(whole)) => Ok(Cell::Num(Number::of_whole(whole))),
            (Kind::Int, Cell::Num(number)) => integer(number.rounded_to_whole()),
            _ => Ok(self),
        }
    }
}
