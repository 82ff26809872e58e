ghost use Rattle.std.specs.Prelude.{◌≡◌, IsTrue};
ghost use Rattle.aw_cell.specs.Comparison.{are_equal, order_of, can_be_compared, unless_na, compared};

use crate::cell::Cell;
use crate::number::Number;
use std::cmp::Ordering;

/// How two cells are compared (docs/LANGUAGE.md, "Comparison").
#[derive(Clone, Copy, Debug, PartialEq, Eq)]
pub enum Order {
    /// Equal.
    Eq,
    /// Not equal.
    Ne,
    /// Less.
    Lt,
    /// Less or equal.
    Le,
    /// Greater.
    Gt,
    /// Greater or equal.
    Ge,
}

fn are_equal(left: &Cell, right: &Cell) -> bool
    ensures { result ≡ are_equal left.now right.now }
{
    match (left, right) {
        (Cell::Na, Cell::Na) => true,
        (Cell::Num(left), Cell::Num(right)) => left == right,
        (Cell::Num(left), Cell::Int(right)) => *left == Number::of_whole(*right),
        (Cell::Int(left), Cell::Num(right)) => Number::of_whole(*left) == *right,
        (Cell::Int(left), Cell::Int(right)) => left == right,
        (Cell::Text(left), Cell::Text(right)) => left == right,
        (Cell::Bool(left), Cell::Bool(right)) => left == right,
        (Cell::Slot(left), Cell::Slot(right)) => left == right,
        _ => false,
    }
}

fn order_of(left: &Cell, right: &Cell) -> Ordering
    ensures { result ≡ order_of left.now right.now }
{
    match (left, right) {
        (Cell::Num(left), Cell::Num(right)) => left.units().cmp(&right.units()),
        (Cell::Num(left), Cell::Int(right)) => left.units().cmp(&Number::of_whole(*right).units()),
        (Cell::Int(left), Cell::Num(right)) => Number::of_whole(*left).units().cmp(&right.units()),
        (Cell::Int(left), Cell::Int(right)) => left.cmp(right),
        (Cell::Text(left), Cell::Text(right)) => left.bytes().cmp(&right.bytes()),
        _ => Ordering::Equal,
    }
}

fn unless_na(left: &Cell, right: &Cell, answer: bool) -> Cell
    ensures { result ≡ unless_na left.now right.now (Cell.Bool answer) }
{
    match (left, right) {
        (Cell::Na, _) => Cell::Na,
        (_, Cell::Na) => Cell::Na,
        _ => Cell::Bool(answer),
    }
}

impl Cell {
    /// YES, NO or NA: whether the two cells stand in this order. Two numbers or two texts, or two
    /// BOOLEANs for `Eq` and `Ne` alone; each may be NA (docs/LANGUAGE.md, "Comparison").
    pub fn compare(self, order: Order, other: Cell) -> Cell
        requires { IsTrue (can_be_compared order self other) }
        ensures { result ≡ compared order self other }
    {
        match order {
            Order::Eq => Cell::Bool(are_equal(&self, &other)),
            Order::Ne => Cell::Bool(!are_equal(&self, &other)),
            Order::Lt => unless_na(&self, &other, order_of(&self, &other).is_lt()),
            Order::Le => unless_na(&self, &other, order_of(&self, &other).is_le()),
            Order::Gt => unless_na(&self, &other, order_of(&self, &other).is_gt()),
            Order::Ge => unless_na(&self, &other, order_of(&self, &other).is_ge()),
        }
    }
}
