ghost use Rattle.std.specs.Prelude.{◌≡◌};
ghost use Rattle.dml_kinds.specs.Types as spec;

use aw_cell::{Kind, Order};
use dml_tree::Joint;

/// The type of an expression (docs/LANGUAGE.md, "Types").
#[derive(Clone, Copy, Debug, PartialEq, Eq)]
pub enum ValueType {
    /// NA alone, which fits every type.
    Na,
    /// One of the kinds.
    Of(Kind),
}

impl ValueType {
    /// Whether it fits where a number is wanted.
    pub fn is_number(self) -> bool
        ensures { result ≡ spec.is_number self }
    {
        matches!(
            self,
            ValueType::Na | ValueType::Of(Kind::Int) | ValueType::Of(Kind::Num)
        )
    }

    /// Whether it fits where a TEXT is wanted.
    pub fn is_text(self) -> bool
        ensures { result ≡ spec.is_text self }
    {
        matches!(self, ValueType::Na | ValueType::Of(Kind::Text))
    }

    /// Whether it fits where a BOOLEAN is wanted.
    pub fn is_truth(self) -> bool
        ensures { result ≡ spec.is_truth self }
    {
        matches!(self, ValueType::Na | ValueType::Of(Kind::Bool))
    }
}

fn only_if(holds: bool, kind: Kind) -> Option<ValueType>
    ensures { result ≡ spec.only_if holds kind }
{
    if holds {
        Some(ValueType::Of(kind))
    } else {
        None
    }
}

fn wider(one: ValueType, other: ValueType) -> Kind
    ensures { result ≡ spec.wider one other }
{
    match (one, other) {
        (ValueType::Of(Kind::Num), _) | (_, ValueType::Of(Kind::Num)) => Kind::Num,
        _ => Kind::Int,
    }
}

/// The type of a sum, a difference, a product, MIN and MAX.
fn number_type(one: ValueType, other: ValueType) -> Option<ValueType>
    ensures { result ≡ spec.number_type one other }
{
    only_if(one.is_number() && other.is_number(), wider(one, other))
}

/// The type of a quotient.
fn quotient_type(one: ValueType, other: ValueType) -> Option<ValueType>
    ensures { result ≡ spec.quotient_type one other }
{
    only_if(one.is_number() && other.is_number(), Kind::Num)
}

/// The type of AND and OR.
fn truth_type(one: ValueType, other: ValueType) -> Option<ValueType>
    ensures { result ≡ spec.truth_type one other }
{
    only_if(one.is_truth() && other.is_truth(), Kind::Bool)
}

fn compares_truths(order: Order) -> bool
    ensures { result ≡ spec.compares_truths order }
{
    matches!(order, Order::Eq | Order::Ne)
}

/// The type of a comparison.
fn comparison_type(order: Order, one: ValueType, other: ValueType) -> Option<ValueType>
    ensures { result ≡ spec.comparison_type order one other }
{
    let numbers = one.is_number() && other.is_number();
    let texts = one.is_text() && other.is_text();
    let truths = one.is_truth() && other.is_truth() && compares_truths(order);
    only_if(numbers || texts || truths, Kind::Bool)
}

/// The type of NAFILL, and of a choice between two branches.
fn common_type(one: ValueType, other: ValueType) -> Option<ValueType>
    ensures { result ≡ spec.common_type one other }
{
    match (one, other) {
        (ValueType::Na, _) => Some(other),
        (_, ValueType::Na) => Some(one),
        (ValueType::Of(Kind::Text), ValueType::Of(Kind::Text)) => Some(one),
        (ValueType::Of(Kind::Bool), ValueType::Of(Kind::Bool)) => Some(one),
        _ => number_type(one, other),
    }
}

/// The type of two operands that are joined, or `None` where theirs don't fit.
pub(crate) fn joint_type(joint: Joint, one: ValueType, other: ValueType) -> Option<ValueType>
    ensures { result ≡ spec.joint_type joint one other }
{
    match joint {
        Joint::Or | Joint::And => truth_type(one, other),
        Joint::Compare(order) => comparison_type(order, one, other),
        Joint::Add | Joint::Sub | Joint::Mul | Joint::Min | Joint::Max => number_type(one, other),
        Joint::Div => quotient_type(one, other),
        Joint::NaFill => common_type(one, other),
    }
}

/// The type of NOT.
pub(crate) fn negated_type(operand: ValueType) -> Option<ValueType>
    ensures { result ≡ spec.negated_type operand }
{
    truth_type(operand, ValueType::Na)
}

/// The type of a negation and of ABS.
pub(crate) fn size_type(operand: ValueType) -> Option<ValueType>
    ensures { result ≡ spec.size_type operand }
{
    number_type(operand, ValueType::Na)
}

/// The type of IF.
pub(crate) fn choice_type(
    condition: ValueType,
    first: ValueType,
    second: ValueType,
) -> Option<ValueType>
    ensures { result ≡ spec.choice_type condition first second }
{
    if condition.is_truth() {
        common_type(first, second)
    } else {
        None
    }
}
