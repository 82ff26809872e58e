ghost use Rattle.std.specs.Prelude.{◌≡◌};
ghost use Rattle.dml_kinds.specs.Meanings.{names_in, kind_named};
ghost use Rattle.dml_kinds.specs.Types.{type_of, joint_type, choice_type, from_two, from_three};

use crate::scope::Scope;
use crate::types::{ValueType, choice_type, joint_type, negated_type, size_type};
use aw_cell::{Kind, Text};
use dml_tree::{Expr, Joint};

impl<'a> Scope<'a> {
    /// The kind of the value that a name means, or `None` where it means none.
    pub fn kind(&self, name: &Text) -> Option<Kind>
        ensures { result ≡ kind_named (names_in self.now.catalogue.now self.now.known.now self.now.locals.now) name.now }
    {
        match self.known(name) {
            Some(known) => known.meaning.kind(),
            None => None,
        }
    }
}

/// The type of an expression, or `None` where types don't fit.
pub(crate) fn type_of(scope: &Scope, expr: &Expr) -> Option<ValueType>
    ensures { result ≡ type_of (names_in scope.now.catalogue.now scope.now.known.now scope.now.locals.now) expr.now }
{
    match expr {
        Expr::Na => Some(ValueType::Na),
        Expr::Integer(_) => Some(ValueType::Of(Kind::Int)),
        Expr::Number(_) => Some(ValueType::Of(Kind::Num)),
        Expr::Text(_) => Some(ValueType::Of(Kind::Text)),
        Expr::Truth(_) => Some(ValueType::Of(Kind::Bool)),
        Expr::Object(target) => match scope.kind(&target.name) {
            Some(kind) => Some(ValueType::Of(kind)),
            None => None,
        },
        Expr::Grouped(inner) => type_of(scope, inner.get()),
        Expr::Not(operand) => match type_of(scope, operand.get()) {
            Some(operand) => negated_type(operand),
            None => None,
        },
        Expr::Negative(operand) | Expr::Abs(operand) => match type_of(scope, operand.get()) {
            Some(operand) => size_type(operand),
            None => None,
        },
        Expr::Joined(joint, left, right) => {
            joined(
                *joint,
                type_of(scope, left.get()),
                type_of(scope, right.get()),
            )
        }
        Expr::If(condition, first, second) => chosen(
            type_of(scope, condition.get()),
            type_of(scope, first.get()),
            type_of(scope, second.get()),
        ),
    }
}

/// The type of two operands that are joined, where both have one.
fn joined(joint: Joint, one: Option<ValueType>, other: Option<ValueType>) -> Option<ValueType>
    ensures { result ≡ from_two (joint_type joint) one other }
{
    match (one, other) {
        (Some(one), Some(other)) => joint_type(joint, one, other),
        _ => None,
    }
}

/// The type of IF, where its three parts have one.
fn chosen(
    condition: Option<ValueType>,
    first: Option<ValueType>,
    second: Option<ValueType>,
) -> Option<ValueType>
    ensures { result ≡ from_three choice_type condition first second }
{
    match (condition, first, second) {
        (Some(condition), Some(first), Some(second)) => choice_type(condition, first, second),
        _ => None,
    }
}
