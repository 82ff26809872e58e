ghost use Rattle.std.specs.Prelude.{◌≡◌, ◌++◌, map, OnOk, IfOk};
ghost use Rattle.dml_kinds.specs.Names as spec;

use crate::meaning::{Role, Use};
use aw_cell::Text;
use dml_tree::{Expr, Fix, Target};
use std::alloc::{AllocError, Global};

/// Adds the names of an expression with their fixed values, in the order in which they stand.
pub fn push_targets<'a>(expr: &'a Expr, into: &mut Vec<&'a Target>) -> Result<(), AllocError>
    ensures { OnOk result (map (λ target. target.now) into.new.items ≡ map (λ target. target.now) into.old.items ++ spec.targets expr.now) }
{
    match expr {
        Expr::Na | Expr::Integer(_) | Expr::Number(_) | Expr::Text(_) | Expr::Truth(_) => Ok(()),
        Expr::Object(target) => {
            into.push(target)?;
            Ok(())
        }
        Expr::Grouped(inner) => push_targets(inner.get(), into),
        Expr::Not(operand) | Expr::Negative(operand) | Expr::Abs(operand) => {
            push_targets(operand.get(), into)
        }
        Expr::Joined(_, left, right) => {
            push_targets(left.get(), into)?;
            push_targets(right.get(), into)
        }
        Expr::If(condition, first, second) => {
            push_targets(condition.get(), into)?;
            push_targets(first.get(), into)?;
            push_targets(second.get(), into)
        }
    }
}

/// The role of a name with these fixed values.
fn role_of(plain: Role, taken: Role, fixes: &[Fix]) -> Role
    ensures { result ≡ spec.role_of plain taken fixes.now }
{
    match fixes {
        [] => plain,
        _ => taken,
    }
}

/// Adds a name and the dimensions of its fixed values, with their roles.
pub fn push_uses(
    plain: Role,
    taken: Role,
    target: &Target,
    into: &mut Vec<Use>,
) -> Result<(), AllocError>
    ensures { OnOk result (into.new.items ≡ into.old.items ++ spec.uses_of plain taken target.now) }
{
    into.push(Use {
        name: target.name,
        role: role_of(plain, taken, target.fixes.as_slice()),
    })?;
    for fix in target.fixes.as_slice() {
        into.push(Use {
            name: fix.dimension,
            role: Role::Dimension,
        })?;
    }
    Ok(())
}

/// Adds the names of values and the dimensions of their fixed values, with their roles.
pub fn push_value_uses(targets: &[&Target], into: &mut Vec<Use>) -> Result<(), AllocError>
    ensures { OnOk result (into.new.items ≡ into.old.items ++ spec.uses (map (λ target. target.now) targets.now)) }
{
    for target in targets {
        push_uses(Role::Value, Role::Taken, target, into)?;
    }
    Ok(())
}

/// The dimensions of fixed values, as written.
pub fn fixed_names(alloc: Global, fixes: &[Fix]) -> Result<Vec<Text>, AllocError>
    ensures { IfOk result (λ names. names.items ≡ spec.fixed_names fixes.now) }
{
    fixes.iter().map(|fix| fix.dimension).collect(alloc)
}
