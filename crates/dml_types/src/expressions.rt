ghost use Rattle.std.specs.Prelude.{◌≡◌, ◌∷◌, [], map, IfOk};
ghost use Rattle.dml_kinds.specs.Meanings.{names_in};
ghost use Rattle.dml_types.specs.Statements as spec;

use crate::naming::{limited, set_over};
use aw_cell::Text;
use dml_kinds::Scope;
use dml_tree::{Expr, Select, Statement, Target};
use std::alloc::{AllocError, Global};

/// The name of a target without fixed values.
fn sole_target(target: &Target) -> Option<Text>
    ensures { result ≡ spec.sole_target target.now target.now.fixes }
{
    match target.fixes.as_slice() {
        [] => Some(target.name),
        _ => None,
    }
}

/// The name that an expression is, without fixed values and parentheses.
fn sole_name(expr: &Expr) -> Option<Text>
    ensures { result ≡ spec.sole_name expr.now }
{
    match expr {
        Expr::Object(target) => sole_target(target),
        _ => None,
    }
}

fn same_dimension(one: Option<u16>, other: Option<u16>) -> bool
    ensures { result ≡ spec.same_dimension one other }
{
    match (one, other) {
        (Some(one), Some(other)) => one == other,
        _ => false,
    }
}

/// Whether an expression is a sole name of a valueset over the dimension that is limited.
fn is_sole_set(scope: &Scope, dimension: Option<u16>, expr: &Expr) -> bool
    ensures { result ≡ spec.is_sole_set (names_in scope.now.catalogue.now scope.now.known.now scope.now.locals.now) dimension expr.now }
{
    match sole_name(expr) {
        Some(name) => same_dimension(dimension, set_over(scope, &name)),
        None => same_dimension(dimension, None),
    }
}

fn one<'a>(alloc: Global, expr: &'a Expr) -> Result<Vec<&'a Expr>, AllocError>
    ensures { IfOk result (λ all. map (λ e. e.now) all.items ≡ expr.now ∷ []) }
{
    let mut all = Vec::new(alloc);
    all.push(expr)?;
    Ok(all)
}

fn each<'a>(alloc: Global, exprs: &'a [Expr]) -> Result<Vec<&'a Expr>, AllocError>
    ensures { IfOk result (λ all. map (λ e. e.now) all.items ≡ exprs.now) }
{
    let mut all = Vec::new(alloc);
    for expr in exprs {
        all.push(expr)?;
    }
    Ok(all)
}

/// The expressions of a selection from this dimension.
fn select_expressions<'a>(
    alloc: Global,
    scope: &Scope,
    dimension: Option<u16>,
    what: &'a Select,
) -> Result<Vec<&'a Expr>, AllocError>
    ensures { IfOk result (λ all. map (λ e. e.now) all.items ≡ spec.select_expressions (names_in scope.now.catalogue.now scope.now.known.now scope.now.locals.now) dimension what.now) }
{
    match what {
        Select::Top(_, by) | Select::Bottom(_, by) => one(alloc, by),
        Select::Where(test) => {
            if is_sole_set(scope, dimension, test) {
                Ok(Vec::new(alloc))
            } else {
                one(alloc, test)
            }
        }
        _ => Ok(Vec::new(alloc)),
    }
}

/// The expressions of a statement, in the order in which they stand. A valueset that is selected
/// from is none.
pub(crate) fn expressions<'a>(
    alloc: Global,
    scope: &Scope,
    statement: &'a Statement,
) -> Result<Vec<&'a Expr>, AllocError>
    ensures { IfOk result (λ all. map (λ e. e.now) all.items ≡ spec.expressions (names_in scope.now.catalogue.now scope.now.known.now scope.now.locals.now) statement.now) }
{
    match statement {
        Statement::Assign(_, expr) | Statement::Show(expr) | Statement::Report(expr) => {
            one(alloc, expr)
        }
        Statement::Limit(name, _, what) => {
            select_expressions(alloc, scope, limited(scope, name), what)
        }
        Statement::Call(_, arguments) => each(alloc, arguments.as_slice()),
        _ => Ok(Vec::new(alloc)),
    }
}
