ghost use Rattle.std.specs.Prelude.{◌≡◌, IfOk, is_some, unwrap_or, []};
ghost use Rattle.dml_kinds.specs.Meanings.{names_in};
ghost use Rattle.dml_kinds.specs.inside.Parts.{part_of};

use crate::dimensions::free_dimensions;
use crate::gathering::push_targets;
use crate::scope::Scope;
use crate::types::ValueType;
use crate::typing::type_of;
use crate::weighing::weight;
use aw_lists::Coord;
use dml_tree::Expr;
use std::alloc::{AllocError, Global};

/// What is found of an expression before it is accepted.
#[derive(Clone, Copy, Debug)]
pub struct Part {
    /// Its type, where types fit.
    pub kind: Option<ValueType>,
    /// Its free dimensions in order of first appearance, where dimensions fit.
    pub dimensions: Option<Coord>,
    /// Its weight, or the greatest number where it weighs more.
    pub weight: u32,
}

/// What is found of an expression.
pub fn part_of(alloc: Global, scope: &Scope, expr: &Expr) -> Result<Part, AllocError>
    ensures { IfOk result (λ part. part ≡ part_of (names_in scope.now.catalogue.now scope.now.known.now scope.now.locals.now) expr.now) }
{
    let mut targets = Vec::new(alloc);
    push_targets(expr, &mut targets)?;
    let dimensions = free_dimensions(scope, alloc, &targets)?;
    Ok(Part {
        kind: type_of(scope, expr),
        dimensions,
        weight: weight(scope, expr),
    })
}
