ghost use Rattle.std.specs.Prelude.{◌≡◌, ◌++◌, ◌∷◌, [], map, IfOk, OnOk};
ghost use Rattle.std.specs.List.{list_all};
ghost use Rattle.dml_kinds.specs.Meanings.{names_in};
ghost use Rattle.dml_kinds.specs.inside.Capped.{capped};
ghost use Rattle.dml_types.specs.inside.Parts as spec;

use crate::fitting::{own_dimensions_fit, own_types_fit};
use aw_lists::{Coord, List};
use dml_kinds::{Measure, Part, Scope, TypeFault, TypedExpr, ValueType, part_of, with_tree};
use dml_tree::{Expr, Statement};
use std::alloc::{AllocError, Global};

/// What is found of an expression before it is accepted.
#[derive(Clone, Copy, Debug)]
pub struct Found {
    /// Whether its types fit.
    pub is_typed: bool,
    /// Whether its dimensions fit.
    pub is_measured: bool,
    /// What it is where both do. Its weight is the greatest number where it weighs more.
    pub expression: Measure,
}

/// What is found of each of these expressions.
pub(crate) fn parts_of(
    alloc: Global,
    scope: &Scope,
    exprs: &[&Expr],
) -> Result<List<Found>, AllocError>
    ensures { IfOk result (λ parts. parts ≡ map (spec.found_of (names_in scope.now.catalogue.now scope.now.known.now scope.now.locals.now)) (map (λ e. e.now) exprs.now)) }
{
    let mut parts = List::new(alloc);
    for expr in exprs {
        push_part(alloc, scope, expr, &mut parts)?;
    }
    Ok(parts)
}

fn push_part(
    alloc: Global,
    scope: &Scope,
    expr: &Expr,
    into: &mut List<Found>,
) -> Result<(), AllocError>
    ensures { OnOk result (into.new ≡ into.old ++ spec.found_of (names_in scope.now.catalogue.now scope.now.known.now scope.now.locals.now) expr.now ∷ []) }
{
    match part_of(alloc, scope, expr) {
        Ok(part) => into.push(found_as(&part)),
        Err(_) => Err(AllocError),
    }
}

fn no_dimension() -> Coord
    ensures { result ≡ [] }
{
    Coord::of(&[]).unwrap()
}

/// An expression, as it is where it is accepted.
fn typed_part(part: &Part) -> Measure
    ensures { result ≡ spec.typed_part part.now }
{
    Measure {
        kind: part.kind.unwrap_or(ValueType::Na),
        dimensions: part.dimensions.unwrap_or(no_dimension()),
        weight: part.weight,
    }
}

/// What `part` is, without options.
fn found_as(part: &Part) -> Found
    ensures { result ≡ spec.found_as part.now }
{
    Found {
        is_typed: part.kind.is_some(),
        is_measured: part.dimensions.is_some(),
        expression: typed_part(part),
    }
}

fn are_typed(parts: &[Found]) -> bool
    ensures { result ≡ list_all (λ part. part.is_typed) parts.now }
{
    parts.iter().all(|part| part.is_typed)
}

fn types_of(alloc: Global, parts: &[Found]) -> Result<Vec<ValueType>, AllocError>
    ensures { IfOk result (λ types. types.items ≡ map (λ part. part.expression.kind) parts.now) }
{
    parts.iter().map(|part| part.expression.kind).collect(alloc)
}

/// Whether each has a type, and the statement wants these types.
fn types_fit(
    alloc: Global,
    scope: &Scope,
    statement: &Statement,
    parts: &[Found],
) -> Result<bool, AllocError>
    ensures { IfOk result (λ fits. fits ≡ spec.types_fit (names_in scope.now.catalogue.now scope.now.known.now scope.now.locals.now) scope.now.known.now statement.now parts.now) }
{
    if !are_typed(parts) {
        return Ok(false);
    }
    let types = types_of(alloc, parts)?;
    Ok(own_types_fit(scope, statement, &types))
}

fn are_measured(parts: &[Found]) -> bool
    ensures { result ≡ list_all (λ part. part.is_measured) parts.now }
{
    parts.iter().all(|part| part.is_measured)
}

fn dimensions_of(alloc: Global, parts: &[Found]) -> Result<Vec<Coord>, AllocError>
    ensures { IfOk result (λ all. all.items ≡ map (λ part. part.expression.dimensions) parts.now) }
{
    parts
        .iter()
        .map(|part| part.expression.dimensions)
        .collect(alloc)
}

/// Whether the dimensions of each fit, and the statement wants these free dimensions.
fn dimensions_fit(
    alloc: Global,
    scope: &Scope,
    statement: &Statement,
    parts: &[Found],
) -> Result<bool, AllocError>
    ensures { IfOk result (λ fits. fits ≡ spec.dimensions_fit (names_in scope.now.catalogue.now scope.now.known.now scope.now.locals.now) scope.now.known.now statement.now parts.now) }
{
    if !are_measured(parts) {
        return Ok(false);
    }
    let free = dimensions_of(alloc, parts)?;
    own_dimensions_fit(alloc, scope, statement, &free)
}

/// The sum of the weights, or the greatest number where it is more.
fn total_weight(parts: &[Found]) -> u32
    ensures { result ≡ capped (spec.total_weight parts.now) }
{
    let mut total: u32 = 0;
    for part in parts {
        total = total.saturating_add(part.expression.weight);
    }
    total
}

/// What refuses a statement of which no name is refused, by what was found of its expressions.
pub(crate) fn parts_refusal(
    alloc: Global,
    scope: &Scope,
    statement: &Statement,
    parts: &[Found],
) -> Result<Option<TypeFault>, AllocError>
    ensures { IfOk result (λ refusal. refusal ≡ spec.parts_refusal (names_in scope.now.catalogue.now scope.now.known.now scope.now.locals.now) scope.now.known.now statement.now parts.now) }
{
    if !types_fit(alloc, scope, statement, parts)? {
        return Ok(Some(TypeFault::Mismatch));
    }
    if !dimensions_fit(alloc, scope, statement, parts)? {
        return Ok(Some(TypeFault::Dimensions));
    }
    if total_weight(parts) > 4096 {
        return Ok(Some(TypeFault::TooMany));
    }
    Ok(None)
}

/// The expressions of an accepted statement, of which this was found.
pub(crate) fn typed_list(
    alloc: Global,
    scope: &Scope,
    exprs: &[&Expr],
    mut parts: &[Found],
) -> Result<List<TypedExpr>, AllocError>
    ensures { IfOk result (λ all. all ≡ spec.with_trees (names_in scope.now.catalogue.now scope.now.known.now scope.now.locals.now) scope.now.locals.now (map (λ e. e.now) exprs.now) parts.entry.now) }
{
    let mut typed = List::new(alloc);
    for expr in exprs {
        let [part, more @ ..] = parts else {
            return Ok(typed);
        };
        typed.push(with_tree(alloc, scope, expr, &part.expression)?)?;
        parts = more;
    }
    Ok(typed)
}
