ghost use Rattle.std.specs.Prelude.{◌≡◌, IfOk};
ghost use Rattle.std.specs.List.{list_all};
ghost use Rattle.dml_kinds.specs.Meanings.{names_in};
ghost use Rattle.dml_kinds.specs.FreeDimensions.{is_among};
ghost use Rattle.dml_kinds.specs.Types as kinds;
ghost use Rattle.dml_types.specs.Statements as spec;

use crate::naming::{limited, meaning, number_kind};
use aw_cell::{Kind, Operator, Text};
use aw_lists::Coord;
use dml_kinds::{Meaning, Scope, Signature, ValueType, is_among};
use dml_tree::{Select, Statement, Target};
use std::alloc::{AllocError, Global};

/// Whether a value of this type can be stored as one of this kind.
fn is_storable(kind: Kind, value: ValueType) -> bool
    ensures { result ≡ spec.is_storable kind value }
{
    match kind {
        Kind::Num | Kind::Int => value.is_number(),
        Kind::Text => value.is_text(),
        Kind::Bool => value.is_truth(),
        Kind::Slot => false,
    }
}

fn each_storable(kind: Kind, types: &[ValueType]) -> bool
    ensures { result ≡ list_all (spec.is_storable kind) types.now }
{
    types.iter().all(|value| is_storable(kind, *value))
}

fn all_storable(kind: Option<Kind>, types: &[ValueType]) -> bool
    ensures { result ≡ spec.all_storable kind types.now }
{
    match kind {
        Some(kind) => each_storable(kind, types),
        None => false,
    }
}

/// Whether there are as many as a program has arguments, each of which can be stored as its
/// argument.
fn arguments_fit(kinds: &[Kind], mut types: &[ValueType]) -> bool
    ensures { result ≡ spec.arguments_fit kinds.now types.entry.now }
{
    for kind in kinds {
        let [value, more @ ..] = types else {
            return false;
        };
        if !is_storable(*kind, *value) {
            return false;
        }
        types = more;
    }
    matches!(types, [])
}

fn program_takes(scope: &Scope, object: u16, types: &[ValueType]) -> bool
    ensures { result ≡ spec.arguments_fit (spec.arguments_told scope.now.known.now object) types.now }
{
    match scope.known.get(object) {
        Some(Signature::Program { arguments }) => arguments_fit(arguments.as_slice(), types),
        _ => arguments_fit(&[], types),
    }
}

/// Whether types fit the arguments of the program that this name means.
fn call_fits(scope: &Scope, program: &Text, types: &[ValueType]) -> bool
    ensures { result ≡ spec.arguments_fit (spec.program_named (names_in scope.now.catalogue.now scope.now.known.now scope.now.locals.now) scope.now.known.now program.now) types.now }
{
    match meaning(scope, program) {
        Some(Meaning::Program(object)) => program_takes(scope, object, types),
        _ => arguments_fit(&[], types),
    }
}

fn all_numbers(types: &[ValueType]) -> bool
    ensures { result ≡ list_all kinds.is_number types.now }
{
    types.iter().all(|value| value.is_number())
}

fn all_truths(types: &[ValueType]) -> bool
    ensures { result ≡ list_all kinds.is_truth types.now }
{
    types.iter().all(|value| value.is_truth())
}

fn select_types_fit(what: &Select, types: &[ValueType]) -> bool
    ensures { result ≡ spec.select_types_fit what.now types.now }
{
    match what {
        Select::Top(..) | Select::Bottom(..) => all_numbers(types),
        Select::Where(_) => all_truths(types),
        _ => true,
    }
}

fn same_number_kind(one: Option<Kind>, other: Option<Kind>) -> bool
    ensures { result ≡ spec.same_number_kind one other }
{
    match (one, other) {
        (Some(Kind::Num), Some(Kind::Num)) | (Some(Kind::Int), Some(Kind::Int)) => true,
        _ => false,
    }
}

fn is_some_kind(kind: Option<Kind>) -> bool
    ensures { result ≡ spec.is_some_kind kind }
{
    match kind {
        Some(_) => true,
        None => false,
    }
}

/// Whether the types of its expressions, and its other names, are what a statement wants.
pub(crate) fn own_types_fit(scope: &Scope, statement: &Statement, types: &[ValueType]) -> bool
    ensures { result ≡ spec.own_types_fit (names_in scope.now.catalogue.now scope.now.known.now scope.now.locals.now) scope.now.known.now statement.now types.now }
{
    match statement {
        Statement::Assign(target, _) => all_storable(scope.kind(&target.name), types),
        Statement::Limit(_, _, what) => select_types_fit(what, types),
        Statement::Aggregate(variable, _) => is_some_kind(number_kind(scope, variable)),
        Statement::Allocate(source, basis, target, _) => {
            is_some_kind(number_kind(scope, basis))
                && same_number_kind(number_kind(scope, source), number_kind(scope, target))
        }
        Statement::Call(program, _) => call_fits(scope, program, types),
        _ => true,
    }
}

fn relates(dimension: Option<u16>, meaning: &Meaning) -> bool
    ensures { result ≡ spec.relates dimension meaning.now }
{
    match (dimension, meaning) {
        (Some(d), Meaning::Relation(_, target, base)) => *target == d && *base == d,
        _ => false,
    }
}

fn select_dimensions_fit(scope: &Scope, dimension: Option<u16>, what: &Select) -> bool
    ensures { result ≡ spec.select_dimensions_fit (names_in scope.now.catalogue.now scope.now.known.now scope.now.locals.now) scope.now.known.now dimension what.now }
{
    match what {
        Select::Kin(_, relation) => match meaning(scope, relation) {
            Some(meaning) => relates(dimension, &meaning),
            None => false,
        },
        _ => true,
    }
}

fn lines_among(dimensions: &Coord, lines: &[(u16, Operator)]) -> bool
    ensures { result ≡ list_all (λ line. is_among dimensions.now line.0) lines.now }
{
    lines
        .iter()
        .all(|line| is_among(dimensions.slots(), line.0))
}

fn told_among(scope: &Scope, dimensions: &Coord, object: u16) -> bool
    ensures { result ≡ list_all (λ line. is_among dimensions.now line.0) (spec.lines_told scope.now.known.now object) }
{
    match scope.known.get(object) {
        Some(Signature::Map { lines }) => lines_among(dimensions, lines.as_slice()),
        _ => true,
    }
}

/// Whether each line of the aggmap that this name means goes along one of these dimensions.
fn map_fits(scope: &Scope, dimensions: &Coord, map: &Text) -> bool
    ensures { result ≡ list_all (λ line. is_among dimensions.now line.0) (spec.map_named (names_in scope.now.catalogue.now scope.now.known.now scope.now.locals.now) scope.now.known.now map.now) }
{
    match meaning(scope, map) {
        Some(Meaning::Aggregation(object)) => told_among(scope, dimensions, object),
        Some(Meaning::Allocation(object)) => told_among(scope, dimensions, object),
        _ => true,
    }
}

/// Whether each of these dimensions is among those.
fn are_among(all: &[u16], dimensions: &Coord) -> bool
    ensures { result ≡ list_all (is_among all.now) dimensions.now }
{
    dimensions
        .slots()
        .iter()
        .all(|dimension| is_among(all, *dimension))
}

fn each_among(all: &[u16], free: &[Coord]) -> bool
    ensures { result ≡ list_all (list_all (is_among all.now)) free.now }
{
    free.iter().all(|dimensions| are_among(all, dimensions))
}

/// Whether a target has the dimensions that are fixed in it and, not fixed, all of these.
fn target_fits(
    alloc: Global,
    scope: &Scope,
    target: &Target,
    free: &[Coord],
) -> Result<bool, AllocError>
    ensures { IfOk result (λ fits. fits ≡ spec.target_fits (names_in scope.now.catalogue.now scope.now.known.now scope.now.locals.now) target.now free.now) }
{
    if !scope.fixes_fit(target) {
        return Ok(false);
    }
    let mut all = Vec::new(alloc);
    scope.push_dimensions(target, &mut all)?;
    Ok(each_among(&all, free))
}

fn allocate_fits(scope: &Scope, source: &Text, basis: &Text, target: &Text, map: &Text) -> bool
    ensures { result ≡ spec.allocate_fits (names_in scope.now.catalogue.now scope.now.known.now scope.now.locals.now) scope.now.known.now source.now basis.now target.now map.now }
{
    let dimensions = scope.dimensions(source);
    dimensions == scope.dimensions(basis)
        && dimensions == scope.dimensions(target)
        && map_fits(scope, &dimensions, map)
}

/// Whether the dimensions of its expressions, and its other names, are what a statement wants.
pub(crate) fn own_dimensions_fit(
    alloc: Global,
    scope: &Scope,
    statement: &Statement,
    free: &[Coord],
) -> Result<bool, AllocError>
    ensures { IfOk result (λ fits. fits ≡ spec.own_dimensions_fit (names_in scope.now.catalogue.now scope.now.known.now scope.now.locals.now) scope.now.known.now statement.now free.now) }
{
    match statement {
        Statement::Assign(target, _) => target_fits(alloc, scope, target, free),
        Statement::Limit(name, _, what) => {
            Ok(select_dimensions_fit(scope, limited(scope, name), what))
        }
        Statement::Aggregate(variable, map) => {
            Ok(map_fits(scope, &scope.dimensions(variable), map))
        }
        Statement::Allocate(source, basis, target, map) => {
            Ok(allocate_fits(scope, source, basis, target, map))
        }
        _ => Ok(true),
    }
}
