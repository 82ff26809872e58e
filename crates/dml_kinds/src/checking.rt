ghost use Rattle.std.specs.Prelude.{◌≡◌, IfOk, is_some, None, []};
ghost use Rattle.dml_kinds.specs.FreeDimensions.{first_appearances};
ghost use Rattle.dml_kinds.specs.Meanings.{names_in};
ghost use Rattle.dml_kinds.specs.Names as names;
ghost use Rattle.dml_kinds.specs.Checking as spec;
ghost use Rattle.dml_kinds.specs.TreeDimensions.{tree_dimensions};
ghost use Rattle.dml_kinds.specs.Trees as trees;
ghost use Rattle.dml_kinds.specs.inside.Parts.{part_answer, part_of, formula_part, formula_answer_with};

use crate::fault::TypeFault;
use crate::gathering::{push_targets, push_value_uses};
use crate::parts::{Part, part_of};
use crate::resolving::tree_of;
use crate::scope::{Locals, Scope};
use crate::signature::Signatures;
use crate::tree::Tree;
use crate::types::ValueType;
use aw_cell::{Kind, Text};
use aw_lists::{Coord, List};
use aw_schema::Catalogue;
use dml_tree::Expr;
use std::alloc::{AllocError, Global};

/// What an accepted expression is, beside its tree.
#[derive(Clone, Copy, Debug)]
pub struct Measure {
    /// Its type.
    pub kind: ValueType,
    /// Its free dimensions by their numbers, in order of first appearance.
    pub dimensions: Coord,
    /// Its weight, at most 4,096.
    pub weight: u32,
}

/// What an accepted expression is (docs/LANGUAGE.md, "Types").
#[derive(Debug, Drop)]
pub struct TypedExpr {
    /// Its type.
    pub kind: ValueType,
    /// Its free dimensions by their numbers, in order of first appearance.
    pub dimensions: Coord,
    /// Its weight, at most 4,096.
    pub weight: u32,
    /// The expression, with what its names mean in place of the names.
    pub tree: Tree,
    /// The kinds of the locals that it may name, in order.
    pub locals: List<Kind>,
}

/// What an expression is beside its tree, or what refuses it.
#[tactic(auto, using(crate::proofs::ExpressionAnswers::settled_expression, crate::proofs::ExpressionAnswers::refused_expression))]
fn measured(alloc: Global, scope: &Scope, expr: &Expr) -> Result<Measure, TypeFault>
    ensures { spec.IsAnswer result (spec.measure_answer (names_in scope.now.catalogue.now scope.now.known.now scope.now.locals.now) expr.now) }
{
    match refused_names(alloc, scope, expr) {
        Ok(Some(fault)) => Err(fault),
        Ok(None) => found(alloc, scope, expr),
        Err(_) => Err(TypeFault::NoMemory),
    }
}

fn kinds_of(alloc: Global, locals: &[(Text, Kind)]) -> Result<Vec<Kind>, AllocError>
    ensures { IfOk result (λ kinds. kinds.items ≡ spec.kinds_of locals.now) }
{
    locals.iter().map(|local| local.1).collect(alloc)
}

/// An accepted expression, with its tree and the kinds of its locals.
pub fn with_tree(
    alloc: Global,
    scope: &Scope,
    expr: &Expr,
    measure: &Measure,
) -> Result<TypedExpr, AllocError>
    ensures { IfOk result (λ typed. typed ≡ spec.typed_as measure.now (trees.tree_of (names_in scope.now.catalogue.now scope.now.known.now scope.now.locals.now) expr.now) (spec.kinds_of scope.now.locals.now)) }
{
    let kinds = kinds_of(alloc, scope.locals.as_slice())?;
    let tree = tree_of(alloc, scope, expr)?;
    Ok(TypedExpr {
        kind: measure.kind,
        dimensions: measure.dimensions,
        weight: measure.weight,
        tree,
        locals: List::from_vec(kinds),
    })
}

/// What is answered of an expression.
#[tactic(auto, using(crate::proofs::ExpressionAnswers::typed_expression, crate::proofs::ExpressionAnswers::untyped_expression))]
fn expression_in(alloc: Global, scope: &Scope, expr: &Expr) -> Result<TypedExpr, TypeFault>
    ensures { spec.IsAnswer result (spec.expression_answer (names_in scope.now.catalogue.now scope.now.known.now scope.now.locals.now) scope.now.locals.now expr.now) }
{
    match measured(alloc, scope, expr) {
        Ok(measure) => match with_tree(alloc, scope, expr, &measure) {
            Ok(typed) => Ok(typed),
            Err(_) => Err(TypeFault::NoMemory),
        },
        Err(fault) => Err(fault),
    }
}

/// Whether an expression is accepted where `catalogue` has these objects, whose texts mean what
/// `known` tells of them, and the program has these locals, and what it is then. An object with a
/// text of which nothing is told is unknown. Else the first refusal in the order of TypeFault, each
/// for the first place from the left (docs/LANGUAGE.md, "Order of refusals").
pub fn check_expr(
    alloc: Global,
    expr: &Expr,
    catalogue: &Catalogue,
    known: &Signatures,
    locals: &Locals,
) -> Result<TypedExpr, TypeFault>
    ensures answer { spec.IsAnswer result (spec.expression_answer (names_in catalogue.now known.now locals.now) locals.now expr.now) }
    ensures dimensions { IfOk result (λ typed. typed.dimensions ≡ first_appearances (tree_dimensions typed.tree)) }
{
    let scope = Scope {
        catalogue,
        known,
        locals,
    };
    expression_in(alloc, &scope, expr)
}

/// The type of a formula's expression, which isn't that of `NA` alone.
fn formula_kind(kind: Option<ValueType>) -> Option<ValueType>
    ensures { result ≡ spec.formula_kind kind }
{
    match kind {
        Some(ValueType::Of(kind)) => Some(ValueType::Of(kind)),
        Some(ValueType::Na) | None => None,
    }
}

/// What is answered of a formula's expression where no name is refused.
fn found_formula(alloc: Global, scope: &Scope, expr: &Expr) -> Result<Measure, TypeFault>
    ensures { spec.IsAnswer result (part_answer (formula_part (names_in scope.now.catalogue.now scope.now.known.now scope.now.locals.now) expr.now)) }
{
    match part_of(alloc, scope, expr) {
        Ok(part) => settled(&Part {
            kind: formula_kind(part.kind),
            dimensions: part.dimensions,
            weight: part.weight,
        }),
        Err(_) => Err(TypeFault::NoMemory),
    }
}

/// What a formula's expression is beside its tree, or what refuses it.
#[tactic(auto, using(crate::proofs::ExpressionAnswers::settled_formula, crate::proofs::ExpressionAnswers::refused_formula))]
fn measured_formula(alloc: Global, scope: &Scope, expr: &Expr) -> Result<Measure, TypeFault>
    ensures { spec.IsAnswer result (spec.formula_measure_answer (names_in scope.now.catalogue.now scope.now.known.now scope.now.locals.now) expr.now) }
{
    match refused_names(alloc, scope, expr) {
        Ok(Some(fault)) => Err(fault),
        Ok(None) => found_formula(alloc, scope, expr),
        Err(_) => Err(TypeFault::NoMemory),
    }
}

/// What is answered of a formula's expression.
#[tactic(auto, using(crate::proofs::ExpressionAnswers::typed_formula, crate::proofs::ExpressionAnswers::untyped_formula))]
fn formula_in(alloc: Global, scope: &Scope, expr: &Expr) -> Result<TypedExpr, TypeFault>
    ensures { spec.IsAnswer result (formula_answer_with (names_in scope.now.catalogue.now scope.now.known.now scope.now.locals.now) (spec.kinds_of scope.now.locals.now) expr.now) }
{
    match measured_formula(alloc, scope, expr) {
        Ok(measure) => match with_tree(alloc, scope, expr, &measure) {
            Ok(typed) => Ok(typed),
            Err(_) => Err(TypeFault::NoMemory),
        },
        Err(fault) => Err(fault),
    }
}

/// As `check_expr`, for the expression of a formula, which has no locals: the type of `NA` alone doesn't
/// fit (docs/LANGUAGE.md, "Definitions").
pub fn check_formula(
    alloc: Global,
    expr: &Expr,
    catalogue: &Catalogue,
    known: &Signatures,
) -> Result<TypedExpr, TypeFault>
    ensures answer { spec.IsAnswer result (spec.formula_answer (names_in catalogue.now known.now []) expr.now) }
    ensures dimensions { IfOk result (λ typed. typed.dimensions ≡ first_appearances (tree_dimensions typed.tree)) }
{
    let locals = List::new(alloc);
    let scope = Scope {
        catalogue,
        known,
        locals: &locals,
    };
    formula_in(alloc, &scope, expr)
}

/// What is answered where no name is refused.
fn found(alloc: Global, scope: &Scope, expr: &Expr) -> Result<Measure, TypeFault>
    ensures { spec.IsAnswer result (part_answer (part_of (names_in scope.now.catalogue.now scope.now.known.now scope.now.locals.now) expr.now)) }
{
    match part_of(alloc, scope, expr) {
        Ok(part) => settled(&part),
        Err(_) => Err(TypeFault::NoMemory),
    }
}

/// What refuses the names of an expression.
fn refused_names(alloc: Global, scope: &Scope, expr: &Expr) -> Result<Option<TypeFault>, AllocError>
    ensures { IfOk result (λ refusal. refusal ≡ names.names_refusal (names_in scope.now.catalogue.now scope.now.known.now scope.now.locals.now) (names.uses (names.targets expr.now)) (names.groups (names.targets expr.now))) }
{
    let mut targets = Vec::new(alloc);
    push_targets(expr, &mut targets)?;
    let mut uses = Vec::new(alloc);
    push_value_uses(&targets, &mut uses)?;
    scope.names_refusal(alloc, &uses, &[], &targets)
}

/// What is answered by what was found of an expression.
fn settled(part: &Part) -> Result<Measure, TypeFault>
    ensures { result ≡ part_answer part.now }
{
    let Some(kind) = part.kind else {
        return Err(TypeFault::Mismatch);
    };
    let Some(dimensions) = part.dimensions else {
        return Err(TypeFault::Dimensions);
    };
    if part.weight > 4096 {
        return Err(TypeFault::TooMany);
    }
    Ok(Measure {
        kind,
        dimensions,
        weight: part.weight,
    })
}
