//! The tree of an expression.
ghost use Rattle.std.specs.Prelude.{◌≡◌, IfOk, Some};
ghost use Rattle.dml_kinds.specs.declared.tree.Tree.{Tree};
ghost use Rattle.dml_kinds.specs.Meanings.{names_in};
ghost use Rattle.dml_kinds.specs.Trees as spec;

use crate::dimensions::one_dimension;
use crate::held::with;
use crate::meaning::Meaning;
use crate::scope::Scope;
use crate::tree::{FixedValue, Taken, Tree};
use crate::types::ValueType;
use aw_cell::{Cell, Kind};
use aw_lists::{Coord, List};
use dml_tree::{Expr, Fix, Joint, Target};
use sqlite_items::Boxed;
use std::alloc::{AllocError, Global};

/// The one type of two, which is NUMBER of an INTEGER and a NUMBER.
fn common(one: ValueType, other: ValueType) -> ValueType
    ensures { result ≡ spec.common one other }
{
    match (one, other) {
        (ValueType::Na, _) => other,
        (ValueType::Of(Kind::Int), ValueType::Of(Kind::Num)) => other,
        _ => one,
    }
}

fn number_kind(of: ValueType) -> Kind
    ensures { result ≡ spec.number_kind of }
{
    match of {
        ValueType::Na => Kind::Int,
        ValueType::Of(kind) => kind,
    }
}

fn or_integer(of: ValueType) -> ValueType
    ensures { result ≡ spec.or_integer of }
{
    match of {
        ValueType::Na => ValueType::Of(Kind::Int),
        ValueType::Of(kind) => ValueType::Of(kind),
    }
}

/// The type in which two operands meet.
fn meeting(joint: Joint, one: ValueType, other: ValueType) -> ValueType
    ensures { result ≡ spec.meeting joint one other }
{
    match joint {
        Joint::Or | Joint::And => ValueType::Of(Kind::Bool),
        Joint::Div => ValueType::Of(Kind::Num),
        Joint::NaFill => common(one, other),
        _ => or_integer(common(one, other)),
    }
}

fn not(alloc: Global, operand: Tree) -> Result<Tree, AllocError>
    ensures { IfOk result (λ tree. tree ≡ Tree.Not operand) }
{
    Ok(Tree::Not(Boxed::new(alloc, operand)?))
}

fn negative(alloc: Global, operand: Tree) -> Result<Tree, AllocError>
    ensures { IfOk result (λ tree. tree ≡ Tree.Negative (spec.number_kind (spec.tree_type operand)) operand) }
{
    let kind = number_kind(operand.kind());
    Ok(Tree::Negative(kind, Boxed::new(alloc, operand)?))
}

fn abs(alloc: Global, operand: Tree) -> Result<Tree, AllocError>
    ensures { IfOk result (λ tree. tree ≡ Tree.Abs (spec.number_kind (spec.tree_type operand)) operand) }
{
    let kind = number_kind(operand.kind());
    Ok(Tree::Abs(kind, Boxed::new(alloc, operand)?))
}

/// A tree, which is an INTEGER as a NUMBER where that is wanted.
fn fitted(alloc: Global, wanted: ValueType, tree: Tree) -> Result<Tree, AllocError>
    ensures { IfOk result (λ result. result ≡ spec.fitted wanted tree) }
{
    match (wanted, tree.kind()) {
        (ValueType::Of(Kind::Num), ValueType::Of(Kind::Int)) => {
            Ok(Tree::AsNumber(Boxed::new(alloc, tree)?))
        }
        _ => Ok(tree),
    }
}

fn fitted_box(alloc: Global, wanted: ValueType, tree: Tree) -> Result<Boxed<Tree>, AllocError>
    ensures { IfOk result (λ boxed. boxed ≡ spec.fitted wanted tree) }
{
    Ok(Boxed::new(alloc, fitted(alloc, wanted, tree)?)?)
}

fn fitted_boxes(
    alloc: Global,
    wanted: ValueType,
    left: Tree,
    right: Tree,
) -> Result<(Boxed<Tree>, Boxed<Tree>), AllocError>
    ensures { IfOk result (λ boxes. (boxes.0 ≡ spec.fitted wanted left) × (boxes.1 ≡ spec.fitted wanted right)) }
{
    let (right, left) = with(right, fitted_box(alloc, wanted, left))?;
    with(left, fitted_box(alloc, wanted, right))
}

fn joined(alloc: Global, joint: Joint, left: Tree, right: Tree) -> Result<Tree, AllocError>
    ensures { IfOk result (λ tree. tree ≡ spec.joined joint (spec.meeting joint (spec.tree_type left) (spec.tree_type right)) left right) }
{
    let met = meeting(joint, left.kind(), right.kind());
    let (left, right) = fitted_boxes(alloc, met, left, right)?;
    Ok(Tree::Joined(joint, met, left, right))
}

fn chosen(alloc: Global, condition: Tree, first: Tree, second: Tree) -> Result<Tree, AllocError>
    ensures { IfOk result (λ tree. tree ≡ spec.chosen (spec.common (spec.tree_type first) (spec.tree_type second)) condition first second) }
{
    let kind = common(first.kind(), second.kind());
    let (condition, boxes) = with(condition, fitted_boxes(alloc, kind, first, second))?;
    let (boxes, condition) = with(boxes, Boxed::new(alloc, condition))?;
    let (first, second) = boxes;
    Ok(Tree::If(kind, condition, first, second))
}

fn taken(object: u16, dimensions: Coord, fixes: List<FixedValue>) -> Taken
    ensures { result ≡ spec.taken object dimensions fixes }
{
    Taken {
        object,
        dimensions,
        fixes,
    }
}

/// What a meaning gives at fixed values, or NA where it is no value.
fn meant(meaning: &Meaning, fixes: List<FixedValue>) -> Tree
    ensures { result ≡ spec.meant (Some meaning.now) fixes }
{
    match meaning {
        Meaning::Local(place, kind) => Tree::Local(*place, *kind),
        Meaning::Dimension(object) => Tree::Dimension(*object),
        Meaning::Relation(object, target, base) => {
            Tree::Relation(*target, taken(*object, one_dimension(*base), fixes))
        }
        Meaning::Variable(object, kind, dimensions) => {
            Tree::Variable(*kind, taken(*object, *dimensions, fixes))
        }
        Meaning::Formula(object, kind, dimensions, _) => {
            Tree::Formula(*kind, taken(*object, *dimensions, fixes))
        }
        _ => Tree::Literal(Cell::Na),
    }
}

impl<'a> Scope<'a> {
    /// A fixed value, where its dimension is known.
    fn fixed_value(&self, fix: &Fix) -> Option<FixedValue>
        ensures { result ≡ spec.fixed_value (names_in self.now.catalogue.now self.now.known.now self.now.locals.now) fix.now }
    {
        match self.dimension(&fix.dimension) {
            Some(dimension) => Some(FixedValue {
                dimension,
                value: fix.value,
            }),
            None => None,
        }
    }

    fn fixed_values(&self, alloc: Global, fixes: &[Fix]) -> Result<Vec<FixedValue>, AllocError>
        ensures { IfOk result (λ all. all.items ≡ spec.fixed_values (names_in self.now.catalogue.now self.now.known.now self.now.locals.now) fixes.now) }
    {
        fixes
            .iter()
            .filter_map(|fix| self.fixed_value(fix))
            .collect(alloc)
    }

    /// What a name gives at its fixed values.
    fn target_tree(&self, alloc: Global, target: &Target) -> Result<Tree, AllocError>
        ensures { IfOk result (λ tree. tree ≡ spec.target_tree (names_in self.now.catalogue.now self.now.known.now self.now.locals.now) target.now) }
    {
        let fixes = List::from_vec(self.fixed_values(alloc, target.fixes.as_slice())?);
        match self.known(&target.name) {
            Some(known) => Ok(meant(&known.meaning, fixes)),
            None => Ok(Tree::Literal(Cell::Na)),
        }
    }
}

/// The tree of an expression.
pub(crate) fn tree_of(alloc: Global, scope: &Scope, expr: &Expr) -> Result<Tree, AllocError>
    ensures { IfOk result (λ tree. tree ≡ spec.tree_of (names_in scope.now.catalogue.now scope.now.known.now scope.now.locals.now) expr.now) }
{
    match expr {
        Expr::Na => Ok(Tree::Literal(Cell::Na)),
        Expr::Integer(whole) => Ok(Tree::Literal(Cell::Int(*whole))),
        Expr::Number(number) => Ok(Tree::Literal(Cell::Num(*number))),
        Expr::Text(text) => Ok(Tree::Literal(Cell::Text(*text))),
        Expr::Truth(truth) => Ok(Tree::Literal(Cell::Bool(*truth))),
        Expr::Object(target) => scope.target_tree(alloc, target),
        Expr::Grouped(inner) => tree_of(alloc, scope, inner.get()),
        Expr::Not(operand) => not(alloc, tree_of(alloc, scope, operand.get())?),
        Expr::Negative(operand) => negative(alloc, tree_of(alloc, scope, operand.get())?),
        Expr::Abs(operand) => abs(alloc, tree_of(alloc, scope, operand.get())?),
        Expr::Joined(joint, left, right) => {
            let left = tree_of(alloc, scope, left.get())?;
            let (left, right) = with(left, tree_of(alloc, scope, right.get()))?;
            joined(alloc, *joint, left, right)
        }
        Expr::If(condition, first, second) => {
            let condition = tree_of(alloc, scope, condition.get())?;
            let both = with(condition, tree_of(alloc, scope, first.get()))?;
            let ((condition, first), second) = with(both, tree_of(alloc, scope, second.get()))?;
            chosen(alloc, condition, first, second)
        }
    }
}
