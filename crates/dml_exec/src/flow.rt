//! What an op makes of the kinds on the stack, and where it goes on.
ghost use Rattle.std.specs.Prelude.{◌≡◌, IfOk, slice_get};
ghost use Rattle.std.specs.List.{list_all};
ghost use Rattle.aw_page.specs.Fitting.{is_of_kind};
ghost use Rattle.dml_exec.specs.Verified.{rules_of, onward, kind_pushed, kinds_on_one, kinds_on_two, kinds_named, name_of_kind, kind_named, kind_read, are_axes, is_axis, is_dimension, is_dimension_kind, is_ahead, forked};
ghost use Rattle.dml_exec.specs.inside.Arrivals.{flowed};

use crate::kinds::{Kinds, ObjectKind};
use crate::op::{Axis, Op};
use crate::operator::{Binary, Unary};
use crate::pile::Pile;
use aw_cell::{Cell, Kind};
use std::alloc::AllocError;

/// How an op goes on.
#[derive(Clone, Copy)]
pub enum Way {
    /// To the next op.
    Next,
    /// To a place.
    Leap(u32),
    /// To the next op at YES, and to a place each at NO and at NA.
    Fork { no: u32, na: u32 },
}

fn is_of_kind(kind: Kind, cell: &Cell) -> bool
    ensures { result ≡ is_of_kind kind cell.now }
{
    match (kind, cell) {
        (_, Cell::Na) => true,
        (Kind::Num, Cell::Num(_)) => true,
        (Kind::Int, Cell::Int(_)) => true,
        (Kind::Text, Cell::Text(_)) => true,
        (Kind::Bool, Cell::Bool(_)) => true,
        (Kind::Slot, Cell::Slot(_)) => true,
        _ => false,
    }
}

fn is_dimension(kinds: &Kinds, object: u16) -> bool
    ensures { result ≡ is_dimension kinds.now object }
{
    match kinds.objects.get(usize::from(object)) {
        Some(ObjectKind::Dimension) => true,
        _ => false,
    }
}

fn is_axis(kinds: &Kinds, fixes: usize, axis: Axis) -> bool
    ensures { result ≡ is_axis kinds.now fixes axis }
{
    match axis {
        Axis::Free(dimension) => is_dimension(kinds, dimension),
        Axis::Fixed(fix) => usize::from(fix) < fixes,
    }
}

fn are_named(kinds: &Kinds, fixes: usize, axes: &[Axis]) -> bool
    ensures { result ≡ list_all (is_axis kinds.now fixes) axes.now }
{
    axes.iter().all(|axis| is_axis(kinds, fixes, *axis))
}

fn are_axes(kinds: &Kinds, fixes: usize, dimensions: &[u16], axes: &[Axis]) -> bool
    ensures { result ≡ are_axes kinds.now fixes dimensions.now axes.now }
{
    axes.len() == dimensions.len() && axes.len() <= 6 && are_named(kinds, fixes, axes)
}

fn kind_read(kinds: &Kinds, fixes: usize, axes: &[Axis], object: u16) -> Option<Kind>
    ensures { result ≡ kind_read kinds.now fixes axes.now (slice_get kinds.now.objects object) }
{
    match kinds.objects.get(usize::from(object)) {
        Some(ObjectKind::Cells { kind, dimensions }) => {
            are_axes(kinds, fixes, dimensions.slots(), axes).then_some(*kind)
        }
        _ => None,
    }
}

fn kind_named(kinds: &Kinds, dimension: u16) -> Option<Kind>
    ensures { result ≡ kind_named kinds.now dimension }
{
    is_dimension(kinds, dimension).then_some(Kind::Text)
}

fn push(stack: &mut Pile, kind: Option<Kind>) -> Result<Option<Way>, AllocError>
    ensures { IfOk result (λ way. flowed way stack.new ≡ kind_pushed stack.old kind) }
{
    match kind {
        Some(kind) => {
            stack.push(kind)?;
            Ok(Some(Way::Next))
        }
        None => Ok(None),
    }
}

fn one(operator: Unary, stack: &mut Pile) -> Result<Option<Way>, AllocError>
    ensures { IfOk result (λ way. flowed way stack.new ≡ kinds_on_one operator stack.old) }
{
    match stack.pop() {
        Some(kind) => push(stack, operator.kind(kind)),
        None => Ok(None),
    }
}

fn two(operator: Binary, stack: &mut Pile) -> Result<Option<Way>, AllocError>
    ensures { IfOk result (λ way. flowed way stack.new ≡ kinds_on_two operator stack.old) }
{
    let Some(right) = stack.pop() else {
        return Ok(None);
    };
    match stack.pop() {
        Some(left) => push(stack, operator.kind(left, right)),
        None => Ok(None),
    }
}

fn name_of_kind(kinds: &Kinds, dimension: u16, kind: Kind) -> Option<Kind>
    ensures { result ≡ name_of_kind kinds.now dimension kind }
{
    match kind {
        Kind::Slot => kind_named(kinds, dimension),
        _ => None,
    }
}

fn named(kinds: &Kinds, dimension: u16, stack: &mut Pile) -> Result<Option<Way>, AllocError>
    ensures { IfOk result (λ way. flowed way stack.new ≡ kinds_named kinds.now dimension stack.old) }
{
    match stack.pop() {
        Some(kind) => push(stack, name_of_kind(kinds, dimension, kind)),
        None => Ok(None),
    }
}

fn is_ahead(count: usize, at: usize, to: u32) -> bool
    ensures { result ≡ is_ahead count at to }
{
    at < to as usize && to as usize <= count
}

fn fork(count: usize, at: usize, no: u32, na: u32, stack: &mut Pile) -> Option<Way>
    ensures { flowed result stack.new ≡ forked count at no na stack.old }
{
    match stack.pop() {
        Some(Kind::Bool) => {
            (is_ahead(count, at, no) && is_ahead(count, at, na)).then_some(Way::Fork { no, na })
        }
        _ => None,
    }
}

/// What the op at a place makes of the kinds on the stack, and how it goes on, or `None` where it can't
/// take them. Want of memory is the only error.
pub fn flow(
    kinds: &Kinds,
    fixes: usize,
    ops: &[Op],
    at: usize,
    op: &Op,
    stack: &mut Pile,
) -> Result<Option<Way>, AllocError>
    ensures { IfOk result (λ way. flowed way stack.new ≡ onward (rules_of kinds.now fixes ops.now) at op.now stack.old) }
{
    match op {
        Op::Push { cell, kind } => push(stack, is_of_kind(*kind, cell).then_some(*kind)),
        Op::Local(number) => push(stack, kinds.locals.get(usize::from(*number)).copied()),
        Op::Load { object, axes } => push(stack, kind_read(kinds, fixes, axes.as_slice(), *object)),
        Op::Name { dimension } => push(stack, kind_named(kinds, *dimension)),
        Op::NameOf { dimension } => named(kinds, *dimension, stack),
        Op::Add => two(Binary::Add, stack),
        Op::Sub => two(Binary::Sub, stack),
        Op::Mul => two(Binary::Mul, stack),
        Op::Div => two(Binary::Div, stack),
        Op::Neg => one(Unary::Neg, stack),
        Op::Abs => one(Unary::Abs, stack),
        Op::Min => two(Binary::Min, stack),
        Op::Max => two(Binary::Max, stack),
        Op::NaFill => two(Binary::NaFill, stack),
        Op::Convert(kind) => one(Unary::Convert(*kind), stack),
        Op::Compare(order) => two(Binary::Compare(*order), stack),
        Op::And => two(Binary::And, stack),
        Op::Or => two(Binary::Or, stack),
        Op::Not => one(Unary::Not, stack),
        Op::Branch { no, na } => Ok(fork(ops.len(), at, *no, *na, stack)),
        Op::Jump(to) => Ok(is_ahead(ops.len(), at, *to).then_some(Way::Leap(*to))),
    }
}
