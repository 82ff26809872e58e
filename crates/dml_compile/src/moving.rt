//! The ops of a formula at another place, with values that are fixed.
ghost use Rattle.std.specs.Prelude.{◌≡◌, ◌++◌, ◌+◌, length, map, IfOk, OnOk};
ghost use Rattle.std.specs.Option.{option_copied};
ghost use Rattle.dml_compile.specs.Compiled.{fixes_of};
ghost use Rattle.dml_compile.specs.inside.Emitted as spec;

use crate::draft::{Draft, number, place};
use crate::naming::{axis_of, put_fixes};
use aw_cell::{Cell, Kind};
use aw_lists::List;
use dml_exec::{Axis, Code, Fix, Op};
use dml_kinds::{FixedValue, Taken};
use std::alloc::{AllocError, Global};

/// Where ops go: the place of the first one, the number of their first fix, the number of the first of
/// the fixes of the name, and these.
#[derive(Clone, Copy)]
pub struct Move<'a> {
    pub start: u32,
    pub base: u16,
    pub first: u16,
    pub fixes: &'a [FixedValue],
}

fn moved_axis(to: &Move, axis: Axis) -> Result<Axis, AllocError>
    ensures { IfOk result (λ moved. moved ≡ spec.moved_axis to.now.fixes.now to.now.base to.now.first axis) }
{
    match axis {
        Axis::Fixed(fix) => match to.base.checked_add(fix) {
            Some(number) => Ok(Axis::Fixed(number)),
            None => Err(AllocError),
        },
        Axis::Free(dimension) => axis_of(to.fixes, to.first, dimension),
    }
}

fn moved_axes(alloc: Global, to: &Move, axes: &[Axis]) -> Result<Vec<Axis>, AllocError>
    ensures { IfOk result (λ moved. moved.items ≡ map (spec.moved_axis to.now.fixes.now to.now.base to.now.first) axes.now) }
{
    let mut moved = Vec::new(alloc);
    for axis in axes {
        moved.push(moved_axis(to, *axis)?)?;
    }
    Ok(moved)
}

fn fixed_in(fixes: &[FixedValue], dimension: u16) -> Option<&FixedValue>
    ensures { option_copied result ≡ spec.fixed_in fixes.now dimension }
{
    fixes.iter().find(|fix| fix.dimension == dimension)
}

fn moved_name(fixes: &[FixedValue], dimension: u16) -> Op
    ensures { result ≡ spec.moved_name dimension (spec.fixed_in fixes.now dimension) }
{
    match fixed_in(fixes, dimension) {
        Some(fix) => Op::Push {
            cell: Cell::Text(fix.value),
            kind: Kind::Text,
        },
        None => Op::Name { dimension },
    }
}

fn moved_place(start: u32, to: u32) -> Result<u32, AllocError>
    ensures { IfOk result (λ place. place ≡ start + to) }
{
    match start.checked_add(to) {
        Some(place) => Ok(place),
        None => Err(AllocError),
    }
}

fn moved(alloc: Global, to: &Move, op: &Op) -> Result<Op, AllocError>
    ensures { IfOk result (λ moved. moved ≡ spec.moved to.now.fixes.now to.now.start to.now.base to.now.first op.now) }
{
    match op {
        Op::Push { cell, kind } => Ok(Op::Push {
            cell: *cell,
            kind: *kind,
        }),
        Op::Local(number) => Ok(Op::Local(*number)),
        Op::Load { object, axes } => {
            let axes = moved_axes(alloc, to, axes.as_slice())?;
            Ok(Op::Load {
                object: *object,
                axes: List::from_vec(axes),
            })
        }
        Op::Name { dimension } => Ok(moved_name(to.fixes, *dimension)),
        Op::NameOf { dimension } => Ok(Op::NameOf {
            dimension: *dimension,
        }),
        Op::Add => Ok(Op::Add),
        Op::Sub => Ok(Op::Sub),
        Op::Mul => Ok(Op::Mul),
        Op::Div => Ok(Op::Div),
        Op::Neg => Ok(Op::Neg),
        Op::Abs => Ok(Op::Abs),
        Op::Min => Ok(Op::Min),
        Op::Max => Ok(Op::Max),
        Op::NaFill => Ok(Op::NaFill),
        Op::Convert(kind) => Ok(Op::Convert(*kind)),
        Op::Compare(order) => Ok(Op::Compare(*order)),
        Op::And => Ok(Op::And),
        Op::Or => Ok(Op::Or),
        Op::Not => Ok(Op::Not),
        Op::Branch { no, na } => Ok(Op::Branch {
            no: moved_place(to.start, *no)?,
            na: moved_place(to.start, *na)?,
        }),
        Op::Jump(place) => Ok(Op::Jump(moved_place(to.start, *place)?)),
    }
}

fn put_ops(alloc: Global, into: &mut Vec<Op>, to: &Move, ops: &[Op]) -> Result<(), AllocError>
    ensures { OnOk result (into.new.items ≡ into.old.items ++ map (spec.moved to.now.fixes.now to.now.start to.now.base to.now.first) ops.now) }
{
    for op in ops {
        into.push(moved(alloc, to, op)?)?;
    }
    Ok(())
}

fn put_inner(into: &mut Vec<Fix>, fixes: &[Fix]) -> Result<(), AllocError>
    ensures { OnOk result (into.new.items ≡ into.old.items ++ fixes.now) }
{
    for fix in fixes {
        into.push(*fix)?;
    }
    Ok(())
}

/// Adds the ops of a formula, which is taken at fixed values.
pub fn put_code(
    alloc: Global,
    draft: &mut Draft,
    code: &Code,
    taken: &Taken,
) -> Result<(), AllocError>
    ensures ops { OnOk result (draft.new.ops.items ≡ draft.old.ops.items ++ map (spec.moved taken.now.fixes (length draft.old.ops.items) (length draft.old.fixes.items) (length draft.old.fixes.items + length code.now.fixes)) code.now.ops) }
    ensures fixes { OnOk result (draft.new.fixes.items ≡ draft.old.fixes.items ++ (code.now.fixes ++ fixes_of taken.now.fixes)) }
{
    let base = draft.fixes.len();
    put_inner(&mut draft.fixes, code.fixes().as_slice())?;
    let to = Move {
        start: place(draft.ops.len())?,
        base: number(base)?,
        first: number(draft.fixes.len())?,
        fixes: taken.fixes.as_slice(),
    };
    put_ops(alloc, &mut draft.ops, &to, code.ops().as_slice())?;
    put_fixes(&mut draft.fixes, taken.fixes.as_slice())
}
