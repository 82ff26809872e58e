ghost use Rattle.std.specs.Prelude.{◌≡◌, [], IfOk, OnOk};
ghost use Rattle.dml_exec.specs.Free.{free_dimensions, free_in_op, free_in_axes, with_one, with_all};

use crate::op::{Axis, Op};
use aw_lists::List;
use std::alloc::{AllocError, Global};

/// Adds a dimension where it isn't there yet.
fn note(free: &mut Vec<u16>, dimension: u16) -> Result<(), AllocError>
    ensures { OnOk result (free.new.items ≡ with_one free.old.items dimension) }
{
    if !free.as_slice().contains(&dimension) {
        free.push(dimension)?;
    }
    Ok(())
}

fn note_axes(free: &mut Vec<u16>, axes: &[Axis]) -> Result<(), AllocError>
    ensures { OnOk result (free.new.items ≡ with_all free.old.items (free_in_axes axes.now)) }
{
    for axis in axes {
        if let Axis::Free(dimension) = axis {
            note(free, *dimension)?;
        }
    }
    Ok(())
}

fn note_op(free: &mut Vec<u16>, op: &Op) -> Result<(), AllocError>
    ensures { OnOk result (free.new.items ≡ with_all free.old.items (free_in_op op.now)) }
{
    match op {
        Op::Load { axes, .. } => note_axes(free, axes.as_slice()),
        Op::Name { dimension } => note(free, *dimension),
        _ => Ok(()),
    }
}

/// The free dimensions of ops, each once, in the order of the ops.
pub fn free_dimensions(alloc: Global, ops: &[Op]) -> Result<List<u16>, AllocError>
    ensures { IfOk result (λ free. free ≡ free_dimensions ops.now) }
{
    let mut free = Vec::new(alloc);
    for op in ops {
        note_op(&mut free, op)?;
    }
    Ok(List::from_vec(free))
}
