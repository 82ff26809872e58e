ghost use Rattle.std.specs.Prelude.{◌≡◌, ◌∷◌, [], ◌++◌, ◌+◌, ◌<◌, length, slice_set, IfOk, OnOk};
ghost use Rattle.aw_cell.specs.declared.cell.Cell.{Cell};
ghost use Rattle.dml_exec.specs.declared.op.Op.{Op};

use aw_cell::{Cell, Kind};
use dml_exec::{Fix, Op};
use std::alloc::{AllocError, Global};

/// Code that is being made.
#[derive(Drop)]
pub struct Draft {
    pub ops: Vec<Op>,
    pub fixes: Vec<Fix>,
}

/// No ops yet.
pub fn no_ops(alloc: Global) -> Draft
    ensures ops { result.ops.items ≡ [] }
    ensures fixes { result.fixes.items ≡ [] }
{
    Draft {
        ops: Vec::new(alloc),
        fixes: Vec::new(alloc),
    }
}

/// One op more.
pub fn put(draft: &mut Draft, op: Op) -> Result<(), AllocError>
    ensures ops { OnOk result (draft.new.ops.items ≡ draft.old.ops.items ++ op ∷ []) }
    ensures fixes { OnOk result (draft.new.fixes.items ≡ draft.old.fixes.items) }
{
    draft.ops.push(op)?;
    Ok(())
}

/// A place as ops name it. More ops than that count as want of memory.
pub fn place(at: usize) -> Result<u32, AllocError>
    ensures { IfOk result (λ place. place ≡ at) }
{
    match u32::try_from(at) {
        Ok(place) => Ok(place),
        Err(_) => Err(AllocError),
    }
}

/// A number of a fix or a local. More of them count as want of memory.
pub fn number(at: usize) -> Result<u16, AllocError>
    ensures { IfOk result (λ number. number ≡ at) }
{
    match u16::try_from(at) {
        Ok(number) => Ok(number),
        Err(_) => Err(AllocError),
    }
}

/// Room for a jump that is written later. Answers its place.
pub fn gap(draft: &mut Draft) -> Result<usize, AllocError>
    ensures place { IfOk result (λ at. at ≡ length draft.old.ops.items) }
    ensures ops { OnOk result (draft.new.ops.items ≡ draft.old.ops.items ++ Op.Jump 0 ∷ []) }
    ensures fixes { OnOk result (draft.new.fixes.items ≡ draft.old.fixes.items) }
{
    let at = draft.ops.len();
    put(draft, Op::Jump(0))?;
    Ok(at)
}

/// Ends a choice, whose branch and whose jump past the second branch have these places.
pub fn end_choice(
    draft: &mut Draft,
    branch: usize,
    jump: usize,
    kind: Kind,
) -> Result<(), AllocError>
    requires branch { branch < jump }
    requires jump { jump < length draft.old.ops.items }
    ensures ops { OnOk result (draft.new.ops.items ≡ slice_set (slice_set (draft.old.ops.items ++ Op.Jump (length draft.old.ops.items + 2) ∷ Op.Push Cell.Na kind ∷ []) jump (Op.Jump (length draft.old.ops.items + 2))) branch (Op.Branch (jump + 1) (length draft.old.ops.items + 1))) }
    ensures fixes { OnOk result (draft.new.fixes.items ≡ draft.old.fixes.items) }
{
    let last = place(draft.ops.len())?;
    let Some(na) = last.checked_add(1) else {
        return Err(AllocError);
    };
    let Some(end) = last.checked_add(2) else {
        return Err(AllocError);
    };
    let no = place(jump + 1)?;
    put(draft, Op::Jump(end))?;
    put(
        draft,
        Op::Push {
            cell: Cell::Na,
            kind,
        },
    )?;
    draft.ops[jump] = Op::Jump(end);
    draft.ops[branch] = Op::Branch { no, na };
    Ok(())
}
