ghost use Rattle.std.specs.Prelude.{◌≡◌, ◌↔◌, IfOk, IsNone, IsTrue};
ghost use Rattle.std.specs.List.{list_all};
ghost use Rattle.aw_var.specs.CellPatch as cells;
ghost use Rattle.aw_body.specs.Bodies.{AreAlike};
ghost use Rattle.aw_body.specs.BodyPatches as spec;

use crate::body::Body;
use crate::merging::merged;
use crate::patch::BodyPatch;
use aw_dim::Dimension;
use aw_lists::List;
use aw_var::{Patch, Variable, difference_tells_apart};
use std::alloc::{AllocError, Global};

/// What a patch makes of a body; a patch of another form leaves it. The keys of a patch of cells have
/// the body's number of slots, and its cells are NA or of the body's kind. The only error is want of
/// memory. See docs/SHARING.md, "Bodies and patches".
pub fn apply(alloc: Global, body: &Body, patch: &BodyPatch) -> Result<Body, AllocError>
    requires { spec.CanTake body.now patch.now }
    ensures { IfOk result (λ newer. newer ≡ spec.applied body.now patch.now) }
{
    match (body, patch) {
        (Body::Dim(_), BodyPatch::Values(values)) => Ok(Body::Dim(values.copied()?)),
        (Body::Set(_), BodyPatch::Slots(slots)) => {
            Ok(Body::Set(List::from_slice(alloc, slots.as_slice())?))
        }
        (Body::Rel(cells), BodyPatch::Cells(patch)) => Ok(Body::Rel(overwritten(cells, patch)?)),
        (Body::Var(cells), BodyPatch::Cells(patch)) => Ok(Body::Var(overwritten(cells, patch)?)),
        _ => body.copied(alloc),
    }
}

/// The patch that makes the newer body of the older one, or `None` exactly where they are equal. The
/// bodies are of one form; of cells they have one kind, and keys of one number of slots. The only
/// error is want of memory. See docs/SHARING.md, "Bodies and patches".
pub fn difference(
    alloc: Global,
    older: &Body,
    newer: &Body,
) -> Result<Option<BodyPatch>, AllocError>
    requires { AreAlike older.now newer.now }
    ensures patch { IfOk result (λ patch. patch ≡ spec.difference older.now newer.now) }
    ensures none { IfOk result (λ patch. IsNone patch ↔ (older.now ≡ newer.now)) }
{
    match (older, newer) {
        (Body::Dim(older), Body::Dim(newer)) => changed_values(older, newer),
        (Body::Set(older), Body::Set(newer)) => {
            if older == newer {
                return Ok(None);
            }
            let slots = List::from_slice(alloc, newer.as_slice())?;
            Ok(Some(BodyPatch::Slots(slots)))
        }
        (Body::Rel(older), Body::Rel(newer)) | (Body::Var(older), Body::Var(newer)) => {
            changed_cells(older, newer)
        }
        _ => Ok(None),
    }
}

/// One patch that does what two patches of one form do, one after the other. The only error is want of
/// memory. See docs/SHARING.md, "Bodies and patches".
pub fn compose(
    alloc: Global,
    first: &BodyPatch,
    second: &BodyPatch,
) -> Result<BodyPatch, AllocError>
    requires { spec.AreOfOneForm first.now second.now }
    ensures { IfOk result (λ patch. patch ≡ spec.composed first.now second.now) }
{
    match (first, second) {
        (BodyPatch::Cells(first), BodyPatch::Cells(second)) => {
            let all = merged(alloc, first.as_slice(), second.as_slice())?;
            Ok(BodyPatch::Cells(List::from_vec(all)))
        }
        (_, BodyPatch::Values(values)) => Ok(BodyPatch::Values(values.copied()?)),
        (_, BodyPatch::Slots(slots)) => {
            Ok(BodyPatch::Slots(List::from_slice(alloc, slots.as_slice())?))
        }
        (_, BodyPatch::Cells(changes)) => {
            Ok(BodyPatch::Cells(List::from_slice(alloc, changes.as_slice())?))
        }
    }
}

/// The newer values as a patch, or `None` exactly where the dimensions are equal.
fn changed_values(older: &Dimension, newer: &Dimension) -> Result<Option<BodyPatch>, AllocError>
    ensures patch { IfOk result (λ patch. patch ≡ spec.some_values older.now newer.now) }
    ensures none { IfOk result (λ patch. IsNone patch ↔ (older.now ≡ newer.now)) }
{
    if older == newer {
        return Ok(None);
    }
    Ok(Some(BodyPatch::Values(newer.copied()?)))
}

/// The patch of the cells that differ, or `None` exactly where the variables are equal.
fn changed_cells(older: &Variable, newer: &Variable) -> Result<Option<BodyPatch>, AllocError>
    requires slots { older.now.slots ≡ newer.now.slots }
    requires kind { older.now.kind ≡ newer.now.kind }
    ensures patch { IfOk result (λ patch. patch ≡ spec.some_cells (cells.difference older.now.cells newer.now.cells)) }
    ensures none { IfOk result (λ patch. IsNone patch ↔ (older.now ≡ newer.now)) }
{
    difference_tells_apart();
    let (none_before, none_now) = (older.is_empty(), newer.is_empty());
    if none_before && none_now {
        return Ok(None);
    }
    let patch = newer.patch_since(older)?;
    if patch.is_empty() {
        return Ok(None);
    }
    Ok(Some(BodyPatch::Cells(patch)))
}

/// The cells after a patch.
fn overwritten(variable: &Variable, patch: &Patch) -> Result<Variable, AllocError>
    requires { spec.AreChangesOf variable.now patch.now }
    ensures { IfOk result (λ newer. newer ≡ record variable.now { cells = cells.overwritten variable.now.cells patch.now }) }
{
    let mut newer = variable.copied()?;
    for (at, cell) in patch.as_slice() {
        match newer.put(at, *cell) {
            Ok(()) => {}
            Err(error) => return Err(error),
        }
    }
    Ok(newer)
}
