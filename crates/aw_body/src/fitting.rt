ghost use Rattle.std.specs.Prelude.{◌≡◌, IsTrue, All, false, length};
ghost use Rattle.std.specs.List.{list_all};
ghost use Rattle.aw_var.specs.Laws.{IsRising};
ghost use Rattle.aw_body.specs.Fitting as spec;

use crate::body::Body;
use crate::patch::BodyPatch;
use aw_cell::{Cell, Kind};
use aw_lists::Coord;
use aw_page::is_fitting;
use aw_schema::{Def, DefKind};

/// How many slots there are.
const SLOTS: usize = 65_536;

/// Whether a record can hold a patch of an object with this definition and latest body. The patch has
/// the definition's form; new values don't lower the next slot; slots are distinct; of cells there is
/// one at least, each at a key of the definition's number of slots above the one before it, NA or of
/// the definition's kind, and no INTEGER is -2147483648. It takes no memory.
/// See docs/SHARING.md, "Bodies and patches".
pub fn fits(patch: &BodyPatch, def: &Def, latest: &Body) -> bool
    ensures fits { result ≡ spec.fits patch.now def.now.kind latest.now }
    ensures patch { IsTrue result → spec.IsPatch patch.now }
{
    match (patch, &def.kind) {
        (BodyPatch::Values(values), DefKind::Dimension) => match latest {
            Body::Dim(latest) => values.next() >= latest.next(),
            _ => false,
        },
        (BodyPatch::Slots(slots), DefKind::Valueset { .. }) => are_distinct(slots.as_slice()),
        (BodyPatch::Cells(changes), DefKind::Relation { .. }) => {
            are_changes(1, Kind::Slot, changes.as_slice())
        }
        (BodyPatch::Cells(changes), DefKind::Variable { kind, dimensions }) => {
            are_changes(dimensions.slots().len(), *kind, changes.as_slice())
        }
        _ => false,
    }
}

/// Whether there is a change at least, and all can stand in a record.
#[tactic(auto, using(crate::proofs::Rising::rising_changes))]
fn are_changes(slots: usize, kind: Kind, changes: &[(Coord, Cell)]) -> bool
    ensures value { result ≡ spec.are_changes slots kind changes.now }
    ensures rising { IsTrue result → IsRising changes.now }
{
    !changes.is_empty() && all_recorded(slots, kind, changes) && rise(changes)
}

fn all_recorded(slots: usize, kind: Kind, changes: &[(Coord, Cell)]) -> bool
    ensures { result ≡ list_all (spec.is_recorded_change slots kind) changes.now }
{
    changes
        .iter()
        .all(|change| is_recorded_change(slots, kind, change))
}

fn is_recorded_change(slots: usize, kind: Kind, change: &(Coord, Cell)) -> bool
    ensures { result ≡ spec.is_recorded_change slots kind change.now }
{
    change.0.slots().len() == slots && is_fitting(kind, &change.1) && is_recorded(&change.1)
}

/// Whether a cell isn't the least number of 32 bits.
fn is_recorded(cell: &Cell) -> bool
    ensures { result ≡ spec.is_recorded cell.now }
{
    match cell {
        Cell::Int(value) => *value != i32::MIN,
        _ => true,
    }
}

/// Whether each key is above the one before it.
fn rise(changes: &[(Coord, Cell)]) -> bool
    ensures { result ≡ spec.rise changes.now }
{
    for at in 1..changes.len() {
        if changes[at - 1].0 >= changes[at].0 {
            return false;
        }
    }
    true
}

/// Whether no slot comes twice.
fn are_distinct(slots: &[u16]) -> bool
    ensures { result ≡ spec.are_distinct slots.now }
{
    let mut seen = [false; SLOTS];
    mark_distinct(slots, &mut seen)
}

/// Marks slots until one comes that is marked, and tells whether none is.
fn mark_distinct(slots: &[u16], seen: &mut [bool]) -> bool
    requires size { length seen.old ≡ SLOTS }
    requires unmarked { All (λ mark. mark ≡ false) seen.old }
    ensures { result ≡ spec.are_distinct slots.now }
{
    for slot in slots {
        if seen[usize::from(*slot)] {
            return false;
        }
        seen[usize::from(*slot)] = true;
    }
    true
}
