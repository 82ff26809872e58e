//! How many bytes a record has. Counting takes no memory.
ghost use Rattle.std.specs.Prelude.{◌≡◌, ◌≤◌, ◌*◌, ◌+◌, length, min};
ghost use Rattle.std.specs.List.{sum_by};
ghost use Rattle.aw_codec.specs.Spellings as spelling;

use aw_body::{BodyPatch, Change};
use aw_cell::{Cell, Text};
use aw_lists::Coord;

/// How many bytes a cell has, at most 66.
fn cell_len(cell: &Cell) -> u128
    ensures value { result ≡ length (spelling.cell cell.now) }
    ensures most { result ≤ 66 }
{
    match cell {
        Cell::Na => 1,
        Cell::Num(_) => 9,
        Cell::Int(_) => 5,
        Cell::Text(text) => 2 + text.bytes().len() as u128,
        Cell::Bool(_) => 2,
        Cell::Slot(_) => 3,
    }
}

/// How many bytes a cell of a patch has with its key, at most 78.
#[tactic(auto, using(crate::proofs::callers::Lengths::keyed_cell_length))]
fn keyed_cell_len(change: &(Coord, Cell)) -> u128
    ensures value { result ≡ length (spelling.keyed_cell change.now) }
    ensures most { result ≤ 78 }
{
    2 * change.0.slots().len() as u128 + cell_len(&change.1)
}

/// How many bytes a value of a dimension has, at most 67.
fn value_len(entry: &(u16, Text)) -> u128
    ensures value { result ≡ length (spelling.value entry.now) }
    ensures most { result ≤ 67 }
{
    3 + entry.1.bytes().len() as u128
}

fn cells_len(changes: &[(Coord, Cell)]) -> u128
    ensures value { result ≡ sum_by (λ change. length (spelling.keyed_cell change)) changes.now }
    ensures most { result ≤ 78 * length changes.now }
{
    let mut total = 0;
    for change in changes {
        total += keyed_cell_len(change);
    }
    total
}

fn values_len(entries: &[(u16, Text)]) -> u128
    ensures value { result ≡ sum_by (λ entry. length (spelling.value entry)) entries.now }
    ensures most { result ≤ 67 * length entries.now }
{
    let mut total = 0;
    for entry in entries {
        total += value_len(entry);
    }
    total
}

/// How many bytes a patch has.
#[tactic(auto, using(crate::proofs::callers::Lengths::values_length, crate::proofs::callers::Lengths::slots_length, crate::proofs::callers::Lengths::cells_length))]
fn patch_len(patch: &BodyPatch) -> u128
    ensures value { result ≡ length (spelling.patch patch.now) }
    ensures most { result ≤ 1500000000000000000000 }
{
    match patch {
        BodyPatch::Values(values) => 9 + values_len(values.entries()),
        BodyPatch::Slots(slots) => 5 + 2 * slots.len() as u128,
        BodyPatch::Cells(changes) => 6 + cells_len(changes.as_slice()),
    }
}

fn change_len(change: &Change) -> u128
    ensures value { result ≡ length (spelling.change change.now) }
    ensures most { result ≤ 1500000000000000000002 }
{
    2 + patch_len(&change.patch)
}

fn changes_len(changes: &[Change]) -> u128
    requires { length changes.now ≤ 4096 }
    ensures value { result ≡ sum_by (λ change. length (spelling.change change)) changes.now }
    ensures most { result ≤ 1500000000000000000002 * length changes.now }
{
    let mut total = 0;
    for change in changes {
        total += change_len(change);
    }
    total
}

/// How many bytes a commit has, or the greatest number of 64 bits where they are more than that.
pub fn commit_len(changes: &[Change]) -> u64
    requires { length changes.now ≤ 4096 }
    ensures { result ≡ min (4 + sum_by (λ change. length (spelling.change change)) changes.now) 18446744073709551615 }
{
    let total = 4 + changes_len(changes);
    if total > 18_446_744_073_709_551_615 {
        18_446_744_073_709_551_615
    } else {
        total as u64
    }
}
