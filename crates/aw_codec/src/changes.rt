//! Changes of a commit.
ghost use Rattle.std.specs.Prelude.{◌≡◌, [], ◌+◌};
ghost use Rattle.std.specs.Option.{option_map_or};
ghost use Rattle.aw_codec.specs.Formats.{many};
ghost use Rattle.aw_codec.specs.Parsing.{Gives, reading};
ghost use Rattle.aw_codec.specs.RecordFormat as format;

use crate::fields::{letter_at, u16_at};
use crate::marks::{CELLS_PATCH, VALUES_PATCH};
use crate::patches::cells_at;
use crate::record::BadRecord;
use crate::slots::slots_at;
use crate::values::values_at;
use aw_body::{BodyPatch, Change};
use aw_lists::List;
use std::alloc::Global;

/// What stands behind the letter of a patch, and the offset behind it.
fn patch_behind(
    alloc: Global,
    bytes: &[u8],
    at: usize,
    letter: u8,
) -> Result<(BodyPatch, usize), BadRecord>
    ensures { Gives (λ x. (x.0, x.1)) result (reading (format.behind_letter letter) bytes.now at) }
{
    if letter == VALUES_PATCH {
        values_at(alloc, bytes, at)
    } else if letter == CELLS_PATCH {
        cells_at(alloc, bytes, at)
    } else {
        slots_at(alloc, bytes, at)
    }
}

/// A patch, and the offset behind it.
#[tactic(auto, using(crate::proofs::Readings::reading_bind), unfolding(crate::specs::RecordFormat::patch))]
fn patch_at(alloc: Global, bytes: &[u8], at: usize) -> Result<(BodyPatch, usize), BadRecord>
    ensures { Gives (λ x. (x.0, x.1)) result (reading format.patch bytes.now at) }
{
    let (letter, at) = letter_at(bytes, at)?;
    let (patch, at) = patch_behind(alloc, bytes, at, letter)?;
    Ok((patch, at))
}

/// The least object that may stand behind this change.
fn next_object(change: &Change) -> u32
    ensures { result ≡ change.now.object + 1 }
{
    u32::from(change.object) + 1
}

/// The least object that may stand behind these changes.
fn least_object(before: &[Change]) -> u32
    ensures { result ≡ option_map_or (λ last. last.object + 1) (format.last_of before.now) 0 }
{
    match before.last() {
        Some(last) => next_object(last),
        None => 0,
    }
}

/// A change behind these, and the offset behind it.
#[tactic(auto, using(crate::proofs::Readings::reading_bind), unfolding(crate::specs::RecordFormat::change))]
fn change_at(
    alloc: Global,
    bytes: &[u8],
    at: usize,
    before: &[Change],
) -> Result<(Change, usize), BadRecord>
    ensures { Gives (λ x. (x.0, x.1)) result (reading (format.change before.now) bytes.now at) }
{
    let least = least_object(before);
    let (object, at) = u16_at(bytes, at, least)?;
    let (patch, at) = patch_at(alloc, bytes, at)?;
    Ok((Change { object, patch }, at))
}

/// So many changes by rising object, and the offset behind them.
pub fn changes_at(
    alloc: Global,
    bytes: &[u8],
    at: usize,
    count: u16,
) -> Result<(List<Change>, usize), BadRecord>
    ensures { Gives (λ x. (x.0, x.1)) result (reading (many format.change count []) bytes.now at) }
{
    let mut changes = Vec::new(alloc);
    let mut behind = at;
    for _ in 0..count {
        let (change, after) = change_at(alloc, bytes, behind, changes.as_slice())?;
        changes.push(change)?;
        behind = after;
    }
    Ok((List::from_vec(changes), behind))
}
