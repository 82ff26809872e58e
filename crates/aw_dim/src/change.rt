//! The changes of a dimension, over its parts.
ghost use Rattle.std.specs.Prelude.{ℕ, List, ◌≡◌, ◌≢◌, ◌+◌, ◌-◌, ◌<◌, ◌≤◌, [], length, vec_len, slice_get, slice_set, Some, IfOk, OnOk, OnErr};
ghost use Rattle.std.specs.List.{insert, remove};
ghost use Rattle.aw_dim.specs.DimensionState.{Entry};
ghost use Rattle.aw_dim.specs.inside.Index.{ArePlaced, Has, IsAt, IsIndexed};

use crate::index::{enlist, mark_places, unlist};
use aw_cell::Text;
use std::alloc::AllocError;

/// Puts a value with the next slot in at a place, and answers the slot. Want of memory leaves the
/// values as they were.
pub fn put(
    entries: &mut Vec<(u16, Text)>,
    places: &mut Vec<u16>,
    by_name: &mut Vec<u16>,
    place: usize,
    name: Text,
) -> Result<u16, AllocError>
    requires indexed { IsIndexed entries.old.items places.old.items by_name.old.items }
    requires few { vec_len places.old < 65536 }
    requires within { place ≤ vec_len entries.old }
    requires named { name ≢ [] }
    requires unused { (slot : ℕ) → Has entries.old.items slot name → ⊥ }
    ensures slot { IfOk result (λ slot. slot ≡ length places.old.items) }
    ensures entries { OnOk result (entries.new.items ≡ insert entries.old.items place (length places.old.items, name)) }
    ensures next { OnOk result (length places.new.items ≡ length places.old.items + 1) }
    ensures err { OnErr result ((entries.new.items ≡ entries.old.items) × (length places.new.items ≡ length places.old.items)) }
    ensures indexed { IsIndexed entries.new.items places.new.items by_name.new.items }
{
    by_name.reserve(1)?;
    entries.reserve(1)?;
    let slot = places.len() as u16;
    places.push(0)?;
    let value = (slot, name);
    let _ = entries.insert(place, value);
    mark_places(entries.as_slice(), places, place);
    enlist(entries.as_slice(), places.as_slice(), by_name, &value);
    Ok(slot)
}

/// Takes the value at a place out.
pub fn take(
    entries: &mut Vec<(u16, Text)>,
    places: &mut Vec<u16>,
    by_name: &mut Vec<u16>,
    place: usize,
)
    requires indexed { IsIndexed entries.old.items places.old.items by_name.old.items }
    requires within { place < vec_len entries.old }
    ensures entries { entries.new.items ≡ remove entries.old.items place }
    ensures next { length places.new.items ≡ length places.old.items }
    ensures indexed { IsIndexed entries.new.items places.new.items by_name.new.items }
{
    let value = entries[place];
    unlist(entries.as_slice(), places.as_slice(), by_name, &value);
    entries.remove(place);
    mark_places(entries.as_slice(), places, place);
}

/// Gives the value at a place, which has this slot, another name.
pub fn name_anew(
    entries: &mut Vec<(u16, Text)>,
    places: &[u16],
    by_name: &mut Vec<u16>,
    place: usize,
    slot: u16,
    name: Text,
)
    requires indexed { IsIndexed entries.old.items places.now by_name.old.items }
    requires here { IsAt entries.old.items place slot }
    requires named { name ≢ [] }
    requires unused { (slot : ℕ) → Has entries.old.items slot name → ⊥ }
    ensures entries { entries.new.items ≡ slice_set entries.old.items place (slot, name) }
    ensures indexed { IsIndexed entries.new.items places.now by_name.new.items }
{
    let old = entries[place];
    unlist(entries.as_slice(), places, by_name, &old);
    let value = (slot, name);
    entries[place] = value;
    enlist(entries.as_slice(), places, by_name, &value);
}

/// Moves the value at a place to a place among the others.
pub fn shift(entries: &mut Vec<(u16, Text)>, places: &mut Vec<u16>, from: usize, to: usize)
    requires placed { ArePlaced entries.old.items places.old.items (length entries.old.items) }
    requires few { vec_len entries.old ≤ 65536 }
    requires from { from < vec_len entries.old }
    requires to { to < vec_len entries.old }
    ensures entries { (value : Entry) → slice_get entries.old.items from ≡ Some value → entries.new.items ≡ insert (remove entries.old.items from) to value }
    ensures next { length places.new.items ≡ length places.old.items }
    ensures placed { ArePlaced entries.new.items places.new.items (length entries.new.items) }
{
    let value = entries.remove(from);
    let _ = entries.insert(to, value);
    mark_places(entries.as_slice(), places, from.min(to));
}
