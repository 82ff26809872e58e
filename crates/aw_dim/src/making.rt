//! The index of a dimension that is made from its values.
ghost use Rattle.std.specs.Prelude.{◌≡◌, ◌↔◌, ◌<◌, length, map, IsTrue, IfOk, true};
ghost use Rattle.std.specs.Cmp.Lexicographic.{slice_cmp};
ghost use Rattle.std.specs.List.{All};
ghost use Rattle.std.specs.List.Sorted.{IsPermutation, IsSortedBy};
ghost use Rattle.std.specs.Ordering.{nat_cmp};
ghost use Rattle.aw_dim.specs.DimensionState.{IsValueName};
ghost use Rattle.aw_dim.specs.inside.Index.{AreBelow, ArePlaced, indexed_name, precedes};
ghost use Rattle.aw_dim.specs.inside.Making.{AreListed, RiseBy};

use crate::index::name_at;
use aw_cell::Text;
use std::alloc::{AllocError, Global};
use std::cmp::Ordering;

fn is_value_name(name: &Text) -> bool
    ensures { IsTrue result ↔ IsValueName name.now }
{
    !name.bytes().is_empty()
}

/// Whether no name is empty.
fn are_named(entries: &[(u16, Text)]) -> bool
    ensures { IsTrue result ↔ All (λ entry. IsValueName entry.1) entries.now }
{
    entries.iter().all(|(_, name)| is_value_name(name))
}

/// Whether each slot is below a number.
fn are_below(entries: &[(u16, Text)], next: u32) -> bool
    ensures { IsTrue result ↔ All (λ entry. entry.0 < next) entries.now }
{
    entries.iter().all(|(slot, _)| u32::from(*slot) < next)
}

/// Whether values are named and have slots below the next one, which is at most 65,536.
pub fn are_listed(entries: &[(u16, Text)], next: u32) -> bool
    ensures { IsTrue result ↔ AreListed entries.now next }
{
    if next > 65_536 || entries.len() > next as usize {
        return false;
    }
    are_named(entries) & are_below(entries, next)
}

/// Whether the place of each value stands at its slot.
pub fn are_placed(entries: &[(u16, Text)], places: &[u16]) -> bool
    requires { AreBelow entries.now (length places.now) }
    ensures { IsTrue result ↔ ArePlaced entries.now places.now (length entries.now) }
{
    for place in 0..entries.len() {
        if usize::from(places[usize::from(entries[place].0)]) != place {
            return false;
        }
    }
    true
}

/// How the names of two slots' values are ordered.
fn compare_names(entries: &[(u16, Text)], places: &[u16], one: u16, other: u16) -> Ordering
    ensures { result ≡ slice_cmp nat_cmp (indexed_name entries.now places.now one) (indexed_name entries.now places.now other) }
{
    name_at(entries, places, one).cmp(name_at(entries, places, other))
}

/// The slots of the values, sorted by their names.
pub fn by_name(
    alloc: Global,
    entries: &[(u16, Text)],
    places: &[u16],
) -> Result<Vec<u16>, AllocError>
    ensures same { IfOk result (λ slots. IsPermutation (map (λ entry. entry.0) entries.now) slots.items) }
    ensures sorted { IfOk result (λ slots. IsSortedBy (λ one other. precedes (indexed_name entries.now places.now one) (indexed_name entries.now places.now other)) slots.items) }
{
    let mut slots: Vec<u16> = entries.iter().map(|(slot, _)| *slot).collect(alloc)?;
    slots
        .as_mut_slice()
        .sort_unstable_by(|one, other| compare_names(entries, places, *one, *other));
    Ok(slots)
}

/// Whether each listed name stands before the next one.
pub fn names_rise(entries: &[(u16, Text)], places: &[u16], by_name: &[u16]) -> bool
    ensures { IsTrue result ↔ RiseBy (indexed_name entries.now places.now) by_name.now }
{
    for at in 1..by_name.len() {
        if !compare_names(entries, places, by_name[at - 1], by_name[at]).is_lt() {
            return false;
        }
    }
    true
}
