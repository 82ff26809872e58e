//! The index of a dimension: the places of its values by slot, and their slots by name.
ghost use Rattle.std.specs.Prelude.{ℕ, ◌≡◌, ◌<◌, ◌≤◌, length, vec_len, vec_capacity, slice_get, IsTrue, true, false};
ghost use Rattle.std.specs.List.Sorted.{IsPartitionedBy, IsPartitionPoint};
ghost use Rattle.aw_cell.specs.Text.{is_text};
ghost use Rattle.aw_dim.specs.inside.Index.{AreBelow, ArePlaced, Has, HasBut, IsNameIndex, SlotsFit, indexed_name, indexed_place, listed_slot, name_by, precedes};

use aw_cell::Text;

/// Writes the place of each value from a place on at its slot. Where no two values have one slot,
/// all places then stand at the slots.
pub fn mark_places(entries: &[(u16, Text)], places: &mut Vec<u16>, from: usize)
    requires below { AreBelow entries.now (length places.old.items) }
    requires few { length entries.now ≤ 65536 }
    ensures placed { SlotsFit entries.now (length places.old.items) →
        ArePlaced entries.now places.old.items from →
        ArePlaced entries.now places.new.items (length entries.now) }
    ensures next { length places.new.items ≡ length places.old.items }
{
    for place in from..entries.len() {
        places[usize::from(entries[place].0)] = place as u16;
    }
}

/// The name of the value with a slot, by its place.
pub fn name_at<'a>(entries: &'a [(u16, Text)], places: &[u16], slot: u16) -> &'a [u8]
    ensures { result.now ≡ indexed_name entries.now places.now slot }
{
    match places.get(usize::from(slot)) {
        Some(place) => match entries.get(usize::from(*place)) {
            Some(entry) => entry.1.bytes(),
            None => &[],
        },
        None => &[],
    }
}

/// The place of the value with a slot.
pub fn place_of(entries: &[(u16, Text)], places: &[u16], slot: u16) -> Option<u16>
    ensures { result ≡ indexed_place entries.now places.now slot }
{
    match places.get(usize::from(slot)) {
        Some(place) => match entries.get(usize::from(*place)) {
            Some(entry) => { if entry.0 == slot { Some(*place) } else { None } }
            None => None,
        },
        None => None,
    }
}

/// The name of the value at a place.
pub fn name_by(entries: &[(u16, Text)], place: Option<u16>) -> Option<Text>
    ensures { result ≡ name_by entries.now place }
{
    match place {
        Some(place) => match entries.get(usize::from(place)) {
            Some(entry) => Some(entry.1),
            None => None,
        },
        None => None,
    }
}

/// The listed slot at a rank, where its value has a name.
pub fn slot_at(
    entries: &[(u16, Text)],
    places: &[u16],
    by_name: &[u16],
    at: usize,
    name: &[u8],
) -> Option<u16>
    ensures { result ≡ listed_slot entries.now places.now name.now (slice_get by_name.now at) }
{
    match by_name.get(at) {
        Some(slot) => {
            if name_at(entries, places, *slot) == name {
                Some(*slot)
            } else {
                None
            }
        }
        None => None,
    }
}

/// Whether the name of the value with a slot stands before a name.
fn stands_before(entries: &[(u16, Text)], places: &[u16], slot: u16, name: &[u8]) -> bool
    ensures { result ≡ precedes (indexed_name entries.now places.now slot) name.now }
{
    name_at(entries, places, slot).cmp(name).is_lt()
}

/// How many of the listed slots have names that stand before a name.
pub fn rank(entries: &[(u16, Text)], places: &[u16], by_name: &[u16], name: &[u8]) -> usize
    ensures within { result ≤ length by_name.now }
    ensures splits { IsPartitionedBy (λ slot. precedes (indexed_name entries.now places.now slot) name.now) by_name.now →
        IsPartitionPoint (λ slot. precedes (indexed_name entries.now places.now slot) name.now ≡ true)
        (λ slot. precedes (indexed_name entries.now places.now slot) name.now ≡ false) by_name.now result }
{
    by_name.partition_point(|slot| stands_before(entries, places, *slot, name))
}

/// Puts the slot of a value among the slots that are listed by name.
pub fn enlist(entries: &[(u16, Text)], places: &[u16], by_name: &mut Vec<u16>, value: &(u16, Text))
    requires placed { ArePlaced entries.now places.now (length entries.now) }
    requires listed { IsNameIndex (HasBut entries.now value.now.0) by_name.old.items }
    requires value { Has entries.now value.now.0 value.now.1 }
    requires unused { (slot : ℕ) → HasBut entries.now value.now.0 slot value.now.1 → ⊥ }
    requires room { vec_len by_name.old < vec_capacity by_name.old }
    ensures listed { IsNameIndex (Has entries.now) by_name.new.items }
    ensures text { IsTrue (is_text value.now.1) }
{
    let at = rank(entries, places, by_name.as_slice(), value.1.bytes());
    let _ = by_name.insert(at, value.0);
}

/// Takes the slot of a value from the slots that are listed by name.
pub fn unlist(entries: &[(u16, Text)], places: &[u16], by_name: &mut Vec<u16>, value: &(u16, Text))
    requires placed { ArePlaced entries.now places.now (length entries.now) }
    requires listed { IsNameIndex (Has entries.now) by_name.old.items }
    requires value { Has entries.now value.now.0 value.now.1 }
    ensures listed { IsNameIndex (HasBut entries.now value.now.0) by_name.new.items }
    ensures room { vec_len by_name.new < vec_capacity by_name.new }
{
    let at = rank(entries, places, by_name.as_slice(), value.1.bytes());
    by_name.remove(at);
}
