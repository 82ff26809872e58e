//! Slots one behind the other: the dimensions of a variable, and the keys of a patch.
ghost use Rattle.std.specs.Prelude.{◌≡◌, ◌≤◌, [], nat_le, take, slice_index};
ghost use Rattle.std.specs.Option.{option_copied};
ghost use Rattle.std.specs.Int.{w16};
ghost use Rattle.aw_codec.specs.Formats.{number, many};
ghost use Rattle.aw_codec.specs.Parsing.{Gives, reading};
ghost use Rattle.aw_codec.specs.RecordFormat as format;

use crate::fields::u16_at;
use crate::record::BadRecord;
use aw_lists::Coord;

/// The slot of a key at a place, and 0 where the key is shorter.
fn slot_or_zero(key: &[u16], place: usize) -> u32
    ensures value { result ≡ slice_index key.now place }
    ensures most { result ≤ 65535 }
{
    match key.get(place) {
        Some(slot) => u32::from(*slot),
        None => 0,
    }
}

/// The least slot that may stand behind these slots of a key, above the key before it.
fn least_slot(size: usize, previous: Option<&Coord>, slots: &[u16]) -> u32
    ensures value { result ≡ format.least_slot size (option_copied previous.entry) slots.now }
    ensures most { result ≤ 65536 }
{
    match previous {
        Some(key) => {
            if key.slots().starts_with(slots) {
                slot_or_zero(key.slots(), slots.len()) + u32::from(slots.len() + 1 == size)
            } else {
                0
            }
        }
        None => 0,
    }
}

/// So many slots of a key above the one before it, and the offset behind them.
fn slots_at(
    bytes: &[u8],
    at: usize,
    size: usize,
    previous: Option<&Coord>,
) -> Result<([u16; 6], usize), BadRecord>
    requires { size ≤ 6 }
    ensures { Gives (λ x. (take size x.0, x.1)) result (reading (many (λ slots. number w16 (nat_le (format.least_slot size (option_copied previous.entry) slots))) size []) bytes.now at) }
{
    let mut slots = [0; 6];
    let mut behind = at;
    for place in 0..size {
        let least = least_slot(size, previous, &slots[..place]);
        let (slot, after) = u16_at(bytes, behind, least)?;
        slots[place] = slot;
        behind = after;
    }
    Ok((slots, behind))
}

/// The dimensions of a variable, so many, and the offset behind them.
#[tactic(auto, unfolding(crate::specs::RecordFormat::shorts))]
pub fn dimensions_at(bytes: &[u8], at: usize, count: usize) -> Result<(Coord, usize), BadRecord>
    requires { count ≤ 6 }
    ensures { Gives (λ x. (x.0, x.1)) result (reading (format.shorts count) bytes.now at) }
{
    let (slots, behind) = slots_at(bytes, at, count, None)?;
    Ok((Coord::of(&slots[..count]).unwrap(), behind))
}

/// A key of so many slots above the one before it, and the offset behind it.
#[tactic(auto, unfolding(crate::specs::RecordFormat::key))]
pub fn key_at(
    bytes: &[u8],
    at: usize,
    size: usize,
    previous: Option<&Coord>,
) -> Result<(Coord, usize), BadRecord>
    requires { size ≤ 6 }
    ensures { Gives (λ x. (x.0, x.1)) result (reading (format.key size (option_copied previous.entry)) bytes.now at) }
{
    if size == 0 && previous.is_some() {
        // A second key of no slots can't be above the first.
        return Err(BadRecord::At(at as u64));
    }
    let (slots, behind) = slots_at(bytes, at, size, previous)?;
    Ok((Coord::of(&slots[..size]).unwrap(), behind))
}
