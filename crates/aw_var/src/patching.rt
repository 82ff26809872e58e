ghost use Rattle.std.specs.Prelude.{◌≡◌, ◌≤◌, ◌<◌, ◌^◌, ◌+◌, ◌*◌, ◌++◌, ℕ, length, IfOk, OnOk, OnErr};
ghost use Rattle.std.specs.Option.{option_copied};
ghost use Rattle.aw_lists.specs.Coord.{packed, AreSlots};
ghost use Rattle.aw_var.specs.inside.Differences.{changes_on, ChangesFit, lesser_of};
ghost use Rattle.aw_var.specs.inside.Unpacking.{unpacked, with_coords};

use crate::sheet::{Sheet, cell_in, is_same_in, is_unchanged};
use aw_cell::Cell;
use aw_lists::Coord;
use std::alloc::AllocError;

/// The lesser of two pages, or the one that there is.
pub fn lesser(one: Option<u128>, other: Option<u128>) -> Option<u128>
    ensures { result ≡ lesser_of one other }
{
    match (one, other) {
        (Some(one), Some(other)) => Some(one.min(other)),
        (Some(page), None) => Some(page),
        (None, page) => page,
    }
}

/// Writes the digits of a number in base 65,536, the highest first.
fn write_digits(slots: &mut [u16], number: u128)
    requires { number < 65536 ^ length slots.old }
    ensures { packed slots.new ≡ number }
{
    let mut rest = number;
    let mut at = slots.len();
    while at > 0 {
        at -= 1;
        slots[at] = (rest % 65536) as u16;
        rest /= 65536;
    }
}

/// The same number, beside slots that are below 65,536.
pub fn keep_range(slots: &[u16], number: u128) -> u128
    ensures same { result ≡ number }
    ensures slots { AreSlots slots.now }
{
    let _ = slots.len();
    number
}

/// The coordinate with so many slots that packs to a number.
pub fn coord_of(slots: u8, number: u128) -> Coord
    requires few { slots ≤ 6 }
    requires number { number < 65536 ^ slots }
    ensures { result ≡ unpacked slots number }
{
    let mut digits = [0; 6];
    let digits = &mut digits[..slots as usize];
    write_digits(digits, number);
    let _ = keep_range(digits, number);
    match Coord::of(digits) {
        Some(coord) => coord,
        None => unreachable!(),
    }
}

/// The number of a place of a page, where a key with so many slots has it.
pub fn number_at(slots: u8, page: u128, place: u8) -> u128
    requires few { slots ≤ 6 }
    requires fits { 64 * page + place < 65536 ^ slots }
    ensures { result ≡ 64 * page + place }
{
    64 * page + u128::from(place)
}

/// Adds the cells of one page that aren't as before, by their coordinates.
pub fn push_changes(
    patch: &mut Vec<(Coord, Cell)>,
    slots: u8,
    page: u128,
    before: Option<&Sheet>,
    now: Option<&Sheet>,
) -> Result<(), AllocError>
    requires few { slots ≤ 6 }
    requires fits { ChangesFit slots page (option_copied before) (option_copied now) }
    ensures { OnOk result (patch.new.items ≡ patch.old.items ++ with_coords slots (changes_on (option_copied before.entry) (option_copied now.entry) (64 * page) 0 64)) }
{
    // Most pages are as before, and those are compared at once.
    if is_unchanged(before, now) {
        return Ok(());
    }
    push_each(patch, slots, page, before, now)
}

fn push_each(
    patch: &mut Vec<(Coord, Cell)>,
    slots: u8,
    page: u128,
    before: Option<&Sheet>,
    now: Option<&Sheet>,
) -> Result<(), AllocError>
    requires few { slots ≤ 6 }
    requires fits { ChangesFit slots page (option_copied before) (option_copied now) }
    ensures { OnOk result (patch.new.items ≡ patch.old.items ++ with_coords slots (changes_on (option_copied before.entry) (option_copied now.entry) (64 * page) 0 64)) }
{
    for place in 0..64 {
        if !is_same_in(before, now, place) {
            let coord = coord_of(slots, number_at(slots, page, place));
            patch.push((coord, cell_in(now, place)))?;
        }
    }
    Ok(())
}
