use aw_cell::Text;
use aw_dim::{DimFault, Dimension, slots_are_never_given_again};
use aw_lists::List;
use std::alloc::{AllocError, Global};
use std::test::Fail;

// Whether the value at a place has this slot and this name, and the look-ups find it.
fn is_at(dimension: &Dimension, place: u32, slot: u16, name: &[u8]) -> bool {
    let named = match Text::of(name) {
        Some(text) => {
            dimension.name_of(slot) == Some(text) && dimension.slot_of(&text) == Some(slot)
        }
        None => false,
    };
    named & (dimension.at(place) == Some(slot)) & (dimension.position_of(slot) == Some(place))
}

// Adds a value, and says whether it got this slot.
fn adds(dimension: &mut Dimension, name: &[u8], place: u32, slot: u16) -> bool {
    match Text::of(name) {
        Some(text) if !text.bytes().is_empty() && place <= dimension.len() => {
            dimension.add(text, place) == Ok(slot)
        }
        _ => false,
    }
}

fn done(ended: Result<(), DimFault>) -> bool {
    ended == Ok(())
}

fn moves(dimension: &mut Dimension, slot: u16, place: u32) -> bool {
    place <= dimension.len() && done(dimension.move_to(slot, place))
}

fn renames(dimension: &mut Dimension, slot: u16, name: &[u8]) -> bool {
    match Text::of(name) {
        Some(text) if !text.bytes().is_empty() => done(dimension.rename(slot, text)),
        _ => false,
    }
}

fn keeps_its_values_in_order(alloc: Global) -> bool {
    let mut dimension = Dimension::new(alloc);
    let added = adds(&mut dimension, b"North", 0, 0)
        & adds(&mut dimension, b"East", 1, 1)
        & adds(&mut dimension, b"All", 0, 2);
    let removed = done(dimension.remove(1)) & !done(dimension.remove(1));
    let again = adds(&mut dimension, b"East", 2, 3) & !adds(&mut dimension, b"All", 0, 4);
    let ordered = is_at(&dimension, 0, 2, b"All")
        & is_at(&dimension, 1, 0, b"North")
        & is_at(&dimension, 2, 3, b"East");
    added & removed & again & ordered
}

fn moves_renames_and_copies(alloc: Global) -> Result<bool, AllocError> {
    let mut dimension = Dimension::new(alloc);
    let added = adds(&mut dimension, b"C", 0, 0)
        & adds(&mut dimension, b"A", 1, 1)
        & adds(&mut dimension, b"B", 2, 2);
    let changed = moves(&mut dimension, 0, 1) & renames(&mut dimension, 1, b"D");
    let moved = moves(&mut dimension, 1, 3);
    let ordered = is_at(&dimension, 0, 0, b"C")
        & is_at(&dimension, 1, 2, b"B")
        & is_at(&dimension, 2, 1, b"D");
    let copied = dimension.copied()? == dimension;
    Ok(added & changed & moved & ordered & copied & (dimension.next() == 3))
}

#[test]
fn values_stand_in_order(rt: HostRuntime) -> Result<(), Fail> {
    let alloc = rt.alloc();
    slots_are_never_given_again();
    assert!(rt; keeps_its_values_in_order(alloc) & moves_renames_and_copies(alloc)?);
    Ok(())
}

fn is_made(
    alloc: Global,
    one: (u16, Text),
    other: (u16, Text),
    next: u32,
) -> Result<bool, AllocError> {
    let values = List::from_slice(alloc, &[one, other])?;
    Ok(Dimension::of(alloc, values, next)?.is_some())
}

#[test]
fn is_made_from_its_values(rt: HostRuntime) -> Result<(), Fail> {
    let alloc = rt.alloc();
    let (a, b) = (
        Text::of(b"A").ok_or("a text")?,
        Text::of(b"B").ok_or("a text")?,
    );
    let refused = is_made(alloc, (4, a), (2, a), 5)?
        | is_made(alloc, (4, a), (4, b), 5)?
        | is_made(alloc, (2, a), (4, b), 4)?;
    assert!(rt; is_made(alloc, (4, b), (2, a), 5)? & !refused);
    Ok(())
}
