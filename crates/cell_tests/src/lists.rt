use aw_lists::{Coord, FailingCalls, List, packing_keeps_order};
use std::alloc::{AllocError, Global};
use std::test::Fail;

fn is_packed(slots: &[u16], packed: u128) -> bool {
    match Coord::of(slots) {
        Some(coord) => (coord.slots() == slots) & (coord.pack() == packed),
        None => false,
    }
}

fn is_below(low: &[u16], high: &[u16]) -> bool {
    match (Coord::of(low), Coord::of(high)) {
        (Some(low), Some(high)) => (low < high) & (low != high) & (low.max(high) == high),
        _ => false,
    }
}

#[test]
fn a_coordinate_is_its_slots(rt: HostRuntime) {
    let packed = is_packed(&[1, 0, 65535], 4_295_032_831) & is_packed(&[], 0);
    let refused = Coord::of(&[1, 2, 3, 4, 5, 6, 7]).is_none();
    packing_keeps_order();
    assert!(rt; packed & refused & is_below(&[2, 9], &[3, 1]) & is_below(&[2, 9], &[2, 9, 0]));
}

fn fails_at_the_listed_calls(alloc: Global) -> Result<bool, AllocError> {
    let mut calls = FailingCalls::new(List::from_slice(alloc, &[1, 2])?);
    let first = !calls.next_fails() & calls.next_fails();
    calls.count_fault();
    let last = calls.next_fails() & !calls.next_fails();
    Ok(first & last & (calls.calls == 4) & (calls.faults == 1))
}

// What is let go leaves its memory to others.
fn gives_what_was_put_in(alloc: Global) -> Result<bool, AllocError> {
    let mut list = List::new(alloc);
    list.push(3)?;
    list.push(5)?;
    *list.at_mut(0) = 4;
    let given = (list.get(0) == Some(&4)) & (list.get(2) == None) & (list.len() == 2);
    let same = list == List::from_slice(alloc, &[4, 5])?;
    list.clear();
    let items = list.into_vec();
    Ok(given & same & items.is_empty() & (items.capacity() >= 2))
}

#[test]
fn lists_and_counts(rt: HostRuntime) -> Result<(), Fail> {
    let alloc = rt.alloc();
    assert!(rt; gives_what_was_put_in(alloc)? & fails_at_the_listed_calls(alloc)?);
    Ok(())
}

fn is_shared<T: Send + Sync>() {}

fn lists_are_shared<T: Send + Sync>() {
    is_shared::<List<T>>();
}

#[test]
fn cross_threads() {
    is_shared::<Coord>();
    lists_are_shared::<u16>();
    is_shared::<FailingCalls>();
}
