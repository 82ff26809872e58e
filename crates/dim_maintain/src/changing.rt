//! The changes, of a copy, once nothing refuses them.
ghost use Rattle.std.specs.Prelude.{ℕ, List, ◌≡◌, ◌≢◌, ◌≤◌, ◌<◌, ◌+◌, ◌++◌, [], ◌∷◌, length, take, drop, Ok, None, IfOk, OnOk};
ghost use Rattle.aw_dim.specs.DimensionState.{Entry, IsDimension, slot_of};
ghost use Rattle.aw_dim.specs.Edits as edit;
ghost use Rattle.dim_maintain.specs.Maintained.{added, deleted, in_order, moved, named, others, renamed};
ghost use Rattle.dim_maintain.specs.Causes.{added_cause, deleted_cause, moved_cause, renamed_cause};

use crate::placing::place_among;
use aw_cell::Text;
use aw_dim::{DimFault, Dimension};
use dml_tree::Place;
use std::alloc::AllocError;

/// Its slots and its names tell its values apart.
fn is_dimension(dimension: &Dimension)
    ensures { IsDimension dimension.now }
{
    let _ = dimension.next();
}

fn add_one(made: &mut Dimension, name: &Text, at: u32) -> Result<(), AllocError>
    requires named { name.now ≢ [] }
    requires new { slot_of made.old name.now ≡ None }
    requires within { at ≤ length made.old.entries }
    requires room { made.old.next < 65536 }
    ensures { OnOk result (made.new ≡ edit.added made.old name.now at) }
{
    match made.add(*name, at) {
        Ok(_) => Ok(()),
        Err(DimFault::NoMemory) => Err(AllocError),
        Err(_) => unreachable!(),
    }
}

/// The dimension with these values at a place. The only error is want of memory.
pub fn with_added(
    dimension: &Dimension,
    names: &[Text],
    place: &Place,
) -> Result<Dimension, AllocError>
    requires { added_cause dimension.now names.now place.now ≡ None }
    ensures { IfOk result (λ made. made ≡ added dimension.now names.now place.now) }
{
    let mut made = dimension.copied()?;
    let first = place_among(place, dimension, dimension.len());
    for (at, name) in names.iter().enumerate() {
        add_one(&mut made, name, first + at as u32)?;
    }
    Ok(made)
}

/// Takes the value of a name away, where there is one.
fn remove_one(made: &mut Dimension, name: &Text)
    ensures { made.new ≡ deleted made.old (name.now ∷ []) }
{
    is_dimension(made);
    if let Some(slot) = made.slot_of(name) {
        let _ = made.remove(slot);
    }
}

/// The dimension without these values. The only error is want of memory.
pub fn with_deleted(dimension: &Dimension, names: &[Text]) -> Result<Dimension, AllocError>
    ensures { IfOk result (λ made. made ≡ deleted dimension.now names.now) }
{
    let mut made = dimension.copied()?;
    for name in names {
        remove_one(&mut made, name);
    }
    Ok(made)
}

/// Moves the value of a name, where there is one, behind all others.
fn move_behind(made: &mut Dimension, name: &Text)
    ensures { made.new ≡ record { entries = others (name.now ∷ []) made.old.entries ++ named made.old.entries name.now; next = made.old.next } }
{
    is_dimension(made);
    let last = made.len();
    if let Some(slot) = made.slot_of(name) {
        let _ = made.move_to(slot, last);
    }
}

/// Moves the last value to a place among the others.
fn move_last(made: &mut Dimension, at: u32)
    requires { at < length made.old.entries }
    ensures entries { (rest : List Entry) (last : Entry) → made.old.entries ≡ rest ++ last ∷ [] →
        made.new.entries ≡ take at rest ++ last ∷ drop at rest }
    ensures next { made.new.next ≡ made.old.next }
{
    is_dimension(made);
    if let Some(slot) = made.at(made.len() - 1) {
        let _ = made.move_to(slot, at);
    }
}

/// Moves so many values from the end to a place among the others, and keeps their order.
fn move_from_end(made: &mut Dimension, count: usize, at: u32)
    requires { at + count ≤ length made.old.entries }
    ensures { (rest these : List Entry) → made.old.entries ≡ rest ++ these → length these ≡ count →
        made.new ≡ record { entries = take at rest ++ these ++ drop at rest; next = made.old.next } }
{
    for _ in 0..count {
        move_last(made, at);
    }
}

/// Moves each of these values behind all others, so that they stand there in the order written.
fn move_all_behind(made: &mut Dimension, names: &[Text])
    requires { deleted_cause made.old names.now ≡ None }
    ensures { made.new ≡ record { entries = others names.now made.old.entries ++ in_order names.now made.old.entries; next = made.old.next } }
{
    for name in names {
        move_behind(made, name);
    }
}

/// The dimension with these values at a place among the others. The only error is want of memory.
pub fn with_moved(
    dimension: &Dimension,
    names: &[Text],
    place: &Place,
) -> Result<Dimension, AllocError>
    requires { moved_cause dimension.now names.now place.now ≡ None }
    ensures { IfOk result (λ made. made ≡ moved dimension.now names.now place.now) }
{
    is_dimension(dimension);
    let mut made = dimension.copied()?;
    move_all_behind(&mut made, names);
    let rest = made.len() - names.len() as u32;
    let at = place_among(place, &made, rest);
    move_from_end(&mut made, names.len(), at);
    Ok(made)
}

/// Gives the value of a name, where there is one, another name.
fn rename_one(made: &mut Dimension, old: &Text, new: &Text)
    requires named { new.now ≢ [] }
    requires unused { slot_of made.old new.now ≡ None }
    ensures { made.new ≡ renamed made.old old.now new.now }
{
    is_dimension(made);
    if let Some(slot) = made.slot_of(old) {
        let _ = made.rename(slot, *new);
    }
}

/// The dimension with a value under another name. The only error is want of memory.
pub fn with_renamed(dimension: &Dimension, old: &Text, new: &Text) -> Result<Dimension, AllocError>
    requires { renamed_cause dimension.now old.now new.now ≡ None }
    ensures { IfOk result (λ made. made ≡ renamed dimension.now old.now new.now) }
{
    let mut made = dimension.copied()?;
    rename_one(&mut made, old, new);
    Ok(made)
}
