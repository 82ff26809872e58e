//! The tables of a hierarchy, by slot.

ghost use Rattle.std.specs.Prelude.{ℕ, ◌≡◌, ◌<◌, [], ◌∷◌, ◌++◌, true, length, map, replicate, slice_set, IfOk, OnOk};
ghost use Rattle.aw_var.specs.CellMap.{cell_at};
ghost use Rattle.aw_rel.specs.Hierarchy.{parent_of, is_among};
ghost use Rattle.aw_rel.specs.inside.Tables.{AreParents, AreChildren, AreBelow, children_at};

use aw_cell::Cell;
use aw_dim::Dimension;
use aw_lists::{Coord, List};
use aw_var::Variable;
use std::alloc::{AllocError, Global};

/// The slots of the values in their order.
pub fn slots_of(alloc: Global, dimension: &Dimension) -> Result<Vec<u16>, AllocError>
    ensures { IfOk result (λ slots. slots.items ≡ map (λ entry. entry.0) dimension.now.entries) }
{
    let entries = dimension.entries();
    entries.iter().map(|entry| entry.0).collect(alloc)
}

/// The key with one slot.
fn key_of(slot: u16) -> Coord
    ensures { result ≡ slot ∷ [] }
{
    match Coord::of(&[slot]) {
        Some(key) => key,
        None => unreachable!(),
    }
}

/// The slot in a cell, where a value has it.
fn parent_in(dimension: &Dimension, cell: Cell) -> Option<u16>
    ensures { result ≡ parent_of dimension.now cell }
{
    match cell {
        Cell::Slot(slot) => match dimension.position_of(slot) {
            Some(_) => Some(slot),
            None => None,
        },
        _ => None,
    }
}

/// The parents that a relation gives the values, at their slots, with room for so many slots.
pub fn parents_of(
    alloc: Global,
    dimension: &Dimension,
    room: usize,
    slots: &[u16],
    relation: &Variable,
) -> Result<Vec<Option<u16>>, AllocError>
    requires room { (slot : ℕ) → is_among slots.now slot ≡ true → slot < room }
    requires keys { relation.now.slots ≡ 1 }
    ensures parents { IfOk result (λ parents. AreParents (λ slot. parent_of dimension.now (cell_at relation.now.cells (slot ∷ []))) slots.now parents.items) }
    ensures size { IfOk result (λ parents. length parents.items ≡ room) }
{
    let mut parents = vec![in alloc; None; room]?;
    for slot in slots {
        let parent = parent_in(dimension, relation.get(&key_of(*slot)));
        parents[usize::from(*slot)] = parent;
    }
    Ok(parents)
}

/// So many lists without elements.
fn empty_lists(alloc: Global, count: usize) -> Result<List<List<u16>>, AllocError>
    ensures { IfOk result (λ lists. lists ≡ replicate count []) }
{
    let mut lists = List::new(alloc);
    for _ in 0..count {
        lists.push(List::new(alloc))?;
    }
    Ok(lists)
}

/// Adds a value to the children at a slot.
fn add_child(children: &mut List<List<u16>>, parent: u16, child: u16) -> Result<(), AllocError>
    requires { parent < length children.old }
    ensures { OnOk result (children.new ≡ slice_set children.old parent (children_at children.old parent ++ child ∷ [])) }
{
    children.at_mut(usize::from(parent)).push(child)
}

/// The values at the slots of their parents, in their order.
pub fn children_of(
    alloc: Global,
    slots: &[u16],
    parents: &[Option<u16>],
) -> Result<List<List<u16>>, AllocError>
    requires { AreBelow slots.now parents.now (length parents.now) }
    ensures children { IfOk result (λ children. AreChildren parents.now slots.now children) }
    ensures size { IfOk result (λ children. length children ≡ length parents.now) }
{
    let mut children = empty_lists(alloc, parents.len())?;
    for slot in slots {
        if let Some(parent) = parents[usize::from(*slot)] {
            add_child(&mut children, parent, *slot)?;
        }
    }
    Ok(children)
}
