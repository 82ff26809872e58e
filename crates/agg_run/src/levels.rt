//! The levels of a hierarchy: the folds of their cells, carried up step by step.

ghost use Rattle.std.specs.Option.{option_map};
ghost use Rattle.aw_rel.specs.Hierarchy.{is_leaf, slots_in, IsHierarchy};
ghost use Rattle.std.specs.Prelude.{ℕ, ◌==◌, ◌+◌, ◌^◌, None, [], IfOk, ◌≡◌, ◌<◌, ◌≤◌, length, map, slice_set, cond, Some, OnOk};
ghost use Rattle.std.specs.BTreeMap.{IsOrdered, is_at};
ghost use Rattle.aw_var.specs.CellMap.{by_slots};
ghost use Rattle.agg_run.specs.Aggregates.{slot_at};
ghost use Rattle.agg_run.specs.inside.Folds.{with};
ghost use Rattle.agg_run.specs.inside.Levels.{fold_at, depth_within, depth_in, on_level, leaf_cell, held_at, or_else, ended};

use crate::folding::Fold;
use aw_cell::{Kind, Operator};
use aw_dim::Dimension;
use aw_lists::Coord;
use aw_rel::Hierarchy;
use std::alloc::{AllocError, Global};
use std::collections::BTreeMap;

/// How many steps lead from a value up to one without a parent, at most so many.
pub fn depth(tree: &Hierarchy, most: usize, slot: u16) -> usize
    ensures value { result ≡ depth_within tree.now most slot }
    ensures valid { 0 < most → IsHierarchy tree.now }
{
    let mut value = slot;
    let mut steps = 0;
    while steps < most {
        match tree.parent(value) {
            Some(parent) => value = parent,
            None => return steps,
        }
        steps += 1;
    }
    steps
}

/// The depth of the deepest value.
pub fn height(tree: &Hierarchy, dimension: &Dimension) -> usize
    requires { slots_in tree.now ≡ map (λ entry. entry.0) dimension.now.entries }
    ensures deepest { (slot : ℕ) → depth_in tree.now slot ≤ result }
    ensures most { result ≤ 65536 }
    ensures valid { IsHierarchy tree.now }
{
    let most = dimension.len();
    let mut height = 0;
    for place in 0..most {
        if let Some(slot) = dimension.at(place) {
            let depth = depth(tree, most as usize, slot);
            if depth > height {
                height = depth;
            }
        }
    }
    height
}

/// The slot at a place of a key, 0 where it has no such place.
pub fn slot_at(at: &Coord, place: usize) -> u16
    ensures { result ≡ slot_at at.now place }
{
    match at.slots().get(place) {
        Some(slot) => *slot,
        None => 0,
    }
}

/// A key with another slot at a place, where it has such a place.
pub fn with_slot(at: &Coord, place: usize, slot: u16) -> Coord
    ensures { result ≡ slice_set at.now place slot }
{
    let count = at.slots().len();
    if count <= place {
        return *at;
    }
    let mut slots = [0; 6];
    slots[..count].copy_from_slice(at.slots());
    slots[place] = slot;
    match Coord::of(&slots[..count]) {
        Some(key) => key,
        None => unreachable!(),
    }
}

/// Adds a fold to that of a cell.
pub fn add(
    folds: &mut BTreeMap<Coord, Fold>,
    operator: Operator,
    at: Coord,
    fold: Fold,
) -> Result<(), AllocError>
    ensures added { OnOk result ((key : _) → fold_at folds.new.entries key ≡ with operator (fold_at folds.old.entries key) (cond (is_at (by_slots at) key) (Some fold) None)) }
    ensures ordered { IsOrdered by_slots folds.new }
{
    let sum = match folds.get(&at) {
        Some(old) => old.joined(operator, fold),
        None => fold,
    };
    match folds.insert(at, sum) {
        Ok(_) => Ok(()),
        Err(_) => Err(AllocError),
    }
}

/// Adds a fold to that of a cell on a level.
fn put_on(
    levels: &mut Vec<BTreeMap<Coord, Fold>>,
    operator: Operator,
    level: usize,
    at: Coord,
    fold: Fold,
) -> Result<(), AllocError>
    requires { level < length levels.old.items }
    ensures added { OnOk result ((depth : ℕ) (key : _) → on_level levels.new.items depth key ≡ with operator (on_level levels.old.items depth key) (cond (depth == level) (cond (is_at (by_slots at) key) (Some fold) None) None)) }
    ensures as_many { OnOk result (length levels.new.items ≡ length levels.old.items) }
{
    add(&mut levels[level], operator, at, fold)
}

/// So many levels without cells.
fn empty_levels(alloc: Global, count: usize) -> Result<Vec<BTreeMap<Coord, Fold>>, AllocError>
    ensures empty { IfOk result (λ levels. (depth : ℕ) (key : _) → on_level levels.items depth key ≡ None) }
    ensures as_many { IfOk result (λ levels. length levels.items ≡ count) }
{
    let mut levels = Vec::new(alloc);
    for _ in 0..count {
        levels.push(BTreeMap::new(alloc))?;
    }
    Ok(levels)
}

/// Whether a value is nobody's parent.
pub fn is_leaf(tree: &Hierarchy, slot: u16) -> bool
    ensures { result ≡ is_leaf tree.now slot }
{
    tree.children(slot).is_empty()
}

/// The cells at leaves, each on the level of its value's depth.
pub fn leaf_levels(
    alloc: Global,
    tree: &Hierarchy,
    most: usize,
    height: usize,
    place: usize,
    operator: Operator,
    numbers: &BTreeMap<Coord, i128>,
) -> Result<Vec<BTreeMap<Coord, Fold>>, AllocError>
    requires most { most ≡ length tree.now }
    requires deepest { (slot : ℕ) → depth_in tree.now slot ≤ height }
    requires room { height ≤ 65536 }
    ensures as_many { IfOk result (λ levels. length levels.items ≡ height + 1) }
    ensures cells { IfOk result (λ levels. (depth : ℕ) (key : _) → on_level levels.items depth key ≡ leaf_cell tree.now place (held_at numbers.now.entries) depth key) }
{
    let mut levels = empty_levels(alloc, height + 1)?;
    for (at, number) in numbers.iter() {
        let slot = slot_at(at, place);
        if is_leaf(tree, slot) {
            let level = depth(tree, most, slot);
            put_on(&mut levels, operator, level, *at, Fold::of(*number))?;
        }
    }
    Ok(levels)
}

/// Puts a number at a key.
pub fn put(numbers: &mut BTreeMap<Coord, i128>, at: Coord, number: i128) -> Result<(), AllocError>
    ensures { OnOk result ((key : _) → held_at numbers.new.entries key ≡ cond (is_at (by_slots at) key) (Some number) (held_at numbers.old.entries key)) }
{
    match numbers.insert(at, number) {
        Ok(_) => Ok(()),
        Err(_) => Err(AllocError),
    }
}

/// What becomes of a cell's fold: at a leaf the number stays.
fn ended(
    tree: &Hierarchy,
    place: usize,
    kind: Kind,
    operator: Operator,
    at: &Coord,
    fold: Fold,
) -> i128
    ensures { result ≡ ended kind operator tree.now place at.now fold }
{
    if is_leaf(tree, slot_at(at, place)) {
        fold.number
    } else {
        fold.finished(kind, operator)
    }
}

/// Adds what comes of a level's folds to the numbers.
pub fn finish(
    tree: &Hierarchy,
    place: usize,
    kind: Kind,
    operator: Operator,
    level: &BTreeMap<Coord, Fold>,
    numbers: &mut BTreeMap<Coord, i128>,
) -> Result<(), AllocError>
    ensures finished { OnOk result ((key : _) → held_at numbers.new.entries key ≡ or_else (option_map (ended kind operator tree.now place key) (fold_at level.now.entries key)) (held_at numbers.old.entries key)) }
{
    for (at, fold) in level.iter() {
        put(numbers, *at, ended(tree, place, kind, operator, at, *fold))?;
    }
    Ok(())
}
