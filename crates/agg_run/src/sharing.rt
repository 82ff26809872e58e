//! The cells of a level, carried one level up: they are added up in pieces by several threads.

ghost use Rattle.std.specs.Prelude.{ℕ, suc, ◌≡◌, ◌<◌, List, length, slice_set, IfOk, OnOk};
ghost use Rattle.std.specs.List.{AllZip};
ghost use Rattle.std.specs.BTreeMap.{IsOrdered};
ghost use Rattle.aw_var.specs.CellMap.{by_slots};
ghost use Rattle.rayon.specs.Lists.{chunks_of};
ghost use Rattle.aw_rel.specs.Hierarchy.{children_in, IsHierarchy};
ghost use Rattle.agg_run.specs.Aggregates.{slot_at};
ghost use Rattle.agg_run.specs.inside.Folds.{with, summed};
ghost use Rattle.agg_run.specs.inside.Levels.{Folds, fold_at, on_level};
ghost use Rattle.agg_run.specs.inside.Sharing.{gathered, raised_cells, AreSumsOf, IsAdded};

use crate::folding::Fold;
use crate::levels::{add, slot_at, with_slot};
use aw_cell::Operator;
use aw_lists::Coord;
use aw_rel::Hierarchy;
use rayon::prelude::*;
use std::alloc::{AllocError, Global};
use std::collections::BTreeMap;
use std::thread::Threads;

/// How many cells a thread adds up at a time.
const PIECE: usize = 4096;

/// The cells above those of a level, each with the fold that it gets.
fn raised(
    alloc: Global,
    tree: &Hierarchy,
    place: usize,
    level: &BTreeMap<Coord, Fold>,
) -> Result<Vec<(Coord, Fold)>, AllocError>
    ensures cells { IfOk result (λ cells. cells.items ≡ raised_cells tree.now place level.now.entries) }
    ensures ordered { IsOrdered by_slots level.now }
{
    let mut cells = Vec::new(alloc);
    for (at, fold) in level.iter() {
        if let Some(parent) = tree.parent(slot_at(at, place)) {
            cells.push((with_slot(at, place, parent), *fold))?;
        }
    }
    Ok(cells)
}

/// What cells come to at each key.
fn sums(
    alloc: Global,
    operator: Operator,
    cells: &[(Coord, Fold)],
) -> Result<BTreeMap<Coord, Fold>, AllocError>
    ensures { IfOk result (λ sums. AreSumsOf operator cells.now sums.entries) }
{
    let mut sums = BTreeMap::new(alloc);
    for place in 0..cells.len() {
        let cell = &cells[place];
        add(&mut sums, operator, cell.0, cell.1)?;
    }
    Ok(sums)
}

/// What the cells of each piece come to, piece by piece in threads.
fn sums_of_pieces(
    rt: &(impl Threads + Sync),
    alloc: Global,
    operator: Operator,
    cells: &[(Coord, Fold)],
) -> Result<Vec<Result<BTreeMap<Coord, Fold>, AllocError>>, AllocError>
    ensures { IfOk result (λ pieces. AllZip (λ piece sums. IfOk sums (λ of. AreSumsOf operator piece of.entries)) (chunks_of 4096 cells.now) pieces.items) }
{
    cells
        .par_chunks(PIECE)
        .map(
            |piece: &[(Coord, Fold)]| -> Result<BTreeMap<Coord, Fold>, AllocError>
                ensures { IfOk result (λ of. AreSumsOf operator piece.now of.entries) }
            { sums(alloc, operator, piece) },
        )
        .collect(rt, alloc)
}

/// Adds all cells of a map to those of another.
fn add_all(
    above: &mut BTreeMap<Coord, Fold>,
    operator: Operator,
    sums: &BTreeMap<Coord, Fold>,
) -> Result<(), AllocError>
    ensures { OnOk result ((key : _) → fold_at above.new.entries key ≡ with operator (fold_at above.old.entries key) (fold_at sums.now.entries key)) }
{
    for (at, fold) in sums.iter() {
        add(above, operator, *at, *fold)?;
    }
    Ok(())
}

/// Adds what a piece comes to.
fn add_piece(
    above: &mut BTreeMap<Coord, Fold>,
    operator: Operator,
    piece: &Result<BTreeMap<Coord, Fold>, AllocError>,
) -> Result<(), AllocError>
    ensures { OnOk result (IsAdded operator (fold_at above.old.entries) piece.now (fold_at above.new.entries)) }
{
    match piece {
        Ok(sums) => add_all(above, operator, sums),
        Err(_) => Err(AllocError),
    }
}

/// Adds what the pieces come to: the same, however they are cut.
fn add_pieces(
    above: &mut BTreeMap<Coord, Fold>,
    operator: Operator,
    pieces: &[Result<BTreeMap<Coord, Fold>, AllocError>],
) -> Result<(), AllocError>
    ensures { OnOk result ((parts : List Folds) → AllZip (λ part sums. IfOk sums (λ of. AreSumsOf operator part of.entries)) parts pieces.now → (key : _) → fold_at above.new.entries key ≡ with operator (fold_at above.old.entries key) (summed operator (λ part. gathered operator part key) parts)) }
{
    for number in 0..pieces.len() {
        add_piece(above, operator, &pieces[number])?;
    }
    Ok(())
}

/// Adds each cell of a level to the cell above it: a cell gets the cells at the children of its value.
fn climb(
    rt: &(impl Threads + Sync),
    alloc: Global,
    tree: &Hierarchy,
    place: usize,
    operator: Operator,
    level: &BTreeMap<Coord, Fold>,
    above: &mut BTreeMap<Coord, Fold>,
) -> Result<(), AllocError>
    requires { IsHierarchy tree.now }
    ensures { OnOk result ((key : _) → place < length key → fold_at above.new.entries key ≡ with operator (fold_at above.old.entries key) (summed operator (λ child. fold_at level.now.entries (slice_set key place child)) (children_in tree.now (slot_at key place)))) }
{
    let cells = raised(alloc, tree, place, level)?;
    let pieces = sums_of_pieces(rt, alloc, operator, cells.as_slice())?;
    add_pieces(above, operator, pieces.as_slice())
}

/// Adds each cell of a level to the cell above it on the last of the levels above, where there are any.
pub fn climb_onto(
    rt: &(impl Threads + Sync),
    alloc: Global,
    tree: &Hierarchy,
    place: usize,
    operator: Operator,
    level: &BTreeMap<Coord, Fold>,
    above: &mut Vec<BTreeMap<Coord, Fold>>,
) -> Result<(), AllocError>
    requires { IsHierarchy tree.now }
    ensures as_many { OnOk result (length above.new.items ≡ length above.old.items) }
    ensures others { OnOk result ((depth : ℕ) (key : _) → suc depth < length above.old.items → on_level above.new.items depth key ≡ on_level above.old.items depth key) }
    ensures last { OnOk result ((depth : ℕ) (key : _) → suc depth ≡ length above.old.items → place < length key → on_level above.new.items depth key ≡ with operator (on_level above.old.items depth key) (summed operator (λ child. fold_at level.now.entries (slice_set key place child)) (children_in tree.now (slot_at key place)))) }
{
    let left = above.len();
    if left == 0 {
        return Ok(());
    }
    climb(
        rt,
        alloc,
        tree,
        place,
        operator,
        level,
        &mut above[left - 1],
    )
}
