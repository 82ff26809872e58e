//! One line of an aggregation map, over all cells.

ghost use Rattle.std.specs.Prelude.{◌≡◌, ◌≤◌, length, map, IfOk};
ghost use Rattle.aw_rel.specs.Hierarchy.{slots_in};
ghost use Rattle.agg_run.specs.inside.Levels.{held_at};
ghost use Rattle.agg_run.specs.inside.Passes.{IsAfterWhereSmall};

use crate::levels::{finish, height, leaf_levels};
use crate::sharing::climb_onto;
use aw_cell::{Kind, Operator};
use aw_dim::Dimension;
use aw_lists::Coord;
use aw_rel::Hierarchy;
use std::alloc::{AllocError, Global};
use std::collections::BTreeMap;
use std::thread::Threads;

/// Where a line of an aggregation map goes along, and what it does.
#[derive(Clone, Copy)]
pub struct Line<'a> {
    /// The hierarchy of the values of a dimension.
    pub tree: &'a Hierarchy,
    pub dimension: &'a Dimension,
    /// The place of the dimension in the keys.
    pub place: usize,
    pub operator: Operator,
}

/// The numbers after a line: the folds are carried from the deepest level up, and a level is finished
/// when it is complete.
pub fn pass(
    rt: &(impl Threads + Sync),
    alloc: Global,
    kind: Kind,
    line: &Line<'_>,
    numbers: &BTreeMap<Coord, i128>,
) -> Result<BTreeMap<Coord, i128>, AllocError>
    requires values { slots_in line.now.tree.now ≡ map (λ entry. entry.0) line.now.dimension.now.entries }
    ensures few { length line.now.tree.now ≤ 65536 }
    ensures after { IfOk result (λ after. IsAfterWhereSmall kind line.now.operator line.now.tree.now (length line.now.tree.now) line.now.place (held_at numbers.now.entries) (held_at after.entries)) }
{
    let (tree, place, operator) = (line.tree, line.place, line.operator);
    let height = height(tree, line.dimension);
    let most = line.dimension.len() as usize;
    let mut levels = leaf_levels(alloc, tree, most, height, place, operator, numbers)?;
    let mut after = BTreeMap::new(alloc);
    while let Some(level) = levels.pop() {
        climb_onto(rt, alloc, tree, place, operator, &level, &mut levels)?;
        finish(tree, place, kind, operator, &level, &mut after)?;
    }
    Ok(after)
}
