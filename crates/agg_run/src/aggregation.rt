ghost use Rattle.std.specs.Prelude.{ℕ, ◌≡◌, ◌≢◌, ◌≤◌, ◌<◌, false, length, get_or, nat_eq, IfOk, IfErr, OnOk, None, Ok, Err};
ghost use Rattle.std.specs.List.{IsDistinct};
ghost use Rattle.aw_rel.specs.Hierarchy.{first_loop};
ghost use Rattle.agg_map.specs.Maps.{one_allocates};
ghost use Rattle.agg_run.specs.Aggregates.{aggregate_of, first_line_with_loop, passes};
ghost use Rattle.agg_run.specs.Calls.{values_of, lines_of, place_in, AreRelations, AreAmong, IsNumeric};
ghost use Rattle.agg_run.specs.declared.fault.AggFault.{AggFault as Fault};
ghost use Rattle.agg_run.specs.declared.fault.AggFault.TheVariants.{NoMemory};
ghost use Rattle.agg_run.specs.inside.Levels.{held_at};
ghost use Rattle.agg_run.specs.inside.Lines.{no_line, some_line, lines_with, trees_of, AreOfValues, IsLoopCause, IsCauseAt};
ghost use Rattle.agg_run.specs.inside.Passes.{HaveRoom};

use crate::fault::AggFault;
use crate::opening::{closing, combination_count, first_out_of_range, opening};
use crate::pass::{Line, pass};
use agg_map::AggMap;
use aw_cell::{Kind, Operator};
use aw_dim::Dimension;
use aw_lists::{Coord, List};
use aw_rel::{Hierarchy, RelFault};
use aw_var::{Patch, Variable};
use std::alloc::{AllocError, Global};
use std::collections::BTreeMap;
use std::thread::Threads;

/// The most combinations of the dimensions' values.
const MOST_CELLS: u128 = 4_194_304;

/// Where a number stands first, or how many numbers there are.
fn place_of(over: &[u16], dimension: u16) -> usize
    ensures { result ≡ place_in over.now dimension }
{
    for place in 0..over.len() {
        if over[place] == dimension {
            return place;
        }
    }
    over.len()
}

/// The item at a place of a list.
fn item<T>(list: &List<T>, place: usize) -> &T
    requires { place < length list.now }
    ensures { result.now ≡ get_or list.now place result.now }
{
    &list.as_slice()[place]
}

/// How many lines a map has, which is no more than there are dimensions.
fn line_count(map: &AggMap, over: &Coord) -> u16
    requires along { AreAmong map.now.dimensions over.now }
    ensures value { result ≡ length map.now.lines }
    ensures paired { length map.now.dimensions ≡ length map.now.lines }
    ensures distinct { IsDistinct nat_eq map.now.dimensions }
    ensures most { length over.now ≤ 6 }
{
    map.lines().len().min(over.slots().len()) as u16
}

/// The place of a line's dimension.
fn place_along(map: &AggMap, over: &Coord, line: u16) -> usize
    requires there { line < length map.now.lines }
    requires paired { length map.now.dimensions ≡ length map.now.lines }
    requires along { AreAmong map.now.dimensions over.now }
    ensures value { result ≡ place_in over.now (get_or map.now.dimensions line 0) }
    ensures within { result < length over.now }
{
    place_of(over.slots(), map.dimension(line))
}

/// The operator of a line.
fn operator_of(map: &AggMap, line: u16) -> Operator
    requires { line < length map.now.lines }
    ensures { result ≡ (get_or map.now.lines line some_line).operator }
{
    item(map.lines(), usize::from(line)).operator
}

/// The hierarchy of a line.
fn hierarchy(
    alloc: Global,
    map: &AggMap,
    over: &Coord,
    dimensions: &List<Dimension>,
    parents: &List<Variable>,
    line: u16,
) -> Result<Hierarchy, AggFault>
    requires over { length dimensions.now ≡ length over.now }
    requires there { line < length map.now.lines }
    requires lines { length parents.now ≡ length map.now.lines }
    requires paired { length map.now.dimensions ≡ length map.now.lines }
    requires relations { AreRelations parents.now }
    requires along { AreAmong map.now.dimensions over.now }
    ensures tree { IfOk result (λ tree. tree ≡ (get_or (lines_of map.now over.now dimensions.now parents.now) line no_line).tree) }
    ensures none { OnOk result (first_loop (get_or (lines_of map.now over.now dimensions.now parents.now) line no_line).tree ≡ None) }
    ensures cause { IfErr result (λ fault. IsCauseAt line (first_loop (get_or (lines_of map.now over.now dimensions.now parents.now) line no_line).tree) fault) }
{
    let place = place_along(map, over, line);
    let dimension = item(dimensions, place);
    let relation = item(parents, usize::from(line));
    match Hierarchy::check(alloc, dimension, relation) {
        Ok(tree) => Ok(tree),
        Err(RelFault::Loop { slot }) => Err(AggFault::Loop { line, slot }),
        Err(RelFault::NoMemory) => Err(AggFault::NoMemory),
    }
}

/// The hierarchy of each line.
fn hierarchies(
    alloc: Global,
    map: &AggMap,
    over: &Coord,
    dimensions: &List<Dimension>,
    parents: &List<Variable>,
) -> Result<List<Hierarchy>, AggFault>
    requires over { length dimensions.now ≡ length over.now }
    requires lines { length parents.now ≡ length map.now.lines }
    requires relations { AreRelations parents.now }
    requires along { AreAmong map.now.dimensions over.now }
    ensures trees { IfOk result (λ trees. trees ≡ trees_of (lines_of map.now over.now dimensions.now parents.now)) }
    ensures none { OnOk result (first_line_with_loop 0 (lines_of map.now over.now dimensions.now parents.now) ≡ None) }
    ensures cause { IfErr result (λ fault. IsLoopCause (first_line_with_loop 0 (lines_of map.now over.now dimensions.now parents.now)) fault) }
    ensures paired { length map.now.dimensions ≡ length map.now.lines }
    ensures distinct { IsDistinct nat_eq map.now.dimensions }
    ensures most { length over.now ≤ 6 }
{
    let count = line_count(map, over);
    let mut trees = List::new(alloc);
    for line in 0..count {
        let tree = hierarchy(alloc, map, over, dimensions, parents, line)?;
        trees.push(tree)?;
    }
    Ok(trees)
}

/// The numbers after all lines.
fn passes(
    rt: &(impl Threads + Sync),
    alloc: Global,
    kind: Kind,
    map: &AggMap,
    over: &Coord,
    dimensions: &List<Dimension>,
    trees: &List<Hierarchy>,
    before: BTreeMap<Coord, i128>,
) -> Result<BTreeMap<Coord, i128>, AllocError>
    requires over { length dimensions.now ≡ length over.now }
    requires along { AreAmong map.now.dimensions over.now }
    requires trees { length trees.now ≡ length map.now.lines }
    requires values { AreOfValues trees.now map.now.dimensions over.now dimensions.now }
    requires room { HaveRoom (length over.now) (lines_with map.now.lines map.now.dimensions over.now trees.now) (held_at before.entries) }
    ensures { IfOk result (λ after. (key : _) → length key ≡ length over.now → held_at after.entries key ≡ passes kind (lines_with map.now.lines map.now.dimensions over.now trees.now) (held_at before.entries) key) }
{
    let count = line_count(map, over);
    let mut numbers = before;
    for number in 0..count {
        let place = place_along(map, over, number);
        let tree = item(trees, usize::from(number));
        let dimension = item(dimensions, place);
        let operator = operator_of(map, number);
        let line = Line {
            tree,
            dimension,
            place,
            operator,
        };
        numbers = pass(rt, alloc, kind, &line, &numbers)?;
    }
    Ok(numbers)
}

/// What AGGREGATE changes in a variable's cells, along the lines of a map in their order. `over` has the
/// variable's dimensions by number, `dimensions` the body of each, `parents` the relation of each line;
/// no line is one of an allocation, and each line's dimension is one of `over`. A cell whose value in a
/// line's dimension has children becomes the operator over the cells at the leaves below it; a cell at a
/// key that is no combination of values stays (docs/LANGUAGE.md, "Aggregation").
///
/// `Loop` names the first line with a loop, counted from 0, and the first value on it. `TooLarge` is the
/// number of the combinations where they are over 4,194,304. `Overflow` is the first key in rising order
/// whose cell would be out of range after the last line.
pub fn aggregate(
    rt: &(impl Threads + Sync),
    alloc: Global,
    map: &AggMap,
    over: &Coord,
    dimensions: &List<Dimension>,
    parents: &List<Variable>,
    cells: &Variable,
    kind: Kind,
) -> Result<Patch, AggFault>
    requires over { length dimensions.now ≡ length over.now }
    requires keys { cells.now.slots ≡ length over.now }
    requires lines { length parents.now ≡ length map.now.lines }
    requires relations { AreRelations parents.now }
    requires along { AreAmong map.now.dimensions over.now }
    requires combining { one_allocates map.now.lines ≡ false }
    requires numeric { IsNumeric kind }
    requires same { cells.now.kind ≡ kind }
    ensures patch { IfOk result (λ patch. aggregate_of kind (values_of dimensions.now) (lines_of map.now over.now dimensions.now parents.now) cells.now.cells ≡ Ok patch) }
    ensures refused { (fault : Fault) → fault ≢ NoMemory → result ≡ Err fault → aggregate_of kind (values_of dimensions.now) (lines_of map.now over.now dimensions.now parents.now) cells.now.cells ≡ Err fault }
{
    let trees = hierarchies(alloc, map, over, dimensions, parents)?;
    let count = combination_count(dimensions);
    if count > MOST_CELLS {
        return Err(AggFault::TooLarge(count));
    }
    let before = opening(alloc, dimensions, cells)?;
    let after = passes(rt, alloc, kind, map, over, dimensions, &trees, before)?;
    if let Some(at) = first_out_of_range(kind, dimensions, &after) {
        return Err(AggFault::Overflow(at));
    }
    let closing = closing(kind, dimensions, cells, &after)?;
    Ok(closing.patch_since(cells)?)
}
