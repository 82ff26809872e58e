//! The numbers that take part in an aggregation, and the cells that come of them.

ghost use Rattle.std.specs.Prelude.{ℕ, ◌≡◌, ◌<◌, ◌≤◌, ◌^◌, length, map, cond, not, unsigned_abs, IfOk, IfSome, IsSome, IsTrue, Some, None};
ghost use Rattle.std.specs.List.{find};
ghost use Rattle.std.specs.Option.{option_map};
ghost use Rattle.std.specs.BTreeMap.{IsOrdered};
ghost use Rattle.aw_cell.specs.declared.cell.Cell.TheVariants.{Na};
ghost use Rattle.aw_page.specs.Fitting.{is_of_kind};
ghost use Rattle.aw_rel.specs.Hierarchy.{is_among};
ghost use Rattle.aw_var.specs.CellMap.{by_slots, cell_at, IsCellMap};
ghost use Rattle.aw_var.specs.Variable.{IsVariable};
ghost use Rattle.agg_run.specs.Numbers.{number_in};
ghost use Rattle.agg_run.specs.Aggregates.{is_combination, combination_count, numbers_at};
ghost use Rattle.agg_run.specs.Calls.{values_of, IsNumeric};
ghost use Rattle.agg_run.specs.inside.Levels.{held_at};
ghost use Rattle.agg_run.specs.inside.Cells.{fitting_cell, combined_cell, is_refused, is_cleared, AreSettled, AreOfCells};

use crate::levels::put;
use aw_cell::{Cell, Kind, Number};
use aw_dim::Dimension;
use aw_lists::{Coord, List};
use aw_var::Variable;
use std::alloc::{AllocError, Global};
use std::collections::BTreeMap;

/// The number in a cell, in units of its kind.
fn number_in(cell: &Cell) -> Option<i128>
    ensures value { result ≡ number_in cell.now }
    ensures small { IfSome result (λ number. unsigned_abs number ≤ 10 ^ 18) }
{
    match cell {
        Cell::Num(number) => Some(i128::from(number.units())),
        Cell::Int(whole) => Some(i128::from(*whole)),
        Cell::Na | Cell::Text(_) | Cell::Bool(_) | Cell::Slot(_) => None,
    }
}

/// The cell of a kind with so many units, where they are in range.
fn cell_of(kind: Kind, number: i128) -> Option<Cell>
    requires { IsNumeric kind }
    ensures { result ≡ fitting_cell kind number }
{
    match kind {
        Kind::Num => match i64::try_from(number) {
            Ok(units) => match Number::of_units(units) {
                Some(number) => Some(Cell::Num(number)),
                None => None,
            },
            Err(_) => None,
        },
        Kind::Int => match i32::try_from(number) {
            Ok(whole) if whole != i32::MIN => Some(Cell::Int(whole)),
            _ => None,
        },
        Kind::Text | Kind::Bool | Kind::Slot => None,
    }
}

/// Whether a dimension has a value with a slot.
fn has_slot(dimension: &Dimension, slot: u16) -> bool
    ensures { result ≡ is_among (map (λ entry. entry.0) dimension.now.entries) slot }
{
    dimension.position_of(slot).is_some()
}

/// Whether each slot of a key is that of a value of its dimension.
fn is_combination(dimensions: &List<Dimension>, at: &Coord) -> bool
    ensures value { result ≡ is_combination (values_of dimensions.now) at.now }
    ensures slots { IsTrue result → length at.now ≡ length dimensions.now }
{
    let (slots, dimensions) = (at.slots(), dimensions.as_slice());
    if slots.len() != dimensions.len() {
        return false;
    }
    for place in 0..slots.len() {
        if !has_slot(&dimensions[place], slots[place]) {
            return false;
        }
    }
    true
}

/// How many combinations of values the dimensions have.
pub fn combination_count(dimensions: &List<Dimension>) -> u128
    requires { length dimensions.now < 7 }
    ensures { result ≡ combination_count (values_of dimensions.now) }
{
    let dimensions = dimensions.as_slice();
    let mut count = 1;
    for place in 0..dimensions.len() {
        count *= u128::from(dimensions[place].len());
    }
    count
}

/// The number of a cell that takes part.
fn taken(dimensions: &List<Dimension>, at: &Coord, cell: &Cell) -> Option<i128>
    ensures value { result ≡ cond (is_combination (values_of dimensions.now) at.now) (number_in cell.now) None }
    ensures small { IfSome result (λ number. unsigned_abs number ≤ 10 ^ 18) }
{
    if is_combination(dimensions, at) {
        number_in(cell)
    } else {
        None
    }
}

/// The numbers at the combinations of the dimensions' values.
pub fn opening(
    alloc: Global,
    dimensions: &List<Dimension>,
    cells: &Variable,
) -> Result<BTreeMap<Coord, i128>, AllocError>
    ensures value { IfOk result (λ numbers. (key : _) → held_at numbers.entries key ≡ numbers_at (values_of dimensions.now) cells.now.cells key) }
    ensures small { IfOk result (λ numbers. AreOfCells (held_at numbers.entries)) }
    ensures valid { IsVariable cells.now }
{
    let mut numbers = BTreeMap::new(alloc);
    if cells.is_empty() {
        return Ok(numbers);
    }
    for (at, cell) in cells.iter() {
        if let Some(number) = taken(dimensions, &at, &cell) {
            put(&mut numbers, at, number)?;
        }
    }
    Ok(numbers)
}

/// Whether a combination's number is out of range.
fn is_refused(kind: Kind, dimensions: &List<Dimension>, at: &Coord, number: i128) -> bool
    requires { IsNumeric kind }
    ensures { result ≡ is_refused kind (values_of dimensions.now) (at.now, number) }
{
    is_combination(dimensions, at) && cell_of(kind, number).is_none()
}

/// The first combination in rising order whose number is out of range.
pub fn first_out_of_range(
    kind: Kind,
    dimensions: &List<Dimension>,
    numbers: &BTreeMap<Coord, i128>,
) -> Option<Coord>
    requires { IsNumeric kind }
    ensures first { result ≡ option_map (λ entry. entry.0) (find (is_refused kind (values_of dimensions.now)) numbers.now.entries) }
    ensures ordered { IsOrdered by_slots numbers.now }
{
    for (at, number) in numbers.iter() {
        if is_refused(kind, dimensions, at, *number) {
            return Some(*at);
        }
    }
    None
}

/// Whether a key is a combination without a number.
fn is_cleared(dimensions: &List<Dimension>, numbers: &BTreeMap<Coord, i128>, at: &Coord) -> bool
    ensures { result ≡ is_cleared (values_of dimensions.now) numbers.now.entries at.now }
{
    is_combination(dimensions, at) && numbers.get(at).is_none()
}

/// Takes away the cells of the combinations that have no number.
fn clear(
    dimensions: &List<Dimension>,
    cells: &Variable,
    numbers: &BTreeMap<Coord, i128>,
) -> Result<Variable, AllocError>
    requires slots { cells.now.slots ≡ length dimensions.now }
    requires map { IsCellMap cells.now.cells }
    ensures cells { IfOk result (λ cleared. (key : _) → cell_at cleared.cells key ≡ cond (is_cleared (values_of dimensions.now) numbers.now.entries key) Na (cell_at cells.now.cells key)) }
    ensures map { IfOk result (λ cleared. IsCellMap cleared.cells) }
    ensures same { IfOk result (λ cleared. (cleared.slots ≡ cells.now.slots) × (cleared.kind ≡ cells.now.kind)) }
{
    let mut cleared = cells.copied()?;
    for (at, _) in cells.iter() {
        if is_cleared(dimensions, numbers, &at) {
            cleared.put(&at, Cell::Na)?;
        }
    }
    Ok(cleared)
}

/// The cell that a combination gets, where its number is in range.
fn fitting(kind: Kind, dimensions: &List<Dimension>, at: &Coord, number: i128) -> Option<Cell>
    requires { IsNumeric kind }
    ensures value { result ≡ combined_cell kind (values_of dimensions.now) (at.now, number) }
    ensures kind { IfSome result (λ cell. IsTrue (is_of_kind kind cell)) }
    ensures slots { IsSome result → length at.now ≡ length dimensions.now }
{
    if is_combination(dimensions, at) {
        cell_of(kind, number)
    } else {
        None
    }
}

/// A variable's cells after the lines: at the combinations those with these numbers, where they are in
/// range, and NA where there is none.
pub fn closing(
    kind: Kind,
    dimensions: &List<Dimension>,
    cells: &Variable,
    numbers: &BTreeMap<Coord, i128>,
) -> Result<Variable, AllocError>
    requires numeric { IsNumeric kind }
    requires kind { cells.now.kind ≡ kind }
    requires slots { cells.now.slots ≡ length dimensions.now }
    requires map { IsCellMap cells.now.cells }
    ensures cells { IfOk result (λ closing. AreSettled kind (values_of dimensions.now) cells.now.cells numbers.now.entries closing.cells) }
    ensures map { IfOk result (λ closing. IsCellMap closing.cells) }
    ensures same { IfOk result (λ closing. (closing.slots ≡ cells.now.slots) × (closing.kind ≡ kind)) }
{
    let mut closing = clear(dimensions, cells, numbers)?;
    for (at, number) in numbers.iter() {
        if let Some(cell) = fitting(kind, dimensions, at, *number) {
            closing.put(at, cell)?;
        }
    }
    Ok(closing)
}
