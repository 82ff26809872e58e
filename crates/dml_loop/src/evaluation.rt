ghost use Rattle.std.specs.Prelude.{◌≡◌, ◌≤◌, length, All};
ghost use Rattle.dml_exec.specs.CodeRuns.{CanRun};
ghost use Rattle.dml_loop.specs.Loops.{places};
ghost use Rattle.dml_loop.specs.Fixes.{Answers};
ghost use Rattle.dml_loop.specs.inside.Progress.{behind};
ghost use Rattle.dml_loop.specs.Evaluation.{cell_of, read_at, stored, slots_at, entry_of, assigned, CanLoop};

use crate::conversion::{Target, stored};
use crate::count::count_within;
use crate::fault::LoopFault;
use crate::fixes::Slots;
use crate::list::DimensionList;
use crate::places::Places;
use crate::reading::{Reading, cell_at};
use aw_cell::Cell;
use aw_lists::{Coord, List};
use dml_exec::{Cells, Place, Stack};
use std::alloc::Global;

fn coord_of(slots: &[u16]) -> Coord
    requires { length slots.now ≤ 6 }
    ensures { result ≡ slots.now }
{
    match Coord::of(slots) {
        Some(coord) => coord,
        None => unreachable!(),
    }
}

/// The coordinate of the slots of a place.
fn coordinate(place: &[(u16, u16)]) -> Coord
    requires { length place.now ≤ 6 }
    ensures { result ≡ slots_at place.now }
{
    let mut slots = [0; 6];
    for (at, entry) in place.iter().enumerate() {
        slots[at] = entry.1;
    }
    coord_of(&slots[..place.len()])
}

/// Evaluates a cell at a place and converts it.
fn entry_at<C: Cells + Slots>(
    reading: &Reading<C>,
    target: Target,
    place: &Place,
    stack: &mut Stack,
) -> Result<(Coord, Cell), LoopFault>
    requires few { length place.now ≤ 6 }
    requires room { reading.now.code.now.deepest ≤ stack.old.room }
    requires fits { CanRun reading.now.code.now (read_at (C.cell_at reading.now.cells.now) (C.name_at reading.now.cells.now) reading.now.fixed.now reading.now.locals.now place.now) (C.may_read reading.now.cells.now) (C.may_name reading.now.cells.now) }
    ensures entry { result ≡ entry_of (λ at. cell_of reading.now.code.now (read_at (C.cell_at reading.now.cells.now) (C.name_at reading.now.cells.now) reading.now.fixed.now reading.now.locals.now at)) (stored (C.slot_of reading.now.cells.now) target) place.now }
    ensures room { stack.new.room ≡ stack.old.room }
{
    let cell = cell_at(reading, place, stack)?;
    let cell = stored(reading.cells, target, cell)?;
    Ok((coordinate(place.as_slice()), cell))
}

/// The entries of all places, behind those that are there.
fn filled<C: Cells + Slots>(
    reading: &Reading<C>,
    target: Target,
    mut places: Places,
    stack: &mut Stack,
    mut entries: List<(Coord, Cell)>,
) -> Result<List<(Coord, Cell)>, LoopFault>
    requires few { All (λ place. length place ≤ 6) places }
    requires room { reading.now.code.now.deepest ≤ stack.old.room }
    requires fits { CanLoop reading.now.code.now (read_at (C.cell_at reading.now.cells.now) (C.name_at reading.now.cells.now) reading.now.fixed.now reading.now.locals.now) places (C.may_read reading.now.cells.now) (C.may_name reading.now.cells.now) }
    ensures { Answers (behind entries (assigned (λ at. cell_of reading.now.code.now (read_at (C.cell_at reading.now.cells.now) (C.name_at reading.now.cells.now) reading.now.fixed.now reading.now.locals.now at)) (stored (C.slot_of reading.now.cells.now) target) places.entry)) result }
{
    while let Some(place) = places.place() {
        let entry = entry_at(reading, target, place, stack)?;
        entries.push(entry)?;
        places.advance();
    }
    Ok(entries)
}

/// What an assignment stores: at each place of the lists in loop order the coordinate, which has the
/// slots of the place, and the cell that the code gives there, converted for the target. The first
/// refusal decides, and then nothing is kept. `lists` has each dimension of the target in order, a
/// fixed one with its one slot; it takes 96 bytes a cell (docs/ARCHITECTURE.md, "Loops").
pub fn assigned<C: Cells + Slots>(
    alloc: Global,
    reading: &Reading<C>,
    target: Target,
    lists: &[DimensionList],
    stack: &mut Stack,
) -> Result<List<(Coord, Cell)>, LoopFault>
    requires few { length lists.now ≤ 6 }
    requires fits { CanLoop reading.now.code.now (read_at (C.cell_at reading.now.cells.now) (C.name_at reading.now.cells.now) reading.now.fixed.now reading.now.locals.now) (places lists.now) (C.may_read reading.now.cells.now) (C.may_name reading.now.cells.now) }
    ensures { Answers (assigned (λ at. cell_of reading.now.code.now (read_at (C.cell_at reading.now.cells.now) (C.name_at reading.now.cells.now) reading.now.fixed.now reading.now.locals.now at)) (stored (C.slot_of reading.now.cells.now) target) (places lists.now)) result }
{
    let Some(count) = count_within(lists, usize::MAX) else {
        return Err(LoopFault::NoMemory);
    };
    let places = Places::new(alloc, lists)?;
    stack.reserve(reading.code)?;
    let entries = List::from_vec(Vec::with_capacity(alloc, count)?);
    filled(reading, target, places, stack, entries)
}
