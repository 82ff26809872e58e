ghost use Rattle.std.specs.Prelude.{◌≡◌, ◌&&◌, cond, length, nat_lt, Ok, Err, IfOk, IsTrue};
ghost use Rattle.std.specs.List.{list_all};
ghost use Rattle.aw_cell.specs.declared.cell.Cell.TheVariants.{Num};
ghost use Rattle.aw_cell.specs.declared.number.Arith.TheVariants.{Overflow};
ghost use Rattle.aw_page.specs.Fitting.{is_of_kind};
ghost use Rattle.dml_loop.specs.declared.fault.LoopFault.TheVariants.{Arith as Refused};
ghost use Rattle.ses_value.specs.Evaluating as spec;
ghost use Rattle.ses_value.specs.Held.{is_in_range, is_held};

use crate::target::AssignedTo;
use aw_cell::{Arith, Cell, Kind, Number};
use aw_lists::{Coord, List};
use dml_loop::{LoopFault, Target};

/// The kind of the cells of what is assigned to; those of a relation are slots.
fn target_kind(target: Target) -> Kind
    ensures { result ≡ spec.target_kind target }
{
    match target {
        Target::Kind(kind) => kind,
        Target::Relation(_) => Kind::Slot,
    }
}

/// Tells that a NUMBER is in its range, as it always is.
fn recall_number(number: &Number)
    ensures { IsTrue (is_in_range (Num number.now)) }
{
    let _ = number.units();
}

/// Tells that slots have 16 bits, as they always have.
fn recall_slots(slots: &[u16])
    ensures { IsTrue (list_all (λ slot. nat_lt slot 65536) slots.now) }
{
    let _ = slots.len();
}

/// Whether a cell is NA or a value of the kind in its range. The least whole number of 32 bits is no
/// INTEGER.
fn fits(kind: Kind, cell: &Cell) -> bool
    ensures { result ≡ (is_of_kind kind cell.now && is_in_range cell.now) }
{
    match (&kind, cell) {
        (_, Cell::Na) => true,
        (Kind::Num, Cell::Num(number)) => {
            recall_number(number);
            true
        }
        (Kind::Int, Cell::Int(whole)) => *whole > i32::MIN,
        (Kind::Text, Cell::Text(text)) => {
            let _ = text.bytes();
            true
        }
        (Kind::Bool, Cell::Bool(_)) => true,
        (Kind::Slot, Cell::Slot(slot)) => {
            recall_slots(&[*slot]);
            true
        }
        _ => false,
    }
}

#[tactic(auto, using(crate::proofs::HeldCells::held_by_parts))]
fn is_held(slots: usize, kind: Kind, at: &Coord, cell: &Cell) -> bool
    ensures { result ≡ is_held slots kind (at.now, cell.now) }
{
    recall_slots(at.slots());
    at.slots().len() == slots && fits(kind, cell)
}

fn are_held(slots: usize, kind: Kind, cells: &[(Coord, Cell)]) -> bool
    ensures { result ≡ list_all (is_held slots kind) cells.now }
{
    cells
        .iter()
        .all(|entry| is_held(slots, kind, &entry.0, &entry.1))
}

/// The cells, where what is assigned to can hold them all.
pub fn held(to: &AssignedTo, cells: List<(Coord, Cell)>) -> Result<List<(Coord, Cell)>, LoopFault>
    ensures cells { result ≡ cond (list_all (is_held (length to.now.dimensions) (spec.target_kind to.now.target)) cells) (Ok cells) (Err (Refused Overflow)) }
    ensures held { IfOk result (λ cells. IsTrue (list_all (is_held (length to.now.dimensions) (spec.target_kind to.now.target)) cells)) }
{
    let slots = to.dimensions.slots().len();
    if are_held(slots, target_kind(to.target), cells.as_slice()) {
        Ok(cells)
    } else {
        Err(LoopFault::Arith(Arith::Overflow))
    }
}
