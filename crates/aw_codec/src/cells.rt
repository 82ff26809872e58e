//! Cells of a record.
ghost use Rattle.std.specs.Prelude.{◌≡◌};
ghost use Rattle.aw_codec.specs.Parsing.{Gives, reading};
ghost use Rattle.aw_codec.specs.RecordFormat as format;

use crate::fields::{byte_at, field_at, text_at, u16_at};
use crate::marks::{
    BOOLEAN_CELL, INTEGER_CELL, NA_CELL, NO_INTEGER, NUMBER_CELL, SLOT_CELL, TEXT_CELL,
};
use crate::record::BadRecord;
use aw_cell::{Cell, Number};

/// A NUMBER, and the offset behind it.
#[tactic(auto, unfolding(crate::specs::RecordFormat::units, crate::specs::Formats::number))]
fn units_at(bytes: &[u8], at: usize) -> Result<(Cell, usize), BadRecord>
    ensures { Gives (λ x. (x.0, x.1)) result (reading format.units bytes.now at) }
{
    let field = field_at(bytes, at, 8)?;
    let value = u64::from_be_bytes([
        field[0], field[1], field[2], field[3], field[4], field[5], field[6], field[7],
    ]);
    match Number::of_units(value.cast_signed()) {
        Some(number) => Ok((Cell::Num(number), at + 8)),
        None => Err(BadRecord::At(at as u64)),
    }
}

/// An INTEGER, and the offset behind it.
#[tactic(auto, unfolding(crate::specs::RecordFormat::integer, crate::specs::Formats::number))]
fn integer_at(bytes: &[u8], at: usize) -> Result<(Cell, usize), BadRecord>
    ensures { Gives (λ x. (x.0, x.1)) result (reading format.integer bytes.now at) }
{
    let field = field_at(bytes, at, 4)?;
    let value = u32::from_be_bytes([field[0], field[1], field[2], field[3]]);
    if value == NO_INTEGER {
        return Err(BadRecord::At(at as u64));
    }
    Ok((Cell::Int(value.cast_signed()), at + 4))
}

/// A TEXT, and the offset behind it.
#[tactic(auto, using(crate::proofs::Readings::reading_bind), unfolding(crate::specs::RecordFormat::text))]
fn text_cell_at(bytes: &[u8], at: usize) -> Result<(Cell, usize), BadRecord>
    ensures { Gives (λ x. (x.0, x.1)) result (reading format.text bytes.now at) }
{
    let (size, at) = byte_at(bytes, at, 0, 64)?;
    let (text, at) = text_at(bytes, at, size as usize)?;
    Ok((Cell::Text(text), at))
}

/// A BOOLEAN, and the offset behind it.
#[tactic(auto, using(crate::proofs::Readings::reading_bind), unfolding(crate::specs::RecordFormat::truth))]
fn truth_at(bytes: &[u8], at: usize) -> Result<(Cell, usize), BadRecord>
    ensures { Gives (λ x. (x.0, x.1)) result (reading format.truth bytes.now at) }
{
    let (byte, at) = byte_at(bytes, at, 0, 1)?;
    Ok((Cell::Bool(byte == 1), at))
}

/// A slot, and the offset behind it.
#[tactic(auto, using(crate::proofs::Readings::reading_bind), unfolding(crate::specs::RecordFormat::slot))]
fn slot_cell_at(bytes: &[u8], at: usize) -> Result<(Cell, usize), BadRecord>
    ensures { Gives (λ x. (x.0, x.1)) result (reading format.slot bytes.now at) }
{
    let (slot, at) = u16_at(bytes, at, 0)?;
    Ok((Cell::Slot(slot), at))
}

/// What stands behind the byte of a cell's kind, and the offset behind it.
fn value_at(bytes: &[u8], at: usize, kind: u8) -> Result<(Cell, usize), BadRecord>
    ensures { Gives (λ x. (x.0, x.1)) result (reading (format.behind_cell_kind kind) bytes.now at) }
{
    if kind == NA_CELL {
        Ok((Cell::Na, at))
    } else if kind == NUMBER_CELL {
        units_at(bytes, at)
    } else if kind == INTEGER_CELL {
        integer_at(bytes, at)
    } else if kind == TEXT_CELL {
        text_cell_at(bytes, at)
    } else if kind == BOOLEAN_CELL {
        truth_at(bytes, at)
    } else {
        slot_cell_at(bytes, at)
    }
}

/// A cell, and the offset behind it.
#[tactic(auto, using(crate::proofs::Readings::reading_bind), unfolding(crate::specs::RecordFormat::cell))]
pub fn cell_at(bytes: &[u8], at: usize) -> Result<(Cell, usize), BadRecord>
    ensures { Gives (λ x. (x.0, x.1)) result (reading format.cell bytes.now at) }
{
    let (kind, at) = byte_at(bytes, at, NA_CELL, SLOT_CELL)?;
    let (cell, at) = value_at(bytes, at, kind)?;
    Ok((cell, at))
}
