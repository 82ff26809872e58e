//! Single fields of a record.
ghost use Rattle.std.specs.Prelude.{◌≡◌, ◌≤◌, ◌<◌, ◌+◌, ◌==◌, ◌||◌, nat_le, length, take, drop, true, IfOk, MatchResult};
ghost use Rattle.std.specs.Int.{w8, w16, w32, is_in_range};
ghost use Rattle.aw_cell.specs.Names.{is_name};
ghost use Rattle.aw_cell.specs.Text.{is_text};
ghost use Rattle.aw_codec.specs.Formats.{number, bytes_of};
ghost use Rattle.aw_codec.specs.Parsing.{Gives, reading};
ghost use Rattle.aw_codec.specs.RecordFormat as format;

use crate::marks::{CELLS_PATCH, SLOTS_PATCH, VALUES_PATCH};
use crate::record::BadRecord;
use aw_cell::{Text, is_name};

/// So many bytes at an offset.
pub fn field_at(bytes: &[u8], at: usize, width: usize) -> Result<&[u8], BadRecord>
    ensures { MatchResult result
        (λ field. (at + width ≤ length bytes.now) × (field.now ≡ take width (drop at bytes.now)))
        (λ e. (length bytes.now < at + width) × (e ≡ BadRecord.At at)) }
{
    if at <= bytes.len() && width <= bytes.len() - at {
        Ok(&bytes[at..at + width])
    } else {
        Err(BadRecord::At(at as u64))
    }
}

/// A byte from `low` to `high`, and the offset behind it.
#[tactic(auto, unfolding(crate::specs::Formats::number))]
pub fn byte_at(bytes: &[u8], at: usize, low: u8, high: u8) -> Result<(u8, usize), BadRecord>
    ensures read { Gives (λ x. (x.0, x.1)) result (reading (number w8 (is_in_range low high)) bytes.now at) }
    ensures range { IfOk result (λ x. (low ≤ x.0) × (x.0 ≤ high)) }
{
    let field = field_at(bytes, at, 1)?;
    if low <= field[0] && field[0] <= high {
        Ok((field[0], at + 1))
    } else {
        Err(BadRecord::At(at as u64))
    }
}

/// A number of two bytes, at least `least`, and the offset behind it.
#[tactic(auto, unfolding(crate::specs::Formats::number))]
pub fn u16_at(bytes: &[u8], at: usize, least: u32) -> Result<(u16, usize), BadRecord>
    ensures { Gives (λ x. (x.0, x.1)) result (reading (number w16 (nat_le least)) bytes.now at) }
{
    let field = field_at(bytes, at, 2)?;
    let value = u16::from_be_bytes([field[0], field[1]]);
    if least <= value as u32 {
        Ok((value, at + 2))
    } else {
        Err(BadRecord::At(at as u64))
    }
}

/// A number of four bytes from `low` to `high`, and the offset behind it.
#[tactic(auto, unfolding(crate::specs::Formats::number))]
pub fn u32_within(bytes: &[u8], at: usize, low: u32, high: u32) -> Result<(u32, usize), BadRecord>
    ensures read { Gives (λ x. (x.0, x.1)) result (reading (number w32 (is_in_range low high)) bytes.now at) }
    ensures range { IfOk result (λ x. (low ≤ x.0) × (x.0 ≤ high)) }
{
    let field = field_at(bytes, at, 4)?;
    let value = u32::from_be_bytes([field[0], field[1], field[2], field[3]]);
    if low <= value && value <= high {
        Ok((value, at + 4))
    } else {
        Err(BadRecord::At(at as u64))
    }
}

/// A number of four bytes, at least `least`, and the offset behind it.
#[tactic(auto, unfolding(crate::specs::Formats::number))]
pub fn u32_at(bytes: &[u8], at: usize, least: u32) -> Result<(u32, usize), BadRecord>
    ensures { Gives (λ x. (x.0, x.1)) result (reading (number w32 (nat_le least)) bytes.now at) }
{
    let field = field_at(bytes, at, 4)?;
    let value = u32::from_be_bytes([field[0], field[1], field[2], field[3]]);
    if least <= value {
        Ok((value, at + 4))
    } else {
        Err(BadRecord::At(at as u64))
    }
}

/// One of two bytes, and the offset behind it.
#[tactic(auto, unfolding(crate::specs::Formats::number))]
pub fn either_at(bytes: &[u8], at: usize, first: u8, second: u8) -> Result<(u8, usize), BadRecord>
    ensures { Gives (λ x. (x.0, x.1)) result (reading (format.either first second) bytes.now at) }
{
    let field = field_at(bytes, at, 1)?;
    if field[0] == first || field[0] == second {
        Ok((field[0], at + 1))
    } else {
        Err(BadRecord::At(at as u64))
    }
}

/// A byte that is always the same: the offset behind it.
#[tactic(auto, unfolding(crate::specs::Formats::number))]
pub fn after_constant(bytes: &[u8], at: usize, byte: u8) -> Result<usize, BadRecord>
    ensures { Gives (λ x. (byte, x)) result (reading (format.constant byte) bytes.now at) }
{
    let (_, behind) = byte_at(bytes, at, byte, byte)?;
    Ok(behind)
}

/// A name of so many bytes, and the offset behind it.
#[tactic(auto, unfolding(crate::specs::Formats::bytes_of))]
pub fn name_at(bytes: &[u8], at: usize, size: usize) -> Result<(Text, usize), BadRecord>
    ensures { Gives (λ x. (x.0, x.1)) result (reading (bytes_of size is_name) bytes.now at) }
{
    let field = field_at(bytes, at, size)?;
    if is_name(field) {
        Ok((Text::of(field).unwrap(), at + size))
    } else {
        Err(BadRecord::At(at as u64))
    }
}

/// A text of so many bytes, and the offset behind it.
#[tactic(auto, unfolding(crate::specs::Formats::bytes_of))]
pub fn text_at(bytes: &[u8], at: usize, size: usize) -> Result<(Text, usize), BadRecord>
    ensures { Gives (λ x. (x.0, x.1)) result (reading (bytes_of size is_text) bytes.now at) }
{
    let field = field_at(bytes, at, size)?;
    match Text::of(field) {
        Some(text) => Ok((text, at + size)),
        None => Err(BadRecord::At(at as u64)),
    }
}

/// So many bytes, whatever they are, and the offset behind them.
#[tactic(auto, unfolding(crate::specs::Formats::bytes_of))]
pub fn bytes_at(bytes: &[u8], at: usize, size: usize) -> Result<(&[u8], usize), BadRecord>
    ensures { Gives (λ x. (x.0.now, x.1)) result (reading (bytes_of size (λ _. true)) bytes.now at) }
{
    let field = field_at(bytes, at, size)?;
    Ok((field, at + size))
}

/// The letter of a patch, and the offset behind it.
#[tactic(auto, unfolding(crate::specs::Formats::number))]
pub fn letter_at(bytes: &[u8], at: usize) -> Result<(u8, usize), BadRecord>
    ensures { Gives (λ x. (x.0, x.1)) result (reading (number w8 (λ byte. byte == 76 || byte == 77 || byte == 83)) bytes.now at) }
{
    let field = field_at(bytes, at, 1)?;
    if field[0] == VALUES_PATCH || field[0] == CELLS_PATCH || field[0] == SLOTS_PATCH {
        Ok((field[0], at + 1))
    } else {
        Err(BadRecord::At(at as u64))
    }
}
