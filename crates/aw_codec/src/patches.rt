//! Patches of a record.
ghost use Rattle.std.specs.Prelude.{◌≡◌, ◌≤◌, []};
ghost use Rattle.std.specs.Option.{option_copied, option_map};
ghost use Rattle.aw_codec.specs.Formats.{many};
ghost use Rattle.aw_codec.specs.Parsing.{Gives, reading};
ghost use Rattle.aw_codec.specs.RecordFormat as format;

use crate::cells::cell_at;
use crate::fields::{byte_at, u32_at};
use crate::keys::key_at;
use crate::record::BadRecord;
use aw_body::BodyPatch;
use aw_cell::Cell;
use aw_lists::{Coord, List};
use std::alloc::Global;

/// A cell of a patch behind these, with its key, and the offset behind it.
#[tactic(auto, using(crate::proofs::Readings::reading_bind), unfolding(crate::specs::RecordFormat::keyed_cell))]
fn keyed_cell_at(
    bytes: &[u8],
    at: usize,
    size: usize,
    before: &[(Coord, Cell)],
) -> Result<(Coord, Cell, usize), BadRecord>
    requires { size ≤ 6 }
    ensures { Gives (λ x. ((x.0, x.1), x.2)) result (reading (format.keyed_cell size before.now) bytes.now at) }
{
    let previous = last_key(before);
    let (key, at) = key_at(bytes, at, size, previous)?;
    let (cell, at) = cell_at(bytes, at)?;
    Ok((key, cell, at))
}

/// The key of the last cell.
fn last_key(before: &[(Coord, Cell)]) -> Option<&Coord>
    ensures { option_copied result ≡ option_map (λ change. change.0) (format.last_of before.now) }
{
    match before.last() {
        Some(change) => Some(&change.0),
        None => None,
    }
}

/// So many cells by rising keys, and the offset behind them.
fn keyed_cells_at(
    alloc: Global,
    bytes: &[u8],
    at: usize,
    size: usize,
    count: u32,
) -> Result<(List<(Coord, Cell)>, usize), BadRecord>
    requires { size ≤ 6 }
    ensures { Gives (λ x. (x.0, x.1)) result (reading (many (format.keyed_cell size) count []) bytes.now at) }
{
    let mut changes = Vec::new(alloc);
    let mut behind = at;
    for _ in 0..count {
        let (key, cell, after) = keyed_cell_at(bytes, behind, size, changes.as_slice())?;
        changes.push((key, cell))?;
        behind = after;
    }
    Ok((List::from_vec(changes), behind))
}

/// What stands behind the letter of a patch of cells, and the offset behind it.
#[tactic(auto, using(crate::proofs::Readings::reading_bind), unfolding(crate::specs::RecordFormat::cells))]
pub fn cells_at(alloc: Global, bytes: &[u8], at: usize) -> Result<(BodyPatch, usize), BadRecord>
    ensures { Gives (λ x. (x.0, x.1)) result (reading format.cells bytes.now at) }
{
    let (size, at) = byte_at(bytes, at, 0, 6)?;
    let (count, at) = u32_at(bytes, at, 1)?;
    let (changes, at) = keyed_cells_at(alloc, bytes, at, size as usize, count)?;
    Ok((BodyPatch::Cells(changes), at))
}
