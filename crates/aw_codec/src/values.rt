//! Values of a dimension.
ghost use Rattle.std.specs.Prelude.{◌≡◌, ◌<◌, ◌≤◌, ◌++◌, ◌∷◌, ◌&&◌, [], length, nat_lt, not, IfOk, OnOk, ℕ};
ghost use Rattle.std.specs.List.{list_any};
ghost use Rattle.std.specs.HashSet.{contains};
ghost use Rattle.std.specs.Int.{w16};
ghost use Rattle.std.specs.Str.{bytes_eq};
ghost use Rattle.aw_cell.specs.Text.{is_text};
ghost use Rattle.aw_dim.specs.DimensionState.{IsDimension};
ghost use Rattle.aw_codec.specs.Formats.{number, bytes_of, many};
ghost use Rattle.aw_codec.specs.Parsing.{Gives, reading};
ghost use Rattle.aw_codec.specs.RecordFormat as format;
ghost use Rattle.aw_codec.specs.inside.Seen.{AreMarked, AreHeld, has_slot, same_bytes};

use crate::fields::{byte_at, field_at, u32_at, u32_within};
use crate::record::BadRecord;
use crate::slots::no_marks;
use aw_body::BodyPatch;
use aw_cell::Text;
use aw_dim::Dimension;
use aw_lists::List;
use std::alloc::{AllocError, Global};
use std::collections::HashSet;

/// The values that were read, marks at their slots, and their names.
#[derive(Drop)]
struct ValuesRead {
    entries: Vec<(u16, Text)>,
    marks: Vec<bool>,
    names: HashSet<Vec<u8>>,
}

impl ValuesRead {
    /// A slot below the next one that no value has, and the offset behind it.
    #[tactic(auto, unfolding(crate::specs::Formats::number))]
    fn slot_at(&self, bytes: &[u8], at: usize) -> Result<(u16, usize), BadRecord>
        requires { AreMarked (has_slot self.now.entries.items) self.now.marks.items }
        ensures read { Gives (λ x. (x.0, x.1)) result (reading (number w16 (λ slot. nat_lt slot (length self.now.marks.items) && not (has_slot self.now.entries.items slot))) bytes.now at) }
        ensures below { IfOk result (λ x. x.0 < length self.now.marks.items) }
    {
        let field = field_at(bytes, at, 2)?;
        let slot = u16::from_be_bytes([field[0], field[1]]);
        if usize::from(slot) >= self.marks.len() || self.marks[usize::from(slot)] {
            Err(BadRecord::At(at as u64))
        } else {
            Ok((slot, at + 2))
        }
    }

    /// Adds a name to those that were read, and tells whether it is new.
    fn add_name(&mut self, alloc: Global, name: &[u8]) -> Result<bool, AllocError>
        requires { AreHeld self.old.entries.items (contains same_bytes self.old.names) }
        ensures new { IfOk result (λ new. new ≡ not (list_any (λ entry. bytes_eq entry.1 name.now) self.old.entries.items)) }
        ensures held { OnOk result ((slot : ℕ) → AreHeld (self.old.entries.items ++ (slot, name.now) ∷ []) (contains same_bytes self.new.names)) }
        ensures entries { self.new.entries ≡ self.old.entries }
        ensures marks { self.new.marks ≡ self.old.marks }
    {
        let key = Vec::from_slice(alloc, name)?;
        let is_new = self.names.insert(key)?;
        Ok(is_new)
    }

    /// A text that is none of the names, and the offset behind it. It is one of them then.
    #[tactic(auto, unfolding(crate::specs::Formats::bytes_of))]
    fn name_at(
        &mut self,
        alloc: Global,
        bytes: &[u8],
        at: usize,
        size: usize,
    ) -> Result<(Text, usize), BadRecord>
        requires { AreHeld self.old.entries.items (contains same_bytes self.old.names) }
        ensures read { Gives (λ x. (x.0, x.1)) result (reading (bytes_of size (λ name. is_text name && not (list_any (λ entry. bytes_eq entry.1 name) self.old.entries.items))) bytes.now at) }
        ensures held { IfOk result (λ x. (slot : ℕ) → AreHeld (self.old.entries.items ++ (slot, x.0) ∷ []) (contains same_bytes self.new.names)) }
        ensures entries { self.new.entries ≡ self.old.entries }
        ensures marks { self.new.marks ≡ self.old.marks }
    {
        let field = field_at(bytes, at, size)?;
        match Text::of(field) {
            Some(name) => {
                if self.add_name(alloc, field)? {
                    Ok((name, at + size))
                } else {
                    Err(BadRecord::At(at as u64))
                }
            }
            None => Err(BadRecord::At(at as u64)),
        }
    }

    /// A value behind these, and the offset behind it. Its name is one of the names then.
    #[tactic(auto, using(crate::proofs::Readings::reading_bind), unfolding(crate::specs::RecordFormat::value))]
    fn value_at(
        &mut self,
        alloc: Global,
        bytes: &[u8],
        at: usize,
    ) -> Result<(u16, Text, usize), BadRecord>
        requires marked { AreMarked (has_slot self.old.entries.items) self.old.marks.items }
        requires held { AreHeld self.old.entries.items (contains same_bytes self.old.names) }
        ensures read { Gives (λ x. ((x.0, x.1), x.2)) result (reading (format.value (length self.old.marks.items) self.old.entries.items) bytes.now at) }
        ensures below { IfOk result (λ x. x.0 < length self.old.marks.items) }
        ensures held { IfOk result (λ x. AreHeld (self.old.entries.items ++ (x.0, x.1) ∷ []) (contains same_bytes self.new.names)) }
        ensures entries { self.new.entries ≡ self.old.entries }
        ensures marks { self.new.marks ≡ self.old.marks }
    {
        let (slot, at) = self.slot_at(bytes, at)?;
        let (size, at) = byte_at(bytes, at, 1, 64)?;
        let (name, at) = self.name_at(alloc, bytes, at, size as usize)?;
        Ok((slot, name, at))
    }
}

/// So many values, and the offset behind them.
fn read_entries(
    alloc: Global,
    bytes: &[u8],
    at: usize,
    next: u32,
    count: u32,
) -> Result<(List<(u16, Text)>, usize), BadRecord>
    ensures { Gives (λ x. (x.0, x.1)) result (reading (many (format.value next) count []) bytes.now at) }
{
    let mut read = ValuesRead {
        entries: Vec::new(alloc),
        marks: no_marks(alloc, next as usize)?,
        names: HashSet::new(alloc),
    };
    let mut behind = at;
    for _ in 0..count {
        let (slot, name, after) = read.value_at(alloc, bytes, behind)?;
        read.marks[usize::from(slot)] = true;
        read.entries.push((slot, name))?;
        behind = after;
    }
    Ok((List::from_vec(read.entries), behind))
}

/// So many values of a dimension, and the offset behind them.
fn entries_at(
    alloc: Global,
    bytes: &[u8],
    at: usize,
    next: u32,
    count: u32,
) -> Result<(List<(u16, Text)>, usize), BadRecord>
    requires { next ≤ 65536 }
    ensures read { Gives (λ x. (x.0, x.1)) result (reading (many (format.value next) count []) bytes.now at) }
    ensures dimension { IfOk result (λ x. IsDimension (record { entries = x.0; next = next })) }
{
    read_entries(alloc, bytes, at, next, count)
}

/// The dimension of these values.
fn dimension_of(
    alloc: Global,
    entries: List<(u16, Text)>,
    next: u32,
) -> Result<Dimension, AllocError>
    requires { IsDimension (record { entries = entries; next = next }) }
    ensures { IfOk result (λ dimension. dimension ≡ record { entries = entries; next = next }) }
{
    match Dimension::of(alloc, entries, next)? {
        Some(dimension) => Ok(dimension),
        None => unreachable!(),
    }
}

/// What stands behind the letter of a patch of values, and the offset behind it.
#[tactic(auto, using(crate::proofs::Readings::reading_bind), unfolding(crate::specs::RecordFormat::values))]
pub fn values_at(alloc: Global, bytes: &[u8], at: usize) -> Result<(BodyPatch, usize), BadRecord>
    ensures { Gives (λ x. (x.0, x.1)) result (reading format.values bytes.now at) }
{
    let (next, at) = u32_within(bytes, at, 0, 65_536)?;
    let (count, at) = u32_at(bytes, at, 0)?;
    let (entries, at) = entries_at(alloc, bytes, at, next, count)?;
    let values = dimension_of(alloc, entries, next)?;
    Ok((BodyPatch::Values(values), at))
}
