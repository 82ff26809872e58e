ghost use Rattle.std.specs.Prelude.{◌≡◌, [], ℕ, IfOk, Ok, Err};
ghost use Rattle.aw_codec.specs.declared.record.Decoded.{Decoded};
ghost use Rattle.aw_codec.specs.Decoding.{IsOrNoMemory};
ghost use Rattle.aw_codec.specs.Formats.{HasFault, many};
ghost use Rattle.aw_codec.specs.Parsing.{Gives, reading, whole};
ghost use Rattle.aw_codec.specs.RecordFormat as format;
ghost use Rattle.aw_codec.specs.Records.{IsRecord, spelled};

use crate::changes::changes_at;
use crate::definitions::definitions_at;
use crate::fields::{after_constant, either_at, u16_at};
use crate::marks::{COMMIT, DEFINITIONS, VERSION};
use crate::record::{BadRecord, Decoded};
use std::alloc::Global;

/// What stands behind the version of a record of definitions, and the offset behind it.
#[tactic(auto, using(crate::proofs::Readings::reading_bind), unfolding(crate::specs::RecordFormat::all_definitions))]
fn all_definitions_at(alloc: Global, bytes: &[u8], at: usize) -> Result<(Decoded, usize), BadRecord>
    ensures { Gives (λ x. (x.0, x.1)) result (reading format.all_definitions bytes.now at) }
{
    let (count, at) = u16_at(bytes, at, 0)?;
    let (defs, at) = definitions_at(alloc, bytes, at, count)?;
    Ok((Decoded::Definitions(defs), at))
}

/// What stands behind the version of a commit, and the offset behind it.
#[tactic(auto, using(crate::proofs::Readings::reading_bind), unfolding(crate::specs::RecordFormat::all_changes))]
fn all_changes_at(alloc: Global, bytes: &[u8], at: usize) -> Result<(Decoded, usize), BadRecord>
    ensures { Gives (λ x. (x.0, x.1)) result (reading format.all_changes bytes.now at) }
{
    let (count, at) = u16_at(bytes, at, 1)?;
    let (changes, at) = changes_at(alloc, bytes, at, count)?;
    Ok((Decoded::Commit(changes), at))
}

/// A record, and the offset behind it.
#[tactic(auto, using(crate::proofs::Readings::reading_bind), unfolding(crate::specs::RecordFormat::record_format))]
fn record_at(alloc: Global, bytes: &[u8]) -> Result<(Decoded, usize), BadRecord>
    ensures { Gives (λ x. (x.0, x.1)) result (reading format.record_format bytes.now 0) }
{
    let (letter, at) = either_at(bytes, 0, COMMIT, DEFINITIONS)?;
    let at = after_constant(bytes, at, VERSION)?;
    if letter == COMMIT {
        all_changes_at(alloc, bytes, at)
    } else {
        all_definitions_at(alloc, bytes, at)
    }
}

/// The record that all of the bytes are.
fn whole_record(alloc: Global, bytes: &[u8]) -> Result<Decoded, BadRecord>
    ensures { Gives (λ x. x) result (whole format.record_format bytes.now) }
{
    let (record, behind) = record_at(alloc, bytes)?;
    if behind < bytes.len() {
        Err(BadRecord::At(behind as u64))
    } else {
        Ok(record)
    }
}

/// The record of these bytes (docs/FORMATS.md, "Records"). `At` has the offset of their first
/// fault, in bytes from 0.
pub fn decode(alloc: Global, bytes: &[u8]) -> Result<Decoded, BadRecord>
    // What is found is a record, and the bytes are its spelling.
    ensures found { IfOk result (λ found. IsRecord found × (bytes.now ≡ spelled found)) }
    ensures at { (k : ℕ) → result ≡ Err (BadRecord.At k)
        → HasFault format.record_format bytes.now k }

    // Each record is found by its spelling, and each fault at its offset, unless memory runs out.
    ensures spelling { (r : Decoded) → IsRecord r → bytes.now ≡ spelled r
        → IsOrNoMemory result (Ok r) }
    ensures fault { (k : ℕ) → HasFault format.record_format bytes.now k
        → IsOrNoMemory result (Err (BadRecord.At k)) }
{
    whole_record(alloc, bytes)
}
