ghost use Rattle.std.specs.Prelude.{◌≡◌, ◌↔◌, ◌<◌, ◌≤◌, ◌++◌, ℕ, length, min, Err, OnOk, IfOk};
ghost use Rattle.aw_schema.specs.RecordLength.{record_len};
ghost use Rattle.aw_codec.specs.declared.record.Decoded.TheVariants.{Definitions, Commit};
ghost use Rattle.aw_codec.specs.Records.{spelled, IsRecord, AreCommittable, FitsPayload};

use crate::marks::{COMMIT, DEFINITIONS, VERSION};
use crate::record::CodeLong;
use crate::sizes::commit_len;
use crate::writing::{push_changes, push_definitions};
use aw_body::Change;
use aw_lists::List;
use aw_schema::Catalogue;
use std::alloc::{AllocError, Global};

/// The most bytes that a record has.
const MOST: u64 = 67_108_864;

/// Adds the record of a catalogue's definitions.
fn push_catalogue(out: &mut Vec<u8>, catalogue: &Catalogue) -> Result<(), AllocError>
    ensures value { OnOk result (out.new.items ≡ out.old.items ++ spelled (Definitions catalogue.now)) }
    ensures record { OnOk result (IsRecord (Definitions catalogue.now)) }
{
    out.extend_from_slice(&[DEFINITIONS, VERSION])?;
    out.extend_from_slice(&(catalogue.len() as u16).to_be_bytes())?;
    push_definitions(out, catalogue)
}

/// Adds the commit of changes, whose bytes are no more than a record has.
fn push_commit(out: &mut Vec<u8>, changes: &[Change]) -> Result<(), AllocError>
    requires committable { AreCommittable changes.now }
    requires small { length (spelled (Commit changes.now)) ≤ 67108864 }
    ensures value { OnOk result (out.new.items ≡ out.old.items ++ spelled (Commit changes.now)) }
    ensures record { OnOk result (IsRecord (Commit changes.now)) }
{
    out.extend_from_slice(&[COMMIT, VERSION])?;
    out.extend_from_slice(&(changes.len() as u16).to_be_bytes())?;
    push_changes(out, changes)
}

/// The bytes of the record of a catalogue's definitions (docs/FORMATS.md, "Records"). `TooLarge`
/// exactly where they are more than 67,108,864, with how many they are.
pub fn encode_catalogue(alloc: Global, catalogue: &Catalogue) -> Result<List<u8>, CodeLong>
    ensures value { IfOk result (λ bytes. bytes ≡ spelled (Definitions catalogue.now)) }
    ensures record { OnOk result (IsRecord (Definitions catalogue.now)) }
    ensures payload { IfOk result FitsPayload }
    ensures size { length (spelled (Definitions catalogue.now)) ≡ record_len catalogue.now }
    ensures too_large { (n : ℕ) → (result ≡ Err (CodeLong.TooLarge n)) ↔ ((n ≡ record_len catalogue.now) × (67108864 < n)) }
{
    let bytes = catalogue.record_len();
    if bytes > MOST {
        return Err(CodeLong::TooLarge(bytes));
    }
    let mut out = Vec::with_capacity(alloc, bytes as usize)?;
    push_catalogue(&mut out, catalogue)?;
    Ok(List::from_vec(out))
}

/// The bytes of the commit of these changes (docs/FORMATS.md, "Records"), which are 1 to 4,096 by
/// rising object, each with a patch that a record can hold. `TooLarge` exactly where they are more
/// than 67,108,864, with how many they are, or 2^64-1 where they are more than that.
#[tactic(auto, using(crate::proofs::callers::Lengths::commit_length))]
pub fn encode_commit(alloc: Global, changes: &List<Change>) -> Result<List<u8>, CodeLong>
    requires { AreCommittable changes.now }
    ensures value { IfOk result (λ bytes. bytes ≡ spelled (Commit changes.now)) }
    ensures record { OnOk result (IsRecord (Commit changes.now)) }
    ensures payload { IfOk result FitsPayload }
    ensures too_large { (n : ℕ) → (result ≡ Err (CodeLong.TooLarge n)) ↔
        ((n ≡ min (length (spelled (Commit changes.now))) 18446744073709551615) × (67108864 < n)) }
{
    let bytes = commit_len(changes.as_slice());
    if bytes > MOST {
        return Err(CodeLong::TooLarge(bytes));
    }
    let mut out = Vec::with_capacity(alloc, bytes as usize)?;
    push_commit(&mut out, changes.as_slice())?;
    Ok(List::from_vec(out))
}
