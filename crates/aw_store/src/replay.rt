ghost use Rattle.std.specs.Prelude.{◌≡◌, ◌≢◌, ◌↔◌, ◌≤◌, ◌<◌, ◌^◌, ◌++◌, ◌∷◌, [], ℕ, List as Items, length, map, MatchOption, All, Ok, IsTrue, IfOk, IfErr, true, false};
ghost use Rattle.std.specs.Option.{is_none};
ghost use Rattle.aw_schema.specs.Checking.{refusal};
ghost use Rattle.aw_schema.specs.Definitions.{is_spellable};
ghost use Rattle.aw_codec.specs.declared.record.Decoded.{Decoded};
ghost use Rattle.aw_codec.specs.declared.record.Decoded.TheVariants.{Definitions, Commit};
ghost use Rattle.aw_codec.specs.Records.{IsRecord, IsDefinition};
ghost use Rattle.aw_journal.specs.Format.{placed};
ghost use Rattle.aw_store.specs.StoredRecords as replay;
ghost use Rattle.aw_store.specs.StoredRecords.{are_accepted_after, can_replay};
ghost use Rattle.aw_store.specs.inside.ReplaySteps.{Leave, IsNoNext, Taken, bytes_of, last_bytes, AreReplayed, Stops};

use crate::NoMemory;
use aw_body::Change;
use aw_codec::{BadRecord, Decoded, decode};
use aw_journal::{LoadFault, Payload};
use aw_lists::List;
use aw_schema::{Catalogue, Def, DefKind, SchemaFault};
use mv_core::Shared;
use std::alloc::{AllocError, Global};

/// The most bytes that a record has.
const MOST: usize = 67_108_864;

/// What the records so far leave: the catalogue, and the objects as they stand.
#[derive(Drop)]
pub struct Replayed {
    /// `None` before the record of the definitions.
    pub catalogue: Option<Catalogue>,
    pub shared: Shared,
}

impl Replayed {
    /// Before the first record.
    fn new(alloc: Global) -> Result<Replayed, NoMemory>
        ensures { IfOk result (λ replayed. Leave [] replayed.catalogue replayed.shared) }
    {
        let none = Catalogue::new(alloc);
        let shared = Shared::new(alloc, &none)?;
        Ok(Replayed {
            catalogue: None,
            shared,
        })
    }

    /// Replays the record that these bytes spell, or answers `false` where they spell none that can
    /// follow those so far.
    fn take(&mut self, alloc: Global, bytes: &[u8]) -> Result<bool, NoMemory>
        ensures taken { (records : Items Decoded) → Leave records self.old.catalogue self.old.shared → length records < 2 ^ 62 → result ≡ Ok true
            → Taken records bytes.now self.new.catalogue self.new.shared }
        ensures refused { (records : Items Decoded) → Leave records self.old.catalogue self.old.shared → length records < 2 ^ 62 → result ≡ Ok false
            → IsNoNext records bytes.now }
    {
        if bytes.len() > MOST {
            return Ok(false);
        }
        match decode(alloc, bytes) {
            Ok(next) => self.add(alloc, next),
            Err(BadRecord::At(_)) => Ok(false),
            Err(BadRecord::NoMemory) => Err(AllocError),
        }
    }

    /// Replays a record, or answers `false` where it can't follow those so far.
    fn add(&mut self, alloc: Global, next: Decoded) -> Result<bool, NoMemory>
        requires { IsRecord next }
        ensures follows { (records : Items Decoded) → Leave records self.old.catalogue self.old.shared → length records < 2 ^ 62
            → IfOk result (λ follows. follows ≡ can_replay (records ++ next ∷ [])) }
        ensures leave { (records : Items Decoded) → Leave records self.old.catalogue self.old.shared → length records < 2 ^ 62 → result ≡ Ok true
            → Leave (records ++ next ∷ []) self.new.catalogue self.new.shared }
    {
        match next {
            Decoded::Definitions(definitions) => self.define(alloc, definitions),
            Decoded::Commit(changes) => self.commit(&changes),
        }
    }

    fn define(&mut self, alloc: Global, definitions: List<Def>) -> Result<bool, NoMemory>
        requires { IsRecord (Definitions definitions) }
        ensures follows { (records : Items Decoded) → Leave records self.old.catalogue self.old.shared
            → IfOk result (λ follows. follows ≡ can_replay (records ++ Definitions definitions ∷ [])) }
        ensures leave { (records : Items Decoded) → Leave records self.old.catalogue self.old.shared → result ≡ Ok true
            → Leave (records ++ Definitions definitions ∷ []) self.new.catalogue self.new.shared }
    {
        if self.catalogue.is_some() {
            return Ok(false);
        }
        if !are_replayed(definitions.as_slice()) {
            return Ok(false);
        }
        match accepted(alloc, definitions)? {
            Some(catalogue) => {
                self.shared = Shared::new(alloc, &catalogue)?;
                self.catalogue = Some(catalogue);
                Ok(true)
            }
            None => Ok(false),
        }
    }

    fn commit(&mut self, changes: &List<Change>) -> Result<bool, NoMemory>
        requires { IsRecord (Commit changes.now) }
        ensures follows { (records : Items Decoded) → Leave records self.old.catalogue self.old.shared → length records < 2 ^ 62
            → IfOk result (λ follows. follows ≡ can_replay (records ++ Commit changes.now ∷ [])) }
        ensures leave { (records : Items Decoded) → Leave records self.old.catalogue self.old.shared → length records < 2 ^ 62 → result ≡ Ok true
            → Leave (records ++ Commit changes.now ∷ []) self.new.catalogue self.new.shared }
    {
        self.shared.follow(changes)
    }
}

/// Replays the payloads of a journal, from the first on. `Damaged`: the first that can't be replayed
/// stands behind the gate at this offset. `NoMemory`: there is none for what they leave.
pub fn replay(alloc: Global, payloads: &[Payload]) -> Result<Replayed, LoadFault>
    requires { payloads.now ≡ placed 8 (map bytes_of payloads.now) }
    ensures ok { IfOk result (λ replayed. AreReplayed (map bytes_of payloads.now) replayed.catalogue replayed.shared) }
    ensures err { IfErr result (λ fault. Stops fault (map bytes_of payloads.now)) }
{
    let mut replayed = match Replayed::new(alloc) {
        Ok(replayed) => replayed,
        Err(_) => return Err(LoadFault::NoMemory),
    };
    for payload in payloads {
        match replayed.take(alloc, payload.bytes.as_slice()) {
            Ok(true) => {}
            Ok(false) => return Err(LoadFault::Damaged(payload.offset)),
            Err(_) => return Err(LoadFault::NoMemory),
        }
    }
    Ok(replayed)
}

/// The bytes of the last payload, or none where there is none.
pub fn last_of(alloc: Global, payloads: List<Payload>) -> List<u8>
    ensures { result ≡ last_bytes (map bytes_of payloads) }
{
    let mut payloads = payloads.into_vec();
    match payloads.pop() {
        Some(payload) => payload.bytes,
        None => List::new(alloc),
    }
}

/// Whether all definitions are of kinds that can be replayed.
fn are_replayed(definitions: &[Def]) -> bool
    ensures { result ≡ replay.are_replayed definitions.now }
{
    definitions.iter().all(is_replayed)
}

fn is_replayed(def: &Def) -> bool
    ensures { result ≡ replay.is_replayed def.now.kind }
{
    match &def.kind {
        DefKind::Dimension
        | DefKind::Relation { .. }
        | DefKind::Valueset { .. }
        | DefKind::Variable { .. } => true,
        DefKind::Formula { .. } | DefKind::Program { .. } | DefKind::Aggmap { .. } => false,
    }
}

/// The definitions as a catalogue, where each is accepted after those before it.
fn accepted(alloc: Global, definitions: List<Def>) -> Result<Option<Catalogue>, NoMemory>
    requires { All IsDefinition definitions }
    ensures { IfOk result (λ found. MatchOption found
        (are_accepted_after [] definitions ≡ false)
        (λ catalogue. (are_accepted_after [] definitions ≡ true) × (catalogue ≡ definitions))) }
{
    let mut catalogue = Catalogue::new(alloc);
    for def in definitions.into_vec() {
        match accept(&mut catalogue, def) {
            Ok(true) => {}
            Ok(false) => return Ok(None),
            Err(none) => return Err(none),
        }
    }
    Ok(Some(catalogue))
}

/// Accepts a definition as the next one, or answers `false` where it is refused.
fn accept(catalogue: &mut Catalogue, def: Def) -> Result<bool, NoMemory>
    requires { IsTrue (is_spellable def) }
    ensures accepted { IfOk result (λ accepted. accepted ≡ is_none (refusal catalogue.old def)) }
    ensures after { result ≡ Ok true → catalogue.new ≡ catalogue.old ++ def ∷ [] }
{
    match catalogue.check(def) {
        Ok(_) => Ok(true),
        Err(fault) => {
            if is_refusal(&fault) {
                Ok(false)
            } else {
                Err(AllocError)
            }
        }
    }
}

/// Whether a definition was refused, and memory didn't run out.
fn is_refusal(fault: &SchemaFault) -> bool
    ensures { IsTrue result ↔ (fault.now ≢ SchemaFault.NoMemory) }
{
    !matches!(fault, SchemaFault::NoMemory)
}
