ghost use Rattle.std.specs.Prelude.{◌≡◌, ◌≢◌, ◌⊎◌, ◌≤◌, ◌<◌, ◌++◌, ◌∷◌, [], ℕ, List as Items, length, min, None, Some, IsSome, IfSome, IfOk, OnOk, IfErr, OnErr, IsTrue, Ok, Err, unwrap_or};
ghost use Rattle.std.specs.Option.{is_some, option_copied};
ghost use Rattle.aw_lists.specs.Faults.{Rose};
ghost use Rattle.aw_schema.specs.RecordLength.{record_len};
ghost use Rattle.aw_body.specs.declared.body.Body.{Body as BodyValue};
ghost use Rattle.aw_body.specs.KeptBodies.{bodies_of, bodies_from};
ghost use Rattle.aw_body.specs.Owners.{Owners};
ghost use Rattle.aw_codec.specs.Records.{spelled, IsRecord, FitsPayload};
ghost use Rattle.aw_schema.specs.Checking.{AreAccepted};
ghost use Rattle.aw_codec.specs.declared.record.Decoded.TheVariants.{Definitions};
ghost use Rattle.aw_journal.specs.Loads.{IsAnswered};
ghost use Rattle.aw_journal.specs.Passed.{Passed};
ghost use Rattle.mv_core.specs.declared.entry.Reply.TheVariants as answer;
ghost use Rattle.mv_core.specs.Lookups.{kept_at};
ghost use Rattle.mv_core.specs.Objects.{IsTable};
ghost use Rattle.mv_core.specs.Workspace.{Workspace, opened, table_of};
ghost use Rattle.aw_store.specs.StoredRecords.{are_replayed, can_replay, definitions_of, stood_by, AreRecords, HoldsRecords, HoldsSomeRecords, LeftRecords, IsDamaged, IsRefused, last_spelling};
ghost use Rattle.aw_store.specs.Stores.{record_of, AsksFor, IsGranted, Doubts, Writes, Acts, IsLegalOnDisk};

use crate::record_log::{RecordLog, Unwritten};
use crate::replay::{last_of, replay};
use aw_body::{Body, Change};
use aw_codec::{CodeLong, encode_catalogue, encode_commit};
use aw_disk::Disk;
use aw_journal::{Journal, LoadFault};
use aw_lists::List;
use aw_schema::Catalogue;
use mv_core::{Entry, Reply, Shared};
use std::alloc::Global;
use std::marker::Model;

/// Why a store takes no definitions.
#[derive(Clone, Copy, Debug, PartialEq, Eq)]
pub enum StoreFault {
    /// There are definitions already.
    Defined,
    /// The disk failed.
    DiskFault,
    /// There was no memory.
    NoMemory,
}

/// The shared state of a workspace, and the disk that its records stand on.
///
/// A caller sees the disk, the settled records, the record in doubt after a disk fault, and the
/// definitions and objects as they stand (docs/SHARING.md, "On a disk").
#[derive(Drop)]
pub struct Store<D: Disk> {
    alloc: Global,
    log: RecordLog<D>,
    catalogue: Option<Catalogue>,
    shared: Shared,
}

impl<D: Disk> Model for Store<D> {
    ghost use Rattle.aw_store.specs.Stores.{StoreState, StandFor};

    ghost Value = { StoreState D };

    ghost view = { λ store. record {
      disk = store.log.disk;
      records = store.log.records;
      doubt = store.log.doubt;
      table = store.shared;
    } };

    ghost invariant = { λ store. StandFor store.log.records store.catalogue store.shared };
}

impl<D: Disk> Store<D> {
    /// Reads the records of a disk, and replays them. Nobody owns an object then. In an error the disk
    /// is handed back with its content as before, which is what a crash then leaves, unless the disk
    /// failed. `Unformatted`: it has fewer than 9 bytes or another
    /// head. `Damaged`: the frame at this offset is cut short, or the first of the others that isn't a
    /// record, or with which the records before it can't be replayed. `DiskFault`: the disk failed.
    /// `NoMemory`: there is none for what the records leave.
    pub fn load(alloc: Global, disk: D) -> Result<Store<D>, (LoadFault, D)>
        ensures holds { IfOk result (λ store. IfSome (D.content disk) (λ image. HoldsRecords image store.records)) }
        ensures opened { IfOk result (λ store. (store.doubt ≡ None) × (store.table ≡ stood_by store.records [])) }
        ensures content { IfOk result (λ store. D.content store.disk ≡ D.content disk) }
        ensures refused_content { IfErr result (λ refused. D.content refused.1 ≡ D.content disk) }
        ensures moments { IfOk result (λ store. Passed (D.clock disk) (D.clock store.disk) (D.crash disk) (D.crash store.disk) (D.crash disk (D.clock disk))) }
        ensures refused_moments { IfErr result (λ refused. Passed (D.clock disk) (D.clock refused.1) (D.crash disk) (D.crash refused.1) (D.crash disk (D.clock disk))) }
        ensures refused { IfErr result (λ refused. IfSome (D.content disk) (IsRefused refused.0)) }
        ensures later { IfOk result (λ store. D.faults disk ≤ D.faults store.disk) }
        ensures refused_later { IfErr result (λ refused. D.faults disk ≤ D.faults refused.1) }
        ensures cause { IfErr result (λ refused. refused.0 ≡ LoadFault.DiskFault → Rose (D.faults disk) (D.faults refused.1)) }
        ensures refused_durable { IfErr result (λ refused. refused.0 ≢ LoadFault.DiskFault → (image : List ℕ) → D.crash refused.1 (D.clock refused.1) image → D.content refused.1 ≡ Some image) }
        ensures exactly { IfSome (D.content disk) (IsAnswered IsDamaged HoldsSomeRecords result) }
    {
        Store::replayed(alloc, disk)
    }

    // Reads and replays the records of a disk.
    fn replayed(alloc: Global, disk: D) -> Result<Store<D>, (LoadFault, D)>
        ensures holds { IfOk result (λ store. IfSome (D.content disk) (λ image. HoldsRecords image store.records)) }
        ensures opened { IfOk result (λ store. (store.doubt ≡ None) × (store.table ≡ stood_by store.records [])) }
        ensures content { IfOk result (λ store. D.content store.disk ≡ D.content disk) }
        ensures refused_content { IfErr result (λ refused. D.content refused.1 ≡ D.content disk) }
        ensures moments { IfOk result (λ store. Passed (D.clock disk) (D.clock store.disk) (D.crash disk) (D.crash store.disk) (D.crash disk (D.clock disk))) }
        ensures refused_moments { IfErr result (λ refused. Passed (D.clock disk) (D.clock refused.1) (D.crash disk) (D.crash refused.1) (D.crash disk (D.clock disk))) }
        ensures refused { IfErr result (λ refused. IfSome (D.content disk) (IsRefused refused.0)) }
        ensures later { IfOk result (λ store. D.faults disk ≤ D.faults store.disk) }
        ensures refused_later { IfErr result (λ refused. D.faults disk ≤ D.faults refused.1) }
        ensures cause { IfErr result (λ refused. refused.0 ≡ LoadFault.DiskFault → Rose (D.faults disk) (D.faults refused.1)) }
        ensures refused_durable { IfErr result (λ refused. refused.0 ≢ LoadFault.DiskFault → (image : List ℕ) → D.crash refused.1 (D.clock refused.1) image → D.content refused.1 ≡ Some image) }
    {
        let (journal, payloads) = match Journal::load(alloc, disk) {
            Ok(loaded) => loaded,
            Err(refused) => return Err(refused),
        };
        let number = payloads.len() as u64;
        match replay(alloc, payloads.as_slice()) {
            Ok(replayed) => Ok(Store {
                alloc,
                log: RecordLog::new(journal, number, last_of(alloc, payloads)),
                catalogue: replayed.catalogue,
                shared: replayed.shared,
            }),
            Err(fault) => Err((fault, journal.into_disk())),
        }
    }

    /// What holds between two calls: each record has a spelling, the records can be replayed, the
    /// definitions are those of the records, the objects stand as their commits left them, each body in
    /// the form of its definition, and a crash now leaves the settled records, or these and the one in doubt.
    pub fn recall_invariant(&self)
        ensures spellings { AreRecords self.now.records }
        ensures replayable { IsTrue (can_replay self.now.records) }
        ensures table { (owners : Owners) × (self.now.table ≡ stood_by self.now.records owners) }
        ensures definitions { self.now.table.definitions ≡ unwrap_or (definitions_of self.now.records) [] }
        ensures forms { IsTable self.now.table.definitions self.now.table.objects }
        ensures images { (image : Items ℕ) → D.crash self.now.disk (D.clock self.now.disk) image → LeftRecords self.now.records self.now.doubt image }
    {
        self.log.recall_invariant();
        let _ = self.shared.keeps(0);
    }

    /// Writes the definitions of a catalogue, as an act whose record they are, and gives each kept object
    /// its first generation. The record has up to 67,108,864 bytes, and the definitions are of kinds that
    /// can be replayed. `Defined`: there are definitions already. `DiskFault`: the disk failed, and a
    /// crash may leave the definitions or not. `NoMemory`: there is none, and nothing was done.
    pub fn define(&mut self, catalogue: Catalogue) -> Result<(), StoreFault>
        requires size { record_len catalogue ≤ 67108864 }
        requires kinds { IsTrue (are_replayed catalogue) }
        ensures defined { (result ≡ Err StoreFault.Defined) → IsSome (definitions_of self.old.records) }
        ensures there { IsSome (definitions_of self.old.records) → result ≡ Err StoreFault.Defined }
        ensures ok { OnOk result ((definitions_of self.old.records ≡ None) × Writes (Definitions catalogue) self.old self.new × (self.new.table ≡ table_of (bodies_of catalogue) (opened catalogue))) }
        ensures fault { result ≡ Err StoreFault.DiskFault → (definitions_of self.old.records ≡ None) × Doubts (Definitions catalogue) self.old self.new }
        ensures same { (result ≡ Err StoreFault.Defined) ⊎ (result ≡ Err StoreFault.NoMemory) → self.new ≡ self.old }
        ensures moments { Passed (D.clock self.old.disk) (D.clock self.new.disk) (D.crash self.old.disk) (D.crash self.new.disk)
            (λ image. LeftRecords self.old.records self.old.doubt image ⊎ HoldsRecords image (self.old.records ++ Definitions catalogue ∷ [])) }
        ensures images { (image : Items ℕ) → D.crash self.new.disk (D.clock self.new.disk) image → LeftRecords self.new.records self.new.doubt image }
        ensures later { D.faults self.old.disk ≤ D.faults self.new.disk }
        ensures cause { result ≡ Err StoreFault.DiskFault → Rose (D.faults self.old.disk) (D.faults self.new.disk) }
    {
        self.log.recall_invariant();
        let defined = self.put_definitions(catalogue);
        self.log.recall_invariant();
        defined
    }

    fn put_definitions(&mut self, catalogue: Catalogue) -> Result<(), StoreFault>
        requires size { record_len catalogue ≤ 67108864 }
        requires kinds { IsTrue (are_replayed catalogue) }
        requires images { (image : Items ℕ) → D.crash self.old.disk (D.clock self.old.disk) image → LeftRecords self.old.records self.old.doubt image }
        ensures defined { (result ≡ Err StoreFault.Defined) → IsSome (definitions_of self.old.records) }
        ensures there { IsSome (definitions_of self.old.records) → result ≡ Err StoreFault.Defined }
        ensures ok { OnOk result ((definitions_of self.old.records ≡ None) × Writes (Definitions catalogue) self.old self.new × (self.new.table ≡ table_of (bodies_of catalogue) (opened catalogue))) }
        ensures fault { result ≡ Err StoreFault.DiskFault → (definitions_of self.old.records ≡ None) × Doubts (Definitions catalogue) self.old self.new }
        ensures same { (result ≡ Err StoreFault.Defined) ⊎ (result ≡ Err StoreFault.NoMemory) → self.new ≡ self.old }
        ensures moments { Passed (D.clock self.old.disk) (D.clock self.new.disk) (D.crash self.old.disk) (D.crash self.new.disk)
            (λ image. LeftRecords self.old.records self.old.doubt image ⊎ HoldsRecords image (self.old.records ++ Definitions catalogue ∷ [])) }
        ensures later { D.faults self.old.disk ≤ D.faults self.new.disk }
        ensures cause { result ≡ Err StoreFault.DiskFault → Rose (D.faults self.old.disk) (D.faults self.new.disk) }
    {
        if self.catalogue.is_some() {
            return Err(StoreFault::Defined);
        }
        let (shared, bytes) = match first_objects(self.alloc, &catalogue) {
            Ok(made) => made,
            Err(_) => return Err(StoreFault::NoMemory),
        };
        match self.log.write(bytes) {
            Ok(()) => {
                self.shared = shared;
                self.catalogue = Some(catalogue);
                Ok(())
            }
            Err(Unwritten::DiskFault) => Err(StoreFault::DiskFault),
            Err(Unwritten::NoMemory) => Err(StoreFault::NoMemory),
        }
    }

    /// Answers an entry by the shared step, and writes the record of a commit with changes that is
    /// granted, after a repair where a record is in doubt (docs/SHARING.md, "On a disk"). All memory is
    /// taken before the first disk call, and `Release` and `Detach` take none. `TooLarge`: the record of
    /// such a commit has more than 67,108,864 bytes, and nothing was done. `Fault`: the disk failed in
    /// such a commit, and a crash may leave it or not. `NoMemory`: there is none, and nothing was done.
    pub fn act(&mut self, entry: &Entry) -> Reply
        ensures acts { Acts entry.now result self.old self.new }
        ensures step { (w : Workspace) (numbers : ℕ → ℕ) (firsts : ℕ → BodyValue) → self.old.table ≡ table_of (bodies_from w.definitions numbers firsts) w
            → IsLegalOnDisk (bodies_from w.definitions numbers firsts) w entry.now result self.new.table }
        ensures too_large { IsGranted entry.now self.old.table → 67108864 < length (spelled (record_of entry.now))
            → (result ≡ answer.NoMemory) ⊎ (result ≡ answer.TooLarge (min (length (spelled (record_of entry.now))) 18446744073709551615)) }
        ensures moments { Passed (D.clock self.old.disk) (D.clock self.new.disk) (D.crash self.old.disk) (D.crash self.new.disk)
            (λ image. LeftRecords self.old.records self.old.doubt image ⊎ HoldsRecords image (self.old.records ++ record_of entry.now ∷ [])) }
        ensures images { (image : Items ℕ) → D.crash self.new.disk (D.clock self.new.disk) image → LeftRecords self.new.records self.new.doubt image }
        ensures later { D.faults self.old.disk ≤ D.faults self.new.disk }
        ensures cause { result ≡ answer.Fault → Rose (D.faults self.old.disk) (D.faults self.new.disk) }
    {
        self.log.recall_invariant();
        let reply = self.answer(entry);
        self.log.recall_invariant();
        reply
    }

    fn answer(&mut self, entry: &Entry) -> Reply
        requires { (image : Items ℕ) → D.crash self.old.disk (D.clock self.old.disk) image → LeftRecords self.old.records self.old.doubt image }
        ensures acts { Acts entry.now result self.old self.new }
        ensures moments { Passed (D.clock self.old.disk) (D.clock self.new.disk) (D.crash self.old.disk) (D.crash self.new.disk)
            (λ image. LeftRecords self.old.records self.old.doubt image ⊎ HoldsRecords image (self.old.records ++ record_of entry.now ∷ [])) }
        ensures later { D.faults self.old.disk ≤ D.faults self.new.disk }
        ensures cause { result ≡ answer.Fault → Rose (D.faults self.old.disk) (D.faults self.new.disk) }
    {
        match changes_of(entry) {
            Some(changes) => self.commit(entry, changes),
            None => self.shared.act(entry),
        }
    }

    // Answers an entry with these changes to make, and writes their record where it is granted.
    fn commit(&mut self, entry: &Entry, changes: &List<Change>) -> Reply
        requires asked { AsksFor entry.now (Some changes.now) }
        requires images { (image : Items ℕ) → D.crash self.old.disk (D.clock self.old.disk) image → LeftRecords self.old.records self.old.doubt image }
        ensures acts { Acts entry.now result self.old self.new }
        ensures moments { Passed (D.clock self.old.disk) (D.clock self.new.disk) (D.crash self.old.disk) (D.crash self.new.disk)
            (λ image. LeftRecords self.old.records self.old.doubt image ⊎ HoldsRecords image (self.old.records ++ record_of entry.now ∷ [])) }
        ensures later { D.faults self.old.disk ≤ D.faults self.new.disk }
        ensures cause { result ≡ answer.Fault → Rose (D.faults self.old.disk) (D.faults self.new.disk) }
    {
        let ready = match self.shared.prepare(entry) {
            Ok(ready) => ready,
            Err(_) => return Reply::NoMemory,
        };
        if !ready.writes() {
            return self.shared.settle(ready);
        }
        let bytes = match encode_commit(self.alloc, changes) {
            Ok(bytes) => bytes,
            Err(CodeLong::TooLarge(bytes)) => return Reply::TooLarge { bytes },
            Err(CodeLong::NoMemory) => return Reply::NoMemory,
        };
        match self.log.write(bytes) {
            Ok(()) => self.shared.settle(ready),
            Err(Unwritten::DiskFault) => Reply::Fault,
            Err(Unwritten::NoMemory) => Reply::NoMemory,
        }
    }

    /// Whether an object is kept, and so has generations. It takes no memory.
    pub fn keeps(&self, object: u16) -> bool
        ensures { result ≡ is_some (kept_at self.now.table.objects object) }
    {
        self.shared.keeps(object)
    }

    /// The latest number of a kept object, and its owner. It takes no memory.
    pub fn look(&self, object: u16) -> (u64, Option<u32>)
        requires { IsSome (kept_at self.now.table.objects object) }
        ensures { IfSome (kept_at self.now.table.objects object) (λ it. result ≡ (it.number, it.owner)) }
    {
        self.shared.look(object)
    }

    /// The body of the latest generation of a kept object. It takes no memory.
    pub fn body(&self, object: u16) -> &Body
        requires { IsSome (kept_at self.now.table.objects object) }
        ensures { IfSome (kept_at self.now.table.objects object) (λ it. result.now ≡ it.body) }
    {
        self.shared.body(object)
    }

    /// The catalogue of the definitions, or `None` where nothing is defined yet. It takes no memory.
    pub fn catalogue(&self) -> Option<&Catalogue>
        ensures value { option_copied result ≡ definitions_of self.now.records }
        ensures table { IfSome result (λ catalogue. catalogue.now ≡ self.now.table.definitions) }
    {
        self.catalogue.as_ref()
    }

    /// How many records are settled, up to 2^64-1, and the bytes of the last one: 0 and nothing where
    /// there is none. It takes no memory.
    pub fn last_payload(&self) -> (u64, &[u8])
        ensures number { result.0 ≡ min (length self.now.records) 18446744073709551615 }
        ensures bytes { result.1.now ≡ last_spelling self.now.records }
    {
        self.log.last_payload()
    }

    /// The offset of the first gate, in bytes from the disk's start (docs/FORMATS.md, "The journal").
    pub fn start(&self) -> u64
        ensures { result ≡ 8 }
    {
        let _ = &self.log;
        8
    }

    /// The disk, to be read.
    pub fn disk(&self) -> &D
        ensures { result.now ≡ self.now.disk }
    {
        self.log.disk()
    }

    /// The disk, as the store leaves it.
    pub fn into_disk(self) -> D
        ensures { result ≡ self.disk }
    {
        let Store { log, .. } = self;
        log.into_disk()
    }
}

// The changes that an entry asks to make, where it is a commit that has some.
fn changes_of(entry: &Entry) -> Option<&List<Change>>
    ensures { AsksFor entry.now (option_copied result) }
{
    match entry {
        Entry::Commit { changes, .. } => {
            if changes.is_empty() {
                None
            } else {
                Some(changes)
            }
        }
        Entry::Attach { .. }
        | Entry::Acquire { .. }
        | Entry::Resync { .. }
        | Entry::Release { .. }
        | Entry::Detach { .. } => None,
    }
}

// The objects of a catalogue with their first generations, and the bytes of its record.
fn first_objects(alloc: Global, catalogue: &Catalogue) -> Result<(Shared, List<u8>), CodeLong>
    requires { record_len catalogue.now ≤ 67108864 }
    ensures objects { IfOk result (λ made. made.0 ≡ table_of (bodies_of catalogue.now) (opened catalogue.now)) }
    ensures bytes { IfOk result (λ made. made.1 ≡ spelled (Definitions catalogue.now)) }
    ensures record { OnOk result (IsRecord (Definitions catalogue.now)) }
    ensures payload { IfOk result (λ made. FitsPayload made.1) }
    ensures accepted { AreAccepted catalogue.now }
{
    let _ = catalogue.len();
    let shared = Shared::new(alloc, catalogue)?;
    let bytes = encode_catalogue(alloc, catalogue)?;
    Ok((shared, bytes))
}
