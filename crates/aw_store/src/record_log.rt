ghost use Rattle.std.specs.Prelude.{◌≡◌, ◌⊎◌, ◌≤◌, ◌++◌, ◌∷◌, [], ℕ, List as Items, length, map, min, None, Some, OnOk, OnErr};
ghost use Rattle.std.specs.Option.{option_map};
ghost use Rattle.aw_lists.specs.Faults.{Rose};
ghost use Rattle.aw_codec.specs.Records.{FitsPayload};
ghost use Rattle.aw_journal.specs.CrashPayloads.{Left};
ghost use Rattle.aw_journal.specs.Passed.{Passed};
ghost use Rattle.aw_store.specs.StoredRecords.{AreRecords, HoldsRecords, LeftRecords, last_spelling};
ghost use Rattle.aw_store.specs.inside.PayloadRecords.{record_from, IsNext, IsLast, AreSpellings};

use aw_disk::Disk;
use aw_journal::Journal;
use aw_lists::List;
use std::marker::Model;

/// Why a record wasn't written.
#[derive(Clone, Copy, Debug, PartialEq, Eq)]
pub enum Unwritten {
    /// The disk failed, and a crash may leave the record or not.
    DiskFault,
    /// There was no memory, and nothing was done.
    NoMemory,
}

/// A journal whose payloads are the spellings of records that can be replayed. It keeps how many are
/// settled, up to 2^64-1, and the bytes of the last one.
#[derive(Drop)]
pub struct RecordLog<D: Disk> {
    journal: Journal<D>,
    number: u64,
    last: List<u8>,
}

impl<D: Disk> Model for RecordLog<D> {
    ghost use Rattle.std.specs.Prelude.{map};
    ghost use Rattle.std.specs.Option.{option_map};
    ghost use Rattle.aw_store.specs.inside.PayloadRecords.{record_from, AreSpellings, IsLast, LogState};

    ghost Value = { LogState D };

    ghost view = { λ log. record {
      disk = log.journal.disk;
      records = map record_from log.journal.settled;
      doubt = option_map record_from log.journal.doubt;
    } };

    ghost invariant = { λ log. AreSpellings log.journal.settled log.journal.doubt
        × IsLast (map record_from log.journal.settled) log.number log.last };
}

impl<D: Disk> RecordLog<D> {
    /// The records of a journal, with their number and the bytes of the last one.
    pub fn new(journal: Journal<D>, number: u64, last: List<u8>) -> RecordLog<D>
        requires spellings { AreSpellings journal.settled journal.doubt }
        requires last { IsLast (map record_from journal.settled) number last }
        ensures { result ≡ record { disk = journal.disk; records = map record_from journal.settled; doubt = option_map record_from journal.doubt } }
    {
        RecordLog {
            journal,
            number,
            last,
        }
    }

    /// Writes a record, and first ends a doubt. It takes all memory before the first disk call.
    pub fn write(&mut self, bytes: List<u8>) -> Result<(), Unwritten>
        requires payload { FitsPayload bytes }
        requires next { IsNext self.old.records bytes }
        ensures ok { OnOk result (self.new ≡ record { disk = self.new.disk; records = self.old.records ++ record_from bytes ∷ []; doubt = None }) }
        ensures memory { result ≡ Err Unwritten.NoMemory → self.new ≡ self.old }
        ensures fault { result ≡ Err Unwritten.DiskFault → (self.new.records ≡ self.old.records) × ((self.new.doubt ≡ self.old.doubt) ⊎ (self.new.doubt ≡ Some (record_from bytes))) }
        ensures moments { Passed (D.clock self.old.disk) (D.clock self.new.disk) (D.crash self.old.disk) (D.crash self.new.disk)
            (λ image. LeftRecords self.old.records self.old.doubt image ⊎ HoldsRecords image (self.old.records ++ record_from bytes ∷ [])) }
        ensures later { D.faults self.old.disk ≤ D.faults self.new.disk }
        ensures cause { result ≡ Err Unwritten.DiskFault → Rose (D.faults self.old.disk) (D.faults self.new.disk) }
    {
        match make_ready(&mut self.journal, bytes.len() as u32) {
            Ok(()) => {}
            Err(refused) => return Err(refused),
        }
        match self.journal.append(bytes.as_slice()) {
            Ok(()) => {
                self.number = self.number.saturating_add(1);
                self.last = bytes;
                Ok(())
            }
            Err(_) => Err(Unwritten::DiskFault),
        }
    }

    /// How many records are settled, up to 2^64-1, and the bytes of the last one, or none. It takes no
    /// memory.
    pub fn last_payload(&self) -> (u64, &[u8])
        ensures number { result.0 ≡ min (length self.now.records) 18446744073709551615 }
        ensures bytes { result.1.now ≡ last_spelling self.now.records }
    {
        (self.number, self.last.as_slice())
    }

    /// Each settled record has a spelling, and what a crash now may leave.
    pub fn recall_invariant(&self)
        ensures spellings { AreRecords self.now.records }
        ensures images { (image : Items ℕ) → D.crash self.now.disk (D.clock self.now.disk) image → LeftRecords self.now.records self.now.doubt image }
    {
        self.journal.recall_invariant();
    }

    /// The disk, to be read.
    pub fn disk(&self) -> &D
        ensures { result.now ≡ self.now.disk }
    {
        self.journal.disk()
    }

    /// The disk, as the journal leaves it.
    pub fn into_disk(self) -> D
        ensures { result ≡ self.disk }
    {
        let RecordLog { journal, .. } = self;
        journal.into_disk()
    }
}

// Takes memory for a payload of so many bytes, and then ends a doubt.
fn make_ready<D: Disk>(journal: &mut Journal<D>, bytes: u32) -> Result<(), Unwritten>
    ensures ok { OnOk result ((journal.new.doubt ≡ None) × (bytes ≤ journal.new.reserved)) }
    ensures settled { journal.new.settled ≡ journal.old.settled }
    ensures refused { OnErr result (journal.new.doubt ≡ journal.old.doubt) }
    ensures memory { result ≡ Err Unwritten.NoMemory → journal.new.disk ≡ journal.old.disk }
    ensures moments { Passed (D.clock journal.old.disk) (D.clock journal.new.disk) (D.crash journal.old.disk) (D.crash journal.new.disk) (Left journal.old.settled journal.old.doubt) }
    ensures later { D.faults journal.old.disk ≤ D.faults journal.new.disk }
    ensures cause { result ≡ Err Unwritten.DiskFault → Rose (D.faults journal.old.disk) (D.faults journal.new.disk) }
{
    journal.recall_invariant();
    if journal.reserve(bytes).is_err() {
        return Err(Unwritten::NoMemory);
    }
    match journal.repair() {
        Ok(()) => Ok(()),
        Err(_) => Err(Unwritten::DiskFault),
    }
}
