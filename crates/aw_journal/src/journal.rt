ghost use Rattle.std.specs.Prelude.{◌≡◌, ◌≢◌, ◌≤◌, ◌+◌, ◌^◌, ◌++◌, ◌∷◌, [], ℕ, List as Bytes, length, None, Some, IfSome, IsSome, true, false, IfOk, IfErr, IsOk, OnOk, OnErr, IsErr, IsTrue, ◌↔◌, vec_capacity, ◌<◌};
ghost use Rattle.aw_disk.specs.Calls.{BothTold};
ghost use Rattle.aw_lists.specs.Faults.{Rose};
ghost use Rattle.aw_journal.specs.Bytes.{Appended, Repaired};
ghost use Rattle.aw_journal.specs.Format.{size_bytes, Holds, CutShort, placed};
ghost use Rattle.aw_journal.specs.CrashPayloads.{AllHold, Left};
ghost use Rattle.aw_journal.specs.Loads.{Explains, IsAnswered, HoldsSome, disk_of};
ghost use Rattle.aw_journal.specs.Passed.{Passed};

use crate::NoMemory;
use crate::doubt::Doubt;
use crate::fault::LoadFault;
use crate::payload::Payload;
use crate::put::put;
use crate::read::{Found, read};
use crate::settled::Settled;
use aw_disk::Disk;
use aw_lists::List;
use std::alloc::Global;
use std::marker::Model;

// How many bytes stand around a payload: its length, and the next gate.
const AROUND: usize = 5;

// The gate in front of a payload that counts.
const OPEN: u8 = 1;

const CLOSED: u8 = 0;

/// The disk failed at this call.
#[derive(Clone, Copy, Debug, PartialEq, Eq)]
pub struct DiskFault;

/// Payloads on a disk, by the format of docs/FORMATS.md, 'The journal'.
///
/// A caller sees the disk, the settled payloads, the payload in doubt after an append that failed,
/// whether that append had begun to open its gate, and for how many bytes of a payload memory is
/// reserved.
#[derive(Drop)]
pub struct Journal<D: Disk> {
    disk: D,
    gate: u64,
    frame: Vec<u8>,
    doubt: Doubt,
    settled: Settled,
}

impl<D: Disk> Model for Journal<D> {
    ghost use Rattle.std.specs.Prelude.{ℕ, List, ◌-◌, vec_capacity};
    ghost use Rattle.aw_journal.specs.Journal.{JournalState, Stands, doubtful, is_opening};

    ghost Value = { JournalState D };

    ghost view = { λ journal. record {
      disk = journal.disk;
      settled = journal.settled.payloads;
      doubt = doubtful journal.doubt journal.frame.items;
      opening = is_opening journal.doubt;
      reserved = vec_capacity journal.frame - 5;
    } };

    ghost invariant = { λ journal. (image : List ℕ) → D.crash journal.disk (D.clock journal.disk) image
        → Stands journal.doubt journal.settled.payloads journal.frame.items journal.gate image };
}

impl<D: Disk> Journal<D> {
    /// Syncs, and reads the payloads of a disk with the offsets of their gates. An error hands the disk
    /// back with its content as before, which is what a crash then leaves, unless the disk failed.
    /// `Unformatted`: it has fewer than 9 bytes or another head. `Damaged`: the frame at this offset is
    /// cut short. `DiskFault`: the disk failed. `NoMemory`: there is none for a payload. See
    /// docs/FORMATS.md, 'The journal' and 'Loading and formatting'.
    pub fn load(alloc: Global, mut disk: D) -> Result<(Journal<D>, List<Payload>), (LoadFault, D)>
        ensures payloads { IfOk result (λ loaded. loaded.1 ≡ placed 8 loaded.0.settled) }
        ensures holds { IfOk result (λ loaded. IfSome (D.content disk) (λ content. Holds content loaded.0.settled)) }
        ensures certain { IfOk result (λ loaded. (loaded.0.doubt ≡ None) × (loaded.0.opening ≡ false)) }
        ensures durable { IfOk result (λ loaded. (image : Bytes ℕ) → D.crash loaded.0.disk (D.clock loaded.0.disk) image → D.content loaded.0.disk ≡ Some image) }
        ensures err { IfErr result (λ refused. Explains refused.0 (D.content disk) (D.faults disk) (D.faults refused.1)) }
        ensures exactly { IfSome (D.content disk) (IsAnswered CutShort HoldsSome result) }
        ensures refused_durable { IfErr result (λ refused. refused.0 ≢ LoadFault.DiskFault → (image : Bytes ℕ) → D.crash refused.1 (D.clock refused.1) image → D.content refused.1 ≡ Some image) }
        ensures stays { D.content (disk_of result) ≡ D.content disk }
        ensures moments { Passed (D.clock disk) (D.clock (disk_of result)) (D.crash disk) (D.crash (disk_of result)) (D.crash disk (D.clock disk)) }
        ensures later { D.faults disk ≤ D.faults (disk_of result) }
    {
        match read(alloc, &mut disk) {
            Ok(found) => {
                let Found {
                    gate,
                    payloads,
                    settled,
                } = found;
                let journal = Journal {
                    disk,
                    gate,
                    frame: Vec::new(alloc),
                    doubt: Doubt::Settled,
                    settled,
                };
                Ok((journal, payloads))
            }
            Err(fault) => Err((fault, disk)),
        }
    }

    /// Takes memory, so that payloads of up to this many bytes can be appended. `NoMemory`: there is
    /// none, and the journal is as before.
    pub fn reserve(&mut self, bytes: u32) -> Result<(), NoMemory>
        ensures reserved { OnOk result (bytes ≤ self.new.reserved) }
        ensures no_less { self.old.reserved ≤ self.new.reserved }
        ensures rest { self.new ≡ record self.old { reserved = self.new.reserved } }
        ensures err { OnErr result (self.new ≡ self.old) }
    {
        let wanted = bytes as usize + AROUND;
        self.frame.reserve(wanted.saturating_sub(self.frame.len()))
    }

    /// Adds a payload of 1 to 67,108,864 bytes at the end, in memory that is reserved. At `Ok` each crash
    /// from then on leaves it. `DiskFault`: the disk failed, and a crash may leave it or not, until
    /// `repair` ends the doubt. See docs/FORMATS.md, 'An append' and 'Doubt and repair'.
    pub fn append(&mut self, payload: &[u8]) -> Result<(), DiskFault>
        requires reserved { length payload.now ≤ self.old.reserved }
        requires certain { self.old.doubt ≡ None }
        requires some { 1 ≤ length payload.now }
        requires short { length payload.now ≤ 2 ^ 26 }
        ensures moments { Passed (D.clock self.old.disk) (D.clock self.new.disk) (D.crash self.old.disk) (D.crash self.new.disk) (Left self.old.settled (Some payload.now)) }
        ensures bytes { OnOk result (BothTold (Appended self.old.settled payload.now) (D.content self.old.disk) (D.content self.new.disk)) }
        ensures acknowledged { OnOk result (AllHold (D.crash self.new.disk (D.clock self.new.disk)) (self.old.settled ++ payload.now ∷ [])) }
        ensures ok { OnOk result (self.new ≡ record self.old { disk = self.new.disk; settled = self.old.settled ++ payload.now ∷ []; reserved = self.new.reserved }) }
        ensures err { OnErr result (self.new ≡ record self.old { disk = self.new.disk; doubt = Some payload.now; opening = self.new.opening; reserved = self.new.reserved }) }
        ensures reserve { self.old.reserved ≤ self.new.reserved }
        ensures later { D.faults self.old.disk ≤ D.faults self.new.disk }
        ensures cause { IsErr result → Rose (D.faults self.old.disk) (D.faults self.new.disk) }
    {
        fill_frame(&mut self.frame, payload);
        let behind = self.gate.saturating_add(1);
        if put(&mut self.disk, behind, self.frame.as_slice()).is_err() {
            self.doubt = Doubt::Closed;
            return Err(DiskFault);
        }
        if put(&mut self.disk, self.gate, &[OPEN]).is_err() {
            self.doubt = Doubt::Opening;
            return Err(DiskFault);
        }
        self.gate = self.gate.saturating_add((payload.len() + AROUND) as u64);
        self.settled.push(payload);
        Ok(())
    }

    /// Ends the doubt: from `Ok` on each crash leaves the settled payloads alone. It makes no disk call
    /// where the append that failed hadn't begun to open its gate. `DiskFault`: the disk failed, and the
    /// doubt is as before.
    pub fn repair(&mut self) -> Result<(), DiskFault>
        ensures moments { Passed (D.clock self.old.disk) (D.clock self.new.disk) (D.crash self.old.disk) (D.crash self.new.disk) (Left self.old.settled self.old.doubt) }
        ensures bytes { OnOk result (self.old.opening ≡ true → BothTold (Repaired self.old.settled) (D.content self.old.disk) (D.content self.new.disk)) }
        ensures repaired { OnOk result (AllHold (D.crash self.new.disk (D.clock self.new.disk)) self.old.settled) }
        ensures ok { OnOk result (self.new ≡ record self.old { disk = self.new.disk; doubt = None; opening = false }) }
        ensures err { OnErr result (self.new ≡ record self.old { disk = self.new.disk }) }
        ensures certain { self.old.doubt ≡ None → self.new ≡ self.old }
        ensures no_call { self.old.opening ≡ false → self.new.disk ≡ self.old.disk }
        ensures never { self.old.opening ≡ false → IsOk result }
        ensures later { D.faults self.old.disk ≤ D.faults self.new.disk }
        ensures cause { IsErr result → Rose (D.faults self.old.disk) (D.faults self.new.disk) }
    {
        if self.doubt != Doubt::Opening {
            self.doubt = Doubt::Settled;
            return Ok(());
        }
        if put(&mut self.disk, self.gate, &[CLOSED]).is_err() {
            return Err(DiskFault);
        }
        self.doubt = Doubt::Settled;
        Ok(())
    }

    /// Whether an append failed since the last repair.
    pub fn in_doubt(&self) -> bool
        ensures { IsTrue result ↔ IsSome self.now.doubt }
    {
        match self.doubt {
            Doubt::Settled => false,
            Doubt::Closed | Doubt::Opening => true,
        }
    }

    /// What a crash now may leave. Without a doubt no gate was begun to be opened.
    pub fn recall_invariant(&self)
        ensures certain { self.now.doubt ≡ None → self.now.opening ≡ false }
        ensures left { (image : Bytes ℕ) → D.crash self.now.disk (D.clock self.now.disk) image → Left self.now.settled self.now.doubt image }
    {
        let _ = &self.gate;
    }

    /// The disk, to be read.
    pub fn disk(&self) -> &D
        ensures { result.now ≡ self.now.disk }
    {
        &self.disk
    }

    /// The disk, as the journal leaves it.
    pub fn into_disk(self) -> D
        ensures { result ≡ self.disk }
    {
        let Journal { disk, .. } = self;
        disk
    }
}

// Puts a frame's bytes behind its gate into a vector that has room for them: the length, the payload
// and the next gate, closed.
fn fill_frame(frame: &mut Vec<u8>, payload: &[u8])
    requires room { length payload.now + 5 ≤ vec_capacity frame.old }
    requires short { length payload.now < 2 ^ 32 }
    ensures bytes { frame.new.items ≡ size_bytes (length payload.now) ++ payload.now ++ 0 ∷ [] }
    ensures capacity { vec_capacity frame.old ≤ vec_capacity frame.new }
{
    let size = (payload.len() as u32).to_be_bytes();
    frame.clear();
    frame.extend_from_slice(&size).unwrap();
    frame.extend_from_slice(payload).unwrap();
    frame.push(CLOSED).unwrap();
}
