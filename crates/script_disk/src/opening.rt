ghost use Rattle.std.specs.Prelude.{◌≡◌, ◌⊎◌, ◌≤◌, [], None, IfOk, IfErr, IfSome, OnOk};
ghost use Rattle.aw_io.specs.Known.{Grows, GrowsByFront};
ghost use Rattle.aw_lists.specs.Faults.{Rose};
ghost use Rattle.aw_journal.specs.Passed.{Passed};
ghost use Rattle.aw_store.specs.StoredRecords.{stood_by, HoldsRecords};
ghost use Rattle.script_disk.specs.WhyUnopened.{status_of, IsUnopened, Told};

use crate::line::damaged_line;
use aw_disk::Disk;
use aw_io::{Sink, put_all};
use aw_store::{LoadFault, Store};
use std::alloc::Global;

const NOT_A_WORKSPACE: &[u8] = b"NOT A WORKSPACE\n";

/// Why a workspace wasn't opened (docs/FORMATS.md, "The texts of a workspace").
#[derive(Clone, Copy, Debug, PartialEq, Eq)]
pub enum Unopened {
    /// The disk has fewer than 9 bytes or another head, and `NOT A WORKSPACE` was written.
    Unformatted,
    /// The disk is damaged at this offset in bytes, and `DAMAGED` with the offset was written.
    Damaged(u64),
    /// The disk failed.
    DiskFault,
    /// There was no memory for what the records leave.
    NoMemory,
    /// The sink failed before it took all of what was due of an unformatted or a damaged disk.
    SinkFault,
}

impl Unopened {
    /// The status of a run that ends so.
    pub fn status(&self) -> u8
        ensures { result ≡ status_of self.now }
    {
        match self {
            Unopened::Unformatted => 7,
            Unopened::Damaged(_) => 8,
            Unopened::DiskFault => 5,
            Unopened::NoMemory => 6,
            Unopened::SinkFault => 4,
        }
    }
}

/// Writes the line of a refusal that has one.
pub fn tell<K: Sink>(fault: LoadFault, out: &mut K) -> Unopened
    ensures told { Told fault result (K.written out.old) (K.written out.new) }
    ensures silent { (result ≡ Unopened.DiskFault) ⊎ (result ≡ Unopened.NoMemory) → out.new ≡ out.old }
    ensures later { K.faults out.old ≤ K.faults out.new }
    ensures cause { result ≡ Unopened.SinkFault → Rose (K.faults out.old) (K.faults out.new) }
{
    match fault {
        LoadFault::Unformatted => match put_all(out, NOT_A_WORKSPACE) {
            Ok(()) => Unopened::Unformatted,
            Err(_) => Unopened::SinkFault,
        },
        LoadFault::Damaged(offset) => match put_all(out, damaged_line(offset).as_slice()) {
            Ok(()) => Unopened::Damaged(offset),
            Err(_) => Unopened::SinkFault,
        },
        LoadFault::DiskFault => Unopened::DiskFault,
        LoadFault::NoMemory => Unopened::NoMemory,
    }
}

/// Loads the workspace of a disk. Where it can't be loaded, the disk is handed back with its content
/// as before, and the sink gets the line of an unformatted or a damaged disk. `Unformatted`: it has
/// fewer than 9 bytes or another head. `Damaged`: at this offset a frame is cut short, or else the
/// first record is bad. `DiskFault`: the disk failed. `NoMemory`: there is none for what the records
/// leave. `SinkFault`: the sink failed before it took the whole line. Nothing is written but that line.
/// See docs/FORMATS.md, "The texts of a workspace".
pub fn open<K: Sink, D: Disk>(
    alloc: Global,
    disk: D,
    out: &mut K,
) -> Result<Store<D>, (Unopened, D)>
    ensures holds { IfOk result (λ store. IfSome (D.content disk) (λ image. HoldsRecords image store.records)) }
    ensures opened { IfOk result (λ store. (store.doubt ≡ None) × (store.table ≡ stood_by store.records [])) }
    ensures content { IfOk result (λ store. D.content store.disk ≡ D.content disk) }
    ensures refused_content { IfErr result (λ refused. D.content refused.1 ≡ D.content disk) }
    ensures moments { IfOk result (λ store. Passed (D.clock disk) (D.clock store.disk) (D.crash disk) (D.crash store.disk) (D.crash disk (D.clock disk))) }
    ensures refused_moments { IfErr result (λ refused. Passed (D.clock disk) (D.clock refused.1) (D.crash disk) (D.crash refused.1) (D.crash disk (D.clock disk))) }
    ensures untouched { OnOk result (out.new ≡ out.old) }
    ensures refused { IfErr result (λ refused. IsUnopened refused.0 (D.content disk) (K.written out.old) (K.written out.new)) }
    ensures silent { IfErr result (λ refused. (refused.0 ≡ Unopened.DiskFault) ⊎ (refused.0 ≡ Unopened.NoMemory) → out.new ≡ out.old) }
    ensures later { IfOk result (λ store. D.faults disk ≤ D.faults store.disk) }
    ensures refused_later { IfErr result (λ refused. D.faults disk ≤ D.faults refused.1) }
    ensures sink_later { K.faults out.old ≤ K.faults out.new }
    ensures cause { IfErr result (λ refused. refused.0 ≡ Unopened.DiskFault → Rose (D.faults disk) (D.faults refused.1)) }
    ensures sink_cause { IfErr result (λ refused. refused.0 ≡ Unopened.SinkFault → Rose (K.faults out.old) (K.faults out.new)) }
{
    match Store::load(alloc, disk) {
        Ok(store) => Ok(store),
        Err((fault, disk)) => Err((tell(fault, out), disk)),
    }
}
