ghost use Rattle.std.specs.Prelude.{◌≡◌, ◌≤◌, IfSome, IsSome, OnOk, OnErr};
ghost use Rattle.aw_io.specs.Known.{Grows, GrowsByFront};
ghost use Rattle.aw_lists.specs.Faults.{Rose};
ghost use Rattle.aw_journal.specs.Passed.{Passed};
ghost use Rattle.script_meaning.specs.Dump.{dumped_table};
ghost use Rattle.script_disk.specs.Dumped.{EndsDump, Dumps, CompletesDump};
ghost use Rattle.script_disk.specs.WhyUnopened.{AreFormatted, ExplainsContent};

use crate::objects::write_objects;
use crate::opening::open;
use aw_disk::Disk;
use aw_io::{Sink, SinkFault};
use aw_store::Store;
use core::mem::replace_with;
use std::alloc::Global;

// Writes the dump of a store.
fn write_dump<K: Sink, D: Disk>(store: &Store<D>, out: &mut K) -> Result<(), SinkFault>
    ensures ok { OnOk result (Grows (K.written out.old) (K.written out.new) (dumped_table store.now.table)) }
    ensures err { OnErr result (GrowsByFront (K.written out.old) (K.written out.new) (dumped_table store.now.table)) }
    ensures later { K.faults out.old ≤ K.faults out.new }
    ensures cause { OnErr result (Rose (K.faults out.old) (K.faults out.new)) }
{
    store.recall_invariant();
    match store.catalogue() {
        Some(catalogue) => write_objects(catalogue, store, out),
        None => Ok(()),
    }
}

// What a dump needs beside the disk. It is handed back, so that a caller knows the sink again.
#[derive(Drop)]
struct Devices<'a, K> {
    alloc: Global,
    out: &'a mut K,
}

fn dump_disk<'a, K: Sink, D: Disk>(disk: D, devices: Devices<'a, K>) -> (D, (u8, Devices<'a, K>))
    ensures same_sink { result.1.1.out.ghost_name ≡ devices.entry.out.ghost_name }
    ensures ends { EndsDump result.1.0 (D.content disk) (D.crash result.0 (D.clock result.0)) (K.written devices.entry.out.now) (K.written result.1.1.out.now) }
    ensures stays { D.content result.0 ≡ D.content disk }
    ensures moments { Passed (D.clock disk) (D.clock result.0) (D.crash disk) (D.crash result.0) (D.crash disk (D.clock disk)) }
    ensures disk_later { D.faults disk ≤ D.faults result.0 }
    ensures sink_later { K.faults devices.entry.out.now ≤ K.faults result.1.1.out.now }
    ensures disk_cause { result.1.0 ≡ 5 → Rose (D.faults disk) (D.faults result.0) }
    ensures sink_cause { result.1.0 ≡ 4 → Rose (K.faults devices.entry.out.now) (K.faults result.1.1.out.now) }
{
    let Devices { alloc, out } = devices;
    match open(alloc, disk, out) {
        Ok(store) => {
            store.recall_invariant();
            let status = match write_dump(&store, out) {
                Ok(()) => 0,
                Err(_) => 4,
            };
            (store.into_disk(), (status, Devices { alloc, out }))
        }
        Err((why, disk)) => (disk, (why.status(), Devices { alloc, out })),
    }
}

/// Writes what a workspace stands for, for the word `dump`: each object that is kept, in order of
/// definition, with its name, the number of its latest generation, how many values, slots or cells it
/// has, and a line for each of them (docs/FORMATS.md, "A dump"). The disk keeps its content. It takes
/// no memory beside that of the store. The answer is the status of the run:
///
/// - 0: the whole dump is written.
/// - 4: the sink failed. A front of what was due is written.
/// - 5: the disk failed. Nothing is written.
/// - 6: there is no memory for what the records leave. Nothing is written.
/// - 7: the disk has fewer than 9 bytes or another head, and `NOT A WORKSPACE` is written.
/// - 8: the disk is damaged at an offset in bytes, and `DAMAGED` with the offset is written.
pub fn dump<K: Sink, D: Disk>(alloc: Global, disk: &mut D, out: &mut K) -> u8
    ensures dumps { Dumps D.content D.clock D.crash disk.old disk.new (K.written out.old) (K.written out.new) result }
    ensures completes { AreFormatted (D.crash disk.old (D.clock disk.old)) → IsSome (D.content disk.old)
        → ¬ (Rose (D.faults disk.old) (D.faults disk.new)) → ¬ (Rose (K.faults out.old) (K.faults out.new))
        → CompletesDump result }
    ensures explains { IfSome (D.content disk.old) (ExplainsContent result) }
    ensures disk_later { D.faults disk.old ≤ D.faults disk.new }
    ensures sink_later { K.faults out.old ≤ K.faults out.new }
    ensures disk_cause { result ≡ 5 → Rose (D.faults disk.old) (D.faults disk.new) }
    ensures sink_cause { result ≡ 4 → Rose (K.faults out.old) (K.faults out.new) }
{
    // The store owns the disk while it is open.
    let devices = Devices { alloc, out };
    let (status, _) = replace_with(disk, devices, dump_disk);
    status
}
