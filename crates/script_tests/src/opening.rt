use aw_disk::{Disk, MemDisk, SureDisk};
use aw_io::{MemSink, Sink, SureSink};
use aw_lists::List;
use aw_store::{NoMemory, Store};
use script_disk::{Unopened, dump, make, open};
use std::alloc::Global;

const EMPTY: [u8; 9] = *b"OLAPMW1\n\0";

// The definition of `v`, and the commit that sets it to 7.
const TWO: [u8; 45] = [
    0x4f, 0x4c, 0x41, 0x50, 0x4d, 0x57, 0x31, 0x0a, 0x01, 0x00, 0x00, 0x00, 0x09, 0x44, 0x01, 0x00,
    0x01, 0x01, 0x76, 0x03, 0x02, 0x00, 0x01, 0x00, 0x00, 0x00, 0x11, 0x43, 0x01, 0x00, 0x01, 0x00,
    0x00, 0x4d, 0x00, 0x00, 0x00, 0x00, 0x01, 0x02, 0x00, 0x00, 0x00, 0x07, 0x00,
];

// The definitions of `a` and `b`, and the commit that sets `b` to -1.
const SECOND: [u8; 50] = [
    0x4f, 0x4c, 0x41, 0x50, 0x4d, 0x57, 0x31, 0x0a, 0x01, 0x00, 0x00, 0x00, 0x0e, 0x44, 0x01, 0x00,
    0x02, 0x01, 0x61, 0x03, 0x02, 0x00, 0x01, 0x62, 0x03, 0x02, 0x00, 0x01, 0x00, 0x00, 0x00, 0x11,
    0x43, 0x01, 0x00, 0x01, 0x00, 0x01, 0x4d, 0x00, 0x00, 0x00, 0x00, 0x01, 0x02, 0xff, 0xff, 0xff,
    0xff, 0x00,
];

fn disk_of(alloc: Global, bytes: &[u8], failing: &[u64]) -> Result<MemDisk, NoMemory> {
    let bytes = List::from_slice(alloc, bytes)?;
    let failing = List::from_slice(alloc, failing)?;
    Ok(MemDisk::new(bytes, failing))
}

fn sink_of(alloc: Global, failing: &[u64]) -> Result<MemSink, NoMemory> {
    let failing = List::from_slice(alloc, failing)?;
    Ok(MemSink::new(List::new(alloc), failing))
}

fn so(found: Result<bool, NoMemory>) -> bool {
    match found {
        Ok(is_so) => is_so,
        Err(_) => false,
    }
}

// Whether a dump of these bytes, over devices that fail at these calls, has this status and writes this.
fn dumps(
    alloc: Global,
    bytes: &[u8],
    disk_fails: &[u64],
    sink_fails: &[u64],
    status: u8,
    text: &[u8],
) -> Result<bool, NoMemory> {
    let mut disk = disk_of(alloc, bytes, disk_fails)?;
    let mut sink = sink_of(alloc, sink_fails)?;
    let ended = dump(alloc, &mut disk, &mut sink);
    Ok((ended == status) & (sink.bytes() == text))
}

// Whether `new` over these bytes, with devices that fail at these calls, has this status, writes nothing
// and leaves this.
fn makes(
    alloc: Global,
    bytes: &[u8],
    disk_fails: &[u64],
    sink_fails: &[u64],
    status: u8,
    left: &[u8],
) -> Result<bool, NoMemory> {
    let mut disk = disk_of(alloc, bytes, disk_fails)?;
    let mut sink = sink_of(alloc, sink_fails)?;
    let ended = make(&mut disk, &mut sink);
    Ok((ended == status) & sink.bytes().is_empty() & (disk.bytes() == left))
}

#[test]
fn a_failing_disk_is_told(rt: HostRuntime) {
    let alloc = rt.alloc();
    let dumped = so(dumps(alloc, &TWO, &[0], &[], 5, b""))
        & so(dumps(alloc, &TWO, &[2], &[], 5, b""));
    let made = so(makes(alloc, b"", &[0], &[], 5, b""))
        & so(makes(alloc, b"", &[2], &[], 5, &EMPTY));
    assert!(rt; dumped & made);
}

#[test]
fn a_failing_sink_is_told(rt: HostRuntime) {
    let alloc = rt.alloc();
    let dumped = so(dumps(alloc, &TWO, &[], &[0], 4, b""))
        & so(dumps(alloc, &TWO[..30], &[], &[0], 4, b""))
        & so(dumps(alloc, &TWO[..5], &[], &[0], 4, b""))
        & so(dumps(alloc, &SECOND, &[], &[1], 4, b"a 1 0\n"));
    let made = so(makes(alloc, b"", &[], &[0], 4, &EMPTY))
        & so(makes(alloc, &EMPTY, &[], &[0], 4, &EMPTY));
    assert!(rt; dumped & made);
}

fn makes_and_dumps(alloc: Global) -> Result<bool, NoMemory> {
    let mut disk = SureDisk::new(alloc, b"", 9)?;
    let mut sink = SureSink::new(alloc, 3)?;
    let ended = (make(&mut disk, &mut sink) == 0) & (dump(alloc, &mut disk, &mut sink) == 0);
    let left = disk.bytes() == EMPTY.as_slice();
    Ok(ended & left & (sink.bytes() == b"ok\n".as_slice()))
}

#[test]
fn devices_that_never_fail_serve_too(rt: HostRuntime) {
    assert!(rt; so(makes_and_dumps(rt.alloc())));
}

fn opened<K: Sink, D: Disk + Drop>(alloc: Global, disk: D, out: &mut K) -> Result<u64, Unopened> {
    match open(alloc, disk, out) {
        Ok(store) => Ok(first_number(&store)),
        Err((why, _)) => Err(why),
    }
}

// The number of the first object's latest generation, or 0 where there is none.
fn first_number<D: Disk>(store: &Store<D>) -> u64 {
    if store.keeps(0) { store.look(0).0 } else { 0 }
}

// Whether opening a disk of these bytes, which fails at these calls, over a sink that fails at these, goes
// so.
fn opens(
    alloc: Global,
    bytes: &[u8],
    disk_fails: &[u64],
    sink_fails: &[u64],
    expected: Result<u64, Unopened>,
) -> Result<bool, NoMemory> {
    let disk = disk_of(alloc, bytes, disk_fails)?;
    let mut sink = sink_of(alloc, sink_fails)?;
    Ok(opened(alloc, disk, &mut sink) == expected)
}

#[test]
fn opening_answers_each_way(rt: HostRuntime) {
    let alloc = rt.alloc();
    let damaged = so(opens(alloc, &TWO[..30], &[], &[], Err(Unopened::Damaged(22))))
        & so(opens(alloc, &TWO[..5], &[], &[], Err(Unopened::Unformatted)));
    let hindered = so(opens(alloc, &TWO, &[0], &[], Err(Unopened::DiskFault)))
        & so(opens(alloc, &TWO[..5], &[], &[0], Err(Unopened::SinkFault)));
    assert!(rt; damaged & hindered & so(opens(alloc, &TWO, &[], &[], Ok(2))));
}
