ghost use Rattle.std.specs.Prelude.{◌≡◌, ◌≢◌, ◌<◌, ◌≤◌, ◌+◌, ◌^◌, ℕ, List as Items, length, take, drop, Some, IfSome, IfOk, IfErr, OnOk};
ghost use Rattle.aw_disk.specs.Calls.{length_limit};
ghost use Rattle.aw_journal.specs.Format.{head};
ghost use Rattle.aw_journal.specs.Loads.{Explains};
ghost use Rattle.aw_journal.specs.Passed.{Passed};
ghost use Rattle.aw_journal.specs.inside.FramesRead.{Begins, FrameExplains, IsFrame, Progress};
ghost use Rattle.aw_journal.specs.Undisturbed.{Undisturbed};

use crate::fault::LoadFault;
use crate::gate::{Gate, gate_of};
use crate::payload::Payload;
use crate::settled::Settled;
use aw_disk::Disk;
use aw_lists::List;
use std::alloc::Global;

/// The bytes that a formatted disk begins with.
pub const HEAD: [u8; 8] = *b"OLAPMW1\n";

/// How many bytes stand in front of a payload: the open gate, and the length.
const AHEAD: u64 = 5;

/// The payloads of a disk, and the offset of the gate behind them.
#[derive(Drop)]
pub struct Found {
    pub gate: u64,
    pub payloads: List<Payload>,
    pub settled: Settled,
}

// The first gate.
fn read_start<D: Disk>(disk: &mut D) -> Result<Gate, LoadFault>
    ensures ok { IfOk result (λ next. IfSome (D.content disk.old) (λ content. (take 8 content ≡ head) × Begins next (drop 8 content))) }
    ensures err { IfErr result (λ fault. Explains fault (D.content disk.old) (D.faults disk.old) (D.faults disk.new)) }
    ensures reads { Undisturbed D.content D.faults D.clock D.crash disk.old disk.new }
{
    let mut start = [0u8; 13];
    let count = match disk.read_at(0, &mut start) {
        Ok(count) => count,
        Err(_) => return Err(LoadFault::DiskFault),
    };
    if count < 9 || start[..8] != HEAD[..] {
        return Err(LoadFault::Unformatted);
    }
    Ok(gate_of(&start[8..count]))
}

// The payload behind an open gate, and the gate behind the payload.
fn read_frame<D: Disk>(
    alloc: Global,
    disk: &mut D,
    gate: u64,
    size: u32,
    end: u64,
) -> Result<(List<u8>, Gate), LoadFault>
    requires bound { gate ≤ 2 ^ 62 }
    requires end { IfSome (D.content disk.old) (λ content. end ≡ length content) }
    ensures ok { IfOk result (λ frame. IfSome (D.content disk.old) (IsFrame (gate + 5) size frame.0 frame.1)) }
    ensures size { IfOk result (λ frame. length frame.0 ≡ size) }
    ensures inside { OnOk result (gate + 5 + size < end) }
    ensures err { IfErr result (λ fault. FrameExplains fault gate size (D.content disk.old) (D.faults disk.old) (D.faults disk.new)) }
    ensures reads { Undisturbed D.content D.faults D.clock D.crash disk.old disk.new }
{
    let place = gate + AHEAD;
    let left = end.saturating_sub(place);
    if left <= size as u64 {
        return Err(LoadFault::Damaged(gate));
    }
    let count = left.min(size as u64 + AHEAD) as usize;
    let mut bytes = match Vec::from_elem(alloc, 0u8, count) {
        Ok(bytes) => bytes,
        Err(_) => return Err(LoadFault::NoMemory),
    };
    let got = match disk.read_at(place, bytes.as_mut_slice()) {
        Ok(got) => got,
        Err(_) => return Err(LoadFault::DiskFault),
    };
    if got <= size as usize {
        return Err(LoadFault::Damaged(gate));
    }
    let next = gate_of(&bytes[size as usize..got]);
    bytes.truncate(size as usize);
    Ok((List::from_vec(bytes), next))
}

// Adds the payload behind the open gate that was reached, and gives the gate behind it.
fn take_frame<D: Disk>(
    alloc: Global,
    disk: &mut D,
    found: &mut Found,
    size: u32,
    end: u64,
) -> Result<Gate, LoadFault>
    requires progress { Progress (D.content disk.old) found.old (Gate.Open size) }
    requires end { IfSome (D.content disk.old) (λ content. end ≡ length content) }
    requires limit { end ≤ length_limit }
    ensures ok { IfOk result (λ next. Progress (D.content disk.old) found.new next) }
    ensures further { OnOk result ((found.old.gate < found.new.gate) × (found.new.gate < end)) }
    ensures err { IfErr result (λ fault. Explains fault (D.content disk.old) (D.faults disk.old) (D.faults disk.new)) }
    ensures reads { Undisturbed D.content D.faults D.clock D.crash disk.old disk.new }
{
    let (bytes, next) = match read_frame(alloc, disk, found.gate, size, end) {
        Ok(frame) => frame,
        Err(fault) => return Err(fault),
    };
    let offset = found.gate;
    found.gate = offset + AHEAD + size as u64;
    found.settled.push(bytes.as_slice());
    match found.payloads.push(Payload { offset, bytes }) {
        Ok(()) => Ok(next),
        Err(_) => Err(LoadFault::NoMemory),
    }
}

// Adds the payloads from a gate on, up to the first closed one.
fn take_frames<D: Disk>(
    alloc: Global,
    disk: &mut D,
    found: &mut Found,
    first: Gate,
    end: u64,
) -> Result<(), LoadFault>
    requires progress { Progress (D.content disk.old) found.old first }
    requires end { IfSome (D.content disk.old) (λ content. end ≡ length content) }
    requires limit { end ≤ length_limit }
    ensures ok { OnOk result (Progress (D.content disk.old) found.new Gate.Closed) }
    ensures err { IfErr result (λ fault. Explains fault (D.content disk.old) (D.faults disk.old) (D.faults disk.new)) }
    ensures reads { Undisturbed D.content D.faults D.clock D.crash disk.old disk.new }
{
    let mut next = first;
    while let Gate::Open(size) = next {
        next = match take_frame(alloc, disk, found, size, end) {
            Ok(gate) => gate,
            Err(fault) => return Err(fault),
        };
    }
    match next {
        Gate::Closed => Ok(()),
        Gate::CutShort => Err(LoadFault::Damaged(found.gate)),
        Gate::Open(_) => unreachable!(),
    }
}

/// Syncs and reads all payloads. The disk keeps its content.
pub fn read<D: Disk>(alloc: Global, disk: &mut D) -> Result<Found, LoadFault>
    ensures ok { IfOk result (λ found. Progress (D.content disk.old) found Gate.Closed) }
    ensures durable { OnOk result ((image : Items ℕ) → D.crash disk.new (D.clock disk.new) image → D.content disk.new ≡ Some image) }
    ensures err { IfErr result (λ fault. Explains fault (D.content disk.old) (D.faults disk.old) (D.faults disk.new)) }
    ensures refused_durable { IfErr result (λ fault. fault ≢ LoadFault.DiskFault → (image : Items ℕ) → D.crash disk.new (D.clock disk.new) image → D.content disk.new ≡ Some image) }
    ensures stays { D.content disk.new ≡ D.content disk.old }
    ensures moments { Passed (D.clock disk.old) (D.clock disk.new) (D.crash disk.old) (D.crash disk.new) (D.crash disk.old (D.clock disk.old)) }
    ensures later { D.faults disk.old ≤ D.faults disk.new }
{
    if disk.sync().is_err() {
        return Err(LoadFault::DiskFault);
    }
    let end = match disk.len() {
        Ok(end) => end,
        Err(_) => return Err(LoadFault::DiskFault),
    };
    let first = match read_start(disk) {
        Ok(first) => first,
        Err(fault) => return Err(fault),
    };
    let mut found = Found {
        gate: 8,
        payloads: List::new(alloc),
        settled: Settled::none(),
    };
    match take_frames(alloc, disk, &mut found, first, end) {
        Ok(()) => Ok(found),
        Err(fault) => Err(fault),
    }
}
