ghost use Rattle.std.specs.Prelude.{◌≡◌, ◌≤◌, None, IfOk, IfSome};

use aw_disk::{Disk, MemDisk, Pick};
use aw_journal::{FormatFault, Journal, LoadFault, NoMemory, format, laws};
use aw_lists::List;
use std::alloc::Global;
use std::test::Fail;

const EMPTY: [u8; 9] = *b"OLAPMW1\n\0";

// Payloads of three bytes and of one.
const TWO: &[u8] = b"OLAPMW1\n\x01\0\0\0\x03abc\x01\0\0\0\x01d\0";

fn disk_of(alloc: Global, bytes: &[u8], failing: &[u64]) -> Result<MemDisk, NoMemory> {
    let bytes = List::from_slice(alloc, bytes)?;
    let failing = List::from_slice(alloc, failing)?;
    Ok(MemDisk::new(bytes, failing))
}

// The offset and the length of the last payload of a disk, or why it can't be loaded.
fn last_of<D: Disk + Drop>(alloc: Global, disk: D) -> Result<Option<(u64, usize)>, LoadFault> {
    match Journal::load(alloc, disk) {
        Ok((_, payloads)) => Ok(
            payloads
                .as_slice()
                .last()
                .map(|it| (it.offset, it.bytes.len())),
        ),
        Err((fault, _)) => Err(fault),
    }
}

fn last_of_two(
    alloc: Global,
    failing: &[u64],
) -> Result<Result<Option<(u64, usize)>, LoadFault>, NoMemory> {
    Ok(last_of(alloc, disk_of(alloc, TWO, failing)?))
}

// A load makes five calls of this disk, and each failure is told.
#[test]
fn a_load_tells_each_fault(rt: HostRuntime) -> Result<(), Fail> {
    let mut told = last_of_two(rt.alloc(), &[])? == Ok(Some((16, 1)));
    for call in 0..5u64 {
        told &= last_of_two(rt.alloc(), &[call])? == Err(LoadFault::DiskFault);
    }
    laws::each_disk_reads_one_way(TWO);
    assert!(rt; told);
    Ok(())
}

// A journal in memory without payloads and with memory for three bytes, whose disk fails at these
// calls. Loading makes three of them.
fn empty_journal(alloc: Global, failing: &[u64]) -> Result<Option<Journal<MemDisk>>, NoMemory>
    ensures { IfOk result (λ made. IfSome made (λ journal. (3 ≤ journal.reserved) × (journal.doubt ≡ None))) }
{
    match Journal::load(alloc, disk_of(alloc, &EMPTY, failing)?) {
        Ok((mut journal, _)) => {
            journal.reserve(3)?;
            Ok(Some(journal))
        }
        Err(_) => Ok(None),
    }
}

// How many repairs fail before one succeeds, of four at most.
fn failed_repairs(journal: &mut Journal<MemDisk>) -> u64 {
    for failed in 0..4 {
        if journal.repair().is_ok() {
            return failed;
        }
    }
    4
}

// How many repairs fail behind an append that fails at these calls of the disk, where the next append
// then stands in its place.
fn failed_before_going_on(alloc: Global, failing: &[u64]) -> Result<Option<u64>, NoMemory> {
    let Some(mut journal) = empty_journal(alloc, failing)? else {
        return Ok(None);
    };
    if journal.append(b"abc").is_ok() {
        return Ok(None);
    }
    let failed = failed_repairs(&mut journal);
    if journal.in_doubt() {
        return Ok(None);
    }
    journal.reserve(3)?;
    let stands = journal.append(b"xyz").is_ok()
        & (journal.disk().bytes() == b"OLAPMW1\n\x01\0\0\0\x03xyz\0".as_slice());
    Ok(if stands { Some(failed) } else { None })
}

// An append makes four calls. In the last two cases the repair's own write and sync fail too.
#[test]
fn appends_go_on_after_a_repair(rt: HostRuntime) -> Result<(), Fail> {
    let cases: [(&[u64], u64); 6] = [
        (&[3], 0),
        (&[4], 0),
        (&[5], 0),
        (&[6], 0),
        (&[5, 6], 1),
        (&[6, 7, 9], 2),
    ];
    let mut all = true;
    for (failing, repairs) in cases {
        all &= failed_before_going_on(rt.alloc(), failing)? == Some(repairs);
    }
    assert!(rt; all);
    Ok(())
}

// The disk after an append.
fn appended(alloc: Global) -> Result<Option<MemDisk>, NoMemory> {
    let Some(mut journal) = empty_journal(alloc, &[])? else {
        return Ok(None);
    };
    if journal.append(b"abc").is_err() {
        return Ok(None);
    }
    journal.recall_invariant();
    Ok(Some(journal.into_disk()))
}

// Whether the image of a moment has the payload or not.
fn image_has(
    alloc: Global,
    disk: &MemDisk,
    moment: u64,
    pick: Pick,
    is_there: bool,
) -> Result<bool, NoMemory> {
    if moment >= disk.moments() {
        return Ok(false);
    }
    let image = disk.image(alloc, moment, pick)?;
    let last = last_of(alloc, disk_of(alloc, image.as_slice(), &[])?);
    Ok(last == Ok(if is_there { Some((8, 3)) } else { None }))
}

// Whether each image of a moment from `first` on has the payload, and none before.
fn has_it_from(alloc: Global, disk: &MemDisk, pick: Pick, first: u64) -> Result<bool, NoMemory> {
    let mut all = true;
    for moment in 0..6u64 {
        all &= image_has(alloc, disk, moment, pick, moment >= first)?;
    }
    Ok(all)
}

// The moments are those at the start, loaded, the frame written, synced, the gate written, synced.
#[test]
fn each_moment_of_an_append_has_it_or_not(rt: HostRuntime) -> Result<(), Fail> {
    let alloc = rt.alloc();
    let made = appended(alloc)?;
    let disk = made.expect(&rt, "the append succeeds");
    let written = has_it_from(alloc, &disk, Pick::Kept, 4)?
        & has_it_from(alloc, &disk, Pick::Fill(1), 4)?;
    let unwritten = has_it_from(alloc, &disk, Pick::Old, 5)?
        & has_it_from(alloc, &disk, Pick::Fill(255), 5)?;
    assert!(rt; written & unwritten & (disk.moments() == 6));
    Ok(())
}

// Whether a disk that lacks a gate is formatted once.
fn formats_once(alloc: Global) -> Result<bool, NoMemory> {
    let mut disk = disk_of(alloc, b"OLAPMW1\n", &[])?;
    let made = format(&mut disk) == Ok(());
    let again = format(&mut disk) == Err(FormatFault::AlreadyFormatted);
    Ok(made & again & (disk.bytes() == EMPTY.as_slice()))
}

fn formats_with_a_fault(alloc: Global, call: u64) -> Result<bool, NoMemory> {
    let mut disk = disk_of(alloc, b"", &[call])?;
    Ok(format(&mut disk) == Err(FormatFault::DiskFault))
}

#[test]
fn a_format_tells_each_fault(rt: HostRuntime) -> Result<(), Fail> {
    let mut told = formats_once(rt.alloc())?;
    for call in 0..3u64 {
        told &= formats_with_a_fault(rt.alloc(), call)?;
    }
    assert!(rt; told);
    Ok(())
}
