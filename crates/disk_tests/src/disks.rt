use aw_disk::{Disk, Failed, MemDisk, NoMemory, Pick, SureDisk, crashes_leave_what_is_covered};
use aw_lists::List;
use std::alloc::Global;
use std::test::Fail;

fn disk_of(alloc: Global, bytes: &[u8], failing: &[u64]) -> Result<MemDisk, NoMemory> {
    let bytes = List::from_slice(alloc, bytes)?;
    let failing = List::from_slice(alloc, failing)?;
    Ok(MemDisk::new(bytes, failing))
}

// Whether each kind of call succeeds once and then fails once, where the disk has four bytes.
fn fails_at_each_second_call<D: Disk>(disk: &mut D) -> bool {
    let mut into = [0u8; 4];
    let lengths = (disk.len() == Ok(4)) & (disk.len() == Err(Failed));
    let reads = (disk.read_at(1, &mut into) == Ok(3)) & (disk.read_at(1, &mut into) == Err(Failed));
    let writes = (disk.write_at(0, b"XY") == Ok(())) & (disk.write_at(0, b"Q") == Err(Failed));
    lengths & reads & writes & (disk.sync() == Ok(())) & (disk.sync() == Err(Failed))
}

// A disk that is lent makes the same calls. A listed write of one byte leaves it.
#[test]
fn listed_calls_fail(rt: HostRuntime) -> Result<(), Fail> {
    let mut disk = disk_of(rt.alloc(), b"abcd", &[1, 3, 5, 7])?;
    let listed = fails_at_each_second_call(&mut &mut disk);
    assert!(rt; listed & (disk.bytes() == b"QYcd".as_slice()));
    Ok(())
}

// Whether the disk's image of a moment has these bytes.
fn image_is(
    alloc: Global,
    disk: &MemDisk,
    moment: u64,
    pick: Pick,
    bytes: &[u8],
) -> Result<bool, NoMemory> {
    if moment >= disk.moments() {
        return Ok(false);
    }
    Ok(disk.image(alloc, moment, pick)?.as_slice() == bytes)
}

fn writes(disk: &mut MemDisk, offset: usize, bytes: &[u8]) -> bool {
    offset <= disk.bytes().len() && disk.write_at(offset as u64, bytes).is_ok()
}

// Two writes, a sync and a write more: five moments.
fn written(alloc: Global) -> Result<Option<MemDisk>, NoMemory> {
    let mut disk = disk_of(alloc, b"abcd", &[])?;
    let first = writes(&mut disk, 1, b"X") & writes(&mut disk, 4, b"yz");
    let all = first & disk.sync().is_ok() & writes(&mut disk, 0, b"Q");
    Ok(if all { Some(disk) } else { None })
}

// Whether the images have the bytes written last, those of the last sync, and question marks.
fn keeps_its_moments(alloc: Global, disk: &MemDisk) -> Result<bool, NoMemory> {
    let first = image_is(alloc, disk, 0, Pick::Old, b"abcd")?;
    let kept = image_is(alloc, disk, 2, Pick::Kept, b"aXcdyz")?;
    let old = image_is(alloc, disk, 2, Pick::Old, b"abcd\0\0")?;
    let filled = image_is(alloc, disk, 2, Pick::Fill(b'?'), b"a?cd??")?;
    let synced = image_is(alloc, disk, 3, Pick::Fill(b'?'), b"aXcdyz")?;
    let last = image_is(alloc, disk, 4, Pick::Old, b"aXcdyz")?;
    Ok(first & kept & old & filled & synced & last & (disk.moments() == 5))
}

#[test]
fn mem_disk_keeps_all_moments(rt: HostRuntime) -> Result<(), Fail> {
    let made = written(rt.alloc())?;
    let disk = made.expect(&rt, "each call succeeds");
    crashes_leave_what_is_covered();
    assert!(rt; keeps_its_moments(rt.alloc(), &disk)?);
    Ok(())
}

#[test]
fn sure_disk_keeps_no_more_past_its_room(rt: HostRuntime) -> Result<(), Fail> {
    let mut disk = SureDisk::new(rt.alloc(), b"abc", 5)?;
    let whole = disk.write_at(3, b"def") == Ok(());
    let more = disk.write_at(0, b"X") == Ok(());
    assert!(rt; whole & more & (disk.bytes() == b"abc".as_slice()));
    Ok(())
}
