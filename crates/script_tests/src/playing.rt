use aw_cell::Text;
use aw_disk::{Disk, MemDisk, Pick, SureDisk};
use aw_feed::Feed;
use aw_io::{MemSink, MemSource, NoMemory, Sink, Source, SureSink, SureSource};
use aw_lists::List;
use script_play::run;
use std::alloc::Global;

const FIRST_COURSE: &[u8] = b"DEFINE v VARIABLE INTEGER\n\
    a: AW ATTACH MULTI\n\
    a: ACQUIRE v\n\
    a: v = 7\n\
    a: UPDATE\n\
    a: COMMIT\n\
    a: SHOW v\n";

const FIRST_TRANSCRIPT: &[u8] = b"a: ok\na: ok\na: ok\na: ok\na: ok\na: 7\n";

const USAGE: &[u8] = b"usage: play, new, dump, make N\n";

/// A workspace without definitions.
const EMPTY: &[u8] = b"OLAPMW1\n\0";

/// The workspace that the first course leaves: the definition of `v`, and the commit that sets it to 7.
const COMMITTED: [u8; 45] = [
    0x4f, 0x4c, 0x41, 0x50, 0x4d, 0x57, 0x31, 0x0a, 0x01, 0x00, 0x00, 0x00, 0x09, 0x44, 0x01, 0x00,
    0x01, 0x01, 0x76, 0x03, 0x02, 0x00, 0x01, 0x00, 0x00, 0x00, 0x11, 0x43, 0x01, 0x00, 0x01, 0x00,
    0x00, 0x4d, 0x00, 0x00, 0x00, 0x00, 0x01, 0x02, 0x00, 0x00, 0x00, 0x07, 0x00,
];

const DUMP: &[u8] = b"v 2 1\n  = 7\n";

// The number of the one call that is to fail, or none.
fn listed(alloc: Global, failing: Option<u64>) -> Result<List<u64>, NoMemory> {
    let mut calls = List::new(alloc);
    if let Some(call) = failing {
        calls.push(call)?;
    }
    Ok(calls)
}

fn source(alloc: Global, script: &[u8], failing: Option<u64>) -> Result<MemSource, NoMemory> {
    let script = List::from_slice(alloc, script)?;
    Ok(MemSource::new(script, listed(alloc, failing)?))
}

fn sink(alloc: Global, failing: Option<u64>) -> Result<MemSink, NoMemory> {
    Ok(MemSink::new(List::new(alloc), listed(alloc, failing)?))
}

fn disk(alloc: Global, bytes: &[u8], failing: &[u64]) -> Result<MemDisk, NoMemory> {
    let bytes = List::from_slice(alloc, bytes)?;
    Ok(MemDisk::new(bytes, List::from_slice(alloc, failing)?))
}

fn so(found: Result<bool, NoMemory>) -> bool {
    match found {
        Ok(is_so) => is_so,
        Err(_) => false,
    }
}

// The status of a run of one word to which nobody listens.
fn run_word<S: Source, K: Sink, D: Disk>(
    alloc: Global,
    word: &[u8],
    script: &mut S,
    out: &mut K,
    disk: &mut D,
) -> u8 {
    let mut feed = Feed::new(Vec::new(alloc));
    match Text::of(word) {
        Some(word) => run(alloc, &[word], script, out, disk, &mut feed),
        None => 255,
    }
}

// Whether a run of one word over the first course, whose source and sink fail at these calls, has this
// status and writes this text.
fn writes(
    alloc: Global,
    word: &[u8],
    take: Option<u64>,
    put: Option<u64>,
    status: u8,
    text: &[u8],
) -> Result<bool, NoMemory> {
    let mut script = source(alloc, FIRST_COURSE, take)?;
    let mut out = sink(alloc, put)?;
    let mut disk = disk(alloc, EMPTY, &[])?;
    let ended = run_word(alloc, word, &mut script, &mut out, &mut disk);
    Ok((ended == status) & (out.bytes() == text))
}

// Whether `play` over the forms that never fail, with room for so many bytes, writes the transcript.
fn surely_plays(alloc: Global, room: u32) -> Result<bool, NoMemory> {
    let mut script = SureSource::new(List::from_slice(alloc, FIRST_COURSE)?);
    let mut out = SureSink::new(alloc, room)?;
    let mut disk = SureDisk::new(alloc, EMPTY, 45)?;
    let ended = run_word(alloc, b"play", &mut script, &mut out, &mut disk);
    Ok((ended == 0) & (out.bytes() == FIRST_TRANSCRIPT))
}

#[test]
fn first_course(rt: HostRuntime) {
    let played = so(writes(rt.alloc(), b"play", None, None, 0, FIRST_TRANSCRIPT));
    assert!(rt; played & so(surely_plays(rt.alloc(), 36)));
}

#[test]
fn faults(rt: HostRuntime) {
    let cases: [(&[u8], Option<u64>, Option<u64>, u8, &[u8]); 6] = [
        (b"play", Some(1), None, 3, FIRST_TRANSCRIPT),
        (b"play", Some(0), None, 3, b""),
        (b"play", None, Some(0), 4, b""),
        (b"play", None, Some(2), 4, b"a: ok\na: ok\n"),
        (b"make", None, None, 2, USAGE),
        (b"make", None, Some(0), 4, b""),
    ];
    let mut all = true;
    for (word, take, put, status, text) in cases {
        all &= so(writes(rt.alloc(), word, take, put, status, text));
    }
    assert!(rt; all);
}

// Whether a run of one word over this script, on a disk with these bytes that fails at these calls, has
// this status, writes this text and leaves these bytes.
fn leaves(
    alloc: Global,
    word: &[u8],
    script: &[u8],
    bytes: &[u8],
    failing: &[u64],
    status: u8,
    text: &[u8],
    left: &[u8],
) -> Result<bool, NoMemory> {
    let mut script = source(alloc, script, None)?;
    let mut out = sink(alloc, None)?;
    let mut disk = disk(alloc, bytes, failing)?;
    let ended = run_word(alloc, word, &mut script, &mut out, &mut disk);
    Ok((ended == status) & (out.bytes() == text) & (disk.bytes() == left))
}

// The definitions can't be synced in the last case.
#[test]
fn disk_faults(rt: HostRuntime) {
    let alloc = rt.alloc();
    let written = b"OLAPMW1\n\0\0\0\0\x09D\x01\0\x01\x01v\x03\x02\0\0";
    let play = so(leaves(alloc, b"play", FIRST_COURSE, EMPTY, &[0], 5, b"", EMPTY))
        & so(leaves(alloc, b"play", FIRST_COURSE, EMPTY, &[4], 5, b"", written));
    let others = so(leaves(alloc, b"dump", b"", &COMMITTED, &[2], 5, b"", &COMMITTED))
        & so(leaves(alloc, b"new", b"", EMPTY, &[0], 5, b"", EMPTY));
    assert!(rt; play & others);
}

// Three calls load the disk, four write the definitions, and the fourth of the commit fails.
#[test]
fn a_commit_after_a_disk_fault_repairs(rt: HostRuntime) {
    let script = b"DEFINE v VARIABLE INTEGER\n\
        a: AW ATTACH MULTI\n\
        a: ACQUIRE v\n\
        a: v = 7\n\
        a: UPDATE\n\
        a: COMMIT\n\
        a: COMMIT\n\
        a: SHOW v\n";
    let text = b"a: ok\na: ok\na: ok\na: ok\na: ERROR 30\na: ok\na: 7\n";
    assert!(rt;
        so(leaves(
            rt.alloc(),
            b"play",
            script,
            EMPTY,
            &[10],
            1,
            text,
            &COMMITTED
        ))
    );
}

// A commit of `v` by `a` meets a fault once or twice, and then `b` commits `w`.
const BEFORE: &[u8] = b"DEFINE v VARIABLE INTEGER\n\
    DEFINE w VARIABLE INTEGER\n\
    a: AW ATTACH MULTI\n\
    a: ACQUIRE v\n\
    a: v = 7\n\
    a: UPDATE\n";

const BEHIND: &[u8] = b"a: COMMIT\n\
    b: AW ATTACH MULTI\n\
    b: ACQUIRE v\n\
    b: ACQUIRE w\n\
    b: w = 9\n\
    b: UPDATE\n\
    b: COMMIT\n";

// Whether `a` meets so many faults where the disk fails at these calls, `b` finds `v` owned, and the disk
// has the commit of `b` alone in the end.
fn another_goes_on(alloc: Global, failing: &[u64], again: bool) -> Result<bool, NoMemory> {
    let mut script = BEFORE.to_vec(alloc)?;
    let mut text = b"a: ok\na: ok\na: ok\na: ok\n".to_vec(alloc)?;
    if again {
        script.extend_from_slice(b"a: COMMIT\n")?;
        text.extend_from_slice(b"a: ERROR 30\n")?;
    }
    script.extend_from_slice(BEHIND)?;
    text.extend_from_slice(b"a: ERROR 30\nb: ok\nb: ERROR 17 v a\nb: ok\nb: ok\nb: ok\nb: ok\n")?;
    let left =
        b"OLAPMW1\n\x01\0\0\0\x0eD\x01\0\x02\x01v\x03\x02\0\x01w\x03\x02\0\x01\0\0\0\x11C\x01\0\x01\0\x01M\0\0\0\0\x01\x02\0\0\0\x09\0";
    let (script, text) = (script.as_slice(), text.as_slice());
    leaves(alloc, b"play", script, EMPTY, failing, 1, text, left)
}

// In the last two cases the repair fails.
#[test]
fn another_session_ends_a_doubt(rt: HostRuntime) {
    let cases: [(&[u64], bool); 6] = [
        (&[7], false),
        (&[8], false),
        (&[9], false),
        (&[10], false),
        (&[10, 11], true),
        (&[9, 11], true),
    ];
    let mut all = true;
    for (failing, again) in cases {
        all &= so(another_goes_on(rt.alloc(), failing, again));
    }
    assert!(rt; all);
}

// The disk that the first course left, with all its moments.
fn played_disk(alloc: Global) -> Result<MemDisk, NoMemory> {
    let mut script = source(alloc, FIRST_COURSE, None)?;
    let mut out = sink(alloc, None)?;
    let mut disk = disk(alloc, EMPTY, &[])?;
    let _ = run_word(alloc, b"play", &mut script, &mut out, &mut disk);
    Ok(disk)
}

// How many records this dump tells of those that the first course leaves.
fn records_in(dump: &[u8]) -> Option<u8> {
    if dump == DUMP {
        return Some(2);
    }
    if dump == b"v 1 0\n".as_slice() {
        return Some(1);
    }
    if dump.is_empty() { Some(0) } else { None }
}

// How many records a disk with these bytes holds of those, by its dump.
fn records_left(alloc: Global, bytes: &[u8]) -> Result<Option<u8>, NoMemory> {
    let mut script = source(alloc, b"", None)?;
    let mut out = sink(alloc, None)?;
    let mut disk = disk(alloc, bytes, &[])?;
    let status = run_word(alloc, b"dump", &mut script, &mut out, &mut disk);
    Ok(if status == 0 {
        records_in(out.bytes())
    } else {
        None
    })
}

// Whether so many records may be left at a moment so long before the last one. The last four moments
// are those of the commit's calls, and the four before of the definitions': a record is written,
// synced, opened and synced again, and only while it is opened may a crash leave it or not.
fn may_be_left(back: u64, records: Option<u8>) -> bool {
    match back {
        0 => records == Some(2),
        1 => (records == Some(1)) | (records == Some(2)),
        2..=4 => records == Some(1),
        5 => (records == Some(0)) | (records == Some(1)),
        _ => records == Some(0),
    }
}

// Whether the image of a moment has as many records as it may.
fn leaves_a_prefix(
    alloc: Global,
    disk: &MemDisk,
    moment: u64,
    pick: Pick,
) -> Result<bool, NoMemory> {
    if moment >= disk.moments() {
        return Ok(false);
    }
    let image = disk.image(alloc, moment, pick)?;
    let records = records_left(alloc, image.as_slice())?;
    Ok(may_be_left(disk.moments() - 1 - moment, records))
}

fn each_moment_leaves_a_prefix(alloc: Global, disk: &MemDisk, pick: Pick) -> bool {
    let mut all = true;
    for moment in 0..disk.moments() {
        all &= so(leaves_a_prefix(alloc, disk, moment, pick));
    }
    all
}

fn each_image_leaves_a_prefix(alloc: Global) -> Result<bool, NoMemory> {
    let disk = played_disk(alloc)?;
    Ok(
        each_moment_leaves_a_prefix(alloc, &disk, Pick::Kept)
            & each_moment_leaves_a_prefix(alloc, &disk, Pick::Old)
            & each_moment_leaves_a_prefix(alloc, &disk, Pick::Fill(1))
            & each_moment_leaves_a_prefix(alloc, &disk, Pick::Fill(255)),
    )
}

#[test]
fn a_crash_at_any_moment_leaves_a_prefix(rt: HostRuntime) {
    assert!(rt; so(each_image_leaves_a_prefix(rt.alloc())));
}
