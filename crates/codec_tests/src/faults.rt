use aw_codec::{BadRecord, decode, spelling_or_fault};
use std::alloc::Global;

// Whether these bytes have their first fault at this offset.
fn has_fault(alloc: Global, bytes: &[u8], at: u64) -> bool {
    match decode(alloc, bytes) {
        Err(fault) => fault == BadRecord::At(at),
        Ok(_) => false,
    }
}

#[test]
fn a_fault_of_definitions_has_its_offset(rt: HostRuntime) {
    let cases: [(&[u8], u64); 8] = [
        (b"", 0),
        (b"D\x01\0", 2),
        // A reserved word, no kind, no type, seven dimensions.
        (b"D\x01\0\x01\x02na\x03\x02\0", 5),
        (b"D\x01\0\x01\x01v\x07", 6),
        (b"D\x01\0\x01\x01v\x03\x05\0", 7),
        (b"D\x01\0\x01\x01v\x03\x01\x07", 8),
        // The end in a text, and a byte behind the record.
        (b"D\x01\0\x01\x01f\x04\0\0\0\x02v", 11),
        (b"D\x01\0\x01\x01v\x03\x02\0\0", 9),
    ];
    let mut all = true;
    for (bytes, at) in cases {
        all &= has_fault(rt.alloc(), bytes, at);
    }
    spelling_or_fault();
    assert!(rt; all);
}

#[test]
fn a_fault_of_a_commit_has_its_offset(rt: HostRuntime) {
    let cases: [(&[u8], u64); 14] = [
        // No change, an object again, no cell.
        (b"C\x01\0\0", 2),
        (b"C\x01\0\x02\0\0M\0\0\0\0\x01\0\0\0M\0\0\0\0\x01\0", 13),
        (b"C\x01\0\x01\0\0M\0\0\0\0\0", 8),
        // A second key of no slots, a key that falls, a key again.
        (b"C\x01\0\x01\0\0M\0\0\0\0\x02\0\0", 13),
        (b"C\x01\0\x01\0\0M\x01\0\0\0\x02\0\x03\0\0\x02\0", 15),
        (
            b"C\x01\0\x01\0\0M\x02\0\0\0\x02\0\x03\0\x01\0\0\x03\0\x01\0",
            19,
        ),
        // 10^18 ten-thousandths, no INTEGER, no BOOLEAN.
        (
            b"C\x01\0\x01\0\0M\0\0\0\0\x01\x01\x0d\xe0\xb6\xb3\xa7\x64\0\0",
            13,
        ),
        (b"C\x01\0\x01\0\0M\0\0\0\0\x01\x02\x80\0\0\0", 13),
        (b"C\x01\0\x01\0\0M\0\0\0\0\x01\x04\x02", 13),
        // A slot again, a next slot of 65,537, a slot that isn't below the next one, a name again.
        (b"C\x01\0\x01\0\0S\0\0\0\x02\0\x05\0\x05", 13),
        (b"C\x01\0\x01\0\0L\0\x01\0\x01\0\0\0\0", 7),
        (b"C\x01\0\x01\0\0L\0\0\0\x01\0\0\0\x01\0\x01\x01A", 15),
        (
            b"C\x01\0\x01\0\0L\0\0\0\x02\0\0\0\x02\0\0\x01A\0\x01\x01A",
            22,
        ),
        // The end in a cell.
        (b"C\x01\0\x01\0\0M\0\0\0\0\x01\x02\0\0\0", 13),
    ];
    let mut all = true;
    for (bytes, at) in cases {
        all &= has_fault(rt.alloc(), bytes, at);
    }
    assert!(rt; all);
}
