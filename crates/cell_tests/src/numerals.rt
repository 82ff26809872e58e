use aw_cell::{Cell, Number, NumberFault, Text};

fn is_read(text: &[u8], units: i64) -> bool {
    match Number::read(text) {
        Ok(number) => number.units() == units,
        Err(_) => false,
    }
}

#[test]
fn reads_numerals(rt: HostRuntime) {
    let cases: [(&[u8], i64); 8] = [
        (b"0", 0),
        (b"-0.0000", 0),
        (b"007.50", 75_000),
        (b"12.034", 120_340),
        (b"-0.0001", -1),
        (b"99999999999999.9999", 999_999_999_999_999_999),
        (b"-99999999999999.9999", -999_999_999_999_999_999),
        (b"000000000000000000000000000000000000000001.5", 15_000),
    ];
    let mut all = true;
    for (text, units) in cases {
        all &= is_read(text, units);
    }
    assert!(rt; all);
}

fn is_refused(text: &[u8], fault: NumberFault) -> bool {
    match Number::read(text) {
        Ok(_) => false,
        Err(found) => found == fault,
    }
}

#[test]
fn tells_what_is_no_numeral(rt: HostRuntime) {
    let texts: [&[u8]; 11] = [
        b"", b"-", b".", b".5", b"5.", b"-.5", b"1.23456", b"+1", b"--1", b"1 ", b"1.2.3",
    ];
    let mut all = is_refused(&[b'9'; 1000], NumberFault::Overflow);
    for text in texts {
        all &= is_refused(text, NumberFault::NotANumber);
    }
    let longest: [&[u8]; 3] = [
        b"100000000000000",
        b"-100000000000000.0000",
        b"340282366920938463463374607431768211456.0001",
    ];
    for text in longest {
        all &= is_refused(text, NumberFault::Overflow);
    }
    assert!(rt; all);
}

fn is_written(cell: Cell, expected: &[u8]) -> bool {
    let mut text = [b'#'; 64];
    let len = cell.write(&mut text);
    &text[..len] == expected
}

fn number_is_written(units: i64, expected: &[u8]) -> bool {
    match Number::of_units(units) {
        Some(number) => is_written(Cell::Num(number), expected),
        None => false,
    }
}

fn text_is_written(bytes: &[u8]) -> bool {
    match Text::of(bytes) {
        Some(text) => is_written(Cell::Text(text), bytes),
        None => false,
    }
}

#[test]
fn writes_cells(rt: HostRuntime) {
    let numbers = number_is_written(0, b"0.0000")
        & number_is_written(-1, b"-0.0001")
        & number_is_written(-15_000, b"-1.5000")
        & number_is_written(999_999_999_999_999_999, b"99999999999999.9999")
        & number_is_written(-999_999_999_999_999_999, b"-99999999999999.9999");
    let texts = text_is_written(b"")
        & text_is_written(b"0123456789012345678901234567890123456789012345678901234567890123");
    let others = is_written(Cell::Na, b"NA")
        & is_written(Cell::Int(-2_147_483_647), b"-2147483647")
        & is_written(Cell::Bool(true), b"YES")
        & is_written(Cell::Bool(false), b"NO")
        & is_written(Cell::Slot(65_535), b"65535");
    assert!(rt; numbers & texts & others);
}
