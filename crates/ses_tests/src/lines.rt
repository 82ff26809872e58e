use ses_report::Refusal;
use ses_step::{LineForm, is_end, opens_block, sort_line};
use std::test::Fail;

fn is_of(line: &[u8], name: &[u8], from: u32) -> bool {
    match sort_line(line) {
        LineForm::Session {
            name: found,
            from: at,
        } => (found.bytes() == name) & (at == from),
        _ => false,
    }
}

// Whether a line is refused with 1 at this column.
fn is_at(line: &[u8], column: u32) -> bool {
    sort_line(line) == LineForm::Bad(Refusal::syntax(column))
}

fn is_bad(line: &[u8]) -> bool {
    sort_line(line) == LineForm::Bad(Refusal::bad_line())
}

fn is_blank(line: &[u8]) -> bool {
    sort_line(line) == LineForm::Blank
}

fn is_definition(line: &[u8]) -> bool {
    sort_line(line) == LineForm::Definition
}

#[test]
fn sorts_lines_without_a_session(rt: HostRuntime) -> Result<(), Fail> {
    let blanks = [b' '; 4097];
    let mut all = is_blank(&blanks[..4096]) & is_bad(&blanks);
    all &= is_blank(b"") & is_blank(b"\t\" a: SHOW v");
    all &= is_at(b"v=7", 1) & is_at(b"  \tabcdefghijklmnopq: COMMIT", 4);
    all &= is_at(b"a.b: COMMIT", 1) & is_at(b"a : COMMIT", 1);
    all &= is_bad(b"a: COMMIT\r");
    assert!(rt; all);
    Ok(())
}

#[test]
fn sorts_lines_of_definitions(rt: HostRuntime) -> Result<(), Fail> {
    let mut all = is_definition(b"DEFINE") & is_definition(b" define : v");
    all &= is_definition(b"DEFINE=v") & is_definition(b"DEFINE v\x01");
    all &= !is_definition(b"DEFINE: v") & !is_definition(b"DEFINE.v x");
    all &= opens_block(b"DEFINE 9p\tPROGRAM") & opens_block(b" define p aggmap\"x");
    all &= !opens_block(b"DEFINE p PROGRAMS") & !opens_block(b"DEFINE \"p PROGRAM");
    all &= !opens_block(b"DEFINE PROGRAM") & is_end(b"\tend ") & !is_end(b"END \"x");
    assert!(rt; all);
    Ok(())
}

#[test]
fn sorts_lines_of_sessions(rt: HostRuntime) -> Result<(), Fail> {
    let mut all = is_of(b"a:", b"a", 2) & is_of(b"\tA: acquire v", b"A", 3);
    all &= is_of(b"DEFINE: UPDATE", b"DEFINE", 7);
    all &= is_of(b"abcdefghijklmnop: COMMIT", b"abcdefghijklmnop", 17);
    assert!(rt; all);
    Ok(())
}
