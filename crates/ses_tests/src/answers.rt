use aw_cell::{Cell, Number, Text};
use ses_report::{Detail, Refusal, append_output, error_line};
use ses_step::{Answer, append_line};
use std::alloc::Global;
use std::test::Fail;

fn text(bytes: &[u8]) -> Result<Text, Fail> {
    Ok(Text::of(bytes).ok_or("no text")?)
}

// Whether the line of a refusal is this.
fn is_line(alloc: Global, prefix: &[u8], refusal: Refusal, line: &[u8]) -> Result<bool, Fail> {
    let prefix = text(prefix)?;
    let printed = error_line(alloc, &prefix, &refusal)?;
    Ok(printed.as_slice() == line)
}

#[test]
fn prints_refusals(rt: HostRuntime) -> Result<(), Fail> {
    let (v, b) = (text(b"v")?, text(b"b")?);
    let in_block = Refusal {
        number: 24,
        line: 2,
        detail: Detail::Nothing,
    };
    let at_column = Refusal {
        number: 1,
        line: 3,
        detail: Detail::Column(12),
    };
    let cases: [(&[u8], Refusal, &[u8]); 8] = [
        (b"*", Refusal::no_form(), b"*: ERROR 1 1\n"),
        (b"*", Refusal::unknown(v), b"*: ERROR 2 v\n"),
        (b"", Refusal::not_attached(), b"ERROR 15\n"),
        (b"a", Refusal::owned_by(v, b), b"a: ERROR 17 v b\n"),
        (b"a", Refusal::newer(v, 2), b"a: ERROR 18 v 2\n"),
        (b"*", in_block, b"*: ERROR 24 2\n"),
        (b"*", at_column, b"*: ERROR 1 3 12\n"),
        (b"a", Refusal::owned_by(v, text(b"")?), b"a: ERROR 17 v \n"),
    ];
    let mut all = true;
    for (prefix, refusal, expected) in cases {
        all &= is_line(rt.alloc(), prefix, refusal, expected)?;
    }
    assert!(rt; all);
    Ok(())
}

// Appends a line of output and the line of an answer, under the same prefix.
fn appended(alloc: Global, answer: Answer) -> Result<Vec<u8>, Fail> {
    let prefix = text(b"a")?;
    let mut out = Vec::new(alloc);
    append_output(alloc, &mut out, &prefix, b"7")?;
    append_line(alloc, &mut out, &prefix, &answer)?;
    Ok(out)
}

fn shows(alloc: Global, cell: Cell, expected: &[u8]) -> Result<bool, Fail> {
    let out = appended(alloc, Answer::Shown(cell))?;
    Ok(out.as_slice() == expected)
}

#[test]
fn appends_answers(rt: HostRuntime) -> Result<(), Fail> {
    let alloc = rt.alloc();
    let number = Number::of_units(-15_000).ok_or("in range")?;
    let shown = shows(alloc, Cell::Num(number), b"a: 7\na: -1.5000\n")?
        & shows(alloc, Cell::Text(text(b"North 1")?), b"a: 7\na: North 1\n")?
        & shows(alloc, Cell::Bool(true), b"a: 7\na: YES\n")?;
    let refused = appended(alloc, Answer::Refused(Refusal::disk_fault()))?;
    assert!(rt; shown & (refused.as_slice() == b"a: 7\na: ERROR 30\n".as_slice()));
    Ok(())
}
