use crate::definitions::{line_tokens, told};
use dml_parse::statement;
use std::alloc::Global;
use std::test::Fail;

fn printed(alloc: Global, line: &[u8]) -> Result<String, Fail> {
    let tokens = line_tokens(alloc, line)?;
    told(alloc, statement(alloc, &tokens))
}

fn reads(alloc: Global, line: &[u8], expected: &str) -> Result<bool, Fail> {
    Ok(printed(alloc, line)?.as_str() == expected)
}

#[test]
fn reads_what_sessions_share(rt: HostRuntime) -> Result<(), Fail> {
    let cases: [(&[u8], &str); 10] = [
        (b"aw attach multi", "Attach(Multi)"),
        (b"AW ATTACH", "0:10"),
        (b"COMMIT v", "0:8"),
        (
            b"ACQUIRE a, b RESYNC c CONSISTENT WITH d",
            "Acquire([\"a\", \"b\"], [\"c\"], [\"d\"])",
        ),
        (b"ACQUIRE", "0:8"),
        (b"ACQUIRE a CONSISTENT d", "0:22"),
        (b"RELEASE , a", "0:9"),
        (b"REVERT", "Revert([])"),
        (b"REVERT a,", "0:10"),
        (b"UPDATE 'a'", "0:8"),
    ];
    let mut all = true;
    for (line, expected) in cases {
        all &= reads(rt.alloc(), line, expected)?;
    }
    assert!(rt; all);
    Ok(())
}

#[test]
fn reads_maintaining(rt: HostRuntime) -> Result<(), Fail> {
    let cases: [(&[u8], &str); 10] = [
        (
            b"MAINTAIN d ADD 'x', 'y' BEFORE 'z'",
            "Add(\"d\", [\"x\", \"y\"], Before(\"z\"))",
        ),
        (b"MAINTAIN d ADD 'x'", "Add(\"d\", [\"x\"], Last)"),
        (b"MAINTAIN d ADD x", "0:16"),
        (b"MAINTAIN d DELETE 'x'", "Delete(\"d\", [\"x\"])"),
        (b"MAINTAIN d MOVE 'x' FIRST", "Move(\"d\", [\"x\"], First)"),
        (b"MAINTAIN d MOVE 'x'", "0:20"),
        (b"MAINTAIN d RENAME 'x' 'y'", "Rename(\"d\", \"x\", \"y\")"),
        (b"MAINTAIN d RENAME 'x', 'y'", "0:22"),
        (b"  ", "0:3"),
        (b"DEFINE d DIMENSION TEXT", "0:1"),
    ];
    let mut all = true;
    for (line, expected) in cases {
        all &= reads(rt.alloc(), line, expected)?;
    }
    assert!(rt; all);
    Ok(())
}

#[test]
fn reads_assignments_and_calls(rt: HostRuntime) -> Result<(), Fail> {
    let cases: [(&[u8], &str); 10] = [
        (
            b"v(d 'x', e 'y') = NA",
            "Assign(Target { name: \"v\", fixes: [Fix { dimension: \"d\", value: \"x\" }, Fix { dimension: \"e\", value: \"y\" }] }, Na)",
        ),
        (b"v", "0:2"),
        (b"v(d) = 1", "0:4"),
        (b"REPORT", "0:7"),
        (b"AGGREGATE v m", "0:13"),
        (
            b"ALLOCATE v BASIS b TARGET t USING m",
            "Allocate(\"v\", \"b\", \"t\", \"m\")",
        ),
        (b"ALLOCATE v TARGET t", "0:12"),
        (b"CALL p()", "Call(\"p\", [])"),
        (b"CALL p(1, NA)", "Call(\"p\", [Integer(1), Na])"),
        (b"CALL p(1 2)", "0:10"),
    ];
    let mut all = true;
    for (line, expected) in cases {
        all &= reads(rt.alloc(), line, expected)?;
    }
    assert!(rt; all);
    Ok(())
}

#[test]
fn reads_selections(rt: HostRuntime) -> Result<(), Fail> {
    let cases: [(&[u8], &str); 10] = [
        (b"LIMIT d TO ALL", "Limit(\"d\", To, All)"),
        (b"LIMIT d ALL", "0:9"),
        (
            b"LIMIT d ADD 'a' TO 'b' 'c'",
            "Limit(\"d\", Add, Ranges([Through(\"a\", \"b\"), Value(\"c\")]))",
        ),
        (b"LIMIT d TO 'a' EQ v", "0:16"),
        (b"LIMIT d KEEP FIRST 2", "Limit(\"d\", Keep, First(2))"),
        (b"LIMIT d TO LAST 1.5", "0:17"),
        (
            b"LIMIT d TO TOP 2 BASEDON 1",
            "Limit(\"d\", To, Top(2, Integer(1)))",
        ),
        (b"LIMIT d TO BOTTOM 2 1", "0:21"),
        (b"LIMIT d TO PARENTS r", "0:20"),
        (
            b"LIMIT d REMOVE YES",
            "Limit(\"d\", Remove, Where(Truth(true)))",
        ),
    ];
    let mut all = true;
    for (line, expected) in cases {
        all &= reads(rt.alloc(), line, expected)?;
    }
    assert!(rt; all);
    Ok(())
}

#[test]
fn binds_operators(rt: HostRuntime) -> Result<(), Fail> {
    let cases: [(&[u8], &str); 9] = [
        (
            b"SHOW NOT YES AND NO",
            "Show(Joined(And, Boxed { inner: Not(Boxed { inner: Truth(true) }) }, Boxed { inner: Truth(false) }))",
        ),
        (
            b"SHOW YES OR NO AND NA",
            "Show(Joined(Or, Boxed { inner: Truth(true) }, Boxed { inner: Joined(And, Boxed { inner: Truth(false) }, Boxed { inner: Na }) }))",
        ),
        (
            b"SHOW 1 - 2 - 3",
            "Show(Joined(Sub, Boxed { inner: Joined(Sub, Boxed { inner: Integer(1) }, Boxed { inner: Integer(2) }) }, Boxed { inner: Integer(3) }))",
        ),
        (
            b"SHOW 1 + -2 * 3",
            "Show(Joined(Add, Boxed { inner: Integer(1) }, Boxed { inner: Joined(Mul, Boxed { inner: Negative(Boxed { inner: Integer(2) }) }, Boxed { inner: Integer(3) }) }))",
        ),
        (
            b"SHOW IF YES THEN 1 ELSE NA",
            "Show(If(Boxed { inner: Truth(true) }, Boxed { inner: Integer(1) }, Boxed { inner: Na }))",
        ),
        (b"SHOW 1 +", "0:9"),
        (b"SHOW 1 EQ 2 EQ 3", "0:13"),
        (b"SHOW MIN(1)", "0:11"),
        (b"SHOW IF YES THEN 1", "0:19"),
    ];
    let mut all = true;
    for (line, expected) in cases {
        all &= reads(rt.alloc(), line, expected)?;
    }
    assert!(rt; all);
    Ok(())
}

/// SHOW with so many signs before a numeral.
fn signs(alloc: Global, count: u32) -> Result<Vec<u8>, Fail> {
    let mut line = Vec::new(alloc);
    line.extend_from_slice(b"SHOW ")?;
    for _ in 0..count {
        line.push(b'-')?;
    }
    line.push(b'1')?;
    Ok(line)
}

#[test]
fn takes_two_hundred_marks(rt: HostRuntime) -> Result<(), Fail> {
    let alloc = rt.alloc();
    let most = printed(alloc, signs(alloc, 200)?.as_slice())?;
    let more = printed(alloc, signs(alloc, 201)?.as_slice())?;
    assert!(rt; most.as_bytes().starts_with(b"Show(") & (more.as_str() == "0:206"));
    Ok(())
}
