use dml_parse::{ParseFault, statement};
use dml_tree::tokens;
use std::alloc::Global;
use std::test::Fail;

/// Whether this is a statement, or a refusal in the column behind the line.
fn is_read_to<T: Drop>(read: Result<T, ParseFault>, behind: usize) -> bool {
    match read {
        Ok(_) => true,
        Err(ParseFault::Syntax { line: 0, column }) => column as usize == behind,
        Err(_) => false,
    }
}

/// Whether a line is a statement, or ends too early.
fn is_front(alloc: Global, line: &[u8]) -> Result<bool, Fail> {
    if line.len() > 4_096 {
        return Ok(false);
    }
    let tokens = tokens(alloc, line, 0).ok().ok_or("tokens")?;
    Ok(is_read_to(statement(alloc, &tokens), line.len() + 1))
}

/// Whether each of a line's tokens is the last one of such a line.
fn has_fronts(alloc: Global, line: &[u8]) -> Result<bool, Fail> {
    if line.len() > 4_096 {
        return Ok(false);
    }
    let tokens = tokens(alloc, line, 0).ok().ok_or("tokens")?;
    let mut all = true;
    for token in tokens.as_slice() {
        all &= match line.get(..token.to as usize) {
            Some(front) => is_front(alloc, front)?,
            None => false,
        };
    }
    Ok(all)
}

#[test]
fn fronts_end_too_early(rt: HostRuntime) -> Result<(), Fail> {
    let lines: [&[u8]; 12] = [
        b"AW ATTACH RO",
        b"ACQUIRE i, v RESYNC n CONSISTENT WITH x b",
        b"MAINTAIN d ADD 'A' 'B', 'C' BEFORE 'D'",
        b"MAINTAIN d RENAME 'A' 'B'",
        b"n(d 'A', e 'B') = IF b(d 'A') AND NOT v(d 'B') GT 3 THEN - 2.5 * (i + 1) ELSE NAFILL(i, ABS(MIN(1, 2)))",
        b"LIMIT d TO 'A' TO 'B', 'C' 'D'",
        b"LIMIT d KEEP BOTTOM 3 BASEDON v / 2",
        b"LIMIT d REMOVE DESCENDANTS USING r",
        b"ALLOCATE n BASIS n TARGET n USING m",
        b"AGGREGATE n USING m",
        b"CALL p(1, 'a' EQ 'b', NA)",
        b"REPORT d EQ 'A' OR YES",
    ];
    let mut all = true;
    for line in lines {
        all &= has_fronts(rt.alloc(), line)?;
    }
    assert!(rt; all);
    Ok(())
}
