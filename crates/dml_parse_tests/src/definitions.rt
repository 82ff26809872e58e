use aw_lists::List;
use dml_parse::{ParseFault, definition};
use dml_tree::{Token, tokens};
use std::alloc::Global;
use std::fmt::{Debug, Write};
use std::test::Fail;

pub(crate) fn line_tokens(alloc: Global, line: &[u8]) -> Result<List<Token>, Fail> {
    if line.len() > 4_096 {
        return Ok(List::new(alloc));
    }
    Ok(tokens(alloc, line, 0).ok().ok_or("tokens")?)
}

/// The tokens of lines, each of which ends with a LF.
fn block(alloc: Global, text: &[u8]) -> Result<List<List<Token>>, Fail> {
    let mut lines = List::new(alloc);
    let mut line = Vec::new(alloc);
    for byte in text {
        if *byte == b'\n' {
            lines.push(line_tokens(alloc, line.as_slice())?)?;
            line.clear();
        } else {
            line.push(*byte)?;
        }
    }
    Ok(lines)
}

/// What was read as printed, or the line and column at which it is refused. It is generic, so that the
/// many forms of a statement aren't told apart where one is dropped.
pub(crate) fn told<T: Debug + Drop>(
    alloc: Global,
    read: Result<T, ParseFault>,
) -> Result<String, Fail> {
    let mut told = String::new(alloc);
    match read {
        Ok(tree) => write!(told, "{tree:?}")?,
        Err(ParseFault::Syntax { line, column }) => write!(told, "{line}:{column}")?,
        Err(ParseFault::NotHere { line }) => write!(told, "not here {line}")?,
        Err(ParseFault::NoMemory) => write!(told, "no answer")?,
    }
    Ok(told)
}

fn printed(alloc: Global, text: &[u8]) -> Result<String, Fail> {
    let lines = block(alloc, text)?;
    told(alloc, definition(alloc, &lines))
}

fn reads(alloc: Global, text: &[u8], expected: &str) -> Result<bool, Fail> {
    Ok(printed(alloc, text)?.as_str() == expected)
}

#[test]
fn reads_definitions_of_one_line(rt: HostRuntime) -> Result<(), Fail> {
    let cases: [(&[u8], &str); 12] = [
        (
            b"DEFINE d DIMENSION TEXT\n",
            "Definition { name: \"d\", what: Dimension }",
        ),
        (b"DEFINE d DIMENSION NUMBER\n", "0:20"),
        (
            b"DEFINE r RELATION d < e >\n",
            "Definition { name: \"r\", what: Relation(\"d\", \"e\") }",
        ),
        (b"DEFINE r RELATION d < e\n", "0:24"),
        (
            b"DEFINE s VALUESET d\n",
            "Definition { name: \"s\", what: ValueSet(\"d\") }",
        ),
        (
            b"DEFINE v VARIABLE NUMBER < d, e >\n",
            "Definition { name: \"v\", what: Variable(Num, [\"d\", \"e\"]) }",
        ),
        (
            b"DEFINE v VARIABLE TEXT\n",
            "Definition { name: \"v\", what: Variable(Text, []) }",
        ),
        (b"DEFINE v VARIABLE TEXT < >\n", "0:26"),
        (
            b"DEFINE f FORMULA 12 \"twelve\n",
            "Definition { name: \"f\", what: Formula(Integer(12), 17, 19) }",
        ),
        (b"DEFINE f FORMULA\n", "0:17"),
        (b"DEFINE m MODEL\n", "0:10"),
        (b"SHOW 1\n", "0:1"),
    ];
    let mut all = true;
    for (text, expected) in cases {
        all &= reads(rt.alloc(), text, expected)?;
    }
    assert!(rt; all);
    Ok(())
}

#[test]
fn reads_blocks(rt: HostRuntime) -> Result<(), Fail> {
    let cases: [(&[u8], &str); 11] = [
        (
            b"DEFINE m AGGMAP\nRELATION r OPERATOR SUM\nRELATION s OPERATOR EVEN REMOPERATOR LAST\nEND\n",
            "Definition { name: \"m\", what: AggMap([MapLine { line: 2, relation: \"r\", operator: Sum, rest: Unwritten }, MapLine { line: 3, relation: \"s\", operator: Spread(Even), rest: To(Last) }]) }",
        ),
        (
            b"DEFINE p PROGRAM\nARGUMENT x NUMBER\nVARIABLE y TEXT\nFOR d DO\nSHOW 1\nDOEND\nRETURN\nEND\n",
            "Definition { name: \"p\", what: Program(Program { arguments: [Local { line: 2, name: \"x\", kind: Num }], variables: [Local { line: 3, name: \"y\", kind: Text }], steps: Items { items: [For(4, \"d\", Items { items: [Plain(5, Show(Integer(1)))] }), Return(7)] } }) }",
        ),
        (b"DEFINE m AGGMAP\nEND\n", "2:1"),
        (
            b"DEFINE m AGGMAP\nRELATION r OPERATOR SUM REMOPERATOR LAST\nEND\n",
            "2:25",
        ),
        (b"DEFINE p PROGRAM\nSHOW 1\n", "3:1"),
        (b"DEFINE p PROGRAM\nSHOW 1\nCOMMIT x\nEND\n", "not here 3"),
        (
            b"DEFINE p PROGRAM\nVARIABLE x NUMBER\nARGUMENT y TEXT\nEND\n",
            "3:1",
        ),
        (b"DEFINE p PROGRAM\n\n\"c\nSHOW\nEND\n", "4:5"),
        (b"DEFINE p PROGRAM\nWHILE YES DO\nRETURN\nEND\n", "4:1"),
        (
            b"DEFINE p PROGRAM\nIF YES THEN DO\nDOEND\nELSE DO\nDOEND\nELSE DO\nEND\n",
            "6:1",
        ),
        (b"DEFINE m AGGMAP\nCOMMIT\nEND\n", "2:1"),
    ];
    let mut all = true;
    for (text, expected) in cases {
        all &= reads(rt.alloc(), text, expected)?;
    }
    assert!(rt; all);
    Ok(())
}

/// A program of so many blocks in one another.
fn nested(alloc: Global, count: u32) -> Result<Vec<u8>, Fail> {
    let mut text = Vec::new(alloc);
    text.extend_from_slice(b"DEFINE p PROGRAM\n")?;
    for _ in 0..count {
        text.extend_from_slice(b"FOR d DO\n")?;
    }
    for _ in 0..count {
        text.extend_from_slice(b"DOEND\n")?;
    }
    text.extend_from_slice(b"END\n")?;
    Ok(text)
}

#[test]
fn nests_blocks_thirty_two_deep(rt: HostRuntime) -> Result<(), Fail> {
    let alloc = rt.alloc();
    let most = printed(alloc, nested(alloc, 32)?.as_slice())?;
    let more = printed(alloc, nested(alloc, 33)?.as_slice())?;
    assert!(rt; most.as_bytes().starts_with(b"Definition") & (more.as_str() == "34:1"));
    Ok(())
}
