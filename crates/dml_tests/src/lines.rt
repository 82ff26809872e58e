use dml_tree::{Lexeme, Sort, TokenFault, Word, tokens};
use std::alloc::Global;
use std::fmt::Write;
use std::test::Fail;

// The tokens as printed, each behind its two places, or the column of the fault.
fn printed(alloc: Global, line: &[u8], from: u32) -> Result<String, Fail> {
    let mut text = String::new(alloc);
    if line.len() > 4_096 || from as usize > line.len() {
        return Ok(text);
    }
    match tokens(alloc, line, from) {
        Ok(tokens) => {
            for token in tokens.as_slice() {
                write!(text, "{}-{} {:?}; ", token.from, token.to, token.what)?;
            }
        }
        Err(TokenFault::Lexical { column }) => write!(text, "fault at {column}")?,
        Err(TokenFault::NoMemory) => write!(text, "no memory")?,
    }
    Ok(text)
}

fn reads(alloc: Global, line: &[u8], expected: &str) -> Result<bool, Fail> {
    Ok(printed(alloc, line, 0)?.as_str() == expected)
}

#[test]
fn reads_each_kind_of_token(rt: HostRuntime) -> Result<(), Fail> {
    let cases: [(&[u8], &str); 12] = [
        (b"", "0-0 End; "),
        (b" \t", "2-2 End; "),
        (b"x.Y_1", "0-5 Name(\"x.Y_1\"); 5-5 End; "),
        (b"iF ifx", "0-2 Word(If); 3-6 Name(\"ifx\"); 6-6 End; "),
        (
            b"007\t2147483647",
            "0-3 Integer(7); 4-14 Integer(2147483647); 14-14 End; ",
        ),
        (
            b"2147483648",
            "0-10 Whole(Number { units: 21474836480000 }); 10-10 End; ",
        ),
        (
            b"7.0 99999999999999.9999",
            "0-3 Decimal(Number { units: 70000 }); 4-23 Decimal(Number { units: 999999999999999999 }); 23-23 End; ",
        ),
        (
            b"1.23456",
            "0-6 Decimal(Number { units: 12345 }); 6-7 Integer(6); 7-7 End; ",
        ),
        (b"''", "0-2 Text(\"\"); 2-2 End; "),
        (
            b"'a\tb''c'",
            "0-5 Text(\"a b\"); 5-8 Text(\"c\"); 8-8 End; ",
        ),
        (b"'\"\\'\\\\'", "0-7 Text(\"\\\"'\\\\\"); 7-7 End; "),
        (b"v \"'x", "0-1 Name(\"v\"); 5-5 End; "),
    ];
    let mut all = true;
    for (line, expected) in cases {
        all &= reads(rt.alloc(), line, expected)?;
    }
    assert!(rt; all);
    Ok(())
}

#[test]
fn reads_each_symbol(rt: HostRuntime) -> Result<(), Fail> {
    let symbols = "0-1 Symbol(Equals); 1-2 Symbol(Open); 2-3 Symbol(Close); 3-4 Symbol(Comma); \
4-5 Symbol(Less); 5-6 Symbol(Greater); 6-7 Symbol(Plus); 7-8 Symbol(Minus); 8-9 Symbol(Star); \
9-10 Symbol(Slash); 10-10 End; ";
    let session = "5-9 Word(Show); 10-11 Name(\"v\"); 11-11 End; ";
    let behind_a_colon = printed(rt.alloc(), b"ada: SHOW v", 4)?.as_str() == session;
    assert!(rt; reads(rt.alloc(), b"=(),<>+-*/", symbols)? & behind_a_colon);
    Ok(())
}

#[test]
fn tells_the_column_of_the_first_fault(rt: HostRuntime) -> Result<(), Fail> {
    let cases: [(&[u8], &str); 13] = [
        (b"x $", "fault at 3"),
        (b" _x", "fault at 2"),
        (b".5", "fault at 1"),
        (b"1.", "fault at 2"),
        (b"x:y", "fault at 2"),
        (b"x \\", "fault at 3"),
        (b"x 'ab", "fault at 3"),
        (b"'a\\n'", "fault at 1"),
        (b"'a\\", "fault at 1"),
        (b"x = 'a\x7f'", "fault at 5"),
        (b"x\x80", "fault at 2"),
        (b"v = 100000000000000", "fault at 5"),
        (b"1 100000000000000.0 $", "fault at 3"),
    ];
    let mut all = true;
    for (line, expected) in cases {
        all &= reads(rt.alloc(), line, expected)?;
    }
    assert!(rt; all);
    Ok(())
}

// A quote, so many letters, and a quote.
fn text_of(alloc: Global, letters: usize) -> Result<Vec<u8>, Fail> {
    let mut line = Vec::new(alloc);
    line.push(b'\'')?;
    for _ in 0..letters {
        line.push(b'a')?;
    }
    line.push(b'\'')?;
    Ok(line)
}

fn ends_with(alloc: Global, line: &[u8], from: u32, last: &str) -> Result<bool, Fail> {
    Ok(printed(alloc, line, from)?.as_str().ends_with(last))
}

#[test]
fn keeps_to_64_bytes(rt: HostRuntime) -> Result<(), Fail> {
    let alloc = rt.alloc();
    let (longest, longer) = (text_of(alloc, 64)?, text_of(alloc, 65)?);
    let texts = ends_with(alloc, longest.as_slice(), 0, "\"); 66-66 End; ")?
        & reads(alloc, longer.as_slice(), "fault at 1")?
        & ends_with(alloc, longer.as_slice(), 66, "fault at 67")?;
    let name = "\"); 64-65 Name(\"n\"); 65-65 End; ";
    assert!(rt; texts & ends_with(alloc, &[b'n'; 65], 0, name)?);
    Ok(())
}

fn counts(alloc: Global) -> Option<bool> {
    let found = tokens(alloc, b"3000000000", 0).ok()?;
    let what = found.get(0)?.what;
    let sorted = what.sort().is(Sort::Whole) & !what.sort().is(Sort::Integer);
    Some(sorted & (what.count() == Some(3_000_000_000)))
}

#[test]
fn tells_sorts_and_counts(rt: HostRuntime) {
    let words = Sort::Word(Word::If).is(Lexeme::Word(Word::If).sort())
        & !Sort::Word(Word::If).is(Sort::Word(Word::Integer));
    let others = (Lexeme::Integer(7).count() == Some(7)) & (Lexeme::End.count() == None);
    assert!(rt; words & others & (counts(rt.alloc()) == Some(true)));
}
