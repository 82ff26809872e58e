ghost use Rattle.std.specs.Prelude.{ℕ, ◌==◌, ◌-◌, ◌≡◌, ◌⊎◌, ◌≤◌, ◌<◌, ◌^◌, IfOk, IsTrue, Ok, Err, length, nat_lt, suc};
ghost use Rattle.std.specs.List.{list_all, list_any};
ghost use Rattle.dml_grammar.specs.PlacedTokens.{within};
ghost use Rattle.dml_lines.specs.Lines as spec;
ghost use Rattle.dml_lines.specs.inside.Telling.{Tells};

use aw_lists::List;
use dml_grammar::ParseFault;
use dml_parse::{definition, statement};
use dml_tree::{Definition, Lexeme, Statement, Token, TokenFault, Word, tokens};
use std::alloc::{AllocError, Global};

fn read_statement(alloc: Global, line: &[u8], from: u32) -> Result<Statement, ParseFault>
    requires short { length line.now < 2 ^ 32 - 1 }
    requires within { from ≤ length line.now }
    ensures { Tells (spec.statement_in line.now from) result }
{
    match tokens(alloc, line, from) {
        Ok(tokens) => match statement(alloc, &tokens) {
            Ok(statement) => Ok(statement),
            Err(fault) => Err(fault),
        },
        Err(TokenFault::Lexical { column }) => Err(ParseFault::Syntax { line: 0, column }),
        Err(TokenFault::NoMemory) => Err(ParseFault::NoMemory),
    }
}

/// The statement of a line from a place on, or the column at which it is none: that of its first
/// faulty token, or else of the first token with which its tokens begin no statement. The line of the
/// fault is 0, and it is never `NotHere`; `NoMemory` is for want of memory. See docs/LANGUAGE.md,
/// "How a line is read".
#[tactic(auto, using(crate::proofs::Told::value, crate::proofs::Told::fault))]
pub fn statement_in(alloc: Global, line: &[u8], from: u32) -> Result<Statement, ParseFault>
    requires short { length line.now < 2 ^ 32 - 1 }
    requires within { from ≤ length line.now }
    ensures value { IfOk result (λ statement. spec.statement_in line.now from ≡ Ok statement) }
    ensures fault { (f : ParseFault) → result ≡ Err f → (f ≡ ParseFault.NoMemory) ⊎ (spec.statement_in line.now from ≡ Err f) }
{
    read_statement(alloc, line, from)
}

fn is_end_word(what: &Lexeme) -> bool
    ensures { result ≡ spec.is_end_word what.now }
{
    matches!(what, Lexeme::Word(Word::End))
}

fn has_comment(line: &[u8]) -> bool
    ensures { result ≡ list_any (λ byte. byte == 34) line.now }
{
    line.iter().any(|byte| *byte == b'"')
}

/// Whether a line that begins with END closes a block.
fn closes(last: bool, line: &[u8], tokens: &[Token]) -> bool
    ensures { result ≡ spec.closes last line.now tokens.now }
{
    last && tokens.len() == 2 && !has_comment(line)
}

/// The column of END in a line that begins with it and doesn't close a block.
fn end_inside(last: bool, line: &[u8], tokens: &[Token]) -> Option<u32>
    ensures { result ≡ spec.end_inside last line.now tokens.now }
{
    let first = tokens.first()?;
    if is_end_word(&first.what) && !closes(last, line, tokens) {
        Some(first.from.saturating_add(1))
    } else {
        None
    }
}

/// The tokens of a line of a definition.
fn read_line(alloc: Global, last: bool, line: &[u8]) -> Result<List<Token>, TokenFault>
    requires { length line.now < 2 ^ 32 - 1 }
    ensures tokens { IfOk result (λ tokens. spec.line_read last line.now ≡ Ok tokens) }
    ensures fault { (column : ℕ) → result ≡ Err (TokenFault.Lexical column) → spec.line_read last line.now ≡ Err (TokenFault.Lexical column) }
{
    match tokens(alloc, line, 0) {
        Ok(tokens) => match end_inside(last, line, tokens.as_slice()) {
            Some(column) => Err(TokenFault::Lexical { column }),
            None => Ok(tokens),
        },
        Err(fault) => Err(fault),
    }
}

/// The tokens of lines up to the first one with a fault, and the column of that.
#[derive(Drop)]
struct Front {
    tokens: List<List<Token>>,
    fault: Option<u32>,
}

fn front_of(alloc: Global, lines: &[List<u8>]) -> Result<Front, AllocError>
    requires { IsTrue (list_all (λ line. nat_lt (length line) (2 ^ 32 - 1)) lines.now) }
    ensures { IfOk result (λ front. record { tokens = front.tokens; fault = front.fault } ≡ spec.front_of lines.now) }
{
    let mut front = List::new(alloc);
    for line in lines {
        let last = front.len() + 1 == lines.len();
        match read_line(alloc, last, line.as_slice()) {
            Ok(tokens) => front.push(tokens)?,
            Err(TokenFault::Lexical { column }) => {
                return Ok(Front {
                    tokens: front,
                    fault: Some(column),
                });
            }
            Err(TokenFault::NoMemory) => return Err(AllocError),
        }
    }
    Ok(Front {
        tokens: front,
        fault: None,
    })
}

/// What lines of tokens define.
fn defined_by(alloc: Global, lines: &List<List<Token>>) -> Result<Definition, ParseFault>
    ensures { Tells (spec.defined_by lines.now) result }
{
    match definition(alloc, lines) {
        Ok(definition) => Ok(definition),
        Err(fault) => Err(fault),
    }
}

/// The fault of lines behind so many that were read so: one in those comes first.
fn before(lines: usize, next: ParseFault, read: Result<Definition, ParseFault>) -> ParseFault
    ensures { spec.before lines next read ≡ Err result }
{
    match read {
        Ok(_) => next,
        Err(ParseFault::Syntax { line, column }) => {
            if line as usize <= lines {
                ParseFault::Syntax { line, column }
            } else {
                next
            }
        }
        Err(fault) => fault,
    }
}

/// The number of the line behind so many.
fn line_behind(lines: usize) -> u32
    ensures { result ≡ within (suc lines) }
{
    lines.saturating_add(1).min(4_294_967_295) as u32
}

#[tactic(auto, using(crate::proofs::LinesRead::decided_so))]
fn decided(alloc: Global, front: &Front) -> Result<Definition, ParseFault>
    ensures { Tells (spec.decided front.now.tokens front.now.fault) result }
{
    let read = defined_by(alloc, &front.tokens);
    match front.fault {
        None => read,
        Some(column) => {
            let lines = front.tokens.len();
            let line = line_behind(lines);
            Err(before(lines, ParseFault::Syntax { line, column }, read))
        }
    }
}

/// A fault whose line counts from 1.
fn counted(fault: ParseFault) -> ParseFault
    ensures { spec.counted (Err fault) ≡ Err result }
{
    match fault {
        ParseFault::Syntax { line, column } => ParseFault::Syntax {
            line: line.max(1),
            column,
        },
        other => other,
    }
}

fn read_definition(alloc: Global, lines: &List<List<u8>>) -> Result<Definition, ParseFault>
    requires { IsTrue (list_all (λ line. nat_lt (length line) (2 ^ 32 - 1)) lines.now) }
    ensures { Tells (spec.definition_in lines.now) result }
{
    let front = match front_of(alloc, lines.as_slice()) {
        Ok(front) => front,
        Err(_) => return Err(ParseFault::NoMemory),
    };
    match decided(alloc, &front) {
        Ok(definition) => Ok(definition),
        Err(fault) => Err(counted(fault)),
    }
}

/// The definition that lines are, or why they are none: the first line with a refusal decides, and in
/// one line a faulty token comes before any other. Lines count from 1 at the DEFINE line. `NotHere`
/// is a line of a program that begins with a word of lines of a session alone, `NoMemory` is for want
/// of memory. See docs/LANGUAGE.md, "How a line is read".
#[tactic(auto, using(crate::proofs::Told::value, crate::proofs::Told::fault))]
pub fn definition_in(alloc: Global, lines: &List<List<u8>>) -> Result<Definition, ParseFault>
    requires short { IsTrue (list_all (λ line. nat_lt (length line) (2 ^ 32 - 1)) lines.now) }
    ensures value { IfOk result (λ definition. spec.definition_in lines.now ≡ Ok definition) }
    ensures fault { (f : ParseFault) → result ≡ Err f → (f ≡ ParseFault.NoMemory) ⊎ (spec.definition_in lines.now ≡ Err f) }
{
    read_definition(alloc, lines)
}
