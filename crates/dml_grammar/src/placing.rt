ghost use Rattle.std.specs.Prelude.{◌≡◌, ◌++◌, [], cond, OnOk, drop};
ghost use Rattle.dml_grammar.specs.PlacedTokens as place;

use crate::placed::Placed;
use aw_lists::List;
use dml_tree::{Lexeme, Token};
use std::alloc::AllocError;

fn next_from(tokens: &[Token], at: usize) -> u32
    ensures { result ≡ place.next_from (drop at tokens.now) }
{
    match tokens.get(at) {
        Some(token) => token.from,
        None => 0,
    }
}

fn placed_token(token: &Token, line: u32, first: bool, past: u32, next: u32) -> Placed
    ensures { result ≡ record { token = token.now; line = line; first = first; past = past; next = next } }
{
    Placed {
        token: *token,
        line,
        first,
        past,
        next,
    }
}

/// Adds the tokens of a line of this number.
pub fn place_line(line: u32, tokens: &[Token], into: &mut List<Placed>) -> Result<(), AllocError>
    ensures { OnOk result (into.new ≡ into.old ++ place.placed line tokens.now) }
{
    let mut first = true;
    let mut past = 0;
    let mut behind = 1;
    for token in tokens {
        into.push(placed_token(token, line, first, past, next_from(tokens, behind)))?;
        first = false;
        past = token.to;
        behind += 1;
    }
    Ok(())
}

/// Whether a line has no token but its end.
fn is_blank(tokens: &[Token]) -> bool
    ensures { result ≡ place.is_blank tokens.now }
{
    match tokens {
        [] => true,
        [token, ..] => is_end(token.what),
    }
}

fn is_end(what: Lexeme) -> bool
    ensures { result ≡ place.is_end what }
{
    match what {
        Lexeme::End => true,
        _ => false,
    }
}

/// Adds the tokens of a line of this number, unless it is blank.
fn place_written(line: u32, tokens: &[Token], into: &mut List<Placed>) -> Result<(), AllocError>
    ensures { OnOk result (into.new ≡ into.old ++ cond (place.is_blank tokens.now) [] (place.placed line tokens.now)) }
{
    if is_blank(tokens) {
        return Ok(());
    }
    place_line(line, tokens, into)
}

/// Adds the tokens of lines of which the first has this number.
fn place_lines(from: u32, lines: &[List<Token>], into: &mut List<Placed>) -> Result<(), AllocError>
    ensures { OnOk result (into.new ≡ into.old ++ place.placed_lines from lines.now) }
{
    let mut at = from;
    for line in lines {
        place_written(at, line.as_slice(), into)?;
        at = at.saturating_add(1);
    }
    Ok(())
}

/// Adds the tokens of a definition's lines: of several lines the first has the number 1, and of one
/// line it is 0.
pub fn place_block(lines: &[List<Token>], into: &mut List<Placed>) -> Result<(), AllocError>
    ensures { OnOk result (into.new ≡ into.old ++ place.block lines.now) }
{
    match lines {
        [_] => place_lines(0, lines, into),
        _ => place_lines(1, lines, into),
    }
}
