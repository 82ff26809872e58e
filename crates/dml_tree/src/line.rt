ghost use Rattle.std.specs.Prelude.{◌≡◌, ◌≤◌, ◌<◌, ◌-◌, ◌^◌, ◌⊎◌, ℕ, length, MatchOption, IfOk, Ok, Err, List as Items};
ghost use Rattle.std.specs.List.{prefix_len};
ghost use Rattle.dml_tree.specs.LineTokens.{is_blank, AreTokens, HasFault};
ghost use Rattle.dml_tree.specs.inside.Scanning.{EndsFrom, StandsAt, Answers};

use crate::next::next;
use crate::token::{Lexeme, Token, TokenFault};
use aw_lists::List;
use std::alloc::Global;

fn blanks(bytes: &[u8]) -> usize
    ensures front { result ≡ prefix_len is_blank bytes.now }
    ensures within { result ≤ length bytes.now }
{
    bytes
        .iter()
        .take_while(|byte| **byte == b' ' || **byte == b'\t')
        .count()
}

/// Where the first token behind a place begins, or `None` where only blanks and a comment are left.
fn start_behind(line: &[u8], at: usize) -> Option<usize>
    requires { at ≤ length line.now }
    ensures { MatchOption result (EndsFrom line.now at) (λ start. StandsAt line.now at start) }
{
    let start = at + blanks(&line[at..]);
    if start == line.len() || line[start] == b'"' {
        return None;
    }
    Some(start)
}

fn scanned(alloc: Global, line: &[u8], from: u32) -> Result<List<Token>, TokenFault>
    requires short { length line.now < 2 ^ 32 - 1 }
    requires within { from ≤ length line.now }
    ensures { Answers line.now from result }
{
    let mut tokens = List::new(alloc);
    let mut at = from as usize;
    while let Some(start) = start_behind(line, at) {
        let from = start as u32;
        match next(&line[start..]) {
            Some(found) => {
                at = start + found.len;
                tokens.push(Token {
                    what: found.what,
                    from,
                    to: at as u32,
                })?;
            }
            None => return Err(TokenFault::Lexical { column: from + 1 }),
        }
    }
    let end = line.len() as u32;
    tokens.push(Token {
        what: Lexeme::End,
        from: end,
        to: end,
    })?;
    Ok(tokens)
}

/// The tokens of a line from a place on, counted from 0, and behind them the one of its end. The fault
/// is the first place at which no token begins, or a text is faulty or a numeral out of range
/// (docs/LANGUAGE.md, "Tokens").
pub fn tokens(alloc: Global, line: &[u8], from: u32) -> Result<List<Token>, TokenFault>
    requires short { length line.now < 2 ^ 32 - 1 }
    requires within { from ≤ length line.now }
    ensures tokens { IfOk result (λ tokens. AreTokens line.now from tokens) }
    ensures all { (tokens : Items Token) → AreTokens line.now from tokens → (result ≡ Ok tokens) ⊎ (result ≡ Err TokenFault.NoMemory) }
    ensures fault { (column : ℕ) → result ≡ Err (TokenFault.Lexical column) → HasFault line.now from column }
    ensures each_fault { (column : ℕ) → HasFault line.now from column → (result ≡ Err (TokenFault.Lexical column)) ⊎ (result ≡ Err TokenFault.NoMemory) }
{
    scanned(alloc, line, from)
}
