ghost use Rattle.std.specs.Prelude.{◌≡◌, ◌+◌, slice_get};
ghost use Rattle.dml_forms.specs.Forms.{among};
ghost use Rattle.dml_grammar.specs.Sorts.{sort};
ghost use Rattle.dml_grammar.specs.PlacedTokens.{within};
ghost use Rattle.dml_grammar.specs.Sentences as sentence;

use crate::fault::ParseFault;
use crate::placed::Placed;
use crate::sorts::{is_of, is_word_among};
use dml_tree::{Sort, Word};

fn last_to(tokens: &[Placed]) -> u32
    ensures { result ≡ sentence.last_to tokens.now }
{
    match tokens.get(tokens.len().saturating_sub(1)) {
        Some(token) => token.token.to,
        None => 0,
    }
}

fn column(from: u32) -> u32
    ensures { result ≡ sentence.column from }
{
    from.saturating_add(1)
}

/// How a statement of these tokens is refused that is refused at this place.
pub fn statement_fault(tokens: &[Placed], at: usize) -> ParseFault
    ensures { result ≡ sentence.statement_refusal tokens.now at }
{
    let column = match tokens.get(at) {
        Some(token) => column(token.token.from),
        None => column(last_to(tokens)),
    };
    ParseFault::Syntax { line: 0, column }
}

fn is_program(tokens: &[Placed]) -> bool
    ensures { result ≡ sentence.is_program (slice_get tokens.now 2) }
{
    match tokens.get(2) {
        Some(token) => is_of(token, Sort::Word(Word::Program)),
        None => false,
    }
}

/// Whether a token begins no line of a program.
fn is_barred(token: &Placed) -> bool
    ensures { result ≡ among (sort token.now) sentence.barred }
{
    is_word_among(
        token.token.what.sort(),
        &[
            Word::Aw,
            Word::Acquire,
            Word::Resync,
            Word::Release,
            Word::Revert,
            Word::Update,
            Word::Commit,
            Word::Maintain,
        ],
    )
}

/// The line behind the last one of so many.
fn line_behind(lines: usize) -> u32
    ensures { result ≡ within (lines + 1) }
{
    lines.saturating_add(1).min(4_294_967_295) as u32
}

/// How a definition of so many lines with these tokens is refused that is refused at this place.
pub fn definition_fault(lines: usize, tokens: &[Placed], at: usize) -> ParseFault
    ensures { result ≡ sentence.definition_refusal lines tokens.now at }
{
    let program = is_program(tokens);
    match tokens.get(at) {
        Some(token) => {
            if program && token.first && is_barred(token) {
                ParseFault::NotHere { line: token.line }
            } else {
                ParseFault::Syntax {
                    line: token.line,
                    column: column(token.token.from),
                }
            }
        }
        None => ParseFault::Syntax {
            line: line_behind(lines),
            column: 1,
        },
    }
}
