ghost use Rattle.std.specs.Prelude.{◌≡◌, ◌≢◌, ◌==◌, ◌<◌, ◌≤◌, IsTrue, false, length, take, MatchOption};
ghost use Rattle.std.specs.Char.{is_ascii_digit};
ghost use Rattle.std.specs.List.{prefix_len};
ghost use Rattle.aw_cell.specs.Names.{is_letter, is_name_byte, has_name_form, begins_with};
ghost use Rattle.dml_tree.specs.Spelling.{symbol_byte, Spells};
ghost use Rattle.dml_tree.specs.LineTokens.{IsNext};
ghost use Rattle.dml_tree.specs.inside.Scanning.{NoneIsNext};

use crate::numeral::numeral;
use crate::quoted::quoted;
use crate::token::{Lexeme, Symbol};
use crate::word::Word;
use aw_cell::{Text, begins_with_letter, is_word_byte};

/// A token, and how many bytes it takes.
#[derive(Clone, Copy)]
pub(crate) struct Found {
    pub what: Lexeme,
    pub len: usize,
}

fn is_name_byte(byte: u8) -> bool
    ensures { result ≡ is_name_byte byte }
{
    is_word_byte(byte) || byte == b'.'
}

/// How many bytes a name or word takes that begins here.
fn name_len(bytes: &[u8]) -> usize
    ensures { result ≡ prefix_len is_name_byte (take 64 bytes.now) }
{
    bytes
        .iter()
        .take(64)
        .take_while(|byte| is_name_byte(**byte))
        .count()
}

/// The token of a name or word.
fn name(word: &[u8]) -> Lexeme
    requires { IsTrue (has_name_form word.now) }
    ensures { Spells result word.now }
{
    if let Some(word) = Word::of(word) {
        return Lexeme::Word(word);
    }
    match Text::of(word) {
        Some(name) => Lexeme::Name(name),
        None => unreachable!(),
    }
}

fn named(bytes: &[u8]) -> Found
    requires { IsTrue (begins_with is_letter bytes.now) }
    ensures { IsNext bytes.now result.what result.len }
{
    let len = name_len(bytes);
    Found {
        what: name(&bytes[..len]),
        len,
    }
}

/// The symbol of a byte.
fn symbol_of(byte: u8) -> Option<Symbol>
    ensures { MatchOption result ((symbol : Symbol) → symbol_byte symbol ≢ byte) (λ symbol. symbol_byte symbol ≡ byte) }
{
    match byte {
        b'=' => Some(Symbol::Equals),
        b'(' => Some(Symbol::Open),
        b')' => Some(Symbol::Close),
        b',' => Some(Symbol::Comma),
        b'<' => Some(Symbol::Less),
        b'>' => Some(Symbol::Greater),
        b'+' => Some(Symbol::Plus),
        b'-' => Some(Symbol::Minus),
        b'*' => Some(Symbol::Star),
        b'/' => Some(Symbol::Slash),
        _ => None,
    }
}

fn symbol(bytes: &[u8]) -> Option<Found>
    requires no_letter { begins_with is_letter bytes.now ≡ false }
    requires no_digit { begins_with is_ascii_digit bytes.now ≡ false }
    requires no_quote { begins_with (λ b. b == 39) bytes.now ≡ false }
    ensures { MatchOption result (NoneIsNext bytes.now) (λ found. IsNext bytes.now found.what found.len) }
{
    let symbol = symbol_of(*bytes.first()?)?;
    Some(Found {
        what: Lexeme::Symbol(symbol),
        len: 1,
    })
}

/// The token that these bytes begin with.
pub(crate) fn next(bytes: &[u8]) -> Option<Found>
    ensures { MatchOption result (NoneIsNext bytes.now) (λ found. IsNext bytes.now found.what found.len) }
{
    if begins_with_letter(bytes) {
        return Some(named(bytes));
    }
    if begins_with_digit(bytes) {
        return numeral(bytes);
    }
    if begins_with_quote(bytes) {
        return quoted(bytes);
    }
    symbol(bytes)
}

fn begins_with_digit(bytes: &[u8]) -> bool
    ensures { result ≡ begins_with is_ascii_digit bytes.now }
{
    match bytes.first() {
        Some(byte) => byte.is_ascii_digit(),
        None => false,
    }
}

fn begins_with_quote(bytes: &[u8]) -> bool
    ensures { result ≡ begins_with (λ b. b == 39) bytes.now }
{
    match bytes.first() {
        Some(byte) => *byte == b'\'',
        None => false,
    }
}
