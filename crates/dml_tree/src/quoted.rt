ghost use Rattle.std.specs.Prelude.{◌≡◌, ◌==◌, IsTrue, MatchOption};
ghost use Rattle.aw_cell.specs.Names.{begins_with};
ghost use Rattle.dml_tree.specs.LineTokens.{IsNext};
ghost use Rattle.dml_tree.specs.inside.Scanning.{NoneIsNext, IsLetter, HasNoLetter};

use crate::next::Found;
use crate::token::Lexeme;
use aw_cell::Text;

/// A byte of a text, and how many bytes of the line it takes.
#[derive(Clone, Copy)]
struct Letter {
    byte: u8,
    len: usize,
}

/// The byte of a text that these bytes begin with.
fn next_letter(bytes: &[u8]) -> Option<Letter>
    ensures { MatchOption result (HasNoLetter bytes.now) (λ letter. IsLetter bytes.now letter.byte letter.len) }
{
    match *bytes.first()? {
        b'\'' => None,
        b'\\' => match *bytes.get(1)? {
            byte @ (b'\'' | b'\\') => Some(Letter { byte, len: 2 }),
            _ => None,
        },
        b'\t' => Some(Letter { byte: b' ', len: 1 }),
        byte => Some(Letter { byte, len: 1 }),
    }
}

pub(crate) fn quoted(bytes: &[u8]) -> Option<Found>
    requires { IsTrue (begins_with (λ b. b == 39) bytes.now) }
    ensures { MatchOption result (NoneIsNext bytes.now) (λ found. IsNext bytes.now found.what found.len) }
{
    let mut text = [0; 64];
    let mut len = 0;
    let mut at = 1;
    while let Some(letter) = next_letter(&bytes[at..]) {
        if len == 64 {
            return None;
        }
        text[len] = letter.byte;
        len += 1;
        at += letter.len;
    }
    if at == bytes.len() || bytes[at] != b'\'' {
        return None;
    }
    let text = Text::of(&text[..len])?;
    Some(Found {
        what: Lexeme::Text(text),
        len: at + 1,
    })
}
