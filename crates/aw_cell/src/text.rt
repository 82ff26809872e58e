ghost use Rattle.std.specs.Prelude.{◌≡◌, ◌↔◌, IsTrue, IsSome, IfSome, length};
ghost use Rattle.std.specs.List.{list_all};
ghost use Rattle.aw_cell.specs.Text.{is_text, is_text_byte};

use std::fmt;
use std::marker::Model;

/// A text of 0 to 64 bytes, each from 0x20 to 0x7E (docs/LANGUAGE.md, "Cells and texts").
#[derive(Clone, Copy)]
pub struct Text {
    bytes: [u8; 64],
    len: usize,
}

impl Model for Text {
    ghost use Rattle.std.specs.Prelude.{List, ℕ, length, take};
    ghost use Rattle.aw_cell.specs.inside.PaddedText.{IsPadded, padded, padded-text, length-text};

    ghost Value = { List ℕ };

    ghost view = { λ t. take t.len t.bytes };

    ghost invariant = { λ t. IsPadded t.bytes t.len };

    ghost inverse = { λ l. record { bytes = padded l; len = length l } };

    ghost inverse_ok = { λ a h i. record { bytes = padded-text a.bytes a.len h i; len = length-text a.bytes a.len h i } };
}

impl PartialEq for Text {
    ghost use Rattle.std.specs.Prelude.{◌≡◌, ◌↔◌, IsTrue};
    ghost use Rattle.std.specs.Str.{bytes_eq};
    ghost use Rattle.std.specs.Cmp.{partial_equiv_from_equiv};
    ghost use Rattle.std.proofs.lemmas.Cmp.{nat_list_eq_equiv};

    ghost eq = { bytes_eq };

    ghost laws = { partial_equiv_from_equiv nat_list_eq_equiv };

    fn eq(&self, other: &Text) -> bool
        ensures same { result ≡ bytes_eq self.now other.now }
        ensures equal { IsTrue result ↔ (self.now ≡ other.now) }
    {
        self.bytes() == other.bytes()
    }
}

impl Eq for Text {
    ghost use Rattle.std.proofs.lemmas.Cmp.{nat_list_eq_equiv};

    ghost laws = { nat_list_eq_equiv };
}

fn are_text_bytes(bytes: &[u8]) -> bool
    ensures { result ≡ list_all is_text_byte bytes.now }
{
    bytes.iter().all(|b| 32 <= *b && *b <= 126)
}

impl Text {
    /// These bytes as a text, or `None` where they are more than 64 or one isn't from 0x20 to 0x7E.
    pub fn of(bytes: &[u8]) -> Option<Text>
        ensures value { IfSome result (λ text. text ≡ bytes.now) }
        ensures some { IsSome result ↔ IsTrue (is_text bytes.now) }
    {
        if bytes.len() > 64 || !are_text_bytes(bytes) {
            return None;
        }
        let mut text = [0; 64];
        text[..bytes.len()].copy_from_slice(bytes);
        Some(Text {
            bytes: text,
            len: bytes.len(),
        })
    }

    /// Its bytes, 0 to 64.
    pub fn bytes(&self) -> &[u8]
        ensures value { result.now ≡ self.now }
        ensures text { IsTrue (is_text result.now) }
    {
        &self.bytes[..self.len]
    }

    fn as_str(&self) -> &str
        ensures { result.now ≡ self.now }
    {
        match str::from_utf8(self.bytes()) {
            Ok(text) => text,
            Err(_) => unreachable!(),
        }
    }
}

impl fmt::Debug for Text {
    fn fmt<W: fmt::Write>(&self, f: &mut fmt::Formatter<W>) -> fmt::Result {
        fmt::Debug::fmt(self.as_str(), f)
    }
}
