ghost use Rattle.std.specs.Prelude.{◌≡◌};
ghost use Rattle.std.specs.List.{list_all};
ghost use Rattle.aw_cell.specs.Names.{is_word_byte};
ghost use Rattle.ses_step.specs.Words as spec;

use aw_cell::{begins_with_letter, is_word_byte};

/// Whether a byte keeps words apart.
pub fn is_blank(byte: u8) -> bool
    ensures { result ≡ spec.is_blank byte }
{
    byte == b' ' || byte == b'\t'
}

fn are_word_bytes(word: &[u8]) -> bool
    ensures { result ≡ list_all is_word_byte word.now }
{
    word.iter().all(|byte| is_word_byte(*byte))
}

/// Whether a word can name a session.
pub fn is_session_name(word: &[u8]) -> bool
    ensures { result ≡ spec.is_session_name word.now }
{
    begins_with_letter(word) && word.len() <= 16 && are_word_bytes(word)
}
