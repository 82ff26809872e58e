ghost use Rattle.std.specs.Prelude.{◌≡◌, ◌≤◌, length, take, IsTrue};
ghost use Rattle.std.specs.List.{list_all, prefix_len};
ghost use Rattle.aw_cell.specs.Names.{is_name_byte, is_word_byte};
ghost use Rattle.aw_cell.specs.Text.{is_text};
ghost use Rattle.ses_step.specs.Words.{is_blank};
ghost use Rattle.ses_step.specs.Lines as spec;

use crate::word::{is_blank, is_session_name};
use aw_cell::{Text, is_same_word, is_word_byte};
use ses_report::Refusal;

/// What a line of a script is (docs/LANGUAGE.md, "Scripts").
#[derive(Clone, Copy, Debug, PartialEq, Eq)]
pub enum LineForm {
    /// Passed over: nothing, blanks or a comment.
    Blank,
    /// A line that defines an object, or the first one of a block that does.
    Definition,
    /// A line of the session of this name, whose statement stands from this place on, counted from 0.
    Session { name: Text, from: u32 },
    /// Of no session, and refused so.
    Bad(Refusal),
}

/// The longest line that is read, in bytes.
const LONGEST_LINE: usize = 4096;

fn is_line_byte(byte: u8) -> bool
    ensures { result ≡ spec.is_line_byte byte }
{
    byte == b'\t' || (b' ' <= byte && byte <= b'~')
}

fn are_line_bytes(line: &[u8]) -> bool
    ensures { result ≡ list_all spec.is_line_byte line.now }
{
    line.iter().all(|byte| is_line_byte(*byte))
}

/// Whether a line has at most 4,096 bytes, and only tabs and bytes from 0x20 to 0x7E (docs/LANGUAGE.md,
/// "Scripts").
pub fn keeps_form(line: &[u8]) -> bool
    ensures { result ≡ spec.keeps_form line.now }
{
    line.len() <= LONGEST_LINE && are_line_bytes(line)
}

fn blanks_in_front(text: &[u8]) -> usize
    ensures value { result ≡ prefix_len is_blank text.now }
    ensures within { result ≤ length text.now }
{
    text.iter().take_while(|byte| is_blank(**byte)).count()
}

fn after_blanks(line: &[u8]) -> &[u8]
    ensures { result.now ≡ spec.after_blanks line.now }
{
    &line[blanks_in_front(line)..]
}

fn word_bytes_in_front(text: &[u8]) -> usize
    ensures value { result ≡ prefix_len is_word_byte text.now }
    ensures within { result ≤ length text.now }
{
    text.iter().take_while(|byte| is_word_byte(**byte)).count()
}

fn is_name_byte(byte: u8) -> bool
    ensures { result ≡ is_name_byte byte }
{
    is_word_byte(byte) || byte == b'.'
}

fn name_bytes_in_front(text: &[u8]) -> usize
    ensures value { result ≡ prefix_len is_name_byte text.now }
    ensures within { result ≤ length text.now }
{
    text.iter().take_while(|byte| is_name_byte(**byte)).count()
}

fn first_word(text: &[u8]) -> &[u8]
    ensures { result.now ≡ spec.first_word text.now }
{
    &text[..name_bytes_in_front(text)]
}

fn behind_word(text: &[u8]) -> &[u8]
    ensures { result.now ≡ spec.behind_word text.now }
{
    &text[name_bytes_in_front(text)..]
}

fn next_words(text: &[u8]) -> &[u8]
    ensures { result.now ≡ spec.next_words text.now }
{
    after_blanks(behind_word(text))
}

fn is_passed_over(text: &[u8]) -> bool
    ensures { result ≡ spec.is_passed_over text.now }
{
    match text.first() {
        Some(byte) => *byte == b'"',
        None => true,
    }
}

fn begins_with_colon(text: &[u8]) -> bool
    ensures { result ≡ spec.begins_with_colon text.now }
{
    match text.first() {
        Some(byte) => *byte == b':',
        None => false,
    }
}

fn is_definition_line(line: &[u8]) -> bool
    ensures { result ≡ spec.is_definition_line line.now }
{
    let text = after_blanks(line);
    is_same_word(first_word(text), b"DEFINE") && !begins_with_colon(behind_word(text))
}

fn is_block_word(word: &[u8]) -> bool
    ensures { result ≡ spec.is_block_word word.now }
{
    is_same_word(word, b"PROGRAM") || is_same_word(word, b"AGGMAP")
}

fn opens_behind(second: &[u8]) -> bool
    ensures { result ≡ spec.opens_behind second.now }
{
    !first_word(second).is_empty() && is_block_word(first_word(next_words(second)))
}

/// Whether a line that defines an object opens a block: its third word is PROGRAM or AGGMAP, and only
/// blanks stand between its words (docs/LANGUAGE.md, "Scripts").
pub fn opens_block(line: &[u8]) -> bool
    ensures { result ≡ spec.opens_block line.now }
{
    opens_behind(next_words(after_blanks(line)))
}

/// Whether a line ends a block: it has only the word END (docs/LANGUAGE.md, "Scripts").
pub fn is_end(line: &[u8]) -> bool
    ensures { result ≡ spec.is_end line.now }
{
    let text = after_blanks(line);
    is_same_word(first_word(text), b"END") && next_words(text).is_empty()
}

fn has_prefix(text: &[u8]) -> bool
    ensures { result ≡ spec.has_prefix text.now }
{
    let end = word_bytes_in_front(text);
    is_session_name(&text[..end]) && begins_with_colon(&text[end..])
}

/// A word as the text that it is.
fn text_of(word: &[u8]) -> Text
    requires { IsTrue (is_text word.now) }
    ensures { result ≡ word.now }
{
    Text::of(word).unwrap()
}

/// The name of the session in front of a line.
fn session_name(text: &[u8]) -> Text
    requires { IsTrue (spec.has_prefix text.now) }
    ensures { result ≡ take (prefix_len is_word_byte text.now) text.now }
{
    text_of(&text[..word_bytes_in_front(text)])
}

fn kept_form(line: &[u8]) -> LineForm
    requires short { length line.now ≤ 4096 }
    ensures { result ≡ spec.form_behind (prefix_len is_blank line.now) (spec.after_blanks line.now) }
{
    let blanks = blanks_in_front(line);
    let text = &line[blanks..];
    if is_passed_over(text) {
        return LineForm::Blank;
    }
    if !has_prefix(text) {
        return LineForm::Bad(Refusal::syntax(blanks as u32 + 1));
    }
    LineForm::Session {
        name: session_name(text),
        from: (blanks + word_bytes_in_front(text) + 1) as u32,
    }
}

/// What a line of a script is, given without its line end: the first of these that it is. Its first
/// word is DEFINE, and no `:` stands directly behind that. It has more than 4,096 bytes or a byte that
/// no line has, which is refused with 27. It is blank or a comment. It begins with the name of a
/// session and a `:` directly behind. Any other line is refused with 1, at its first byte that is no
/// blank. See docs/LANGUAGE.md, "Scripts".
pub fn sort_line(line: &[u8]) -> LineForm
    ensures { result ≡ spec.line_form line.now }
{
    if is_definition_line(line) {
        LineForm::Definition
    } else if keeps_form(line) {
        kept_form(line)
    } else {
        LineForm::Bad(Refusal::bad_line())
    }
}
