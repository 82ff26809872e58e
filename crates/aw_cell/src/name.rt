ghost use Rattle.std.specs.Prelude.{◌≡◌, ◌==◌, IsTrue};
ghost use Rattle.std.specs.List.{list_all, list_any, slice_split};
ghost use Rattle.aw_cell.specs.Names as spec;
ghost use Rattle.aw_cell.specs.Text.{is_text};

/// The words that stand for themselves, and so name no object.
const RESERVED: &[u8] = b"ABS ACQUIRE ACROSS ADD AFTER AGGMAP AGGREGATE ALL ALLOCATE ANCESTORS AND \
ARGUMENT ATTACH AVERAGE AW BASEDON BASIS BEFORE BOOLEAN BOTTOM CALL CHILDREN COMMIT COMPLEMENT \
COMPOSITE CONSISTENT COPY COUNT CUMSUM DEFINE DELETE DESCENDANTS DETACH DIMENSION DO DOEND ELSE END \
EQ EVEN FALSE FIRST FOR FORMULA GE GT HCOPY HEVEN IF INTEGER KEEP LAG LAST LE LEAD LIMIT LT MAINTAIN \
MAX MIN MODEL MOVE MOVINGTOTAL MULTI NA NAFILL NE NO NOT NUMBER OPERATOR OR PARENTS PROGRAM \
PROPORTIONAL RELATION RELEASE REMOPERATOR REMOVE RENAME REPORT RESYNC RETURN REVERT RO SHOW SUM \
TARGET TEXT THEN TO TOP TRUE UPDATE USING VALUESET VARIABLE WHILE WITH YES";

fn is_letter(byte: u8) -> bool
    ensures { result ≡ spec.is_letter byte }
{
    byte.is_ascii_uppercase() || byte.is_ascii_lowercase()
}

/// Whether a byte may stand in a session name: a letter, a digit or `_`.
pub fn is_word_byte(byte: u8) -> bool
    ensures { result ≡ spec.is_word_byte byte }
{
    is_letter(byte) || byte.is_ascii_digit() || byte == b'_'
}

fn is_name_byte(byte: u8) -> bool
    ensures { result ≡ spec.is_name_byte byte }
{
    is_word_byte(byte) || byte == b'.'
}

/// Whether a word begins with a letter, as names and session names do.
pub fn begins_with_letter(word: &[u8]) -> bool
    ensures { result ≡ spec.begins_with spec.is_letter word.now }
{
    match word.first() {
        Some(byte) => is_letter(*byte),
        None => false,
    }
}

fn are_name_bytes(word: &[u8]) -> bool
    ensures { result ≡ list_all spec.is_name_byte word.now }
{
    word.iter().all(|byte| is_name_byte(*byte))
}

fn has_name_form(word: &[u8]) -> bool
    ensures { result ≡ spec.has_name_form word.now }
{
    begins_with_letter(word) && word.len() <= 64 && are_name_bytes(word)
}

/// Whether two words are the same, without regard to case.
pub fn is_same_word(a: &[u8], b: &[u8]) -> bool
    ensures { result ≡ spec.same_word a.now b.now }
{
    a.eq_ignore_ascii_case(b)
}

/// Whether a word is one of the words that blanks keep apart in a list.
fn is_among(word: &[u8], listed: &[u8]) -> bool
    ensures { result ≡ list_any (spec.same_word word.now) (slice_split (λ b. b == 32) listed.now) }
{
    listed
        .split(|byte| *byte == b' ')
        .any(|other| is_same_word(word, other))
}

fn is_reserved(word: &[u8]) -> bool
    ensures { result ≡ list_any (spec.same_word word.now) spec.reserved_words }
{
    is_among(word, RESERVED)
}

/// Whether a word can name an object (docs/LANGUAGE.md, "Names and words").
pub fn is_name(word: &[u8]) -> bool
    ensures value { result ≡ spec.is_name word.now }
    ensures text { IsTrue result → IsTrue (is_text word.now) }
{
    has_name_form(word) && !is_reserved(word)
}
