ghost use Rattle.std.specs.Prelude.{◌≡◌, ◌↔◌, ℕ, ◌-◌, ◌*◌, ◌^◌, ◌<◌, ◌≤◌, ◌==◌, ℤ, not, length, position, IsTrue, Ok, Err};
ghost use Rattle.std.specs.Option.{SomeIff};
ghost use Rattle.std.specs.Str.Parse.{digits_value};
ghost use Rattle.aw_cell.specs.Rounding.{signed};
ghost use Rattle.aw_cell.specs.Numeral.{are_digits, SpellsParts, SpellsSize, Spells, IsNumeral, SpellsInRange, SpellsPastRange};
ghost use Rattle.aw_cell.specs.inside.NumeralSteps.{ReadsCount, ReadsUnits, SpellsBehind, number_within};

use crate::number::Number;

/// Why a text gives no NUMBER (docs/LANGUAGE.md, "Numerals").
#[derive(Clone, Copy, Debug, PartialEq, Eq)]
pub enum NumberFault {
    /// The text isn't an optional `-`, digits, and optionally a point with one to four digits.
    NotANumber,
    /// The text is such a numeral, and its number is out of range.
    Overflow,
}

fn are_digits(bytes: &[u8]) -> bool
    ensures { result ≡ are_digits bytes.now }
{
    bytes.iter().all(|byte| byte.is_ascii_digit())
}

fn point_in(text: &[u8]) -> Option<usize>
    ensures { result ≡ position (λ b. b == 46) text.now }
{
    text.iter().position(|byte| *byte == b'.')
}

/// The number that digits write, where it has 64 bits.
fn value_of(digits: &[u8]) -> Option<u64>
    requires some { 0 < length digits.now }
    requires digits { IsTrue (are_digits digits.now) }
    ensures { SomeIff result (digits_value 10 digits.now < 2 ^ 64) (digits_value 10 digits.now) }
{
    str::from_utf8(digits).ok()?.parse().ok()
}

/// The ten-thousandths that the digits behind a point write.
fn fraction_of(decimals: &[u8]) -> u64
    requires few { length decimals.now ≤ 4 }
    requires digits { IsTrue (are_digits decimals.now) }
    ensures value { result ≡ digits_value 10 decimals.now * 10 ^ (4 - length decimals.now) }
    ensures small { result < 10000 }
{
    if decimals.is_empty() {
        return 0;
    }
    match value_of(decimals) {
        Some(value) => value * 10u64.pow(4 - decimals.len() as u32),
        None => unreachable!(),
    }
}

/// The ten-thousandths that the digits in front of a point and those behind it write.
fn count_of(whole: &[u8], decimals: &[u8]) -> Result<u128, NumberFault>
    ensures { ReadsCount (SpellsParts whole.now decimals.now) result }
{
    if whole.is_empty() || decimals.len() > 4 || !are_digits(whole) || !are_digits(decimals) {
        return Err(NumberFault::NotANumber);
    }
    match value_of(whole) {
        Some(value) => Ok(value as u128 * 10_000 + fraction_of(decimals) as u128),
        None => Err(NumberFault::Overflow),
    }
}

fn read_size(text: &[u8]) -> Result<u128, NumberFault>
    ensures { ReadsCount (SpellsSize text.now) result }
{
    match point_in(text) {
        None => count_of(text, &[]),
        Some(at) if at + 1 == text.len() => Err(NumberFault::NotANumber),
        Some(at) => count_of(&text[..at], &text[at + 1..]),
    }
}

fn number_of(negative: bool, count: u128) -> Result<Number, NumberFault>
    requires { count < 2 ^ 80 }
    ensures { result ≡ number_within (signed (not negative) count) }
{
    let count = count as i128;
    match Number::fitted(if negative { -count } else { count }) {
        Ok(number) => Ok(number),
        Err(_) => Err(NumberFault::Overflow),
    }
}

fn read_behind(negative: bool, unsigned: &[u8]) -> Result<Number, NumberFault>
    ensures { ReadsUnits (SpellsBehind negative unsigned.now) result }
{
    match read_size(unsigned) {
        Ok(count) => number_of(negative, count),
        Err(why) => Err(why),
    }
}

fn read_numeral(text: &[u8]) -> Result<Number, NumberFault>
    ensures { ReadsUnits (Spells text.now) result }
{
    match text.strip_prefix(b"-") {
        Some(unsigned) => read_behind(true, unsigned),
        None => read_behind(false, text),
    }
}

impl Number {
    /// The number that a text writes: an optional `-`, digits, and optionally a point with one to
    /// four digits. `NotANumber` where the text has another form, and `Overflow` where it has this
    /// one and its number is out of range (docs/LANGUAGE.md, "Numerals").
    pub fn read(text: &[u8]) -> Result<Number, NumberFault>
        ensures value { (units : ℤ) → (result ≡ Ok units) ↔ SpellsInRange text.now units }
        ensures not_a_number { (result ≡ Err NumberFault.NotANumber) ↔ ¬ (IsNumeral text.now) }
        ensures overflow { (result ≡ Err NumberFault.Overflow) ↔ SpellsPastRange text.now }
    {
        read_numeral(text)
    }
}
