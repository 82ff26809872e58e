ghost use Rattle.std.specs.Prelude.{◌≡◌, ◌≤◌, IsTrue, length, MatchOption};
ghost use Rattle.std.specs.Char.{is_ascii_digit};
ghost use Rattle.std.specs.List.{prefix_len};
ghost use Rattle.aw_cell.specs.Names.{begins_with};
ghost use Rattle.dml_tree.specs.LineTokens.{IsNext};
ghost use Rattle.dml_tree.specs.inside.Scanning.{NoneIsNext, fraction_len, numeral_lexeme};

use crate::next::Found;
use crate::token::Lexeme;
use aw_cell::Number;

fn digits(bytes: &[u8]) -> usize
    ensures front { result ≡ prefix_len is_ascii_digit bytes.now }
    ensures within { result ≤ length bytes.now }
{
    bytes
        .iter()
        .take_while(|byte| byte.is_ascii_digit())
        .count()
}

/// How many bytes a point and the digits behind it take.
fn fraction_len(bytes: &[u8]) -> usize
    ensures { result ≡ fraction_len bytes.now }
{
    match bytes.split_first() {
        Some((b'.', behind)) => match digits(behind) {
            0 => 0,
            decimals => 1 + decimals.min(4),
        },
        _ => 0,
    }
}

fn lexeme(has_point: bool, number: Number) -> Lexeme
    ensures { result ≡ numeral_lexeme has_point number }
{
    if has_point {
        return Lexeme::Decimal(number);
    }
    let whole = number.units().unsigned_abs() / 10_000;
    if whole <= 2_147_483_647 {
        Lexeme::Integer(whole as i32)
    } else {
        Lexeme::Whole(number)
    }
}

pub(crate) fn numeral(bytes: &[u8]) -> Option<Found>
    requires { IsTrue (begins_with is_ascii_digit bytes.now) }
    ensures { MatchOption result (NoneIsNext bytes.now) (λ found. IsNext bytes.now found.what found.len) }
{
    let whole = digits(bytes);
    let fraction = fraction_len(&bytes[whole..]);
    let len = whole + fraction;
    match Number::read(&bytes[..len]) {
        Ok(number) => Some(Found {
            what: lexeme(fraction > 0, number),
            len,
        }),
        Err(_) => None,
    }
}
