ghost use Rattle.std.specs.Prelude.{◌≡◌, ◌≢◌, ◌<◌, pos, IsTrue, length};
ghost use Rattle.alloc_share.specs.Shares.{is_within, is_weight, are_weights, total, parts_in_all, parts_of, adds_up, truncated};

use aw_cell::Spread;

/// The greatest weight: eighteen digits.
const MOST_WEIGHT: i64 = 999_999_999_999_999_999;

/// Whether a number lies from `-most` to `most`.
pub fn is_within(most: i64, number: i128) -> bool
    ensures { result ≡ is_within most number }
{
    -(most as i128) <= number && number <= most as i128
}

/// Whether each weight lies in the range of weights (docs/LANGUAGE.md, "Allocation").
pub fn are_weights(weights: &[i128]) -> bool
    ensures { result ≡ are_weights weights.now }
{
    weights.iter().all(|weight| is_within(MOST_WEIGHT, *weight))
}

fn total(weights: &[i128]) -> i128
    requires { IsTrue (are_weights weights.now) }
    ensures { result ≡ total weights.now }
{
    let mut sum = 0;
    for weight in weights {
        sum += *weight;
    }
    sum
}

/// How many parts the amount has: one a candidate, the sum of all weights, or one.
pub fn parts_in_all(how: Spread, weights: &[i128]) -> i128
    requires { IsTrue (are_weights weights.now) }
    ensures { result ≡ parts_in_all how weights.now }
{
    match how {
        Spread::Even | Spread::HEven => weights.len() as i128,
        Spread::Proportional => total(weights),
        Spread::Copy | Spread::HCopy => 1,
    }
}

/// Whether the shares of such an operator add up to the amount, so that there is a remainder.
pub fn adds_up(how: Spread) -> bool
    ensures { result ≡ adds_up how }
{
    match how {
        Spread::Even | Spread::HEven | Spread::Proportional => true,
        Spread::Copy | Spread::HCopy => false,
    }
}

fn parts_of(how: Spread, weight: i128) -> i128
    requires { IsTrue (is_weight weight) }
    ensures value { result ≡ parts_of how weight }
    ensures weight { IsTrue (is_weight result) }
{
    match how {
        Spread::Proportional => weight,
        Spread::Even | Spread::HEven | Spread::Copy | Spread::HCopy => 1,
    }
}

/// A candidate's share before the remainder. What is in range fits 128 bits: 63 of the amount and
/// 60 of a weight.
pub fn truncated_share(how: Spread, amount: i64, weight: i128, all_parts: i128) -> i128
    requires weight { IsTrue (is_weight weight) }
    requires parts { all_parts ≢ pos 0 }
    ensures { result ≡ truncated amount (parts_of how weight) all_parts }
{
    amount as i128 * parts_of(how, weight) / all_parts
}
