ghost use Rattle.std.specs.Prelude.{◌≡◌, ◌<◌, length};
ghost use Rattle.alloc_share.specs.Places.{first_least, first_greatest, place_of_rest};

use aw_cell::Rest;

fn first_least(weights: &[i128]) -> usize
    requires { 0 < length weights.now }
    ensures value { result ≡ first_least weights.now }
    ensures there { result < length weights.now }
{
    let mut place = 0;
    for other in 1..weights.len() {
        if weights[other] < weights[place] {
            place = other;
        }
    }
    place
}

fn first_greatest(weights: &[i128]) -> usize
    requires { 0 < length weights.now }
    ensures value { result ≡ first_greatest weights.now }
    ensures there { result < length weights.now }
{
    let mut place = 0;
    for other in 1..weights.len() {
        if weights[other] > weights[place] {
            place = other;
        }
    }
    place
}

/// The place of the candidate that gets the remainder, the first of equals.
pub fn place_of_rest(rest: Rest, weights: &[i128]) -> usize
    requires { 0 < length weights.now }
    ensures value { result ≡ place_of_rest rest weights.now }
    ensures there { result < length weights.now }
{
    match rest {
        Rest::First => 0,
        Rest::Last => weights.len() - 1,
        Rest::Min => first_least(weights),
        Rest::Max => first_greatest(weights),
    }
}
