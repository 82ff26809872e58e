ghost use Rattle.std.specs.Prelude.{◌≡◌, ◌≢◌, ◌<◌, ◌≤◌, ◌+◌, ◌-◌, ◌*◌, ◌^◌, ◌+ℤ◌, pos, unsigned_abs, IsTrue, IfSome, Err, ◌↔◌, length, slice_index_or};
ghost use Rattle.alloc_share.specs.Shares.{are_weights, are_within, parts_of, truncated, shares_by, shares_of, answered, written, HasZeroBasis, Overflows};
ghost use Rattle.alloc_share.specs.inside.Sums.{sum_within, remainder_of};

use crate::fault::ShareFault;
use crate::parts::{adds_up, are_weights, is_within, parts_in_all, truncated_share};
use crate::places::place_of_rest;
use aw_cell::{Rest, Spread};

/// What the shares before the remainder add up to, or `None` where one is out of range.
fn sum_within(
    limit: i64,
    how: Spread,
    amount: i64,
    all_parts: i128,
    weights: &[i128],
) -> Option<i128>
    requires weights { IsTrue (are_weights weights.now) }
    requires parts { all_parts ≢ pos 0 }
    ensures value { result ≡ sum_within limit (shares_by how amount all_parts weights.now) }
    ensures small { IfSome result (λ sum. unsigned_abs sum ≤ length weights.now * 9223372036854775807) }
{
    let mut sum = 0;
    for weight in weights {
        let share = truncated_share(how, amount, *weight, all_parts);
        if !is_within(limit, share) {
            return None;
        }
        sum += share;
    }
    Some(sum)
}

fn write_shares(how: Spread, amount: i64, all_parts: i128, weights: &[i128], into: &mut [i64])
    requires weights { IsTrue (are_weights weights.now) }
    requires parts { all_parts ≢ pos 0 }
    requires lengths { length into.old ≡ length weights.now }
    requires fit { IsTrue (are_within (pos 9223372036854775807) (shares_by how amount all_parts weights.now)) }
    ensures { into.new ≡ shares_by how amount all_parts weights.now }
{
    for place in 0..weights.len() {
        into[place] = truncated_share(how, amount, weights[place], all_parts) as i64;
    }
}

/// What shares that add up to this sum leave of the amount.
fn remainder(how: Spread, amount: i64, sum: i128) -> i128
    requires { unsigned_abs sum < 2 ^ 127 - 2 ^ 64 }
    ensures value { result ≡ remainder_of how amount sum }
    ensures small { unsigned_abs result ≤ unsigned_abs sum + 2 ^ 63 }
{
    if adds_up(how) {
        amount as i128 - sum
    } else {
        0
    }
}

/// The share at this place, with what shares that add up to this sum leave of the amount.
fn full_share(
    how: Spread,
    amount: i64,
    all_parts: i128,
    weights: &[i128],
    place: usize,
    sum: i128,
) -> i128
    requires weights { IsTrue (are_weights weights.now) }
    requires parts { all_parts ≢ pos 0 }
    requires fit { IsTrue (are_within (pos 9223372036854775807) (shares_by how amount all_parts weights.now)) }
    requires there { place < length weights.now }
    requires small { unsigned_abs sum ≤ length weights.now * 9223372036854775807 }
    ensures { result ≡ truncated amount (parts_of how (slice_index_or weights.now place (pos 0))) all_parts +ℤ remainder_of how amount sum }
{
    truncated_share(how, amount, weights[place], all_parts) + remainder(how, amount, sum)
}

fn share_out(
    amount: i64,
    weights: &[i128],
    how: Spread,
    rest: Rest,
    limit: i64,
    into: &mut [i64],
) -> Result<(), ShareFault>
    requires candidates { 0 < length weights.now }
    requires lengths { length into.old ≡ length weights.now }
    ensures answer { result ≡ answered (shares_of how rest amount weights.now limit) }
    ensures shares { into.new ≡ written (shares_of how rest amount weights.now limit) into.old }
{
    if !are_weights(weights) {
        return Err(ShareFault::Overflow);
    }
    let all_parts = parts_in_all(how, weights);
    if all_parts == 0 {
        return Err(ShareFault::ZeroBasis);
    }
    match sum_within(limit, how, amount, all_parts, weights) {
        None => Err(ShareFault::Overflow),
        Some(sum) => {
            let place = place_of_rest(rest, weights);
            let full = full_share(how, amount, all_parts, weights, place, sum);
            if !is_within(limit, full) {
                return Err(ShareFault::Overflow);
            }
            write_shares(how, amount, all_parts, weights, into);
            into[place] = full as i64;
            Ok(())
        }
    }
}

/// Shares an amount out to the candidates with these weights, a share for each in `into`. A share
/// is cut off toward zero; what the shares of EVEN, HEVEN and PROPORTIONAL then leave of the amount
/// goes to one candidate, as `rest` says. Shares are in units of the amount.
///
/// `Overflow` where a weight isn't from -(10^18-1) to 10^18-1, or a share, before or after that,
/// isn't from `-limit` to `limit`. `ZeroBasis` where PROPORTIONAL has weights, all in range, that
/// add up to zero. A refusal leaves `into` as it was (docs/LANGUAGE.md, "Allocation").
pub fn shares(
    amount: i64,
    weights: &[i128],
    how: Spread,
    rest: Rest,
    limit: i64,
    into: &mut [i64],
) -> Result<(), ShareFault>
    requires candidates { 0 < length weights.now }
    requires lengths { length into.old ≡ length weights.now }
    ensures answer { result ≡ answered (shares_of how rest amount weights.now limit) }
    ensures shares { into.new ≡ written (shares_of how rest amount weights.now limit) into.old }
    ensures zero { (result ≡ Err ShareFault.ZeroBasis) ↔ HasZeroBasis how weights.now }
    ensures overflow { (result ≡ Err ShareFault.Overflow) ↔ Overflows how rest amount weights.now limit }
{
    share_out(amount, weights, how, rest, limit, into)
}
