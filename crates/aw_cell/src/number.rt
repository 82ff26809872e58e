ghost use Rattle.std.specs.Prelude.{◌≡◌, ◌↔◌, ◌≢◌, ◌+◌, ◌^◌, ◌≤◌, ◌<◌, pos, ◌+ℤ◌, ◌-ℤ◌, ◌*ℤ◌, neg_ℤ, unsigned_abs, IsSome, IfSome, IsOk, Err};
ghost use Rattle.std.specs.Int.{int_min, int_max};
ghost use Rattle.aw_cell.specs.Number.{IsInRange, in_units};
ghost use Rattle.aw_cell.specs.Rounding.{nearest, rounded};
ghost use Rattle.aw_cell.specs.Arithmetic.{fitted, number_sum, number_difference, number_product, number_quotient};

use std::marker::Model;

/// The greatest count of ten-thousandths: eighteen digits.
const MOST: i64 = 999_999_999_999_999_999;

/// How many units one has.
const ONE: i64 = 10_000;

/// Why arithmetic gives no number (docs/LANGUAGE.md, "Numbers").
#[derive(Clone, Copy, Debug, PartialEq, Eq)]
pub enum Arith {
    /// The result is out of range.
    Overflow,
    /// The divisor is zero.
    DivideByZero,
}

/// A NUMBER, as a whole count of ten-thousandths from -(10^18-1) to 10^18-1
/// (docs/LANGUAGE.md, "Cells and texts").
#[derive(Clone, Copy, Debug)]
pub struct Number {
    units: i64,
}

impl Model for Number {
    ghost use Rattle.std.specs.Prelude.{ℤ};
    ghost use Rattle.aw_cell.specs.Number.{IsInRange};

    ghost Value = { ℤ };

    ghost view = { λ n. n.units };

    ghost invariant = { λ n. IsInRange n.units };

    ghost inverse = { λ z. record { units = z } };
}

impl PartialEq for Number {
    ghost use Rattle.std.specs.Prelude.{◌≡◌, ◌↔◌, IsTrue};
    ghost use Rattle.std.specs.Ordering.{int_eq};
    ghost use Rattle.std.specs.Cmp.{partial_equiv_from_equiv};
    ghost use Rattle.std.proofs.lemmas.Cmp.{int_eq_equiv};

    ghost eq = { int_eq };

    ghost laws = { partial_equiv_from_equiv int_eq_equiv };

    fn eq(&self, other: &Number) -> bool
        ensures same { result ≡ int_eq self.now other.now }
        ensures equal { IsTrue result ↔ (self.now ≡ other.now) }
    {
        self.units == other.units
    }
}

impl Eq for Number {
    ghost use Rattle.std.proofs.lemmas.Cmp.{int_eq_equiv};

    ghost laws = { int_eq_equiv };
}

impl Number {
    /// The number of so many ten-thousandths, or `None` where they are out of range.
    pub fn of_units(units: i64) -> Option<Number>
        ensures value { IfSome result (λ n. n ≡ units) }
        ensures range { IsSome result ↔ IsInRange units }
    {
        if units < -MOST || units > MOST {
            return None;
        }
        Some(Number { units })
    }

    /// A whole number of 32 bits as a NUMBER.
    pub(crate) fn of_whole(whole: i32) -> Number
        ensures { result ≡ in_units whole }
    {
        Number {
            units: ONE * whole as i64,
        }
    }

    /// How many ten-thousandths it counts.
    pub fn units(&self) -> i64
        ensures value { result ≡ self.now }
        ensures range { IsInRange result }
    {
        self.units
    }

    /// The whole number nearest to it, of two the one farther from zero.
    pub(crate) fn rounded_to_whole(&self) -> i64
        ensures { result ≡ rounded self.now (pos 10000) }
    {
        rounded(self.units as i128, ONE) as i64
    }

    pub(crate) fn neg(self) -> Number
        ensures { result ≡ neg_ℤ self }
    {
        Number { units: -self.units }
    }

    pub(crate) fn abs(self) -> Number
        ensures { result ≡ pos (unsigned_abs self) }
    {
        Number {
            units: self.units.abs(),
        }
    }

    pub(crate) fn min(self, other: Number) -> Number
        ensures { result ≡ int_min self other }
    {
        if other.units < self.units {
            other
        } else {
            self
        }
    }

    pub(crate) fn max(self, other: Number) -> Number
        ensures { result ≡ int_max self other }
    {
        if other.units < self.units {
            self
        } else {
            other
        }
    }

    pub(crate) fn fitted(units: i128) -> Result<Number, Arith>
        ensures value { result ≡ fitted units }
        ensures range { IsOk result ↔ IsInRange units }
    {
        let most = MOST as i128;
        if units < -most || units > most {
            return Err(Arith::Overflow);
        }
        Ok(Number {
            units: units as i64,
        })
    }

    /// The sum. `Overflow` where it is out of range (docs/LANGUAGE.md, "Numbers").
    pub fn add(self, other: Number) -> Result<Number, Arith>
        ensures value { result ≡ number_sum self other }
        ensures range { IsOk result ↔ IsInRange (self +ℤ other) }
    {
        Number::fitted(self.units as i128 + other.units as i128)
    }

    /// The difference. `Overflow` where it is out of range (docs/LANGUAGE.md, "Numbers").
    pub fn sub(self, other: Number) -> Result<Number, Arith>
        ensures value { result ≡ number_difference self other }
        ensures range { IsOk result ↔ IsInRange (self -ℤ other) }
    {
        Number::fitted(self.units as i128 - other.units as i128)
    }

    /// The product, rounded to ten-thousandths. `Overflow` where it is then out of range
    /// (docs/LANGUAGE.md, "Numbers").
    pub fn mul(self, other: Number) -> Result<Number, Arith>
        ensures value { result ≡ number_product self other }
        ensures range { IsOk result ↔ IsInRange (rounded (self *ℤ other) (pos 10000)) }
    {
        Number::fitted(rounded(self.units as i128 * other.units as i128, ONE))
    }

    /// The quotient, rounded to ten-thousandths. `DivideByZero` for a zero divisor, and `Overflow`
    /// where the rounded quotient is out of range (docs/LANGUAGE.md, "Numbers").
    pub fn div(self, other: Number) -> Result<Number, Arith>
        ensures value { result ≡ number_quotient self other }
        ensures zero { (result ≡ Err Arith.DivideByZero) ↔ (other ≡ pos 0) }
        ensures range { other ≢ pos 0 → (IsOk result ↔ IsInRange (rounded (pos 10000 *ℤ self) other)) }
    {
        if other.units == 0 {
            return Err(Arith::DivideByZero);
        }
        Number::fitted(rounded(ONE as i128 * self.units as i128, other.units))
    }
}

#[tactic(auto, using(crate::proofs::Rounding::nearest_small))]
fn nearest(dividend: u128, divisor: u128) -> u128
    requires positive { 0 < divisor }
    requires room { dividend + divisor < 2 ^ 126 }
    ensures value { result ≡ nearest dividend divisor }
    ensures small { result ≤ dividend + 1 }
{
    (2 * dividend + divisor) / (2 * divisor)
}

fn rounded(dividend: i128, divisor: i64) -> i128
    requires nonzero { divisor ≢ pos 0 }
    requires room { unsigned_abs dividend ≤ 10 ^ 36 }
    ensures { result ≡ rounded dividend divisor }
{
    let size = nearest(dividend.unsigned_abs(), divisor.unsigned_abs() as u128) as i128;
    if (dividend < 0) == (divisor < 0) {
        size
    } else {
        -size
    }
}
