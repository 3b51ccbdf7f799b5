//! The conversion of lengths.

ghost use Rattle.std.specs.Prelude.{◌≡◌, ◌+◌, ◌*◌, ◌/◌, ◌^◌, ◌<◌, ◌≤◌, ◌<ℤ◌, ◌↔◌, pos, unsigned_abs, IfOk, IsErr};
ghost use Rattle.std.specs.Int.{div_ceil};
ghost use Rattle.pixel_round.specs.Limits.{MAX_RESOLUTION};
ghost use Rattle.pixel_round.specs.Pixels.{AreEqual, conversion, nearest, round, ceil, IsUsable};

use crate::quotients::{gcd, quotient, quotient_up, reciprocal_of, small_quotient};
use crate::units::Units;
use std::error::Error;
use std::fmt;
use std::marker::Model;

/// A unit would be more than 512 dots.
#[derive(Clone, Copy, Debug, PartialEq, Eq)]
pub struct Scale;

impl fmt::Display for Scale {
    fn fmt<W: fmt::Write>(&self, f: &mut fmt::Formatter<W>) -> fmt::Result {
        f.write_str("a DVI unit is more than 512 dots")
    }
}

impl Error for Scale {}

/// How many dots one DVI unit is, as an exact fraction that is at most 512.
#[derive(Clone, Copy, Debug)]
pub struct Conv {
    top: u128,
    bottom: u64,
    // 2^64 by twice the bottom, rounded down.
    reciprocal: u64,
    // Twice the top, or the greatest number of 64 bits where that is less.
    twice_top: u64,
    // Sizes below it are converted by products of 64 bits.
    reach: u64,
}

impl Model for Conv {
    ghost use Rattle.std.specs.Prelude.{◌≡◌, ◌<◌, ◌≤◌, ◌*◌, ◌-◌, ◌/◌, ◌^◌, min};
    ghost use Rattle.pixel_round.specs.Pixels.{Fraction};

    ghost Value = { Fraction };

    ghost view = { λ c. record { top = c.top; bottom = c.bottom } };

    ghost invariant = { λ c. (0 < c.top) × (0 < c.bottom) × (c.top ≤ 512 * c.bottom)
        × (c.bottom < 2 ^ 59) × (c.reciprocal ≡ 2 ^ 64 / (2 * c.bottom))
        × (c.twice_top ≡ min (2 * c.top) (2 ^ 64 - 1))
        × (c.reach ≡ (2 ^ 64 / (2 * c.bottom) - c.bottom) / (2 * c.top)) };

    ghost inverse = { λ c. record {
      top = c.top;
      bottom = c.bottom;
      reciprocal = 2 ^ 64 / (2 * c.bottom);
      twice_top = min (2 * c.top) (2 ^ 64 - 1);
      reach = (2 ^ 64 / (2 * c.bottom) - c.bottom) / (2 * c.top);
    } };
}

impl Conv {
    /// The conversion of a document at a resolution. The fractions of a preamble are positive
    /// numbers of four bytes with a sign, and the resolution is 1 to 4800 dots to the inch.
    ///
    /// `Scale` is answered exactly where a unit would be more than 512 dots.
    pub fn new(units: &Units) -> Result<Conv, Scale>
        requires num { (0 < units.now.num) × (units.now.num < 2 ^ 31) }
        requires den { (0 < units.now.den) × (units.now.den < 2 ^ 31) }
        requires mag { (0 < units.now.mag) × (units.now.mag < 2 ^ 31) }
        requires res { (0 < units.now.res) × (units.now.res ≤ MAX_RESOLUTION) }
        ensures made { IfOk result (λ c. AreEqual c (conversion units.now)) }
        ensures usable { IfOk result IsUsable }
        ensures refused { IsErr result ↔ (512 * (conversion units.now).bottom <
            (conversion units.now).top) }
    {
        let top = u128::from(units.num) * u128::from(units.res) * u128::from(units.mag);
        let bottom = 254000000 * u64::from(units.den);
        if top > 512 * u128::from(bottom) {
            return Err(Scale);
        }
        Ok(Conv::in_lowest_terms(top, bottom))
    }

    // The fraction in lowest terms, so that most lengths are converted by numbers of 64 bits.
    fn in_lowest_terms(top: u128, bottom: u64) -> Conv
        requires above { 0 < top }
        requires below { 0 < bottom }
        requires bounded { top ≤ 512 * bottom }
        requires small { bottom < 2 ^ 59 }
        ensures same { AreEqual result (record { top = top; bottom = bottom }) }
        ensures usable { IsUsable result }
    {
        let common = gcd(top, bottom);
        Conv::with_products(top / u128::from(common), bottom / common)
    }

    // The fraction, with what its products need.
    fn with_products(top: u128, bottom: u64) -> Conv
        requires above { 0 < top }
        requires below { 0 < bottom }
        requires bounded { top ≤ 512 * bottom }
        requires small { bottom < 2 ^ 59 }
        ensures { result ≡ record { top = top; bottom = bottom } }
    {
        let reciprocal = reciprocal_of(2 * bottom);
        let twice = 2 * top;
        Conv {
            top,
            bottom,
            reciprocal,
            twice_top: twice.min(u128::from(u64::MAX)) as u64,
            reach: (u128::from(reciprocal.saturating_sub(bottom)) / twice) as u64,
        }
    }

    /// A length or a motion in whole dots: the nearest number, and of two such numbers the one
    /// farther from zero.
    ///
    /// Knuth, DVItype, "Translation to symbolic form" (pixel_round).
    #[inline(always)]
    pub fn round(&self, x: i64) -> i64
        requires { unsigned_abs x ≤ 2 ^ 31 }
        ensures value { result ≡ round self.now x }
        ensures bounded { unsigned_abs result ≤ 512 * unsigned_abs x + 1 }
    {
        let dots = self.nearest(x.unsigned_abs());
        if x < 0 { -dots } else { dots }
    }

    /// The side of a rule in whole dots: the least number that isn't below it.
    ///
    /// Knuth, DVItype, "Translation to symbolic form" (rule_pixels).
    pub fn ceil(&self, x: i64) -> i64
        requires { unsigned_abs x ≤ 2 ^ 31 }
        ensures value { result ≡ ceil self.now x }
        ensures bounded { unsigned_abs result ≤ 512 * unsigned_abs x + 1 }
        ensures has_a_dot { pos 0 <ℤ x → pos 0 <ℤ result }
    {
        let size = x.unsigned_abs();
        if x < 0 {
            -self.floor(size)
        } else {
            self.least(size)
        }
    }

    // The nearest whole number of dots of a size, halves up.
    #[inline(always)]
    fn nearest(&self, size: u64) -> i64
        requires { size ≤ 2 ^ 31 }
        ensures value { result ≡ pos (nearest self.now size) }
        ensures bounded { nearest self.now size ≤ 512 * size + 1 }
    {
        if size < self.reach {
            let twice = size * self.twice_top + self.bottom;
            return small_quotient(twice, 2 * self.bottom, self.reciprocal) as i64;
        }
        quotient(
            2 * u128::from(size) * self.top + u128::from(self.bottom),
            2 * self.bottom,
        ) as i64
    }

    // The greatest whole number of dots that isn't above a size.
    fn floor(&self, size: u64) -> i64
        requires { size ≤ 2 ^ 31 }
        ensures value { result ≡ pos (size * self.now.top / self.now.bottom) }
        ensures bounded { size * self.now.top / self.now.bottom ≤ 512 * size }
    {
        quotient(u128::from(size) * self.top, self.bottom) as i64
    }

    // The least whole number of dots that isn't below a size.
    fn least(&self, size: u64) -> i64
        requires { size ≤ 2 ^ 31 }
        ensures value { result ≡ pos (div_ceil (size * self.now.top) self.now.bottom) }
        ensures bounded { div_ceil (size * self.now.top) self.now.bottom ≤ 512 * size }
        ensures has_a_dot { 0 < size → 0 < div_ceil (size * self.now.top) self.now.bottom }
    {
        quotient_up(u128::from(size) * self.top, self.bottom) as i64
    }
}
