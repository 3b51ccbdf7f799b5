//! Quotients of wide numbers by narrow ones.
ghost use Rattle.std.specs.Prelude.{◌≡◌, ◌/◌, ◌<◌, ◌^◌};
ghost use Rattle.std.specs.Int.{IsGcd, div_ceil};

// What fits 64 bits is divided there, which is many times faster.
const NARROW: u128 = 1 << 64;

/// The greatest number that divides both.
pub fn gcd(a: u128, b: u64) -> u64
    requires { 0 < b }
    ensures divides { IsGcd a b result }
    ensures some { 0 < result }
{
    let mut greater = b;
    let mut rest = (a % u128::from(b)) as u64;
    while rest != 0 {
        let next = greater % rest;
        greater = rest;
        rest = next;
    }
    greater
}

/// The quotient, rounded down. Its divisions stay out of the loops that ask for it.
#[inline(never)]
pub fn quotient(top: u128, bottom: u64) -> u128
    requires { 0 < bottom }
    ensures { result ≡ top / bottom }
{
    if top < NARROW {
        u128::from(top as u64 / bottom)
    } else {
        top / u128::from(bottom)
    }
}

/// 2^64 by a number, rounded down: with it quotients by that number are products.
pub fn reciprocal_of(bottom: u64) -> u64
    requires { 1 < bottom }
    ensures { result ≡ 2 ^ 64 / bottom }
{
    (NARROW / u128::from(bottom)) as u64
}

/// The quotient, rounded down, of a number below the reciprocal: by a product.
#[inline(always)]
pub fn small_quotient(top: u64, bottom: u64, reciprocal: u64) -> u64
    requires some { 1 < bottom }
    requires reciprocal { reciprocal ≡ 2 ^ 64 / bottom }
    requires small { top < reciprocal }
    ensures { result ≡ top / bottom }
{
    (u128::from(top) * u128::from(reciprocal + 1) / NARROW) as u64
}

/// The quotient, rounded up.
#[inline(never)]
pub fn quotient_up(top: u128, bottom: u64) -> u128
    requires { 0 < bottom }
    ensures { result ≡ div_ceil top bottom }
{
    if top < NARROW {
        u128::from((top as u64).div_ceil(bottom))
    } else {
        top.div_ceil(u128::from(bottom))
    }
}
