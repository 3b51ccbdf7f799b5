//! Run lengths and repeat counts.

ghost use Rattle.std.specs.Prelude.{◌≡◌, ◌<◌, ◌≤◌, ◌+◌, ◌-◌, ◌^◌, ◌++◌, ◌∷◌, ℕ, List, [], min, replicate, length, MatchOption};
ghost use Rattle.pk_runs.specs.Numbers.{hex_of, SpellsNumber, CutsNumber};

use crate::nybbles::Nybbles;

// Numbers from here on are all alike: longer than any raster.
const HUGE: u64 = 0xffff_ffff;

// The zeros that a long number begins with, and the nybble after them.
#[derive(Clone, Copy)]
struct Zeros {
    count: u128,
    after: u8,
}

// The number whose first nybble was read, or None where the nybbles end before it is whole.
// A number above `HUGE` is read as `HUGE`.
#[inline(always)]
pub fn number(nybbles: &mut Nybbles, dyn_f: u8, first: u8) -> Option<u64>
    requires runs { dyn_f ≤ 13 }
    requires no_mark { first ≤ 13 }
    ensures { MatchOption result (CutsNumber dyn_f (first ∷ nybbles.old))
        (λ m. (n : ℕ) × (number : List ℕ) × (first ∷ nybbles.old ≡ number ++ nybbles.new)
        × SpellsNumber dyn_f number n × (m ≡ min n (2 ^ 32 - 1))) }
{
    if first == 0 {
        let mut rest = nybbles.again();
        let value = long_number(&mut rest, dyn_f)?;
        *nybbles = rest;
        return Some(value);
    }
    if first <= dyn_f {
        return Some(u64::from(first));
    }
    let second = nybbles.next()?;
    Some(u64::from(first - dyn_f - 1) * 16 + u64::from(second) + u64::from(dyn_f) + 1)
}

// A number that begins with zeros, of which the first was read.
#[inline(never)]
fn long_number(nybbles: &mut Nybbles, dyn_f: u8) -> Option<u64>
    requires { dyn_f ≤ 13 }
    ensures { MatchOption result (CutsNumber dyn_f (0 ∷ nybbles.old))
        (λ m. (n : ℕ) × (number : List ℕ) × (0 ∷ nybbles.old ≡ number ++ nybbles.new)
        × SpellsNumber dyn_f number n × (m ≡ min n (2 ^ 32 - 1))) }
{
    let zeros = pass_zeros(nybbles)?;
    let value = digits(nybbles, zeros.after, zeros.count + 1)?;
    Some((value - 15 + u64::from(13 - dyn_f) * 16 + u64::from(dyn_f)).min(HUGE))
}

// Passes zeros, up to a nybble that isn't 0.
fn pass_zeros(nybbles: &mut Nybbles) -> Option<Zeros>
    ensures { MatchOption result ((k : ℕ) × (nybbles.old ≡ replicate k 0))
        (λ z. (nybbles.old ≡ replicate z.count 0 ++ z.after ∷ nybbles.new) × (1 ≤ z.after)
        × (z.after < 16) × (z.count < 2 ^ 65)) }
{
    let mut count = 0;
    let mut nybble = nybbles.next()?;
    while nybble == 0 {
        count += 1;
        nybble = nybbles.next()?;
    }
    Some(Zeros {
        count,
        after: nybble,
    })
}

// The number of a nybble and n others. A number above 2 ^ 40 is read as 2 ^ 40.
fn digits(nybbles: &mut Nybbles, first: u8, count: u128) -> Option<u64>
    requires { first < 16 }
    ensures { MatchOption result (length nybbles.old < count)
        (λ v. (others : List ℕ) × (length others ≡ count) × (nybbles.old ≡ others ++ nybbles.new)
        × (v ≡ min (hex_of (first ∷ others)) (2 ^ 40))) }
{
    let mut value = u64::from(first);
    let mut left = count;
    while left > 0 {
        let nybble = nybbles.next()?;
        value = (value * 16 + u64::from(nybble)).min(1 << 40);
        left -= 1;
    }
    Some(value)
}
