//! Widths at a size, and design sizes.
ghost use Rattle.std.specs.Prelude.{◌≡◌, ◌≤◌, ◌<◌, ◌-◌, ◌*◌, ◌/◌, ◌^◌};
ghost use Rattle.fix_word.specs.FixWords.{IsFixWord};
ghost use Rattle.fix_word.specs.Scale.{half_up, kept_size, scale, shift, tex_units};

// What the lowest bit that is kept of a size weighs.
fn weight(z: u32) -> u32
    requires { z < 2 ^ 27 }
    ensures { result ≡ 2 ^ shift z }
{
    if z < 1 << 23 {
        1
    } else if z < 1 << 24 {
        2
    } else if z < 1 << 25 {
        4
    } else if z < 1 << 26 {
        8
    } else {
        16
    }
}

// A size of which only the 23 highest bits are kept.
fn kept_size(z: u32) -> u32
    requires { z < 2 ^ 27 }
    ensures kept { result ≡ kept_size z }
    ensures most { result ≤ z }
{
    let weight = weight(z);
    z / weight * weight
}

/// The fix_word `x` at the font size `z` in DVI units, in DVI units: `x * z / 2^20` rounded down,
/// with as many low bits of `z` left out as keep it at 23 bits (Knuth, DVItype, "Reading the font
/// information").
pub fn scale(x: i32, z: u32) -> i64
    requires word { IsFixWord x }
    requires some { 1 ≤ z }
    requires size { z < 2 ^ 27 }
    ensures { result ≡ scale x z }
{
    let product = i64::from(x) * i64::from(kept_size(z));
    product.div_euclid(1 << 20)
}

/// The design size `d` in points, a fix_word, in DVI units of `num / den` times 10^-7 meters: to
/// the nearest whole number, halves up. A point is 254000/7227 times 10^-5 meters.
pub fn tex_units(d: u32, num: u32, den: u32) -> u64
    requires design { (1 ≤ d) × (d < 2 ^ 31) }
    requires top { (1 ≤ num) × (num < 2 ^ 31) }
    requires bottom { (1 ≤ den) × (den < 2 ^ 31) }
    ensures { result ≡ tex_units d num den }
{
    let top = u128::from(d) * 25_400_000 * u128::from(den);
    let bottom = u128::from(num) * 473_628_672 * 16;
    ((2 * top + bottom) / (2 * bottom)) as u64
}
