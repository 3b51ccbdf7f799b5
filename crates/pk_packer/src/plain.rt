//! The plain bitmap of a raster.

ghost use Rattle.std.specs.Prelude.{◌≡◌, ◌*◌, ◌^◌, ◌<◌, ◌≤◌, ◌++◌, false, IfOk, OnOk, drop, length, slice_index_or};
ghost use Rattle.packed_rows.specs.Packing.{bits_value};
ghost use Rattle.pk_runs.specs.Limits.{MAX_GLYPH_SIDE};
ghost use Rattle.pk_packer.specs.Choice.{plain_bytes, plain_pixels, plain_size};

use packed_rows::PackedBitmap;
use std::alloc::{AllocError as NoMemory, Global};

// How many pixels a raster has.
fn area(bits: &PackedBitmap) -> usize
    requires narrow { bits.now.width ≤ MAX_GLYPH_SIDE }
    requires short { bits.now.height ≤ MAX_GLYPH_SIDE }
    ensures area { result ≡ bits.now.width * bits.now.height }
    ensures few { result ≤ 2 ^ 28 }
{
    bits.width() as usize * bits.height() as usize
}

/// How many bytes its plain bitmap takes.
#[tactic(auto, using(crate::proofs::PlainBits::length_of_bytes))]
pub fn plain_size(bits: &PackedBitmap) -> usize
    requires narrow { bits.now.width ≤ MAX_GLYPH_SIDE }
    requires short { bits.now.height ≤ MAX_GLYPH_SIDE }
    ensures count { result ≡ plain_size bits.now }
    ensures bytes { result ≡ length (plain_bytes bits.now) }
    ensures few { result ≤ 2 ^ 25 }
{
    area(bits).div_ceil(8)
}

// Whether a pixel is black, by its place, counted row after row. White after the last pixel.
fn is_dark(bits: &PackedBitmap, place: usize) -> bool
    requires narrow { bits.now.width ≤ MAX_GLYPH_SIDE }
    requires short { bits.now.height ≤ MAX_GLYPH_SIDE }
    ensures { result ≡ slice_index_or (plain_pixels bits.now) place false }
{
    if place >= area(bits) {
        return false;
    }
    let w = bits.width() as usize;
    bits.is_black((place % w) as u32, (place / w) as u32)
}

// The byte of eight pixels from a place on, the first in the high bit.
fn byte_at(bits: &PackedBitmap, start: usize) -> u8
    requires narrow { bits.now.width ≤ MAX_GLYPH_SIDE }
    requires short { bits.now.height ≤ MAX_GLYPH_SIDE }
    requires few { start < 2 ^ 32 }
    ensures { result ≡ bits_value 8 (drop start (plain_pixels bits.now)) }
{
    let mut byte = 0;
    for k in 0..8 {
        byte = 2 * byte + u8::from(is_dark(bits, start + k));
    }
    byte
}

/// Appends the plain bitmap: the pixels row after row without padding between them, eight a byte,
/// the first in the high bit, and zero bits after the last one (Rokicki, PKtype, "Packed file
/// format").
#[inline(never)]
pub fn append_plain(bits: &PackedBitmap, out: &mut Vec<u8>) -> Result<(), NoMemory>
    requires narrow { bits.now.width ≤ MAX_GLYPH_SIDE }
    requires short { bits.now.height ≤ MAX_GLYPH_SIDE }
    ensures { OnOk result (out.new.items ≡ out.old.items ++ plain_bytes bits.now) }
{
    for i in 0..plain_size(bits) {
        out.push(byte_at(bits, 8 * i))?;
    }
    Ok(())
}

/// The plain bitmap alone.
pub fn plain_bytes(alloc: Global, bits: &PackedBitmap) -> Result<Vec<u8>, NoMemory>
    requires narrow { bits.now.width ≤ MAX_GLYPH_SIDE }
    requires short { bits.now.height ≤ MAX_GLYPH_SIDE }
    ensures { IfOk result (λ bytes. bytes.items ≡ plain_bytes bits.now) }
{
    let mut bytes = Vec::with_capacity(alloc, plain_size(bits))?;
    append_plain(bits, &mut bytes)?;
    Ok(bytes)
}
