//! A raster from the bits of a plain bitmap.

ghost use Rattle.std.specs.Prelude.{◌≡◌, ℕ, ◌+◌, ◌-◌, ◌*◌, ◌/◌, ◌%◌, ◌^◌, ◌<◌, ◌≤◌, ◌&&◌, length, nat_lt, MatchResult, if◌then◌else◌};
ghost use Rattle.packed_rows.specs.Changes.{is_within, white_bitmap, with_black};
ghost use Rattle.packed_rows.specs.Packing.{pixel};
ghost use Rattle.packed_rows.specs.Stamped.{word_pixel};
ghost use Rattle.pk_runs.specs.Raster.{IsPlainRaster};
ghost use Rattle.pk_runs.specs.declared.faults.RunFault.TheVariants.{Short};
ghost use Rattle.pk_runs.specs.Limits.{MAX_GLYPH_SIDE};

use crate::faults::RunFault;
use crate::row_words::prefix;
use packed_rows::{PackedBitmap, Span, is_black};

/// Paints the bits of the bytes on a white raster, row after row without padding.
pub fn paint_plain(
    mut bits: PackedBitmap,
    w: u32,
    h: u32,
    bytes: &[u8],
) -> Result<PackedBitmap, RunFault>
    requires some { 1 ≤ w }
    requires narrow { w ≤ MAX_GLYPH_SIDE }
    requires short { h ≤ MAX_GLYPH_SIDE }
    requires white { bits ≡ white_bitmap w h }
    ensures { MatchResult result (λ b. (b.width ≡ w) × (b.height ≡ h)
        × IsPlainRaster bytes.now w h b.rows)
        (λ f. (8 * length bytes.now < w * h) × (f ≡ Short)) }
{
    let size = w as usize * h as usize;
    if bytes.len() < size.div_ceil(8) {
        return Err(RunFault::Short);
    }
    if w < 64 {
        return Ok(paint_narrow_rows(bits, w, h, bytes));
    }
    for place in 0..size {
        paint_place(&mut bits, w as usize, bytes, place);
    }
    Ok(bits)
}

// Paints the pixel at a place, counted row after row.
fn paint_place(bits: &mut PackedBitmap, w: usize, bytes: &[u8], place: usize)
    requires some { 1 ≤ w }
    requires wide { bits.old.width ≡ w }
    requires inside { place < w * bits.old.height }
    requires enough { place < 8 * length bytes.now }
    requires few { place < 2 ^ 32 }
    ensures { bits.new ≡ if pixel bytes.now place then with_black bits.old (place % w) (place % w
        + 1) (place / w) (place / w + 1) else bits.old }
{
    if is_black(bytes, place) {
        let x = place % w;
        let y = place / w;
        let columns = Span {
            from: x,
            until: x + 1,
        };
        let rows = Span {
            from: y,
            until: y + 1,
        };
        bits.blacken(columns, rows);
    }
}

// The same where a row fits in a word: row after row.
fn paint_narrow_rows(mut bits: PackedBitmap, w: u32, h: u32, bytes: &[u8]) -> PackedBitmap
    requires narrow { w < 64 }
    requires short { h ≤ MAX_GLYPH_SIDE }
    requires white { bits ≡ white_bitmap w h }
    requires enough { w * h ≤ 8 * length bytes.now }
    ensures wide { result.width ≡ w }
    ensures high { result.height ≡ h }
    ensures rows { IsPlainRaster bytes.now w h result.rows }
{
    for y in 0..h as usize {
        let word = plain_word(bytes, y * w as usize, w);
        let row = Span {
            from: y,
            until: y + 1,
        };
        bits.join_rows(word, row);
    }
    bits
}

// n pixels from a place on, as a word: byte by byte.
fn plain_word(bytes: &[u8], place: usize, w: u32) -> u64
    requires narrow { w < 64 }
    requires few { place < 2 ^ 32 }
    requires enough { place + w ≤ 8 * length bytes.now }
    ensures { (i : ℕ) → i < 64 → word_pixel result i ≡ (nat_lt i w && pixel bytes.now (place + i)) }
{
    let mut word = 0;
    let mut x = 0;
    while x < w {
        let at = place + x as usize;
        word |= byte_pixels(bytes, at, x);
        x += 8 - (at % 8) as u32;
    }
    prefix(word, w)
}

// The pixels from a place on to the end of its byte, as those of a word from pixel `x` on.
#[inline(always)]
fn byte_pixels(bytes: &[u8], place: usize, x: u32) -> u64
    requires few { x < 64 }
    requires inside { place < 8 * length bytes.now }
    ensures { (i : ℕ) → i < 64 → word_pixel result i
        ≡ (is_within x (x + (8 - place % 8)) i && pixel bytes.now (place + (i - x))) }
{
    u64::from(bytes[place / 8]) << (56 + place % 8) >> x
}
