//! A raster from given rows.

ghost use Rattle.std.specs.Prelude.{◌≡◌, ◌+◌, ◌*◌, ◌/◌, ◌%◌, ◌^◌, ◌<◌, ◌≤◌, ℕ, [], length, map, slice_index_or, if◌then◌else◌};
ghost use Rattle.packed_rows.specs.Changes.{white_bitmap, with_black};
ghost use Rattle.pk_runs.specs.Given.{rows_width, bitmap_of_rows, pixel_at};
ghost use Rattle.pk_runs.specs.Limits.{MAX_GLYPH_SIDE};

use packed_rows::{PackedBitmap, Span};

/// How long the rows are.
pub fn row_len(rows: &[Vec<bool>]) -> usize
    ensures { result ≡ rows_width (map (λ row. row.items) rows.now) }
{
    match rows {
        [] => 0,
        [first, ..] => first.len(),
    }
}

/// Paints rows on a white raster of their size.
pub fn paint_rows(bits: &mut PackedBitmap, rows: &[Vec<bool>], w: usize)
    requires size { w ≡ rows_width (map (λ row. row.items) rows.now) }
    requires narrow { w ≤ MAX_GLYPH_SIDE }
    requires low { length rows.now ≤ MAX_GLYPH_SIDE }
    requires equal { (y : ℕ) → y < length rows.now
        → length (slice_index_or (map (λ row. row.items) rows.now) y []) ≡ w }
    requires white { bits.old ≡ white_bitmap w (length rows.now) }
    ensures { bits.new ≡ bitmap_of_rows (map (λ row. row.items) rows.now) }
{
    for place in 0..w * rows.len() {
        paint_given(bits, rows, w, place);
    }
}

// Paints the pixel at a place, counted row after row.
fn paint_given(bits: &mut PackedBitmap, rows: &[Vec<bool>], w: usize, place: usize)
    requires some { 1 ≤ w }
    requires wide { bits.old.width ≡ w }
    requires high { bits.old.height ≡ length rows.now }
    requires equal { (y : ℕ) → y < length rows.now
        → length (slice_index_or (map (λ row. row.items) rows.now) y []) ≡ w }
    requires inside { place < w * length rows.now }
    requires few { place < 2 ^ 32 }
    ensures { bits.new ≡ if pixel_at w (map (λ row. row.items) rows.now) place
        then with_black bits.old (place % w) (place % w + 1) (place / w) (place / w + 1)
        else bits.old }
{
    let x = place % w;
    let y = place / w;
    let row = &rows[y];
    if row[x] {
        let columns = Span {
            from: x,
            until: x + 1,
        };
        let lines = Span {
            from: y,
            until: y + 1,
        };
        bits.blacken(columns, lines);
    }
}
