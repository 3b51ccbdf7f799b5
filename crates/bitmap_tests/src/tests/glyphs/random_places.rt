//! Glyphs and rules at random places, compared with painting dot by dot.

ghost use Rattle.std.specs.Prelude.{◌<◌, ◌≤◌, unsigned_abs};

use super::rows_of;
use glyph_paint::paint;
use pk_runs::{Raster, RunStop, raster};
use raster_page::Page;
use std::alloc::Global;
use std::test::Fail;

const WIDTH: u32 = 150;

const HEIGHT: u32 = 12;

const ROW_BYTES: usize = 19;

// The bytes of all rows, one after another.
type Slow = [u8; 228];

// Numbers that look random: a linear congruence with Knuth's multiplier, of MMIX.
#[derive(Drop)]
struct Random {
    state: u64,
}

impl Random {
    // A number below `n`.
    fn below(&mut self, n: u64) -> u64
        requires { 0 < n }
        ensures { result < n }
    {
        let state = self.state.wrapping_mul(6364136223846793005);
        self.state = state.wrapping_add(1442695040888963407);
        (self.state >> 33) % n
    }

    // Makes all bytes random.
    fn fill(&mut self, bytes: &mut [u8]) {
        for byte in bytes {
            *byte = self.below(256) as u8;
        }
    }
}

// A width, a height, a column and a row.
type Mark = (u32, u32, i64, i64);

// A glyph or a rule of up to 199 columns, over any edge of the page.
fn wide_mark(random: &mut Random) -> Mark
    ensures sides { (result.0 < 200) × (result.1 < 200) }
    ensures place { (unsigned_abs result.2 ≤ 200) × (unsigned_abs result.3 ≤ 200) }
{
    let w = random.below(200) as u32;
    let h = random.below(9) as u32;
    let x = random.below(400) as i64 - 200;
    let y = random.below(30) as i64 - 12;
    (w, h, x, y)
}

// A glyph of up to 59 columns near the page.
fn narrow_mark(random: &mut Random) -> Mark
    ensures sides { (result.0 < 200) × (result.1 < 200) }
    ensures place { (unsigned_abs result.2 ≤ 200) × (unsigned_abs result.3 ≤ 200) }
{
    let w = random.below(60) as u32;
    let h = random.below(9) as u32;
    let x = random.below(100) as i64 - 4;
    let y = random.below(12) as i64 - 1;
    (w, h, x, y)
}

// Makes a dot black.
fn dot_slowly(slow: &mut Slow, column: u32, row: u32)
    requires across { column < 150 }
    requires down { row < 12 }
{
    slow[row as usize * ROW_BYTES + column as usize / 8] |= 0x80 >> (column % 8);
}

// Whether the raster has a black pixel in a column and a row, which may lie beside it.
fn is_black(glyph: &Raster, column: i64, row: i64) -> bool {
    0 <= column
        && column < i64::from(glyph.width())
        && 0 <= row
        && row < i64::from(glyph.height())
        && glyph.black(column as u32, row as u32)
}

// Makes the dots under the black pixels of a raster black, one by one.
fn paint_slowly(slow: &mut Slow, glyph: &Raster, x: i64, y: i64)
    requires left { unsigned_abs x ≤ 200 }
    requires top { unsigned_abs y ≤ 200 }
{
    for row in 0..HEIGHT {
        for column in 0..WIDTH {
            if is_black(glyph, i64::from(column) - x, i64::from(row) - y) {
                dot_slowly(slow, column, row);
            }
        }
    }
}

// Makes the dots of a rule black, one by one.
fn rule_slowly(slow: &mut Slow, mark: Mark)
    requires place { (unsigned_abs mark.2 ≤ 200) × (unsigned_abs mark.3 ≤ 200) }
{
    let (w, h, x, y) = mark;
    for row in 0..HEIGHT {
        for column in 0..WIDTH {
            let across = i64::from(column) - x;
            let down = i64::from(row) - y;
            if 0 <= across && across < i64::from(w) && 0 <= down && down < i64::from(h) {
                dot_slowly(slow, column, row);
            }
        }
    }
}

// A glyph by both ways.
fn paint_both(
    alloc: Global,
    page: &mut Page,
    slow: &mut Slow,
    bytes: &[u8],
    mark: Mark,
) -> Result<(), RunStop>
    requires sides { (mark.0 < 200) × (mark.1 < 200) }
    requires place { (unsigned_abs mark.2 ≤ 200) × (unsigned_abs mark.3 ≤ 200) }
{
    let (w, h, x, y) = mark;
    let glyph = raster(alloc, bytes, 14, true, w, h)?;
    paint(page, &glyph, x, y);
    paint_slowly(slow, &glyph, x, y);
    Ok(())
}

// A rule by both ways.
fn rule_both(page: &mut Page, slow: &mut Slow, mark: Mark)
    requires sides { (mark.0 < 200) × (mark.1 < 200) }
    requires place { (unsigned_abs mark.2 ≤ 200) × (unsigned_abs mark.3 ≤ 200) }
{
    page.rule(mark.2, mark.3, i64::from(mark.0), i64::from(mark.1));
    rule_slowly(slow, mark);
}

// Two glyphs of up to 25 bytes a row and a rule, at all shifts and over all edges.
fn wide_page(alloc: Global, page: &mut Page, random: &mut Random) -> Result<Slow, RunStop> {
    let mut slow = [0u8; 228];
    for number in 0..3 {
        let mut bytes = [0u8; 200];
        random.fill(&mut bytes);
        let mark = wide_mark(random);
        if number == 2 {
            rule_both(page, &mut slow, mark);
        } else {
            paint_both(alloc, page, &mut slow, &bytes, mark)?;
        }
    }
    Ok(slow)
}

// Three glyphs: about three in five are narrow and have room on the page, at all shifts and with up
// to eight rows, and are set by the short way; the others lie over an edge.
fn narrow_page(alloc: Global, page: &mut Page, random: &mut Random) -> Result<Slow, RunStop> {
    let mut slow = [0u8; 228];
    for _ in 0..3 {
        let mut bytes = [0u8; 64];
        random.fill(&mut bytes);
        let mark = narrow_mark(random);
        paint_both(alloc, page, &mut slow, &bytes, mark)?;
    }
    Ok(slow)
}

// The first of so many pages that isn't as it is dot by dot.
fn other_page(alloc: Global, narrow: bool, rounds: u32, seed: u64) -> Result<Option<u32>, Fail> {
    let mut random = Random { state: seed };
    for round in 0..rounds {
        let mut page = Page::blank(alloc, WIDTH, HEIGHT)?;
        let slow = if narrow {
            narrow_page(alloc, &mut page, &mut random)?
        } else {
            wide_page(alloc, &mut page, &mut random)?
        };
        if rows_of(alloc, &page)?.as_slice() != slow.as_slice() {
            return Ok(Some(round));
        }
    }
    Ok(None)
}

// Whether the glyphs are narrow, how many pages, and where the random numbers begin.
static ROWS: [(bool, u32, u64); 2] = [(false, 300, 1), (true, 200, 2)];

#[test]
fn as_dot_by_dot(rt: HostRuntime) -> Result<(), Fail> {
    for (narrow, rounds, seed) in ROWS.iter() {
        let other = other_page(rt.alloc(), *narrow, *rounds, *seed)?;
        assert_eq!(rt; other, None, "narrow: {narrow}");
    }
    Ok(())
}
