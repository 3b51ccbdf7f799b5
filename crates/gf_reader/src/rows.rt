//! Rows of a character, of paints of one byte each.
ghost use Rattle.std.specs.Prelude.{◌≡◌, ◌≤◌, ◌<◌, ◌&&◌, ◌||◌, ℕ, length};
ghost use Rattle.packed_rows.specs.Changes.{is_within};
ghost use Rattle.packed_rows.specs.Joined.{IsWhiteFrom};
ghost use Rattle.packed_rows.specs.Stamped.{word_pixel};
ghost use Rattle.pk_runs.specs.Limits.{MAX_GLYPH_SIDE};
ghost use Rattle.gf_reader.specs.Reading.{Reads};

use crate::drawing::Drawing;
use crate::items::Items;
use packed_rows::Span;

// The word with the pixels from `from` on and before `until` in a colour, which were white.
#[inline(always)]
fn painted(word: u64, black: bool, from: u32, until: u32) -> u64
    requires ordered { from ≤ until }
    requires few { until < 64 }
    requires white { IsWhiteFrom from word }
    ensures { (i : ℕ) → i < 64 → word_pixel result i ≡ (black && is_within from until i
        || word_pixel word i) }
{
    if black {
        word ^ (u64::MAX >> from) ^ (u64::MAX >> until)
    } else {
        word
    }
}

impl Drawing {
    /// Carries out the paints and the new rows of one byte each that come next, as far as they lie
    /// within the raster. What else comes is left to `command`, also a fault.
    pub fn short_commands(&mut self, items: &mut Items)
        requires narrow { self.old.bits.width ≤ MAX_GLYPH_SIDE }
        requires low { self.old.bits.height ≤ MAX_GLYPH_SIDE }
        requires column { self.old.column ≤ self.old.bits.width }
        requires row { self.old.row ≤ self.old.bits.height }
        ensures wide { self.new.bits.width ≡ self.old.bits.width }
        ensures high { self.new.bits.height ≡ self.old.bits.height }
        ensures column { self.new.column ≤ self.new.bits.width }
        ensures row { self.new.row ≤ self.new.bits.height }
        ensures fewer { length items.new ≤ length items.old }
        ensures read { Reads items.old self.old items.new self.new }
    {
        'rows: while self.row < self.bits.height() {
            if self.bits.width() < 64 {
                self.narrow_paints(items);
            } else {
                self.wide_paints(items);
            }
            let Some(column) = items.new_row() else {
                return;
            };
            self.move_to(1, column, true);
        }
    }

    // Carries out paints in a row of less than sixty-four pixels, which are gathered in a word.
    #[inline(always)]
    fn narrow_paints(&mut self, items: &mut Items)
        requires narrow { self.old.bits.width < 64 }
        requires low { self.old.bits.height ≤ MAX_GLYPH_SIDE }
        requires column { self.old.column ≤ self.old.bits.width }
        requires row { self.old.row < self.old.bits.height }
        ensures wide { self.new.bits.width ≡ self.old.bits.width }
        ensures high { self.new.bits.height ≡ self.old.bits.height }
        ensures column { self.new.column ≤ self.new.bits.width }
        ensures row { self.new.row ≡ self.old.row }
        ensures fewer { length items.new ≤ length items.old }
        ensures read { Reads items.old self.old items.new self.new }
    {
        let width = self.bits.width();
        let mut word = 0;
        let mut column = self.column;
        let mut black = self.black;
        'paints: while let Some(n) = items.short_paint(width - column) {
            word = painted(word, black, column, column + n);
            column += n;
            black = !black;
        }
        let row = self.row as usize;
        let rows = Span {
            from: row,
            until: row + 1,
        };
        self.bits.join_rows(word, rows);
        self.column = column;
        self.black = black;
    }

    // Carries out paints in a wider row.
    fn wide_paints(&mut self, items: &mut Items)
        requires narrow { self.old.bits.width ≤ MAX_GLYPH_SIDE }
        requires low { self.old.bits.height ≤ MAX_GLYPH_SIDE }
        requires column { self.old.column ≤ self.old.bits.width }
        requires row { self.old.row < self.old.bits.height }
        ensures wide { self.new.bits.width ≡ self.old.bits.width }
        ensures high { self.new.bits.height ≡ self.old.bits.height }
        ensures column { self.new.column ≤ self.new.bits.width }
        ensures row { self.new.row ≡ self.old.row }
        ensures fewer { length items.new ≤ length items.old }
        ensures read { Reads items.old self.old items.new self.new }
    {
        'paints: while let Some(n) = items.short_paint(self.bits.width() - self.column) {
            self.paint(n);
        }
    }
}
