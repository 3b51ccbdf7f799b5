//! Runs, painted row after row on a raster of less than sixty-four columns.

use crate::faults::RunFault;
use crate::row_words::{last, prefix, turned_from, word_of};
use packed_rows::{PackedBitmap, Span};
use std::marker::Model;

/// A `Painter` of a narrow raster: the pixels of the next row are kept in a word, and joined into
/// the raster when the row ends, with its copies. From the column on the word has the colour that
/// is due. A contract sees it as a `Painter`.
#[derive(Drop)]
pub struct NarrowPainter {
    bits: PackedBitmap,
    word: u64,
    row: u32,
    column: u32,
    copies: u32,
    repeated: bool,
}

impl Model for NarrowPainter {
    ghost use Rattle.std.specs.Prelude.{◌+◌};
    ghost use Rattle.packed_rows.specs.Joined.{with_word};
    ghost use Rattle.packed_rows.specs.Stamped.{word_pixel};
    ghost use Rattle.pk_runs.specs.Narrow.{IsAhead, IsKept, prefix};
    ghost use Rattle.pk_runs.specs.declared.painter.Painter.{Painter};

    ghost Value = { Painter };

    ghost view = { λ p. record {
      bits = with_word p.bits (prefix p.word p.column) p.row (p.row + 1);
      row = p.row;
      column = p.column;
      copies = p.copies;
      repeated = p.repeated;
      black = word_pixel p.word 63;
    } };

    ghost invariant = { λ p. IsKept p.bits (prefix p.word p.column) p.row p.column
        × IsAhead p.word p.column (word_pixel p.word 63) };
}

impl NarrowPainter {
    ghost use Rattle.std.specs.Prelude.{◌≡◌, ◌+◌, ◌-◌, ◌*◌, ◌^◌, ◌<◌, ◌≤◌, ◌++◌, ℕ, Bool, false, not, List, replicate, true, OnOk, IfErr};
    ghost use Rattle.pk_runs.specs.declared.faults.RunFault.TheVariants.{Overrun};
    ghost use Rattle.packed_rows.specs.Changes.{white_bitmap};
    ghost use Rattle.pk_runs.specs.Painting.{painted, row_ended, IsReady, IsDrawn};

    pub fn new(bits: PackedBitmap, black: bool) -> NarrowPainter
        requires narrow { bits.width < 64 }
        requires white { bits ≡ white_bitmap bits.width bits.height }
        ensures { result ≡ record {
          bits = bits;
          row = 0;
          column = 0;
          copies = 0;
          repeated = false;
          black = black;
        } }
    {
        NarrowPainter {
            bits,
            word: word_of(black),
            row: 0,
            column: 0,
            copies: 0,
            repeated: false,
        }
    }

    // Paints n pixels of the next row in the colour of the run.
    fn paint(&mut self, n: u32)
        requires { self.old.column + n ≤ self.old.bits.width }
        ensures { self.new ≡ painted self.old n }
    {
        self.column += n;
    }

    // Sets a row whose pixels are all painted, with its copies, and goes on below them.
    fn end_row(&mut self)
        requires short { self.old.bits.height < 2 ^ 16 }
        requires low { self.old.row + self.old.copies < self.old.bits.height }
        ensures { self.new ≡ row_ended self.old }
    {
        let below = self.row as usize + 1 + self.copies as usize;
        let rows = Span {
            from: self.row as usize,
            until: below,
        };
        self.bits.join_rows(prefix(self.word, self.column), rows);
        self.word = word_of(last(self.word));
        self.row = below as u32;
        self.column = 0;
        self.copies = 0;
        self.repeated = false;
    }

    // The next run has the other colour.
    fn turn(&mut self)
        ensures { self.new ≡ record self.old { black = not self.old.black } }
    {
        self.word = turned_from(self.word, self.column);
    }

    /// How many pixels of the next row aren't painted.
    pub fn left(&self) -> u32
        ensures value { result ≡ self.now.bits.width - self.now.column }
        ensures inside { self.now.column ≤ self.now.bits.width }
    {
        self.bits.width() - self.column
    }

    /// Paints a run that ends within the next row. The next run has the other colour.
    pub fn run_within(&mut self, n: u32)
        requires { self.old.column + n ≤ self.old.bits.width }
        ensures { self.new ≡ record (painted self.old n) { black = not self.old.black } }
    {
        self.paint(n);
        self.turn();
    }

    /// Paints a run of n pixels in the colour that is due, over row ends. The next run has the
    /// other colour. `Overrun` where runs don't have n pixels to give: then only the rows that they
    /// have are painted.
    pub fn run(&mut self, n: u64) -> Result<(), RunFault>
        requires short { self.old.bits.height < 2 ^ 16 }
        requires inside { self.old.column < self.old.bits.width }
        requires ready { IsReady self.old }
        requires low { self.old.row < self.old.bits.height }
        ensures ready { IsReady self.new }
        ensures wide { self.new.bits.width ≡ self.old.bits.width }
        ensures high { self.new.bits.height ≡ self.old.bits.height }
        ensures turned { OnOk result (self.new.black ≡ not self.old.black) }
        ensures drawn { OnOk result ((ps : List Bool) (copies_of : ℕ → ℕ) (is_repeated : ℕ → Bool) →
            IsDrawn ps copies_of is_repeated self.old.bits.width self.old.bits.height self.old →
            IsDrawn (ps ++ replicate n self.old.black) copies_of is_repeated self.old.bits.width
            self.old.bits.height self.new) }
        ensures room { OnOk result (n ≤ (self.old.bits.width - self.old.column)
            + self.old.bits.width * (self.old.bits.height - (self.old.row + 1 + self.old.copies))) }
        ensures overrun { IfErr result (λ fault. (fault ≡ Overrun)
            × ((self.old.bits.width - self.old.column)
            + self.old.bits.width * (self.old.bits.height - (self.old.row + 1 + self.old.copies))
            < n)) }
    {
        let mut left = n;
        while left >= u64::from(self.left()) {
            let piece = self.left();
            self.paint(piece);
            self.end_row();
            left -= u64::from(piece);
            if left > 0 && self.row == self.bits.height() {
                return Err(RunFault::Overrun);
            }
        }
        self.run_within(left as u32);
        Ok(())
    }

    /// Takes a repeat count for the next row.
    pub fn repeat(&mut self, n: u32)
        ensures { self.new ≡ record self.old { copies = n; repeated = true } }
    {
        self.copies = n;
        self.repeated = true;
    }

    /// How many rows are complete.
    pub fn row(&self) -> u32
        ensures { result ≡ self.now.row }
    {
        self.row
    }

    /// Whether the next row has a repeat count.
    pub fn is_repeated(&self) -> bool
        ensures { result ≡ self.now.repeated }
    {
        self.repeated
    }

    /// How many rows there are below the next one.
    pub fn rows_below(&self) -> u32
        requires { self.now.row < self.now.bits.height }
        ensures { result ≡ self.now.bits.height - self.now.row - 1 }
    {
        self.bits.height() - self.row - 1
    }

    /// The raster.
    pub fn finish(mut self) -> PackedBitmap
        requires { self.row ≤ self.bits.height }
        ensures { result ≡ self.bits }
    {
        let until = self.bits.height().min(self.row + 1);
        let rows = Span {
            from: self.row as usize,
            until: until as usize,
        };
        self.bits.join_rows(prefix(self.word, self.column), rows);
        self.bits
    }
}
