//! Runs, painted row after row.

use packed_rows::{PackedBitmap, Span};

/// A raster of which some runs are painted: whole rows, a part of the next one, and white below.
#[derive(Drop)]
pub struct Painter {
    /// The raster so far.
    pub bits: PackedBitmap,
    /// How many of its rows are complete.
    pub row: u32,
    /// How many pixels of the next row are painted.
    pub column: u32,
    /// How often the next row is repeated.
    pub copies: u32,
    /// Whether the next row has a repeat count.
    pub repeated: bool,
    /// Whether the next run is black.
    pub black: bool,
}

impl Painter {
    ghost use Rattle.std.specs.Prelude.{◌≡◌, ◌+◌, ◌*◌, ◌^◌, ◌<◌, ◌≤◌, ◌++◌, ℕ, Bool, true, false, not, List, replicate, ◌-◌, IsTrue, ◌↔◌};
    ghost use Rattle.pk_runs.specs.Painting.{painted, row_ended, IsReady, IsDrawn};

    pub fn new(bits: PackedBitmap, black: bool) -> Painter
        ensures { result ≡ record {
          bits = bits;
          row = 0;
          column = 0;
          copies = 0;
          repeated = false;
          black = black;
        } }
    {
        Painter {
            bits,
            row: 0,
            column: 0,
            copies: 0,
            repeated: false,
            black,
        }
    }

    // Paints n pixels of the next row in the colour of the run.
    fn paint(&mut self, n: u32)
        requires narrow { self.old.bits.width < 2 ^ 16 }
        requires inside { self.old.column + n ≤ self.old.bits.width }
        requires low { self.old.row < self.old.bits.height }
        ensures { self.new ≡ painted self.old n }
    {
        if self.black {
            let from = self.column as usize;
            let row = self.row as usize;
            let columns = Span {
                from,
                until: from + n as usize,
            };
            let rows = Span {
                from: row,
                until: row + 1,
            };
            self.bits.blacken(columns, rows);
        }
        self.column += n;
    }

    // Makes the copies of a row whose pixels are all painted, and goes on below them.
    fn end_row(&mut self)
        requires short { self.old.bits.height < 2 ^ 16 }
        requires low { self.old.row + self.old.copies < self.old.bits.height }
        ensures { self.new ≡ row_ended self.old }
    {
        self.bits.copy_down(self.row as usize, self.copies as usize);
        self.row += 1 + self.copies;
        self.column = 0;
        self.copies = 0;
        self.repeated = false;
    }

    // Paints the last n pixels of a run, which end within the next row. The next run has the other
    // colour.
    fn end_run(&mut self, n: u32)
        requires narrow { self.old.bits.width < 2 ^ 16 }
        requires inside { self.old.column + n ≤ self.old.bits.width }
        requires low { 0 < n → self.old.row < self.old.bits.height }
        ensures none { n ≡ 0 → self.new ≡ record self.old { black = not self.old.black } }
        ensures some { 0 < n
            → self.new ≡ record (painted self.old n) { black = not self.old.black } }
    {
        if n > 0 {
            self.paint(n);
        }
        self.black = !self.black;
    }

    /// How many pixels of the next row aren't painted.
    pub fn left(&self) -> u32
        requires { self.now.column ≤ self.now.bits.width }
        ensures { result ≡ self.now.bits.width - self.now.column }
    {
        self.bits.width() - self.column
    }

    /// Paints a run of n pixels in the colour that is due, over row ends. The next run has the
    /// other colour.
    pub fn run(&mut self, n: u32)
        requires narrow { self.old.bits.width < 2 ^ 16 }
        requires short { self.old.bits.height < 2 ^ 16 }
        requires inside { self.old.column < self.old.bits.width }
        requires ready { IsReady self.old }
        requires room { n + self.old.column + self.old.bits.width * self.old.copies
            + self.old.bits.width * self.old.row
            ≤ self.old.bits.width * self.old.bits.height }
        ensures turned { self.new.black ≡ not self.old.black }
        ensures ready { IsReady self.new }
        ensures wide { self.new.bits.width ≡ self.old.bits.width }
        ensures high { self.new.bits.height ≡ self.old.bits.height }
        ensures drawn { (ps : List Bool) (copies_of : ℕ → ℕ) (is_repeated : ℕ → Bool) →
            IsDrawn ps copies_of is_repeated self.old.bits.width self.old.bits.height self.old →
            IsDrawn (ps ++ replicate n self.old.black) copies_of is_repeated self.old.bits.width
            self.old.bits.height self.new }
    {
        let mut left = n;
        while left >= self.left() {
            let piece = self.left();
            self.paint(piece);
            self.end_row();
            left -= piece;
        }
        self.end_run(left);
    }

    /// Takes a repeat count for the next row.
    pub fn repeat(&mut self, n: u32)
        ensures { self.new ≡ record self.old { copies = n; repeated = true } }
    {
        self.copies = n;
        self.repeated = true;
    }

    /// Whether runs still have n pixels to give.
    pub fn has_room(&self, n: u64) -> bool
        requires narrow { self.now.bits.width < 2 ^ 16 }
        requires short { self.now.bits.height < 2 ^ 16 }
        requires inside { self.now.column < self.now.bits.width }
        requires fit { self.now.row + 1 + self.now.copies ≤ self.now.bits.height }
        ensures { IsTrue result ↔ n ≤ (self.now.bits.width - self.now.column)
            + self.now.bits.width * (self.now.bits.height - (self.now.row + 1 + self.now.copies)) }
    {
        let left = self.left();
        if n < u64::from(left) {
            return true;
        }
        let rows = self.bits.height() - (self.row + 1 + self.copies);
        n <= u64::from(left + self.bits.width() * rows)
    }

    /// The raster.
    pub fn finish(self) -> PackedBitmap
        ensures { result ≡ self.bits }
    {
        let Painter {
            bits,
            row: _,
            column: _,
            copies: _,
            repeated: _,
            black: _,
        } = self;
        bits
    }
}
