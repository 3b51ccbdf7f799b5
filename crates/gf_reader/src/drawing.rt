//! A character that is drawn.
ghost use Rattle.std.specs.Prelude.{◌≡◌, Some, ◌≤◌, ◌≤ℤ◌, ◌<◌, ◌+◌, ◌^◌, ◌&&◌, ◌||◌, ◌∷◌, [], IfOk, IsFalse, IsTrue, List, MatchResult, OnOk, ℕ, false, length, min, nat_le, nat_lt, neg_ℤ, not, pos, true};
ghost use Rattle.packed_rows.specs.Bitmap.{IsShaped};
ghost use Rattle.pk_runs.specs.Limits.{MAX_GLYPH_SIDE};
ghost use Rattle.gf_reader.specs.Characters.{Character, code_of, height_of, width_of};
ghost use Rattle.gf_reader.specs.Commands.{paint_length};
ghost use Rattle.gf_reader.specs.Faults.{is_outside};
ghost use Rattle.gf_reader.specs.Items.{IsItem, is_paint, opcode};
ghost use Rattle.gf_reader.specs.Painting.{after_move, after_paint};
ghost use Rattle.gf_reader.specs.FirstFault.{IsFirstFault};
ghost use Rattle.gf_reader.specs.Fonts.{Glyphs};
ghost use Rattle.gf_reader.specs.Reading.{IsAtEnd, IsDrawn, IsHeadOf, IsReadTo};
ghost use Rattle.gf_reader.specs.declared.faults.GfFault.TheVariants as fault;

use crate::GfFault;
use crate::fields::number_of;
use crate::head::{Head, Sides};
use crate::items::Items;
use crate::opcodes::{EOC, LAST_NEW_ROW, LAST_PAINT, LAST_SKIP, NEW_ROW, PAINT, SKIP};
use packed_rows::{PackedBitmap, Span};
use pk_runs::{Glyph, Raster};
use std::alloc::{AllocError as NoMemory, Global};

/// A character of which some commands are carried out. The row and the column of the next paint are
/// kept within the raster: beyond its end each black paint is outside, however far.
#[derive(Drop)]
pub struct Drawing {
    pub code: i32,
    pub hoff: i32,
    pub voff: i32,
    pub bits: PackedBitmap,
    pub row: u32,
    pub column: u32,
    /// Whether the next paint is black.
    pub black: bool,
}

impl Drawing {
    /// A character without commands.
    pub fn new(alloc: Global, head: &Head, sides: Sides) -> Result<Drawing, NoMemory>
        requires narrow { sides.width ≤ MAX_GLYPH_SIDE }
        requires low { sides.height ≤ MAX_GLYPH_SIDE }
        requires first { neg_ℤ (pos 2147483647) ≤ℤ head.now.min_m }
        ensures { IfOk result (λ d. (item : List ℕ) → IsHeadOf head.now item
            → sides.width ≡ width_of item → sides.height ≡ height_of item
            → IsDrawn (record { head = item; commands = [] }) d) }
    {
        Ok(Drawing {
            code: head.code,
            hoff: -head.min_m,
            voff: head.max_n,
            bits: PackedBitmap::white(alloc, sides.width, sides.height)?,
            row: 0,
            column: 0,
            black: false,
        })
    }

    // Whether a paint of n pixels would blacken one outside of the raster.
    fn is_outside(&self, n: u32) -> bool
        requires narrow { self.now.column ≤ MAX_GLYPH_SIDE }
        requires few { n < 2 ^ 24 }
        ensures { result ≡ (self.now.black && nat_lt 0 n
            && (nat_lt self.now.bits.width (self.now.column + n)
            || nat_le self.now.bits.height self.now.row)) }
    {
        self.black
            && n > 0
            && (self.column + n > self.bits.width() || self.row >= self.bits.height())
    }

    /// Gives n pixels of the row the colour that is due, and goes on behind them in the other.
    pub fn paint(&mut self, n: u32)
        requires column { self.old.column ≤ self.old.bits.width }
        requires row { self.old.row ≤ self.old.bits.height }
        requires narrow { self.old.bits.width ≤ MAX_GLYPH_SIDE }
        requires low { self.old.bits.height ≤ MAX_GLYPH_SIDE }
        requires few { n < 2 ^ 24 }
        requires inside { IsFalse (self.old.black && nat_lt 0 n
            && (nat_lt self.old.bits.width (self.old.column + n)
            || nat_le self.old.bits.height self.old.row)) }
        ensures { self.new ≡ after_paint self.old n }
    {
        let until = self.column + n;
        if self.black && n > 0 {
            let columns = Span {
                from: self.column as usize,
                until: until as usize,
            };
            let rows = Span {
                from: self.row as usize,
                until: self.row as usize + 1,
            };
            self.bits.blacken(columns, rows);
        }
        self.column = until.min(self.bits.width());
        self.black = !self.black;
    }

    /// Goes n rows down, to a column that is counted from the first.
    pub fn move_to(&mut self, n: u32, column: u32, black: bool)
        requires row { self.old.row ≤ MAX_GLYPH_SIDE }
        requires few { n ≤ 2 ^ 24 }
        ensures { self.new ≡ after_move self.old n column black }
    {
        self.row = (self.row + n).min(self.bits.height());
        self.column = column.min(self.bits.width());
        self.black = black;
    }

    /// Carries out a command, or tells that it paints outside of the raster.
    pub fn command(&mut self, item: &[u8]) -> Result<(), GfFault>
        requires item { IsItem true item.now }
        requires narrow { self.old.bits.width ≤ MAX_GLYPH_SIDE }
        requires low { self.old.bits.height ≤ MAX_GLYPH_SIDE }
        requires column { self.old.column ≤ self.old.bits.width }
        requires row { self.old.row ≤ self.old.bits.height }
        ensures wide { self.new.bits.width ≡ self.old.bits.width }
        ensures high { self.new.bits.height ≡ self.old.bits.height }
        ensures column { self.new.column ≤ self.new.bits.width }
        ensures row { self.new.row ≤ self.new.bits.height }
        ensures drawn { (ch : Character) → IsDrawn ch self.old →
            MatchResult result
            (λ _. IsDrawn (record { head = ch.head; commands = item.now ∷ ch.commands }) self.new
            × IsFalse (is_paint (opcode item.now) && is_outside ch item.now))
            (λ f. IsTrue (is_paint (opcode item.now) && is_outside ch item.now)
            × (f ≡ fault.Outside (code_of ch.head))) }
    {
        let op = item[0];
        if op <= LAST_PAINT {
            let n = paint_length(item);
            if self.is_outside(n) {
                return Err(GfFault::Outside(self.code));
            }
            self.paint(n);
        } else if SKIP <= op && op <= LAST_SKIP {
            self.move_to(1 + number_of(item), 0, false);
        } else if NEW_ROW <= op && op <= LAST_NEW_ROW {
            self.move_to(1, u32::from(op - NEW_ROW), true);
        }
        Ok(())
    }

    /// Carries out the commands up to the end of the character, which is read too, or tells the
    /// first fault.
    pub fn commands(&mut self, items: &mut Items) -> Result<(), GfFault>
        requires narrow { self.old.bits.width ≤ MAX_GLYPH_SIDE }
        requires low { self.old.bits.height ≤ MAX_GLYPH_SIDE }
        requires column { self.old.column ≤ self.old.bits.width }
        requires row { self.old.row ≤ self.old.bits.height }
        ensures fewer { OnOk result (length items.new ≤ length items.old) }
        ensures ended { (bytes : List ℕ) (sum : ℕ) (font : Glyphs) →
            IsReadTo bytes items.old sum font (Some self.old) →
            MatchResult result (λ _. IsAtEnd bytes items.new sum font self.new)
            (IsFirstFault bytes) }
    {
        self.short_commands(items);
        'commands: while let Some(item) = items.next(true)? {
            if item[0] == EOC {
                return Ok(());
            }
            self.command(item)?;
            self.short_commands(items);
        }
        Ok(())
    }

    /// The glyph.
    pub fn finish(self) -> Glyph
        requires narrow { self.bits.width ≤ MAX_GLYPH_SIDE }
        requires low { self.bits.height ≤ MAX_GLYPH_SIDE }
        requires shaped { IsShaped self.bits }
        ensures { result ≡ record { raster = self.bits; hoff = self.hoff; voff = self.voff } }
    {
        let Drawing {
            code: _,
            hoff,
            voff,
            bits,
            row: _,
            column: _,
            black: _,
        } = self;
        Glyph {
            raster: Raster::of_bits(bits),
            hoff,
            voff,
        }
    }
}

// How many pixels a paint gives a colour.
fn paint_length(item: &[u8]) -> u32
    requires item { IsItem true item.now }
    requires kind { IsTrue (is_paint (opcode item.now)) }
    ensures length { result ≡ paint_length item.now }
    ensures few { result < 2 ^ 24 }
{
    let op = item[0];
    if op < PAINT {
        u32::from(op)
    } else {
        number_of(item)
    }
}
