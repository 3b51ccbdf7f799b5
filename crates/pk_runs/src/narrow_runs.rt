//! A narrow raster from its runs.

ghost use Rattle.std.specs.Prelude.{◌≡◌, ◌^◌, ◌<◌, ◌≤◌, ℕ, Bool, List, length, MatchResult, OnOk};
ghost use Rattle.packed_rows.specs.Changes.{white_bitmap};
ghost use Rattle.pk_runs.specs.Narrow.{IsNextItem};
ghost use Rattle.pk_runs.specs.Painting.{IsReady};
ghost use Rattle.pk_runs.specs.Raster.{IsRunRaster, IsStuck};
ghost use Rattle.pk_runs.specs.Reading.{IsPaintedTo};
ghost use Rattle.pk_runs.specs.Limits.{MAX_GLYPH_SIDE};

use crate::faults::RunFault;
use crate::items::{PackedNumber, next_item};
use crate::narrow::NarrowPainter;
use crate::nybbles::Nybbles;
use packed_rows::PackedBitmap;

// Reads and paints the runs that end within the next row, and gives the item after them.
fn runs_in_row(
    painter: &mut NarrowPainter,
    nybbles: &mut Nybbles,
    dyn_f: u8,
) -> Result<PackedNumber, RunFault>
    requires runs { dyn_f ≤ 13 }
    requires narrow { painter.old.bits.width ≤ MAX_GLYPH_SIDE }
    requires short { painter.old.bits.height ≤ MAX_GLYPH_SIDE }
    requires inside { painter.old.column < painter.old.bits.width }
    requires ready { IsReady painter.old }
    requires low { painter.old.row < painter.old.bits.height }
    ensures inside { painter.new.column < painter.new.bits.width }
    ensures ready { IsReady painter.new }
    ensures low { painter.new.row < painter.new.bits.height }
    ensures wide { painter.new.bits.width ≡ painter.old.bits.width }
    ensures high { painter.new.bits.height ≡ painter.old.bits.height }
    ensures fewer { OnOk result (length nybbles.new < length nybbles.old) }
    ensures painted { (bytes : List ℕ) (first : Bool) →
        IsPaintedTo bytes dyn_f first painter.old.bits.width painter.old.bits.height nybbles.old
        painter.old →
        MatchResult result (IsNextItem bytes dyn_f first painter.old.bits.width
        painter.old.bits.height nybbles.new painter.new)
        (IsStuck bytes dyn_f painter.old.bits.width painter.old.bits.height) }
{
    loop {
        let item = next_item(nybbles, dyn_f, painter.row(), painter.is_repeated())?;
        let PackedNumber::Run(n) = item else {
            return Ok(item);
        };
        if n >= u64::from(painter.left()) {
            return Ok(item);
        }
        painter.run_within(n as u32);
    }
}

// Reads and paints runs to a row's end, or takes one repeat count.
fn step(painter: &mut NarrowPainter, nybbles: &mut Nybbles, dyn_f: u8) -> Result<(), RunFault>
    requires runs { dyn_f ≤ 13 }
    requires narrow { painter.old.bits.width ≤ MAX_GLYPH_SIDE }
    requires short { painter.old.bits.height ≤ MAX_GLYPH_SIDE }
    requires inside { painter.old.column < painter.old.bits.width }
    requires ready { IsReady painter.old }
    requires low { painter.old.row < painter.old.bits.height }
    ensures ready { IsReady painter.new }
    ensures wide { painter.new.bits.width ≡ painter.old.bits.width }
    ensures high { painter.new.bits.height ≡ painter.old.bits.height }
    ensures fewer { OnOk result (length nybbles.new < length nybbles.old) }
    ensures painted { (bytes : List ℕ) (first : Bool) →
        IsPaintedTo bytes dyn_f first painter.old.bits.width painter.old.bits.height nybbles.old
        painter.old →
        MatchResult result
        (λ _. IsPaintedTo bytes dyn_f first painter.old.bits.width painter.old.bits.height
        nybbles.new painter.new)
        (IsStuck bytes dyn_f painter.old.bits.width painter.old.bits.height) }
{
    match runs_in_row(painter, nybbles, dyn_f)? {
        PackedNumber::Run(n) => {
            painter.run(n)?;
        }
        PackedNumber::Repeat(n) => {
            if n > u64::from(painter.rows_below()) {
                return Err(RunFault::TooManyRows);
            }
            painter.repeat(n as u32);
        }
    }
    Ok(())
}

/// Paints the runs that the bytes spell on a white raster of less than sixty-four columns, until it
/// is complete.
pub fn paint_narrow(
    bits: PackedBitmap,
    w: u32,
    h: u32,
    bytes: &[u8],
    dyn_f: u8,
    black: bool,
) -> Result<PackedBitmap, RunFault>
    requires runs { dyn_f ≤ 13 }
    requires some { 1 ≤ w }
    requires narrow { w < 64 }
    requires short { h ≤ MAX_GLYPH_SIDE }
    requires white { bits ≡ white_bitmap w h }
    ensures { MatchResult result
        (λ b. (b.width ≡ w) × (b.height ≡ h) × IsRunRaster bytes.now dyn_f black w h b.rows)
        (IsStuck bytes.now dyn_f w h) }
{
    let mut painter = NarrowPainter::new(bits, black);
    let mut nybbles = Nybbles::new(bytes);
    while painter.row() < h {
        step(&mut painter, &mut nybbles, dyn_f)?;
    }
    Ok(painter.finish())
}
