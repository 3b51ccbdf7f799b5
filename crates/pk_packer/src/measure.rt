//! The runs of a raster, measured and written.

ghost use Rattle.std.specs.Prelude.{◌≡◌, ◌<◌, ◌≤◌, ℕ, [], IfOk, slice_index};
ghost use Rattle.pk_runs.specs.Limits.{MAX_GLYPH_SIDE};
ghost use Rattle.pk_packer.specs.Choice.{length_of};
ghost use Rattle.pk_packer.specs.Kept.{AreKept, with_runs};
ghost use Rattle.pk_packer.specs.Spelling.{HoldNybbles, items_text};
ghost use Rattle.pk_packer.specs.Written.{pixel_rows, written_runs};

use crate::counted::CountedRun;
use crate::kept::Kept;
use crate::lengths::Lengths;
use crate::nybbles::Nybbles;
use crate::places::row_begin;
use crate::runs::next_run;
use crate::tally::Tally;
use crate::writer::write_run;
use packed_rows::PackedBitmap;
use std::alloc::{AllocError as NoMemory, Global};

/// The length of the runs by each `dyn_f`. The runs are kept, as far as there is room.
#[inline(never)]
pub fn lengths_of(bits: &PackedBitmap, kept: &mut Kept) -> Lengths
    requires none { AreKept kept.old [] }
    requires narrow { bits.now.width ≤ MAX_GLYPH_SIDE }
    requires short { bits.now.height ≤ MAX_GLYPH_SIDE }
    ensures lengths { (f : ℕ) → f < 14 → slice_index result f ≡ length_of bits.now f }
    ensures kept { AreKept kept.new (written_runs (pixel_rows bits.now)) }
{
    let mut tally = Tally::none();
    if bits.width() == 0 {
        return tally.lengths();
    }
    let mut place = row_begin(bits, 0);
    while let Some(step) = next_run(bits, place) {
        tally.add(step.count, step.len);
        kept.keep(CountedRun {
            count: step.count,
            len: step.len,
        });
        place = step.after;
    }
    tally.lengths()
}

/// Runs in nybbles, joined into bytes; `size` is how many bytes to make room for.
#[inline(never)]
pub fn kept_in_bytes(
    alloc: Global,
    runs: &[CountedRun],
    dyn_f: u8,
    size: usize,
) -> Result<Vec<u8>, NoMemory>
    requires { dyn_f ≤ 13 }
    ensures { IfOk result (λ bytes. HoldNybbles bytes.items
        (items_text dyn_f (with_runs [] runs.now))) }
{
    let mut out = Nybbles::new(alloc, size)?;
    for i in 0..runs.len() {
        let run = runs[i];
        write_run(&mut out, dyn_f, run.count, run.len)?;
    }
    out.finish()
}

/// The runs of a raster in nybbles, joined into bytes; `size` is how many bytes to make room for.
#[inline(never)]
pub fn runs_in_bytes(
    alloc: Global,
    bits: &PackedBitmap,
    dyn_f: u8,
    size: usize,
) -> Result<Vec<u8>, NoMemory>
    requires form { dyn_f ≤ 13 }
    requires narrow { bits.now.width ≤ MAX_GLYPH_SIDE }
    requires short { bits.now.height ≤ MAX_GLYPH_SIDE }
    ensures { IfOk result (λ bytes. HoldNybbles bytes.items
        (items_text dyn_f (written_runs (pixel_rows bits.now)))) }
{
    let mut out = Nybbles::new(alloc, size)?;
    if bits.width() == 0 {
        return out.finish();
    }
    let mut place = row_begin(bits, 0);
    while let Some(step) = next_run(bits, place) {
        write_run(&mut out, dyn_f, step.count, step.len)?;
        place = step.after;
    }
    out.finish()
}
