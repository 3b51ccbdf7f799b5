//! A raster, packed.

ghost use Rattle.std.specs.Prelude.{◌≡◌, ◌<◌, ◌≤◌, ℕ, IfOk, length, slice_index};
ghost use Rattle.pk_runs.specs.Limits.{MAX_GLYPH_SIDE};
ghost use Rattle.pk_runs.specs.Raster.{IsRaster};
ghost use Rattle.pk_packer.specs.Choice.{AreFewest, IsChosen, length_of};
ghost use Rattle.pk_packer.specs.Kept.{AreKept};
ghost use Rattle.pk_packer.specs.Spelling.{HoldNybbles, items_text};
ghost use Rattle.pk_packer.specs.Written.{first_colour, pixel_rows, written_runs};

use crate::kept::Kept;
use crate::lengths::Lengths;
use crate::measure::{kept_in_bytes, lengths_of, runs_in_bytes};
use crate::plain::{plain_bytes, plain_size};
use packed_rows::PackedBitmap;
use pk_runs::Raster;
use std::alloc::{AllocError as NoMemory, Global};

/// A packed raster: its bytes, the `dyn_f` that they are read by, 14 for a plain bitmap, and
/// whether the first run is black; and how many nybbles the runs take by each other `dyn_f`.
#[derive(Drop)]
pub struct Packed {
    pub dyn_f: u8,
    pub black: bool,
    pub bytes: Vec<u8>,
    pub lengths: Lengths,
}

/// The raster in the form that takes the fewest bytes: its runs by the least `dyn_f` by which they
/// are shortest, or the plain bitmap where that takes fewer. Read again, the bytes give the raster.
pub fn pack(alloc: Global, raster: &Raster) -> Result<Packed, NoMemory>
    ensures raster { IfOk result (λ p. IsRaster p.bytes.items p.dyn_f p.black raster.now.width
        raster.now.height raster.now) }
    ensures lengths { IfOk result (λ p. (f : ℕ) → f < 14
        → slice_index p.lengths f ≡ length_of raster.now f) }
    ensures choice { IfOk result (λ p. IsChosen raster.now p.dyn_f p.black p.bytes.items) }
    ensures fewest { IfOk result (λ p. AreFewest raster.now (length p.bytes.items)) }
{
    let bits = raster.bits();
    let mut kept = Kept::new(alloc, room(bits))?;
    let lengths = lengths_of(bits, &mut kept);
    let dyn_f = lengths.shortest();
    let size = lengths.at(dyn_f).div_ceil(2);
    if size <= plain_size(bits) as u64 {
        let bytes = run_bytes(alloc, bits, &kept, dyn_f, size as usize)?;
        return Ok(Packed {
            dyn_f,
            black: is_first_black(bits),
            bytes,
            lengths,
        });
    }
    Ok(Packed {
        dyn_f: 14,
        black: false,
        bytes: plain_bytes(alloc, bits)?,
        lengths,
    })
}

// For how many runs there is room: they take no more than half as many bytes as the raster. Where
// there are more, the second pass goes through the rows again.
fn room(bits: &PackedBitmap) -> usize {
    bits.rows().len() / 16
}

// The runs in bytes, by those that were kept if all were.
fn run_bytes(
    alloc: Global,
    bits: &PackedBitmap,
    kept: &Kept,
    dyn_f: u8,
    size: usize,
) -> Result<Vec<u8>, NoMemory>
    requires form { dyn_f ≤ 13 }
    requires narrow { bits.now.width ≤ MAX_GLYPH_SIDE }
    requires short { bits.now.height ≤ MAX_GLYPH_SIDE }
    requires kept { AreKept kept.now (written_runs (pixel_rows bits.now)) }
    ensures { IfOk result (λ bytes. HoldNybbles bytes.items
        (items_text dyn_f (written_runs (pixel_rows bits.now)))) }
{
    if kept.whole {
        return kept_in_bytes(alloc, &kept.runs, dyn_f, size);
    }
    runs_in_bytes(alloc, bits, dyn_f, size)
}

// Whether the first pixel is black; there may be none.
fn is_first_black(bits: &PackedBitmap) -> bool
    ensures { result ≡ first_colour (pixel_rows bits.now) }
{
    if bits.width() == 0 || bits.height() == 0 {
        return false;
    }
    bits.is_black(0, 0)
}
