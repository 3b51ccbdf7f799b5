//! A raster from its bytes.

ghost use Rattle.std.specs.Prelude.{◌≡◌, ◌≤◌, IfOk, IfErr};
ghost use Rattle.pk_runs.specs.Raster.{IsRaster, IsRunFault};
ghost use Rattle.pk_runs.specs.Stops.{IfFault};
ghost use Rattle.pk_runs.specs.Limits.{MAX_GLYPH_SIDE};

use crate::faults::RunStop;
use crate::glyph::Raster;
use crate::plain::paint_plain;
use crate::runs::paint_runs;
use packed_rows::PackedBitmap;
use std::alloc::Global;

/// The raster of n columns and rows that the bytes stand for: as a plain bitmap where `dyn_f` is
/// 14, else by run lengths and repeat counts, of which the first run is black or white (PKtype,
/// "Packed file format"). Where a side is 0 the bytes aren't looked at.
///
/// No bytes have both a raster and a fault, two rasters or two faults (`one_fault`, `runs_apart`).
/// So, unless memory runs out, the raster comes exactly where the bytes stand for it, and a fault
/// exactly where they have it. A number is judged as itself however large it is: a run above the
/// pixels left is `Overrun`, and a repeat count above the rows left is `TooManyRows`.
pub fn raster(
    alloc: Global,
    bytes: &[u8],
    dyn_f: u8,
    black: bool,
    w: u32,
    h: u32,
) -> Result<Raster, RunStop>
    requires form { dyn_f ≤ 14 }
    requires narrow { w ≤ MAX_GLYPH_SIDE }
    requires short { h ≤ MAX_GLYPH_SIDE }
    ensures raster { IfOk result (λ r. IsRaster bytes.now dyn_f black w h r) }
    // A raster has no fault beside it, and a fault no other: the laws of `one_fault`.
    ensures fault { IfErr result (λ stop. IfFault stop (IsRunFault bytes.now dyn_f w h)) }
{
    let bits = PackedBitmap::white(alloc, w, h)?;
    if w == 0 || h == 0 {
        return Ok(Raster { bits });
    }
    if dyn_f == 14 {
        return Ok(Raster {
            bits: paint_plain(bits, w, h, bytes)?,
        });
    }
    Ok(Raster {
        bits: paint_runs(bits, w, h, bytes, dyn_f, black)?,
    })
}
