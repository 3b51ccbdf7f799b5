//! The glyph of a packet.
ghost use Rattle.std.specs.Prelude.{◌≡◌, ◌≤◌, ◌<◌, ◌+◌, ◌*◌, ◌⊎◌, IfErr, IfOk, OnErr, OnOk};
ghost use Rattle.std.specs.Int.{div_ceil};
ghost use Rattle.pk_runs.specs.Raster.{IsRaster, IsRunFault};
ghost use Rattle.pk_runs.specs.declared.faults.RunFault.{RunFault};
ghost use Rattle.pk_packets.specs.Stops.{IfFault};
ghost use Rattle.pk_packets.specs.declared.faults.PkFault.TheVariants as fault;
ghost use Rattle.pk_runs.specs.Limits as limits;

use crate::packet::Packet;
use crate::{PkFault, PkStop};
use pk_runs::{Glyph, MAX_GLYPH_SIDE, MAX_RASTER_BYTES, RunStop, raster};
use std::alloc::Global;

/// The bytes that the rasters take with this packet's, where those before it take n. `TooBig`
/// where a side is too long, else `FontTooBig` where they take too many.
pub fn sum_with(packet: &Packet, before: u32) -> Result<u32, PkFault>
    requires { before ≤ limits.MAX_RASTER_BYTES }
    ensures sum { IfOk result (λ sum. sum ≡ before + packet.now.height
        * div_ceil packet.now.width 8) }
    ensures few { IfOk result (λ sum. sum ≤ limits.MAX_RASTER_BYTES) }
    ensures narrow { OnOk result (packet.now.width ≤ limits.MAX_GLYPH_SIDE) }
    ensures low { OnOk result (packet.now.height ≤ limits.MAX_GLYPH_SIDE) }
    ensures fault { IfErr result (λ f.
        (((limits.MAX_GLYPH_SIDE < packet.now.width) ⊎ (limits.MAX_GLYPH_SIDE < packet.now.height))
        × (f ≡ fault.TooBig packet.now.code))
        ⊎ ((packet.now.width ≤ limits.MAX_GLYPH_SIDE) × (packet.now.height ≤ limits.MAX_GLYPH_SIDE)
        × (limits.MAX_RASTER_BYTES < before + packet.now.height * div_ceil packet.now.width 8)
        × (f ≡ fault.FontTooBig))) }
{
    if packet.width > MAX_GLYPH_SIDE || packet.height > MAX_GLYPH_SIDE {
        return Err(PkFault::TooBig(packet.code));
    }
    let sum = before + packet.height * packet.width.div_ceil(8);
    if sum > MAX_RASTER_BYTES {
        return Err(PkFault::FontTooBig);
    }
    Ok(sum)
}

/// The glyph that a packet's raster bytes stand for, or `Runs` with the fault of its runs.
pub fn glyph(alloc: Global, packet: &Packet) -> Result<Glyph, PkStop>
    requires form { packet.now.dyn_f ≤ 14 }
    requires narrow { packet.now.width ≤ limits.MAX_GLYPH_SIDE }
    requires low { packet.now.height ≤ limits.MAX_GLYPH_SIDE }
    ensures raster { IfOk result
        (λ g. IsRaster packet.now.raster.now packet.now.dyn_f packet.now.black
        packet.now.width packet.now.height g.raster) }
    ensures hoff { IfOk result (λ g. g.hoff ≡ packet.now.hoff) }
    ensures voff { IfOk result (λ g. g.voff ≡ packet.now.voff) }
    ensures fault { IfErr result (λ stop. IfFault stop (λ f. (r : RunFault)
        × IsRunFault packet.now.raster.now packet.now.dyn_f packet.now.width packet.now.height r
        × (f ≡ fault.Runs packet.now.code r))) }
{
    match raster(
        alloc,
        packet.raster,
        packet.dyn_f,
        packet.black,
        packet.width,
        packet.height,
    ) {
        Ok(raster) => Ok(Glyph {
            raster,
            hoff: packet.hoff,
            voff: packet.voff,
        }),
        Err(RunStop::Fault(fault)) => Err(PkStop::Fault(PkFault::Runs(packet.code, fault))),
        Err(RunStop::NoMemory) => Err(PkStop::NoMemory),
    }
}
