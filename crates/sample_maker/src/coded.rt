//! Rasters as character packets have them (Rokicki, PKtype, "Packed file format").
ghost use Rattle.std.specs.Prelude.{◌≡◌, IfOk};
ghost use Rattle.sample_maker.specs.Coded.{StandsFor, by_bitmap as bitmap_of, coded as coded_of, packed as packed_of, seen};

use pk_packer::{Packed, append_plain, pack, plain_size};
use pk_runs::Raster;
use std::alloc::{AllocError as NoMemory, Global};

/// How the rasters of a font are coded: as plain bitmaps, or each in the form that takes the fewest
/// bytes.
#[derive(Clone, Copy)]
pub enum Coding {
    Plain,
    Packed,
}

/// What stands in a packet for a raster: the `dyn_f` by which the bytes are read, 14 for a plain
/// bitmap, and the colour of the first run.
#[derive(Drop)]
pub struct Coded {
    pub dyn_f: u8,
    pub first_black: bool,
    pub bytes: Vec<u8>,
}

// As a plain bitmap.
fn by_bitmap(alloc: Global, raster: &Raster) -> Result<Coded, NoMemory>
    ensures coded { IfOk result (λ c. seen c ≡ bitmap_of raster.now) }
    ensures stands { IfOk result (λ c. StandsFor (seen c) raster.now) }
{
    let bits = raster.bits();
    let mut bytes = Vec::with_capacity(alloc, plain_size(bits))?;
    append_plain(bits, &mut bytes)?;
    Ok(Coded {
        dyn_f: 14,
        first_black: false,
        bytes,
    })
}

// In the form that takes the fewest bytes.
fn packed(alloc: Global, raster: &Raster) -> Result<Coded, NoMemory>
    ensures coded { IfOk result (λ c. seen c ≡ packed_of raster.now) }
    ensures stands { IfOk result (λ c. StandsFor (seen c) raster.now) }
{
    let Packed {
        dyn_f,
        black,
        bytes,
        lengths: _,
    } = pack(alloc, raster)?;
    Ok(Coded {
        dyn_f,
        first_black: black,
        bytes,
    })
}

/// The raster, coded.
pub fn encode(alloc: Global, raster: &Raster, coding: Coding) -> Result<Coded, NoMemory>
    ensures coded { IfOk result (λ c. seen c ≡ coded_of coding raster.now) }
    ensures stands { IfOk result (λ c. StandsFor (seen c) raster.now) }
{
    match coding {
        Coding::Plain => by_bitmap(alloc, raster),
        Coding::Packed => packed(alloc, raster),
    }
}
