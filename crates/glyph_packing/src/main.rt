//! Packs the glyphs of a PK file again: reads the file on standard input, and prints a line for
//! each code from 0 to 255 that has a glyph, with the code, how many columns and rows there are,
//! the `dyn_f`, whether the first run is black, and the bytes in hex.
//!
//! `glyph_packing N` packs each glyph N times (1 without it), so that the instructions that packing
//! takes are the difference of two runs: `bench/packing` measures so.
#![tactic(auto)]

use pk_packer::{Packed, pack};
use pk_packets::PkFont;
use pk_runs::Raster;
use std::alloc::{AllocError as NoMemory, Global};
use std::env;
use std::io::{self, ErrorKind, Print, Read};

// The raster, packed so often, and at least once.
fn packed(alloc: Global, raster: &Raster, times: u32) -> Result<Packed, NoMemory> {
    for _ in 1..times {
        pack(alloc, raster)?;
    }
    pack(alloc, raster)
}

// Prints the line of a code.
fn print_line<R: Print>(rt: &R, code: u32, raster: &Raster, packed: &Packed) -> io::Result<()> {
    let (width, height) = (raster.width(), raster.height());
    let (dyn_f, black) = (packed.dyn_f, packed.black);
    print!(rt; "{code} {width} {height} {dyn_f} {black} ")?;
    for byte in packed.bytes.iter() {
        print!(rt; "{byte:02x}")?;
    }
    println!(rt; "")
}

// How often each glyph is packed.
fn times(rt: &HostRuntime) -> io::Result<u32> {
    match env::args(rt)?.nth(1) {
        Some(word) => match word.parse() {
            Ok(times) => Ok(times),
            Err(_) => Err(ErrorKind::InvalidInput.into()),
        },
        None => Ok(1),
    }
}

fn main(rt: HostRuntime) -> io::Result<()> {
    let alloc = rt.alloc();
    let times = times(&rt)?;
    let mut bytes = Vec::new(alloc);
    rt.stdin().read_to_end(&mut bytes)?;
    let Ok(font) = PkFont::read(alloc, &bytes) else {
        return Err(ErrorKind::InvalidData.into());
    };
    for code in 0..256 {
        if let Some(glyph) = font.glyph(code) {
            let packed = packed(alloc, &glyph.raster, times)?;
            print_line(&rt, code, &glyph.raster, &packed)?;
        }
    }
    Ok(())
}
