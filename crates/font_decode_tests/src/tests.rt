//! Fonts by hand.
ghost use Rattle.std.specs.Prelude.{IfOk};
ghost use Rattle.outside.specs.FontKeys.{IsFontKey};

mod faults;
mod fetches;
mod files;
mod fonts;
mod generic_fonts;
mod names;
mod sources;

use outside::{FileName, FontKey, FontName, Library};
use pixel_round::Units;
use std::alloc::Global;
use std::sync::Arc;
use std::test::Fail;

// A font: its name, its size and its design size, in DVI units.
type Named = (&'static [u8], u32, u32);

// A document's units, two of which are a dot at 300 dots to the inch.
const UNITS: Units = Units {
    num: 1270,
    den: 3,
    mag: 1000,
    res: 300,
};

// The sizes of a font lie below this number of DVI units.
const SIZES: u32 = 134_217_728;

// A font's key.
fn key(alloc: Global, font: &Named) -> Result<FontKey, Fail>
    ensures { IfOk result IsFontKey }
{
    let (name, size, design) = *font;
    if size == 0 || size >= SIZES || design == 0 || design >= SIZES {
        return Err(Fail::from("a size out of range"));
    }
    Ok(FontKey {
        area: 0,
        name: FontName::new(alloc, name)?,
        size,
        design,
    })
}

// These files, each of which holds its own name.
fn library(alloc: Global, names: &[&str]) -> Result<Arc<Library>, Fail> {
    let mut library = Library::new(alloc);
    for name in names {
        let bytes = name.as_bytes();
        library.add(FileName::new(alloc, bytes)?, bytes.to_vec(alloc)?)?;
    }
    Ok(Arc::new(alloc, library)?)
}
