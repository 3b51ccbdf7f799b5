//! Small files of fonts, worked out by hand.

mod cuts;
mod generic_fonts;
mod glyph_tables;
mod packed_fonts;
mod packing;
mod rasters;
mod spellings;
mod virtual_fonts;
mod widths;

use std::alloc::{AllocError as NoMemory, Global};

// A file of these parts.
fn joined(alloc: Global, parts: &[&[u8]]) -> Result<Vec<u8>, NoMemory> {
    let mut bytes = Vec::new(alloc);
    for part in parts {
        bytes.extend_from_slice(part)?;
    }
    Ok(bytes)
}
