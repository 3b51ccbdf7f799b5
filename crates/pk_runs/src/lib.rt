//! Rasters of packed fonts, from the run lengths and repeat counts that stand for them, and the
//! table of a font's glyphs.
#![tactic(auto)]

mod decode;
mod faults;
mod given;
mod glyph;
mod glyph_map;
mod items;
mod laws;
mod limits;
mod narrow;
mod narrow_runs;
mod numbers;
mod nybbles;
mod painter;
mod plain;
mod row_words;
mod runs;
mod table;

pub use decode::raster;
pub use faults::{RunFault, RunStop};
pub use glyph::{Glyph, Raster};
pub use laws::{one_fault, runs_apart};
pub use limits::{MAX_GLYPH_SIDE, MAX_RASTER_BYTES};
pub use table::GlyphTable;
