//! Black and white bitmaps whose rows are packed into bytes, eight pixels a byte, the first in the
//! high bit, as the raw form of PBM has them: one row, a bitmap of rows side by side (rasters), and
//! one whose rows are padded to whole words of eight bytes (pages). Rasters are set on padded rows
//! by words: a row of up to seven bytes by one, wider ones and those at an edge in pieces of up to
//! eight bytes, each joined into one word of the row or into two.
#![tactic(auto)]

mod black;
mod laws;
mod offset;
mod ones;
mod packed;
mod padded;
mod pieces;
mod placing;
mod row;
mod rows;
mod strips;
mod words;

pub use laws::packing;
pub use offset::MAX_COORDINATE;
pub use packed::PackedBitmap;
pub use padded::PaddedBitmap;
pub use row::{blacken, is_black, row_bytes};
pub use rows::Span;
