//! The limits of a font's rasters.

/// The longest side of a raster, in dots.
pub const MAX_GLYPH_SIDE: u32 = 16_384;

/// The most bytes that the rasters of a font may take, each row in whole bytes. A raster counts
/// too that a later one of its code replaces.
pub const MAX_RASTER_BYTES: u32 = 8_388_608;
