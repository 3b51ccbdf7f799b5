//! Tests of `packed_rows`, `raster_page`, `glyph_paint` and `pbm_output`, from the outside: their
//! public names alone.
#![tactic(auto)]

#[cfg(test)]
mod tests;
