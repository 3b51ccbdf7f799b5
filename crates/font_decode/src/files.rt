//! The files of a font.

/// The bytes of a font's files, as far as they were looked for and are there.
#[derive(Drop)]
pub struct Files {
    /// `name.tfm`, with the widths.
    pub tfm: Option<Vec<u8>>,
    /// `name.vf`, with packets of commands.
    pub vf: Option<Vec<u8>>,
    /// `name.300pk`, for 300 dots to the inch, with glyphs.
    pub pk: Option<Vec<u8>>,
    /// `name.300gf`, for 300 dots to the inch, with glyphs.
    pub gf: Option<Vec<u8>>,
}
