//! What the characters of a font are.
use crate::local_keys::LocalKeys;
use gf_reader::GfFont;
use pk_packets::PkFont;
use vf_reader::VfFont;

/// The glyphs of a packed font, by its PK or its GF file, none at all, or the packets of a virtual
/// font and the keys of its local fonts.
#[derive(Drop)]
pub enum Shapes {
    Packed(PkFont),
    Generic(GfFont),
    Bare,
    Virtual { file: VfFont, keys: LocalKeys },
}
