//! The keys of fonts.
use crate::FontName;

/// What a page or a virtual font asks for: a font at a size.
#[derive(Clone, Debug, Drop, PartialEq, Eq, PartialOrd, Ord, Hash)]
pub struct FontKey {
    /// The length of the area at the beginning of the name.
    pub area: u8,
    /// The name, with its area first.
    pub name: FontName,
    /// The size, in DVI units.
    pub size: u32,
    /// The design size, in DVI units.
    pub design: u32,
}
