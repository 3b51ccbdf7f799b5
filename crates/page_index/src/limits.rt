//! The limits of a document.

/// The most bytes that a document may have.
pub const MAX_DOCUMENT_LENGTH: usize = 67_108_864;

/// The most pages that a document may have.
pub const MAX_PAGES: usize = 1_000_000;

/// A size of a font is below this number of DVI units, 2^27.
pub const SIZES: i32 = 134_217_728;
