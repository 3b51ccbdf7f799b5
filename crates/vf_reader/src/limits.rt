//! The range of fix_words (Knuth, TFtoPL, "Font metric data").

/// 16, in units of 2^-20: a dimension and the factor of a local font are below it.
pub const FIX_WORDS: i32 = 16_777_216;

/// -16: no dimension is less.
pub const LEAST_FIX_WORD: i32 = -FIX_WORDS;
