//! The one font, and its key.
use cache_core::Stands;
use outside::{FontKey, FontName};
use std::alloc::{AllocError as NoMemory, Global};
use std::sync::Arc;

/// A font that stands for every key, and weighs nothing.
#[derive(Drop)]
pub(crate) struct Blank {}

impl Stands for Blank {
    ghost stands_for = { λ font k part. Unit {0} };

    ghost weighs = { λ font. 0 };

    fn weight(&self) -> u64 {
        0
    }
}

/// The key of the one font.
pub(crate) fn dot_key(alloc: Global) -> Result<Arc<FontKey>, NoMemory> {
    let key = FontKey {
        area: 0,
        name: FontName::new(alloc, b"dot")?,
        size: 128,
        design: 128,
    };
    Ok(Arc::new(alloc, key)?)
}
