//! What the workers share.
use font_cache::FontCache;
use font_decode::Decoded;
use pixel_round::Units;

/// What all workers of a run share: the cache of decoded fonts, and the units of the document.
#[derive(Drop)]
pub struct Bench {
    pub cache: FontCache<Decoded>,
    pub units: Units,
}
