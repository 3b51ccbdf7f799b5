//! Fonts that a page was given, each with its key.
ghost use Rattle.std.specs.Prelude.{◌≡◌, ◌<◌, [], Option, IfOk, IfSome, IsTrue, length, slice_index_or};
ghost use Rattle.std.specs.Arc.{arc_value};
ghost use Rattle.outside.specs.Library as library;
ghost use Rattle.pixel_round.specs.declared.units.Units.{Units};
ghost use Rattle.font_decode.specs.Decoding.{IsFontOf};
ghost use Rattle.page_workers.specs.HeldFonts.{AreTheirKeys};

use cache_core::laws::histories;
use cache_core::{Stands, same_key};
use font_decode::Decoded;
use outside::FontKey;
use std::alloc::{AllocError as NoMemory, Global};
use std::sync::Arc;

// How many fonts are held at most.
const MOST: usize = 64;

// How many bytes they weigh together at most, where they are more than one.
const MOST_WEIGHT: u64 = 1 << 22;

// How many slots there are for the places of fonts, so many that two of a page's fonts seldom share
// one.
const SLOTS: usize = 1024;

// A prime near 2^32 divided by the golden ratio, whose multiples are scattered.
const SCATTER: u32 = 0x9e37_79b1;

/// A font, and its key.
#[derive(Drop)]
pub struct HeldFont {
    pub key: Arc<FontKey>,
    pub font: Arc<Decoded>,
}

/// The last fonts that a page was given, 64 at most, the newest last. Together they weigh 4 MiB at
/// most, or are one. Each is a share of the page's own, so that its look-ups count no owner that
/// other workers count too.
#[derive(Drop)]
pub struct HeldFonts {
    pub fonts: Vec<HeldFont>,
    // The bytes that they weigh together.
    weight: u64,
    // For each slot the place of the newest font whose key has it, or any place.
    places: [u8; SLOTS],
}

// The first four bytes of a name and the last four, as numbers.
#[inline(always)]
fn ends(name: &[u8]) -> (u32, u32) {
    let n = name.len();
    if n < 4 {
        return (0, 0);
    }
    let first = u32::from_be_bytes([name[0], name[1], name[2], name[3]]);
    let last = u32::from_be_bytes([name[n - 4], name[n - 3], name[n - 2], name[n - 1]]);
    (first, last)
}

// The slot of a key, by its size and the ends of its name.
#[inline(always)]
fn slot_of(key: &FontKey) -> usize
    ensures { result < SLOTS }
{
    let (first, last) = ends(key.name.bytes());
    let mix = first
        .wrapping_add(last.wrapping_mul(3))
        .wrapping_add(key.size.wrapping_mul(5));
    (mix.wrapping_mul(SCATTER) >> 22) as usize % SLOTS
}

// Whether two keys are one.
#[inline(always)]
fn is_key(a: &FontKey, b: &FontKey) -> bool
    ensures { IsTrue result → a.now ≡ b.now }
{
    // For the proof: keys that pass the test are equal.
    histories();
    same_key(a, b)
}

// The place of the newest font of a key.
fn newest(fonts: &[HeldFont], key: &FontKey) -> Option<usize>
    ensures inside { IfSome result (λ at. at < length fonts.now) }
    ensures same { IfSome result (λ at. (d : HeldFont)
        → arc_value (slice_index_or fonts.now at d).key ≡ key.now) }
{
    for at in (0..fonts.len()).rev() {
        if is_key(&fonts[at].key, key) {
            return Some(at);
        }
    }
    None
}

impl HeldFonts {
    /// No font. It takes no memory.
    pub fn new(alloc: Global) -> HeldFonts
        ensures none { (l : Option library.FileTable) (u : Option Units)
            → AreTheirKeys l u result.fonts.items }
    {
        HeldFonts {
            fonts: Vec::new(alloc),
            weight: 0,
            places: [0; SLOTS],
        }
    }

    // Whether the font at a place is that of a key.
    #[inline(always)]
    fn is_at(&self, at: usize, key: &FontKey) -> bool
        ensures inside { IsTrue result → at < length self.now.fonts.items }
        ensures same { IsTrue result → (d : HeldFont)
            → arc_value (slice_index_or self.now.fonts.items at d).key ≡ key.now }
    {
        at < self.fonts.len() && is_key(&self.fonts[at].key, key)
    }

    // The place of the font of a key. That of the key's slot is tried first.
    fn place(&self, key: &FontKey) -> Option<usize>
        ensures inside { IfSome result (λ at. at < length self.now.fonts.items) }
        ensures same { IfSome result (λ at. (d : HeldFont)
            → arc_value (slice_index_or self.now.fonts.items at d).key ≡ key.now) }
    {
        let at = usize::from(self.places[slot_of(key)]);
        if self.is_at(at, key) {
            return Some(at);
        }
        newest(&self.fonts, key)
    }

    /// The font of a key, where it is held.
    pub fn get(&self, key: &FontKey) -> Result<Option<Arc<Decoded>>, NoMemory>
        ensures { IfOk result (λ found. IfSome found (λ font.
            (l : Option library.FileTable) (u : Option Units)
            → AreTheirKeys l u self.now.fonts.items
            → IsFontOf l u key.now (arc_value font))) }
    {
        let Some(at) = self.place(key) else {
            return Ok(None);
        };
        Ok(Some(Arc::try_clone(&self.fonts[at].font)?))
    }

    /// Drops all that are held.
    pub fn clear(&mut self)
        ensures { self.new.fonts.items ≡ [] }
    {
        self.fonts.clear();
        self.weight = 0;
    }

    // Drops all where one more of this weight were too many or too much.
    fn make_room(&mut self, weight: u64)
        ensures { (l : Option library.FileTable) (u : Option Units)
            → AreTheirKeys l u self.old.fonts.items → AreTheirKeys l u self.new.fonts.items }
    {
        if self.fonts.len() >= MOST || self.weight.saturating_add(weight) > MOST_WEIGHT {
            self.clear();
        }
    }

    // Holds a font.
    fn hold(&mut self, held: HeldFont) -> Result<(), NoMemory>
        ensures { (l : Option library.FileTable) (u : Option Units)
            → AreTheirKeys l u self.old.fonts.items
            → IsFontOf l u (arc_value held.key) (arc_value held.font)
            → AreTheirKeys l u self.new.fonts.items }
    {
        let (slot, weight) = (slot_of(&held.key), held.font.weight());
        let at = self.fonts.len();
        self.fonts.push(held)?;
        self.weight = self.weight.saturating_add(weight);
        self.places[slot] = u8::try_from(at).unwrap_or(0);
        Ok(())
    }

    /// Holds the font of a key, and answers the page's own share of it. Where as many are held as
    /// may be, or as much, they are dropped first. Where memory runs out the font isn't held.
    pub fn add(
        &mut self,
        alloc: Global,
        key: &Arc<FontKey>,
        font: &Arc<Decoded>,
    ) -> Result<Arc<Decoded>, NoMemory>
        ensures own { IfOk result (λ own. arc_value own ≡ arc_value font.now) }
        ensures held { (l : Option library.FileTable) (u : Option Units)
            → AreTheirKeys l u self.old.fonts.items
            → IsFontOf l u (arc_value key.now) (arc_value font.now)
            → AreTheirKeys l u self.new.fonts.items }
    {
        self.make_room(font.weight());
        let own = Arc::new(alloc, font.share()?)?;
        let (key, font) = (Arc::try_clone(key)?, Arc::try_clone(&own)?);
        self.hold(HeldFont { key, font })?;
        Ok(own)
    }
}
