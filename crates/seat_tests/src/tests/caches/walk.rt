//! The machine of a cache of three fonts once more, in few words, for tests alone: it judges a
//! history from outside.
use cache_core::{Act, Entry};
use outside::FontKey;
use std::alloc::Global;
use std::sync::Arc;

// How many fonts are kept.
const ROOM: usize = 3;

// What a caller was answered at one call.
#[derive(Clone, Copy)]
pub(crate) struct Note {
    // The key by its size, a letter for what was done, and the key that left, or 0.
    pub(crate) told: (u32, char, u32),
    // The number of the font that was found or handed in, or 0.
    pub(crate) font: u32,
}

impl Note {
    pub(crate) fn new(key: u32, act: char, gone: u32, font: u32) -> Note {
        Note {
            told: (key, act, gone),
            font,
        }
    }
}

// The fonts that are there, newest first, each a key and the font's number; and the claims, each a
// seat and a key.
#[derive(Drop)]
pub(crate) struct Walk {
    fonts: Vec<(u32, u32)>,
    claims: Vec<(u32, u32)>,
}

impl Walk {
    pub(crate) fn new(alloc: Global) -> Walk {
        Walk {
            fonts: Vec::new(alloc),
            claims: Vec::new(alloc),
        }
    }

    fn font_of(&self, key: u32) -> Option<u32> {
        self.fonts
            .iter()
            .find(|font: &&(u32, u32)| font.0 == key)
            .map(|font: &(u32, u32)| font.1)
    }

    fn claim_of(&self, seat: u32) -> Option<u32> {
        self.claims
            .iter()
            .find(|claim: &&(u32, u32)| claim.0 == seat)
            .map(|claim: &(u32, u32)| claim.1)
    }

    fn is_claimed(&self, key: u32) -> bool {
        self.claims.iter().any(|claim: &(u32, u32)| claim.1 == key)
    }

    // Puts a font at the front, and gives the key of the one that leaves for it, or 0.
    fn put(&mut self, key: u32, font: u32) -> u32 {
        if self.fonts.insert(0, (key, font)).is_err() {
            return 0;
        }
        if self.fonts.len() <= ROOM {
            return 0;
        }
        self.fonts.pop().map_or(0, |gone: (u32, u32)| gone.0)
    }

    // Brings a font to the front, and says whether it was there.
    fn renew(&mut self, key: u32, font: u32) -> bool {
        let was_there = self.font_of(key) == Some(font);
        self.fonts.retain(|other: &(u32, u32)| other.0 != key);
        self.put(key, font);
        was_there
    }

    // Ends the claim of a seat, and says whether it was on this key.
    fn end(&mut self, seat: u32, key: u32) -> bool {
        let was_held = self.claim_of(seat) == Some(key);
        self.claims.retain(|claim: &(u32, u32)| claim.0 != seat);
        was_held
    }

    // Claims a key that is neither there nor claimed, and says whether that was so.
    fn claim(&mut self, seat: u32, key: u32) -> bool {
        let is_free = self.font_of(key).is_none() && !self.is_claimed(key);
        is_free && self.claims.push((seat, key)).is_ok()
    }

    // Makes the change of a call, and says whether it may be made.
    pub(crate) fn takes(&mut self, seat: u32, note: &Note) -> bool {
        let (key, act, gone) = note.told;
        let holds_none = self.claim_of(seat).is_none();
        match act {
            'h' => holds_none && self.renew(key, note.font),
            'b' => holds_none && self.font_of(key).is_none() && self.is_claimed(key),
            'c' => holds_none && self.claim(seat, key),
            'f' => self.end(seat, key)
                && self.font_of(key).is_none()
                && self.put(key, note.font) == gone,
            'r' => self.end(seat, key),
            _ => false,
        }
    }
}

// A note's key, the letter for what was done, the key that left and the font.
type Told = (u32, char, u32, u32);

// A call of a seat.
type Call = (u32, Told);

fn note_of(told: Told) -> Note {
    let (key, act, gone, font) = told;
    Note::new(key, act, gone, font)
}

// Seat 1 claims key 5.
const ONE_CLAIM: &[Told] = &[(5, 'c', 0, 0)];

// Seat 1 brings in four fonts where one leaves: the newest three are then 8, 5 and 7.
const FOUR_FONTS: &[Told] = &[
    (5, 'c', 0, 0),
    (5, 'f', 0, 15),
    (6, 'c', 0, 0),
    (6, 'f', 0, 16),
    (7, 'c', 0, 0),
    (7, 'f', 0, 17),
    (5, 'h', 0, 15),
    (8, 'c', 0, 0),
    (8, 'f', 6, 18),
];

// Whether these calls of seat 1 are taken, and whether the last call then is.
fn judged(alloc: Global, calls: &[Told], last: &Call) -> (bool, bool) {
    let mut walk = Walk::new(alloc);
    let mut all = true;
    for call in calls {
        all = walk.takes(1, &note_of(*call)) && all;
    }
    (all, walk.takes(last.0, &note_of(last.1)))
}

// The calls of seat 1, the last call, and whether it is taken.
static LAST_CALLS: [(&'static [Told], Call, bool); 13] = [
    (ONE_CLAIM, (1, (5, 'b', 0, 0)), false),
    (ONE_CLAIM, (1, (6, 'c', 0, 0)), false),
    (ONE_CLAIM, (2, (5, 'c', 0, 0)), false),
    (ONE_CLAIM, (2, (5, 'h', 0, 0)), false),
    (ONE_CLAIM, (2, (5, 'f', 0, 1)), false),
    (ONE_CLAIM, (2, (5, 'r', 0, 0)), false),
    (ONE_CLAIM, (2, (6, 'b', 0, 0)), false),
    (ONE_CLAIM, (1, (5, 'f', 6, 1)), false),
    (FOUR_FONTS, (1, (5, 'h', 0, 17)), false),
    (FOUR_FONTS, (1, (6, 'h', 0, 16)), false),
    (FOUR_FONTS, (1, (7, 'c', 0, 0)), false),
    (FOUR_FONTS, (1, (8, 'r', 0, 0)), false),
    (FOUR_FONTS, (2, (6, 'c', 0, 0)), true),
];

#[test]
fn calls_that_the_walk_refuses(rt: HostRuntime) {
    for (row, (calls, last, taken)) in LAST_CALLS.iter().enumerate() {
        assert_eq!(rt;
            judged(rt.alloc(), calls, last),
            (true, *taken),
            "row {row}"
        );
    }
}

// The size of the first of the keys, or 0.
pub(crate) fn first_size(keys: &[Arc<FontKey>]) -> u32 {
    match keys.first() {
        Some(key) => key.size,
        None => 0,
    }
}

// What its seat was answered, by the entry.
pub(crate) fn told(entry: &Entry) -> (u32, char, u32) {
    match &entry.act {
        Act::Hit => (entry.key.size, 'h', 0),
        Act::Claimed => (entry.key.size, 'c', 0),
        Act::Busy => (entry.key.size, 'b', 0),
        Act::Filled(fill) => (entry.key.size, 'f', first_size(fill.gone.keys())),
        Act::Released => (entry.key.size, 'r', 0),
    }
}
