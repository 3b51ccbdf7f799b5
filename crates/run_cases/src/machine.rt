//! A machine of its own for the calls of a cache. It knows a font by the first call that names it.

use cache_core::{Act, Entry};
use outside::FontKey;
use std::alloc::{AllocError as NoMemory, Global};
use std::sync::Arc;

// What a cache keeps at most: so many fonts, of so many bytes together.
#[derive(Clone, Copy)]
pub struct Room {
    pub fonts: usize,
    pub bytes: u64,
}

// Which fonts are kept, newest last, each with its weight, and which seats claim one.
#[derive(Drop)]
struct Machine {
    room: Room,
    kept: Vec<(usize, u64)>,
    claims: Vec<(u32, usize)>,
}

// What a fill says: what its font weighs, whether it is kept, and the keys of those that left.
#[derive(Clone, Copy)]
struct Filled<'f> {
    weight: u64,
    kept: bool,
    gone: &'f [Arc<FontKey>],
}

// The place of the first call that names a key, counted from 0.
fn font_of(history: &[Entry], key: &FontKey) -> usize {
    for (i, entry) in history.iter().enumerate() {
        if *entry.key == *key {
            return i;
        }
    }
    history.len()
}

impl Machine {
    // The font is looked up and found.
    fn find(&mut self, seat: u32, font: usize) -> Result<bool, NoMemory> {
        let Some(at) = self.kept.iter().position(|kept| kept.0 == font) else {
            return Ok(false);
        };
        let found = self.kept.remove(at);
        self.kept.push(found)?;
        Ok(!self.holds(seat))
    }

    // The seat claims the font.
    fn claim(&mut self, seat: u32, font: usize) -> Result<bool, NoMemory> {
        let is_right = !self.keeps(font) && !self.holds(seat) && !self.is_claimed(font);
        self.claims.push((seat, font))?;
        Ok(is_right)
    }

    // The seat gives its claim up. Says whether it had it.
    fn release(&mut self, seat: u32, font: usize) -> bool {
        let is_mine = self.claims.contains(&(seat, font));
        self.claims.retain(|claim| *claim != (seat, font));
        is_mine
    }

    // The seat fills in the font that it claimed. Says whether it is kept and these fonts leave for
    // it, the oldest first.
    fn fill(&mut self, history: &[Entry], font: usize, fill: &Filled) -> Result<bool, NoMemory> {
        if fill.weight > self.room.bytes {
            return Ok(!fill.kept && fill.gone.is_empty());
        }
        self.kept.push((font, fill.weight))?;
        for key in fill.gone {
            let Some((oldest, _)) = self.kept.first().copied() else {
                return Ok(false);
            };
            if !self.is_too_full() || oldest != font_of(history, key) {
                return Ok(false);
            }
            self.kept.remove(0);
        }
        Ok(fill.kept && !self.is_too_full())
    }

    // Whether there are more fonts than there is room for, or heavier ones.
    fn is_too_full(&self) -> bool {
        let mut weight = 0u64;
        for kept in &self.kept {
            weight = weight.saturating_add(kept.1);
        }
        self.kept.len() > self.room.fonts || weight > self.room.bytes
    }

    fn keeps(&self, font: usize) -> bool {
        self.kept.iter().any(|kept| kept.0 == font)
    }

    fn holds(&self, seat: u32) -> bool {
        self.claims.iter().any(|claim| claim.0 == seat)
    }

    fn is_claimed(&self, font: usize) -> bool {
        self.claims.iter().any(|claim| claim.1 == font)
    }

    // Whether this call of a history may stand here. It is taken in.
    fn takes(&mut self, history: &[Entry], entry: &Entry) -> Result<bool, NoMemory> {
        let font = font_of(history, &entry.key);
        let seat = entry.seat;
        match &entry.act {
            Act::Hit => self.find(seat, font),
            Act::Claimed => self.claim(seat, font),
            Act::Busy => Ok(!self.keeps(font) && !self.holds(seat) && self.is_claimed(font)),
            Act::Released => Ok(self.release(seat, font)),
            Act::Filled(told) => {
                let fill = Filled {
                    weight: told.weight,
                    kept: told.kept,
                    gone: told.gone.keys(),
                };
                let is_mine = self.release(seat, font);
                Ok(self.fill(history, font, &fill)? && is_mine)
            }
        }
    }
}

/// Whether a history may be that of a cache with this room.
pub fn is_history(alloc: Global, history: &[Entry], room: Room) -> Result<bool, NoMemory> {
    let mut machine = Machine {
        room,
        kept: Vec::new(alloc),
        claims: Vec::new(alloc),
    };
    for entry in history {
        if !machine.takes(history, entry)? {
            return Ok(false);
        }
    }
    Ok(true)
}
