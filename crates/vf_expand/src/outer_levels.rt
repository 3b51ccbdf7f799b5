//! The levels of a page's expansion.
ghost use Rattle.std.specs.Prelude.{◌≡◌, ◌∷◌, [], length, List, IfErr, OnErr, OnOk, MatchOption};
ghost use Rattle.vf_expand.specs.declared.outer_levels.Level as level;

use crate::current::Current;
use std::alloc::{AllocError as NoMemory, Global};
use std::marker::Model;
use std::mem;

/// How many packets may be nested.
pub const MAX_DEPTH: usize = 10;

/// The page, or a packet: the packet's code in the font that is current outside it, the place of
/// the next command in its bytes, how far its character moves after it where it was set, and the
/// font that is current in it.
#[derive(Drop)]
pub struct Level {
    pub code: u8,
    pub pos: usize,
    pub advance: Option<i64>,
    pub current: Current,
}

/// The levels outside the one that is read. A contract sees them as a list, the innermost first.
#[derive(Drop)]
pub struct OuterLevels {
    levels: Vec<Level>,
}

impl Model for OuterLevels {
    ghost use Rattle.std.specs.Prelude.{List, reverse};
    ghost use Rattle.vf_expand.specs.declared.outer_levels.Level.{Level};

    ghost Value = { List Level };

    ghost view = { λ s. reverse s.levels.items };
}

impl OuterLevels {
    /// No level.
    pub fn new(alloc: Global) -> OuterLevels
        ensures { result ≡ [] }
    {
        OuterLevels {
            levels: Vec::new(alloc),
        }
    }

    /// How many there are.
    #[inline(always)]
    pub fn len(&self) -> usize
        ensures { result ≡ length self.now }
    {
        self.levels.len()
    }

    /// The innermost.
    #[inline(always)]
    pub fn top(&self) -> Option<&Level>
        ensures { MatchOption result (self.now ≡ [])
            (λ top. (rest : List level.Level) × (self.now ≡ top.now ∷ rest)) }
    {
        self.levels.last()
    }

    // One more, inside all others. Where memory runs out it is handed back.
    fn push(&mut self, level: Level) -> Result<(), Level>
        ensures ok { OnOk result (self.new ≡ level ∷ self.old) }
        ensures err { OnErr result (self.new ≡ self.old) }
        ensures back { IfErr result (λ back. back ≡ level) }
    {
        match self.levels.push(level) {
            Ok(()) => Ok(()),
            Err(refused) => Err(refused.value),
        }
    }

    /// The level that is read, from `end` on, becomes one more inside all others, and `inner` is
    /// read. Where memory runs out nothing has changed.
    #[inline(never)]
    pub fn enter(&mut self, level: &mut Level, inner: Level, end: usize) -> Result<(), NoMemory>
        ensures level { OnOk result (level.new ≡ inner) }
        ensures outer { OnOk result (self.new ≡ record level.old { pos = end } ∷ self.old) }
        ensures err { OnErr result ((self.new ≡ self.old) × (level.new ≡ level.old)) }
    {
        let mut outside = mem::replace(level, inner);
        let pos = mem::replace(&mut outside.pos, end);
        match self.push(outside) {
            Ok(()) => Ok(()),
            Err(outside) => {
                *level = Level { pos, ..outside };
                Err(NoMemory)
            }
        }
    }

    /// The innermost, which is taken out of them.
    pub fn pop(&mut self) -> Option<Level>
        ensures { MatchOption result (self.old ≡ [])
            (λ top. self.old ≡ top ∷ self.new) }
    {
        self.levels.pop()
    }
}
