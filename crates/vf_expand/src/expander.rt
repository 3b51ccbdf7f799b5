//! The page that is being expanded.
ghost use Rattle.std.specs.Prelude.{◌≡◌, ◌<◌, ◌+◌, Some, None, IfOk, IfSome, IsFalse, IsNone, OnErr, MatchOption};
ghost use Rattle.std.specs.Arc.{arc_value};
ghost use Rattle.page_index.specs.Document.{pages_begun};
ghost use Rattle.vf_expand.specs.Course.{course_of};
ghost use Rattle.vf_expand.specs.Limits as limits;
ghost use Rattle.vf_expand.specs.Expansion.{GivesNoPackedChar, HasNoLack, IsAtLook, after_answer, asks_left, rest_of, marked_font, place_of, steps_left};
ghost use Rattle.vf_expand.specs.Steps.{StepFits, Steps};
ghost use Rattle.drift_rules.specs.Bounds.{IsNumber};

use crate::character::packed_char;
use crate::current::Current;
use crate::current_level::current_level;
use crate::keys::PageKeys;
use crate::outer_levels::{Level, OuterLevels};
use crate::pending::Pending;
use crate::progress::Progress;
use crate::sets::character_at;
use crate::step::{PackedChar, Step};
use font_decode::Decoded;
use page_index::Index;
use std::alloc::{AllocError as NoMemory, Global};
use std::marker::Model;
use std::mem;
use std::sync::Arc;

mod asking;
mod steps;

/// A page that is being expanded. The level that is read is the page or a packet; after the packet
/// of a character that was set, or after a lack, a flat command is still to come.
#[derive(Drop)]
pub struct Expander<'a> {
    tolerant: bool,
    index: &'a Index<'a>,
    bytes: &'a [u8],
    start: usize,
    progress: Progress,
    pending: Option<Pending>,
    level: Level,
    outer: OuterLevels,
    keys: PageKeys,
}

impl<'a> Model for Expander<'a> {
    ghost use Rattle.vf_expand.specs.Expansion.{Expansion};

    ghost Value = { Expansion };

    ghost use Rattle.vf_expand.specs.View.{value_of_expander, IsWellFormed};

    ghost view = { value_of_expander };

    ghost invariant = { IsWellFormed };
}

impl<'a> Expander<'a> {
    ghost use Rattle.std.specs.Borrow.{sem};
    ghost use Rattle.vf_expand.specs.Lending.{PassesPackedChar};

    /// The page with a number, from 0, at its first command, with no current font. Where it is
    /// tolerant, a missing font, character, glyph or packet is a lack, and else it stops the page.
    pub fn new(
        alloc: Global,
        index: &'a Index<'a>,
        i: usize,
        tolerant: bool,
    ) -> Result<Expander<'a>, NoMemory>
        requires { i < pages_begun index.now.reading }
        ensures page { IfOk result (λ e. rest_of e ≡ course_of tolerant index.now.reading i) }
        ensures strict { IsFalse tolerant → IfOk result (λ e. HasNoLack (rest_of e)) }
        ensures place { IfOk result (λ e. e.at ≡ place_of (rest_of e)) }
        ensures unmarked { IfOk result (λ e. marked_font e ≡ None) }
        ensures asks { IfOk result (λ e. asks_left e ≡ limits.MAX_FLAT_COMMANDS) }
    {
        let page = index.page(i);
        Ok(Expander {
            tolerant,
            index,
            bytes: page.bytes,
            start: page.at,
            progress: Progress::at_first(page.at),
            pending: None,
            level: Level {
                code: 0,
                pos: 0,
                advance: None,
                current: Current::NoFont,
            },
            outer: OuterLevels::new(alloc),
            keys: PageKeys::new(alloc),
        })
    }

    /// The next step of the page.
    ///
    /// Each command of the page or of a packet gives one flat command; a nop, a special, a font
    /// definition and a font change give one that does nothing. A character of a virtual font gives
    /// `Enter`, what the commands of its packet give, with their dimensions scaled to the font's
    /// size and rounded down, `Leave`, and `Advance` by its width where it was set. A packet begins
    /// with the first local font of its font. A font is asked for at the first character after the
    /// change to it, and again until it is handed in; a packet between two characters of a font of
    /// the page doesn't make the page ask for it again.
    ///
    /// The page stops at a change to a font that isn't defined; at a character where no font is
    /// current; at one whose font has a fault, no width, no glyph or no packet for it, or whose
    /// packet would be nested eleven deep; and, where 2^24 flat commands were given, before
    /// anything but its end. A tolerant page goes past a character of a font whose TFM file or
    /// whose PK and GF files are missing, and past one that its font has no width, no glyph or no
    /// packet for: each is a `Lack`, and then comes `Advance` by the character's width where it was
    /// set and the font has that width, and else a command that does nothing. `End` and `Stop` are
    /// given again at each further call. Where memory runs out nothing has changed.
    ///
    /// Knuth, DVItype, "Translation to symbolic form"; VFtoVP, "Virtual fonts"; Breitenlohner,
    /// DVIcopy, "Interpreting VF packets".
    #[inline(always)]
    pub fn next(&mut self) -> Result<Step, NoMemory>
        ensures step { IfOk result (λ step. Steps self.old step self.new) }
        ensures fits { IfOk result StepFits }
        ensures err { OnErr result (self.new ≡ self.old) }
    {
        match self.pending {
            Some(pending) => Ok(self.give_pending(pending)),
            None => match self.key_to_ask()? {
                Some(key) => Ok(Step::Ask(key)),
                None => self.expand(),
            },
        }
    }

    /// The next step, with its glyph and without its key, where it is a character, as most steps
    /// are. `None` where it is another one, which `next` gives: then nothing has changed.
    #[inline(always)]
    pub fn next_packed_char(&mut self) -> Option<PackedChar<'_>>
        ensures* passes { sem 𝓛 (PassesPackedChar self.entry result) }
        ensures fits { IfSome result (λ packed. IsNumber packed.width) }
        ensures none { IsNone result → GivesNoPackedChar (rest_of self.old) }
    {
        if self.pending.is_some() || self.progress.budget == 0 {
            return None;
        }
        let level = current_level(
            self.index,
            self.bytes,
            self.start,
            &self.level,
            &self.outer,
            self.progress.at,
        );
        let position = level.at;
        let Some((code, put, end)) = character_at(level.text, self.level.pos, level.context) else {
            return None;
        };
        let Some(found) = packed_char(&self.level.current, code) else {
            return None;
        };
        self.level.pos = end;
        self.progress.at = position;
        self.progress.budget -= 1;
        self.progress.marked = true;
        Some(PackedChar {
            code: code as u8,
            width: found.width,
            put,
            glyph: found.glyph,
            at: position,
        })
    }

    /// Hands in what was found for the look-up that comes next. The place stays as it was.
    pub fn answer(&mut self, font: Arc<Decoded>)
        requires { IsAtLook (rest_of self.old) }
        ensures rest { rest_of self.new ≡ after_answer (rest_of self.old) (arc_value font) }
        ensures place { self.new.at ≡ self.old.at }
        ensures unmarked { marked_font self.new ≡ None }
        ensures asks { asks_left self.new + 1 ≡ asks_left self.old }
        ensures fewer { steps_left self.new < steps_left self.old }
    {
        let current = mem::replace(&mut self.level.current, Current::NoFont);
        self.level.current = match current {
            Current::Chosen(key) => Current::Known(key, font),
            _ => unreachable!(),
        };
    }

    /// The font of the character that the last step gave. `None` after any other step.
    #[inline(always)]
    pub fn font(&self) -> Option<&Arc<Decoded>>
        ensures { MatchOption result (marked_font self.now ≡ None)
            (λ font. marked_font self.now ≡ Some (arc_value font.now)) }
    {
        if !self.progress.marked {
            return None;
        }
        match &self.level.current {
            Current::Known(_, font) => Some(font),
            _ => None,
        }
    }

    /// The position, in the document, of the page's command that the last step comes from; before
    /// the first step that of the page's first command, and at the page's end that of its Eop.
    #[inline(always)]
    pub fn at(&self) -> usize
        ensures { result ≡ self.now.at }
    {
        self.progress.at
    }
}
