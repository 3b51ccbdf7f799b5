//! The steps of a page, by what stands next.
ghost use Rattle.std.specs.Prelude.{◌≡◌, Some, None, IfOk, OnErr};
ghost use Rattle.vf_expand.specs.Expansion.{IsEnded};
ghost use Rattle.vf_expand.specs.Steps.{StepFits, Steps};

use super::Expander;
use crate::current::Current;
use crate::current_level::current_level;
use crate::effect::{Effect, effect_of, flat_of};
use crate::entry::enter_packet;
use crate::outer_levels::MAX_DEPTH;
use crate::pending::Pending;
use crate::sets::character_at;
use crate::{Lack, PageFault, Step};
use drift_rules::Flat;
use dvi_commands::command_at;
use std::alloc::AllocError as NoMemory;

// Whether a command is seen by its opcode to give a flat command by itself: any but a character and
// a font change. Motions are most of them. No contract rests on it.
#[inline(always)]
fn gives_flat(opcode: u8) -> bool {
    matches!(opcode, 137..=170 | 132 | 239..=246)
}

impl<'a> Expander<'a> {
    // What comes after the packet of a character that was set, or in place of a lacking character.
    #[inline(never)]
    pub(super) fn give_pending(&mut self, pending: Pending) -> Step
        requires { self.old.pending ≡ Some pending }
        ensures step { Steps self.old result self.new }
        ensures fits { StepFits result }
    {
        if self.progress.budget == 0 {
            self.progress = self.progress.halted_at(self.progress.at);
            return Step::Stop(PageFault::TooLong);
        }
        self.pending = None;
        self.progress = self.progress.after_flat(self.progress.at, false);
        Step::Flat(pending.flat())
    }

    // The page's end, or the end of a packet.
    #[inline(always)]
    fn ended(&mut self) -> Step
        requires nothing_pending { self.old.pending ≡ None }
        requires ended { IsEnded self.old.stack }
        ensures step { Steps self.old result self.new }
        ensures fits { StepFits result }
    {
        if self.outer.top().is_none() {
            self.progress = self.progress.halted_at(self.start + self.bytes.len());
            return Step::End;
        }
        if self.progress.budget == 0 {
            self.progress = self.progress.halted_at(self.progress.at);
            return Step::Stop(PageFault::TooLong);
        }
        let Some(outside) = self.outer.pop() else {
            unreachable!();
        };
        self.pending = Pending::after_packet(self.level.advance);
        self.level = outside;
        self.progress = self.progress.after_flat(self.progress.at, false);
        Step::Flat(Flat::Leave)
    }

    // The next command, whatever it is, or the end. The end, a command that gives a flat one by
    // itself and a character that begins a packet are found here, where few locals need be cleared.
    #[inline(never)]
    pub(super) fn expand(&mut self) -> Result<Step, NoMemory>
        requires nothing_pending { self.old.pending ≡ None }
        ensures step { IfOk result (λ step. Steps self.old step self.new) }
        ensures fits { IfOk result StepFits }
        ensures err { OnErr result (self.new ≡ self.old) }
    {
        let reading = current_level(
            self.index,
            self.bytes,
            self.start,
            &self.level,
            &self.outer,
            self.progress.at,
        );
        let at = reading.at;
        if self.level.pos == reading.text.len() {
            return Ok(self.ended());
        }
        if self.progress.budget > 0 && gives_flat(reading.text[self.level.pos]) {
            let (command, end) = command_at(reading.text, self.level.pos, reading.context);
            if let Some(flat) = flat_of(reading.place, &self.level.current, &command) {
                self.level.pos = end;
                self.progress = self.progress.after_flat(at, false);
                return Ok(Step::Flat(flat));
            }
        } else if self.progress.budget > 0 {
            let set = character_at(reading.text, self.level.pos, reading.context);
            if let Some((code, put, end)) = set {
                let keys = &mut self.keys;
                if enter_packet(keys, &mut self.level, &mut self.outer, code, put, end)? {
                    self.progress = self.progress.after_flat(at, false);
                    return Ok(Step::Flat(Flat::Enter));
                }
            }
        }
        // Taken out of its `Result`, so that a flat command is written where the caller reads it.
        let step = self.expand_any()?;
        Ok(step)
    }

    // The same, with the many locals that a character and a font change need.
    #[inline(never)]
    fn expand_any(&mut self) -> Result<Step, NoMemory>
        requires nothing_pending { self.old.pending ≡ None }
        ensures step { IfOk result (λ step. Steps self.old step self.new) }
        ensures fits { IfOk result StepFits }
        ensures err { OnErr result (self.new ≡ self.old) }
    {
        let reading = current_level(
            self.index,
            self.bytes,
            self.start,
            &self.level,
            &self.outer,
            self.progress.at,
        );
        let at = reading.at;
        if self.level.pos == reading.text.len() {
            return Ok(self.ended());
        }
        if self.progress.budget == 0 {
            self.progress = self.progress.halted_at(at);
            return Ok(Step::Stop(PageFault::TooLong));
        }
        let room = MAX_DEPTH - self.outer.len();
        let (command, end) = command_at(reading.text, self.level.pos, reading.context);
        match effect_of(
            &mut self.keys,
            reading.place,
            room,
            &self.level.current,
            &command,
        )? {
            Effect::Flat(flat) => {
                self.level.pos = end;
                self.progress = self.progress.after_flat(at, false);
                Ok(Step::Flat(flat))
            }
            Effect::Char(flat) => {
                self.level.pos = end;
                self.progress = self.progress.after_flat(at, true);
                Ok(Step::Flat(flat))
            }
            Effect::Change(key) => {
                self.level.pos = end;
                self.level.current = Current::Chosen(key);
                self.progress = self.progress.after_flat(at, false);
                Ok(Step::Flat(Flat::Skip))
            }
            Effect::Ask(key) => {
                self.progress = self.progress.halted_at(at);
                Ok(Step::Ask(key))
            }
            Effect::Enter(level) => {
                self.outer.enter(&mut self.level, level, end)?;
                self.progress = self.progress.after_flat(at, false);
                Ok(Step::Flat(Flat::Enter))
            }
            Effect::Lack(fault, advance) => {
                self.progress = self.progress.halted_at(at);
                if !self.tolerant {
                    return Ok(Step::Stop(fault));
                }
                self.level.pos = end;
                self.pending = Some(Pending::in_place(advance));
                Ok(Step::Lack(Lack { fault, at }))
            }
            Effect::Stop(fault) => {
                self.progress = self.progress.halted_at(at);
                Ok(Step::Stop(fault))
            }
        }
    }
}
