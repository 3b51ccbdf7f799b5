//! The look-up that stands next.
ghost use Rattle.std.specs.Prelude.{◌≡◌, None, IfOk, IfSome, OnErr};
ghost use Rattle.std.specs.Arc.{arc_value};
ghost use Rattle.outside.specs.FontKeys.{IsFontKey};
ghost use Rattle.vf_expand.specs.Steps.{AsksOne};

use super::Expander;
use crate::current::{Current, is_chosen};
use crate::current_level::current_level;
use crate::sets::character_at;
use outside::FontKey;
use std::alloc::AllocError as NoMemory;
use std::sync::Arc;

impl<'a> Expander<'a> {
    // The key of the font that the character that stands next asks for: the first one after the
    // font became current, as in nearly every packet. `None` where anything else stands next: then
    // nothing has changed.
    #[inline(always)]
    pub(super) fn key_to_ask(&mut self) -> Result<Option<Arc<FontKey>>, NoMemory>
        requires nothing_pending { self.old.pending ≡ None }
        ensures asks { IfOk result (λ asked. IfSome asked
            (λ key. AsksOne self.old self.new (arc_value key))) }
        ensures fits { IfOk result (λ asked. IfSome asked (λ key. IsFontKey (arc_value key))) }
        ensures none { IfOk result (λ asked. asked ≡ None → self.new ≡ self.old) }
        ensures err { OnErr result (self.new ≡ self.old) }
    {
        if self.progress.budget == 0 || !is_chosen(&self.level.current) {
            return Ok(None);
        }
        let reading = current_level(
            self.index,
            self.bytes,
            self.start,
            &self.level,
            &self.outer,
            self.progress.at,
        );
        let at = reading.at;
        let Some(set) = character_at(reading.text, self.level.pos, reading.context) else {
            return Ok(None);
        };
        let _ = set;
        let Current::Chosen(key) = &self.level.current else {
            return Ok(None);
        };
        let asked = Arc::try_clone(key)?;
        self.progress = self.progress.halted_at(at);
        Ok(Some(asked))
    }
}
