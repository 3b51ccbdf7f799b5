//! The state of the cache, and its calls.
ghost use Rattle.std.specs.Prelude.{◌≡◌, ◌+◌, ◌^◌, ◌<◌, ◌≤◌, [], ◌∷◌, ◌++◌, Some, None, length, map, IsTrue, IsFalse, IfOk, IfErr, OnOk, OnErr};
ghost use Rattle.std.specs.Arc.{arc_value};
ghost use Rattle.std.specs.Vec.{vec_len, vec_capacity};
ghost use Rattle.std.specs.Map.{lookup};
ghost use Rattle.cache_core.specs.declared.common.Common.{Common};
ghost use Rattle.cache_core.specs.declared.calls.Done.TheVariants.{Filled, Released};
ghost use Rattle.cache_core.specs.declared.limits.Limits.{Limits};
ghost use Rattle.cache_core.specs.Hits.{NotedHits, FirstIsMissing};
ghost use Rattle.cache_core.specs.Machine.{key_eq, claim_of, weights};
ghost use Rattle.cache_core.specs.Views.{calls_of, claims_of, fonts_of, weighed, fonts_let_go};
ghost use Rattle.cache_core.specs.States.{machine, machine_of, call, answered, GivesFont, IsReached, Takes, SameFonts, AddsFont, StateStands};
ghost use Rattle.cache_core.specs.Limits.{MAX_CACHED_FONTS};

use crate::claims::{Claim, end};
use crate::entry::{Act, Entry, Fill, Filling, Look};
use crate::filling::take_in;
use crate::fonts::Resident;
use crate::hits::note_all;
use crate::limits::Limits;
use crate::looking::answer;
use crate::stands::Stands;
use crate::told::Told;
use lru::LruCache;
use outside::FontKey;
use std::alloc::{AllocError as NoMemory, Global};
use std::collections::VecDeque;
use std::marker::Model;
use std::num::NonZeroUsize;
use std::sync::Arc;

/// The cache's fonts, claims and history. A seat looks a key up, and where it is given the claim of
/// the key it ends the claim by a fill or a release. Each call is one turn, and adds one entry
/// unless it is refused.
#[derive(Drop)]
pub struct CacheState<T: Stands> {
    resident: Resident<T>,
    limits: Limits,
    claims: Vec<Claim>,
    entries: Vec<Entry>,
    turns: u64,
}

impl<T: Stands> Model for CacheState<T> {
    ghost use Rattle.std.specs.Vec.{vec_len, vec_capacity};
    ghost use Rattle.cache_core.specs.States.{Cache, cache_code, value_of_cache, IsSoundCache};

    ghost Value = { Cache T };

    ghost coded = { cache_code T.code };

    ghost view = { λ s.
        value_of_cache s.resident.fonts.entries s.limits s.claims.items s.entries.items s.turns };

    ghost invariant = { λ s. IsSoundCache T.weighs
        (value_of_cache s.resident.fonts.entries s.limits s.claims.items s.entries.items s.turns)
        s.resident.fonts.cap s.resident.total (vec_len s.entries) (vec_len s.claims)
        (vec_capacity s.entries) };
}

impl<T: Stands> Told for CacheState<T> {
    ghost use Rattle.cache_core.specs.States.{StateStands};

    ghost history = { λ s. s.history };

    ghost turns = { λ s. s.turns };

    ghost stands = { λ s part. StateStands T.stands_for T.weighs s part };
}

impl<T: Stands> CacheState<T> {
    /// A state for at most n fonts, 1 to 256, that weigh no more bytes than the budget together. It
    /// has no font, no claim and no call.
    pub fn new(alloc: Global, capacity: usize, budget: u64) -> Result<CacheState<T>, NoMemory>
        requires some_font { 1 ≤ capacity }
        requires few_fonts { capacity ≤ MAX_CACHED_FONTS }
        ensures limits { IfOk result (λ s. s.limits ≡ record {
          capacity = capacity;
          budget = budget;
        }) }
        ensures no_font { IfOk result (λ s. s.fonts ≡ []) }
        ensures no_claim { IfOk result (λ s. s.claims ≡ []) }
        ensures no_call { IfOk result (λ s. (s.history ≡ []) × (s.turns ≡ 0)) }
        ensures stands { IfOk result (λ s. (part : Common) → capacity ≡ part.capacity
            → budget ≡ part.budget → StateStands T.stands_for T.weighs s part) }
    {
        // One place more, for the font that comes in before others leave for it.
        let places = NonZeroUsize::new(capacity + 1).unwrap_or(NonZeroUsize::MIN);
        Ok(CacheState {
            resident: Resident {
                fonts: LruCache::new(alloc, places)?,
                total: 0,
            },
            limits: Limits { capacity, budget },
            claims: Vec::new(alloc),
            entries: Vec::new(alloc),
            turns: 0,
        })
    }

    /// Looks a key up for a seat that holds no claim: `Hit` with the font where it is resident,
    /// else `Busy` where another seat claims the key, else `Claimed`. It makes room for its entry,
    /// for the claim and for the entry that ends the claim, so that a claim can always be released.
    /// `NoMemory` changes only the number of turns.
    pub fn look(&mut self, seat: u32, key: &Arc<FontKey>) -> Result<Look<T>, NoMemory>
        requires few_turns { self.old.turns < 2 ^ 62 }
        requires free { claim_of seat self.old.claims ≡ None }
        ensures turns { self.new.turns ≡ self.old.turns + 1 }
        ensures limits { self.new.limits ≡ self.old.limits }
        ensures taken { IfOk result (λ reply. Takes self.old.limits (machine T.weighs self.old)
            (machine T.weighs self.new)
            (call seat (arc_value key.now) (answered reply))) }
        ensures noted { IfOk result (λ reply. self.new.history
            ≡ self.old.history ++ call seat (arc_value key.now) (answered reply) ∷ []) }
        ensures font { IfOk result (λ reply. GivesFont reply
            (lookup (key_eq (arc_value key.now)) self.old.fonts)) }
        ensures fonts { IfOk result (λ _. SameFonts self.old.fonts self.new.fonts) }
        ensures refused { OnErr result (self.new ≡ record self.old { turns = self.old.turns + 1 }) }
        ensures reached { IsReached T.weighs self.new }
        ensures stands { (part : Common) → StateStands T.stands_for T.weighs self.old part
            → StateStands T.stands_for T.weighs self.new part }
    {
        self.turns += 1;
        answer(
            &mut self.resident.fonts,
            &mut self.claims,
            &mut self.entries,
            seat,
            key,
        )
    }

    /// Notes, for a seat that holds no claim, that it looked these keys up and found their fonts:
    /// from the front on, as far as the fonts are resident. Each key that is noted becomes the
    /// newest and is taken out of the list. Room is made for all entries first, so that `NoMemory`
    /// changes only the number of turns.
    pub fn note_hits(
        &mut self,
        seat: u32,
        keys: &mut VecDeque<Arc<FontKey>>,
    ) -> Result<(), NoMemory>
        requires few_turns { self.old.turns < 2 ^ 62 }
        requires free { claim_of seat self.old.claims ≡ None }
        ensures turns { self.new.turns ≡ self.old.turns + 1 }
        ensures limits { self.new.limits ≡ self.old.limits }
        ensures claims { self.new.claims ≡ self.old.claims }
        ensures noted { OnOk result (NotedHits self.old.limits seat (machine T.weighs self.old)
            (machine T.weighs self.new) self.old.history self.new.history
            (map arc_value keys.old.items) (map arc_value keys.new.items)) }
        ensures stops { OnOk result (FirstIsMissing (map arc_value keys.new.items)
            (weighed T.weighs self.new.fonts)) }
        ensures fonts { OnOk result (SameFonts self.old.fonts self.new.fonts) }
        ensures refused { OnErr result ((self.new ≡ record self.old { turns = self.old.turns + 1 })
            × (keys.new ≡ keys.old)) }
        ensures reached { IsReached T.weighs self.new }
        ensures stands { (part : Common) → StateStands T.stands_for T.weighs self.old part
            → StateStands T.stands_for T.weighs self.new part }
    {
        self.turns += 1;
        let fonts = &mut self.resident.fonts;
        note_all(fonts, &mut self.entries, self.claims.len(), seat, keys)
    }

    /// Hands in the font of the key that the seat has claimed, which ends the claim. Where it
    /// weighs more than the budget it isn't kept. Else the key then has this font, and the least
    /// recently used fonts are evicted, one after another, while there are more than the capacity
    /// or they weigh more than the budget together. The answer says whether the font was kept, and
    /// the keys of those that were evicted, in that order. `Err` means that memory ran out: it
    /// hands the font back and changes only the number of turns, so that the seat still holds its
    /// claim.
    pub fn fill(&mut self, seat: u32, key: &Arc<FontKey>, value: Arc<T>) -> Result<Fill, Arc<T>>
        requires few_turns { self.old.turns < 2 ^ 62 }
        requires claim { claim_of seat self.old.claims ≡ Some (arc_value key.now) }
        ensures turns { self.new.turns ≡ self.old.turns + 1 }
        ensures limits { self.new.limits ≡ self.old.limits }
        ensures taken { IfOk result (λ f. Takes self.old.limits (machine T.weighs self.old)
            (machine T.weighs self.new)
            (call seat (arc_value key.now)
            (Filled (T.weighs (arc_value value)) f.kept f.gone))) }
        ensures noted { IfOk result (λ f. self.new.history
            ≡ self.old.history ++ call seat (arc_value key.now)
            (Filled (T.weighs (arc_value value)) f.kept f.gone) ∷ []) }
        ensures fonts { IfOk result (λ _. AddsFont (arc_value key.now) (arc_value value)
            self.old.fonts self.new.fonts) }
        ensures stored { IfOk result (λ f. IsTrue f.kept
            → lookup (key_eq (arc_value key.now)) self.new.fonts ≡ Some (arc_value value)) }
        ensures left_out { IfOk result (λ f. IsFalse f.kept → self.new.fonts ≡ self.old.fonts) }
        ensures back { IfErr result (λ handed. handed ≡ value) }
        ensures refused { OnErr result (self.new ≡ record self.old { turns = self.old.turns + 1 }) }
        ensures reached { IsReached T.weighs self.new }
        ensures stands { (part : Common) → StateStands T.stands_for T.weighs self.old part
            → T.stands_for (arc_value value) (arc_value key.now) part
            → StateStands T.stands_for T.weighs self.new part }
    {
        Ok(self.fill_keeping(seat, key, value)?.fill)
    }

    /// As `fill`, and hands out the fonts that were evicted, or the one handed in where it wasn't
    /// kept, so that the caller drops them when it likes: it may be the last owner of each.
    pub fn fill_keeping(
        &mut self,
        seat: u32,
        key: &Arc<FontKey>,
        value: Arc<T>,
    ) -> Result<Filling<T>, Arc<T>>
        requires few_turns { self.old.turns < 2 ^ 62 }
        requires claim { claim_of seat self.old.claims ≡ Some (arc_value key.now) }
        ensures turns { self.new.turns ≡ self.old.turns + 1 }
        ensures limits { self.new.limits ≡ self.old.limits }
        ensures taken { IfOk result (λ f. Takes self.old.limits (machine T.weighs self.old)
            (machine T.weighs self.new)
            (call seat (arc_value key.now)
            (Filled (T.weighs (arc_value value)) f.fill.kept f.fill.gone))) }
        ensures noted { IfOk result (λ f. self.new.history
            ≡ self.old.history ++ call seat (arc_value key.now)
            (Filled (T.weighs (arc_value value)) f.fill.kept f.fill.gone) ∷ []) }
        ensures fonts { IfOk result (λ _. AddsFont (arc_value key.now) (arc_value value)
            self.old.fonts self.new.fonts) }
        ensures stored { IfOk result (λ f. IsTrue f.fill.kept
            → lookup (key_eq (arc_value key.now)) self.new.fonts ≡ Some (arc_value value)) }
        ensures left_out { IfOk result (λ f. IsFalse f.fill.kept
            → self.new.fonts ≡ self.old.fonts) }
        ensures handed_out { IfOk result (λ f. map arc_value f.fonts.items ≡ fonts_let_go
            self.old.limits T.weighs f.fill.kept (arc_value key.now) (arc_value value)
            self.old.fonts) }
        ensures back { IfErr result (λ handed. handed ≡ value) }
        ensures refused { OnErr result (self.new ≡ record self.old { turns = self.old.turns + 1 }) }
        ensures reached { IsReached T.weighs self.new }
        ensures stands { (part : Common) → StateStands T.stands_for T.weighs self.old part
            → T.stands_for (arc_value value) (arc_value key.now) part
            → StateStands T.stands_for T.weighs self.new part }
    {
        self.turns += 1;
        take_in(
            &mut self.resident,
            &mut self.claims,
            &mut self.entries,
            self.limits,
            seat,
            key,
            value,
        )
    }

    /// Gives up the claim that the seat holds. It takes no memory.
    pub fn release(&mut self, seat: u32, key: &Arc<FontKey>)
        requires few_turns { self.old.turns < 2 ^ 62 }
        requires claim { claim_of seat self.old.claims ≡ Some (arc_value key.now) }
        ensures turns { self.new.turns ≡ self.old.turns + 1 }
        ensures limits { self.new.limits ≡ self.old.limits }
        ensures taken { Takes self.old.limits (machine T.weighs self.old)
            (machine T.weighs self.new)
            (call seat (arc_value key.now) Released) }
        ensures noted { self.new.history ≡ self.old.history ++ call seat (arc_value key.now)
            Released ∷ [] }
        ensures fonts { self.new.fonts ≡ self.old.fonts }
        ensures reached { IsReached T.weighs self.new }
        ensures stands { (part : Common) → StateStands T.stands_for T.weighs self.old part
            → StateStands T.stands_for T.weighs self.new part }
    {
        self.turns += 1;
        let key = end(&mut self.claims, seat);
        self.entries.push_reserved(Entry {
            seat,
            key,
            act: Act::Released,
        });
    }

    /// The accepted calls, in order.
    pub fn entries(&self) -> &[Entry]
        ensures history { calls_of result.now ≡ self.now.history }
        ensures reached { IsReached T.weighs self.now }
    {
        &self.entries
    }

    /// How many turns were taken, refused calls included.
    pub fn turns(&self) -> u64
        ensures turns { result ≡ self.now.turns }
    {
        self.turns
    }

    /// The accepted calls, in order, which are a legal history. The fonts are dropped.
    pub fn finish(self) -> Vec<Entry>
        ensures history { calls_of result.items ≡ self.history }
        ensures reached { IsReached T.weighs self }
    {
        let CacheState {
            resident: _,
            limits: _,
            claims: _,
            entries,
            turns: _,
        } = self;
        entries
    }
}
