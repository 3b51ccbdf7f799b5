//! The cache, and its calls.
ghost use Rattle.std.specs.Prelude.{◌≡◌, ◌^◌, ◌<◌, ◌≤◌, [], Some, None, map, IfOk, IfErr, OnOk, OnErr};
ghost use Rattle.std.specs.Arc.{arc_value};
ghost use mathlib.Core.List.{IsPrefix};
ghost use Rattle.cache_core.specs.declared.common.Common.{Common};
ghost use Rattle.cache_core.specs.declared.calls.Done.TheVariants.{Filled, Released};
ghost use Rattle.cache_core.specs.Histories.{own, open_claim};
ghost use Rattle.cache_core.specs.Machine.{Legal};
ghost use Rattle.cache_core.specs.Laws.{FewClaims};
ghost use Rattle.cache_core.specs.States.{answered, limits_of};
ghost use Rattle.cache_core.specs.Views.{calls_of};
ghost use Rattle.turn_lock.specs.declared.view.Stage.TheVariants.{Idle};
ghost use Rattle.turn_lock.specs.Histories.{AllMade, OwnsSame};
ghost use Rattle.turn_lock.specs.Views.{opening_view, split_view, new_view, joined_view};
ghost use Rattle.turn_lock.specs.Seats.{AllJoined};
ghost use Rattle.font_cache.specs.Turns.{TookTurn, SawMore, NotedCall, NotedLooks, StopsAtMissing, NotedNothing, HitStands, told_of};
ghost use Rattle.cache_core.specs.Limits.{MAX_CACHED_FONTS};

use cache_core::laws::{histories, own_calls};
use cache_core::{CacheState, Entry, Fill, Filling, Look, Stands};
use outside::FontKey;
use std::alloc::{AllocError as NoMemory, Global};
use std::collections::VecDeque;
use std::marker::Model;
use std::sync::{Arc, Wait};
use turn_lock::{Seat, TurnLock};

/// A seat of a font cache. What it takes in a turn is the one owner of the state, so that no more
/// than a pointer moves.
pub type CacheSeat<T> = Seat<Box<CacheState<T>>>;

/// A font cache that its seats use in turn. Contracts see which lock it is. Each call needs seats
/// of this same cache.
#[derive(Drop)]
pub struct FontCache<T: Stands> {
    lock: TurnLock<Box<CacheState<T>>>,
}

impl<T: Stands> Model for FontCache<T> {
    ghost use Rattle.atomic_table.specs.Seated.{TableId, table_id_coded};

    ghost Value = { TableId };

    ghost coded = { table_id_coded };

    ghost view = { λ c. c.lock };
}

// The answer without the fonts that were let go, which are dropped.
fn answer_alone<T: Stands>(filled: Result<Filling<T>, Arc<T>>) -> Result<Fill, Arc<T>>
    ensures { result ≡ told_of filled }
{
    Ok(filled?.fill)
}

impl<T: Stands> FontCache<T> {
    /// An empty cache of n fonts at most, 1 to 256, that weigh no more bytes than the budget
    /// together, with its seat 0, which has seen nothing, drew nothing and doesn't have the turn.
    /// The caller's proof picks the common part of all seats, which has this capacity and this
    /// budget.
    pub fn make(
        alloc: Global,
        capacity: usize,
        budget: u64,
    ) -> Result<(FontCache<T>, CacheSeat<T>), NoMemory>
        ghost part: { Common }
        requires some_font { 1 ≤ capacity }
        requires few_fonts { capacity ≤ MAX_CACHED_FONTS }
        requires capacity { capacity ≡ part.capacity }
        requires budget { budget ≡ part.budget }
        ensures lock { IfOk result (λ made. made.1.lock ≡ made.0) }
        ensures seat { IfOk result (λ made. made.1.view ≡ opening_view part) }
    {
        let state = CacheState::new(alloc, capacity, budget)?;
        let owner = Box::new(alloc, state)?;
        match TurnLock::make(alloc, owner) {
            Ok((lock, seat)) => Ok((FontCache { lock }, seat)),
            Err(_) => Err(NoMemory),
        }
    }

    /// Makes one more seat. It has the next number, has seen what seat 0 has, has no calls of its
    /// own, drew nothing and doesn't have the turn. Seat 0 counts it, and is otherwise as it was.
    pub fn split(&self, first: &mut CacheSeat<T>) -> CacheSeat<T>
        requires lock { first.old.lock ≡ self.now }
        requires first { first.old.view.number ≡ 0 }
        requires room { first.old.view.made < 1024 }
        ensures first_lock { first.new.lock ≡ first.old.lock }
        ensures first { first.new.view ≡ split_view first.old.view }
        ensures new_lock { result.lock ≡ first.old.lock }
        ensures new { result.view ≡ new_view first.old.view }
        ensures no_calls { own first.old.view.made first.old.view.seen ≡ [] }
    {
        self.lock.split(first)
    }

    /// Joins another seat to seat 0. Seat 0 has then seen the longer of both histories, of which
    /// each of the two is a beginning. Of the other's number it has the calls that the other had,
    /// and of its own number, and of each number joined before, those that it had itself. Both
    /// seats have one common part.
    pub fn join(&self, first: &mut CacheSeat<T>, other: CacheSeat<T>)
        requires lock { first.old.lock ≡ self.now }
        requires other_lock { other.lock ≡ self.now }
        requires first { first.old.view.number ≡ 0 }
        requires idle { first.old.view.stage ≡ Idle }
        requires other_idle { other.view.stage ≡ Idle }
        ensures lock { first.new.lock ≡ first.old.lock }
        ensures seen { first.new.view ≡ joined_view first.old.view other.view }
        ensures begins { IsPrefix first.old.view.seen first.new.view.seen }
        ensures other_begins { IsPrefix other.view.seen first.new.view.seen }
        ensures theirs { own other.view.number first.new.view.seen
            ≡ own other.view.number other.view.seen }
        ensures mine { own 0 first.new.view.seen ≡ own 0 first.old.view.seen }
        ensures before { OwnsSame first.old.view.joined first.new.view.seen first.old.view.seen }
        ensures common_part { other.view.part ≡ first.old.view.part }
    {
        self.lock.join(first, other);
    }

    /// Looks a key up in one turn, for a seat that holds no claim, and waits for the turn. The
    /// answer is what the machine answers after the history until then, which continues what the
    /// seat had seen: `Hit` with a font that stands for the key in the common part, else `Busy`
    /// where another seat claims the key, else `Claimed`. `NoMemory` adds no call.
    pub fn look<R: Wait>(
        &self,
        rt: &R,
        seat: &mut CacheSeat<T>,
        key: &Arc<FontKey>,
    ) -> Result<Look<T>, NoMemory>
        requires lock { seat.old.lock ≡ self.now }
        requires idle { seat.old.view.stage ≡ Idle }
        requires room { seat.old.view.drawn < 2 ^ 48 }
        requires free { open_claim (own seat.old.view.number seat.old.view.seen) ≡ None }
        ensures turn { TookTurn seat.old seat.new }
        ensures seen { SawMore seat.old.view seat.new.view }
        ensures noted { IfOk result (λ reply. NotedCall (arc_value key.now) (answered reply)
            seat.old.view seat.new.view) }
        ensures stands { IfOk result (λ reply. HitStands T.stands_for reply (arc_value key.now)
            seat.old.view.part) }
        ensures refused { OnErr result (NotedNothing seat.old.view seat.new.view) }
    {
        // For the proof: what a seat's own calls say about its claim.
        histories();
        own_calls();
        let mut state = self.lock.take(rt, seat);
        let reply = state.look(seat.number(), key);
        self.lock.give(seat, state);
        reply
    }

    /// Notes, in one turn, that a seat that holds no claim looked these keys up and found their
    /// fonts, as from fonts that it keeps itself; waits for the turn. They are noted from the front
    /// on, as far as the fonts are resident then, and each key that is noted is taken out of the
    /// list: the first one left, if any, wasn't resident. `NoMemory` adds no call, and leaves the
    /// list as it was.
    pub fn note_hits<R: Wait>(
        &self,
        rt: &R,
        seat: &mut CacheSeat<T>,
        keys: &mut VecDeque<Arc<FontKey>>,
    ) -> Result<(), NoMemory>
        requires lock { seat.old.lock ≡ self.now }
        requires idle { seat.old.view.stage ≡ Idle }
        requires room { seat.old.view.drawn < 2 ^ 48 }
        requires free { open_claim (own seat.old.view.number seat.old.view.seen) ≡ None }
        ensures turn { TookTurn seat.old seat.new }
        ensures seen { SawMore seat.old.view seat.new.view }
        ensures noted { OnOk result (NotedLooks (map arc_value keys.old.items)
            (map arc_value keys.new.items) seat.old.view seat.new.view) }
        ensures stops { OnOk result (StopsAtMissing (map arc_value keys.new.items)
            seat.new.view) }
        ensures refused { OnErr result (NotedNothing seat.old.view seat.new.view) }
        ensures same { OnErr result (keys.new ≡ keys.old) }
    {
        // For the proof: what a seat's own calls say about its claim.
        histories();
        own_calls();
        let mut state = self.lock.take(rt, seat);
        let result = state.note_hits(seat.number(), keys);
        self.lock.give(seat, state);
        result
    }

    /// Hands in, in one turn, the font of the key that the seat has claimed, which ends the claim;
    /// waits for the turn. The font stands for the key in the common part. The answer says whether
    /// it was kept, which it is where it weighs no more than the budget, and has the keys of the
    /// fonts that were evicted for it, in that order. `Err` means that memory ran out: it hands the
    /// font back and adds no call, so the seat still holds its claim. The evicted fonts are dropped
    /// after the turn was handed on.
    pub fn fill<R: Wait>(
        &self,
        rt: &R,
        seat: &mut CacheSeat<T>,
        key: &Arc<FontKey>,
        value: Arc<T>,
    ) -> Result<Fill, Arc<T>>
        requires lock { seat.old.lock ≡ self.now }
        requires idle { seat.old.view.stage ≡ Idle }
        requires room { seat.old.view.drawn < 2 ^ 48 }
        requires claim { open_claim (own seat.old.view.number seat.old.view.seen)
            ≡ Some (arc_value key.now) }
        requires stands { T.stands_for (arc_value value) (arc_value key.now) seat.old.view.part }
        ensures turn { TookTurn seat.old seat.new }
        ensures seen { SawMore seat.old.view seat.new.view }
        ensures noted { IfOk result (λ f. NotedCall (arc_value key.now)
            (Filled (T.weighs (arc_value value)) f.kept f.gone)
            seat.old.view seat.new.view) }
        ensures back { IfErr result (λ handed. handed ≡ value) }
        ensures refused { OnErr result (NotedNothing seat.old.view seat.new.view) }
    {
        // For the proof: what a seat's own calls say about its claim.
        histories();
        own_calls();
        let mut state = self.lock.take(rt, seat);
        let filled = state.fill_keeping(seat.number(), key, value);
        self.lock.give(seat, state);
        // Only now, since this seat may be the last owner of the evicted fonts.
        answer_alone(filled)
    }

    /// Gives up, in one turn, the claim that the seat holds; waits for the turn. It takes no
    /// memory.
    pub fn release<R: Wait>(&self, rt: &R, seat: &mut CacheSeat<T>, key: &Arc<FontKey>)
        requires lock { seat.old.lock ≡ self.now }
        requires idle { seat.old.view.stage ≡ Idle }
        requires room { seat.old.view.drawn < 2 ^ 48 }
        requires claim { open_claim (own seat.old.view.number seat.old.view.seen)
            ≡ Some (arc_value key.now) }
        ensures turn { TookTurn seat.old seat.new }
        ensures seen { SawMore seat.old.view seat.new.view }
        ensures noted { NotedCall (arc_value key.now) Released seat.old.view seat.new.view }
    {
        // For the proof: what a seat's own calls say about its claim.
        histories();
        own_calls();
        let mut state = self.lock.take(rt, seat);
        state.release(seat.number(), key);
        self.lock.give(seat, state);
    }

    /// The whole history, once all other seats were joined and no turn is held: just what seat 0
    /// has seen. It is legal for the capacity and the budget of the common part, has no call of a
    /// number that wasn't made, and claims each key at most once more often than its font was
    /// evicted or not kept and its claims were given up together. The fonts are dropped.
    pub fn close(self, first: CacheSeat<T>) -> Vec<Entry>
        requires lock { first.lock ≡ self }
        requires first { first.view.number ≡ 0 }
        requires idle { first.view.stage ≡ Idle }
        requires joined { AllJoined first.view }
        ensures history { calls_of result.items ≡ first.view.seen }
        ensures legal { Legal (limits_of first.view.part) (calls_of result.items) }
        ensures made { AllMade first.view.made (calls_of result.items) }
        ensures few_claims { FewClaims (calls_of result.items) }
    {
        histories();
        let FontCache { lock } = self;
        Box::into_inner(lock.close(first)).finish()
    }
}
