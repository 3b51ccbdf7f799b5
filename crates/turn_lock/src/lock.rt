//! The lock, and its calls.
ghost use Rattle.std.specs.Prelude.{◌≡◌, ◌+◌, ◌^◌, ◌<◌, [], ◌∷◌, IfOk, IfErr};
ghost use mathlib.Core.List.{IsPrefix};
ghost use Rattle.cache_core.specs.declared.common.Common.{Common};
ghost use Rattle.cache_core.specs.Histories.{own};
ghost use Rattle.turn_lock.specs.declared.view.Stage.TheVariants.{Idle, Waiting};
ghost use Rattle.turn_lock.specs.Histories.{AllMade, Grows, OwnsSame};
ghost use Rattle.turn_lock.specs.Views.{opening_view, idle_view, split_view, new_view, view_with_turn, joined_view, ticket_of};
ghost use Rattle.turn_lock.specs.Seats.{IsHolding, AllJoined};
ghost use Rattle.turn_lock.specs.Steps.{TakesValue};

use crate::seat::{Seat, TableSeat};
use crate::sleepers::Sleepers;
use crate::steps::{AskNext, Compare, Draw, HandOn, Peek, SplitOff, TakeIn, Turns};
use crate::view::View;
use crate::waiting::LOOKS_IN_LINE;
use atomic_table::{Refused, Table};
use cache_core::{GhostCommon, Told};
use std::alloc::{AllocFailed, Global};
use std::marker::Model;
use std::sync::Wait;

// The word of the next ticket, and that of the ticket which is served. The slot has the value.
pub(crate) const TICKET: usize = 0;

pub(crate) const SERVING: usize = 1;

const VALUE: usize = 0;

/// A value that its seats take in turn. Contracts see which lock it is. Each call needs seats of
/// this same lock.
#[derive(Drop)]
pub struct TurnLock<T: Told> {
    pub(crate) table: Table<Option<T>, View, GhostCommon, Turns, Global>,
    pub(crate) sleepers: Sleepers,
}

impl<T: Told> Model for TurnLock<T> {
    ghost use Rattle.std.specs.Prelude.{◌≡◌};
    ghost use Rattle.atomic_table.specs.Seated.{TableId, table_id_coded};

    ghost Value = { TableId };

    ghost coded = { table_id_coded };

    ghost view = { λ l. l.table.shared.table_id };

    ghost invariant = { λ l. (l.table.shared.table_id.words ≡ 2)
        × (l.table.shared.table_id.slots ≡ 1) };
}

impl<T: Told> TurnLock<T> {
    /// A lock with its seat 0, which has seen nothing, drew nothing and doesn't have the turn. The
    /// caller's proof picks the common part of all seats. `Err` means that memory ran out, and
    /// hands the value back.
    pub fn make(alloc: Global, value: T) -> Result<(TurnLock<T>, Seat<T>), T>
        ghost part: { Common }
        requires no_turns { T.turns value ≡ 0 }
        requires no_calls { T.history value ≡ [] }
        requires stands { T.stands value part }
        ensures lock { IfOk result (λ made. made.1.lock ≡ made.0) }
        ensures seat { IfOk result (λ made. made.1.view ≡ opening_view part) }
        ensures back { IfErr result (λ handed. handed ≡ value) }
    {
        let mut slots = Vec::new(alloc);
        if let Err(failed) = slots.push(Some(value)) {
            let AllocFailed { value } = failed;
            slots.destroy_empty();
            let Some(value) = value else { unreachable!() };
            return Err(value);
        }
        let about = GhostCommon::pick();
        match Table::new(alloc, &[0, 0], slots, &about) {
            Ok((table, place)) => {
                let seat = Seat {
                    place,
                    number: 0,
                    drawn: 0,
                    made: 1,
                    ticket: None,
                };
                let sleepers = Sleepers::new();
                Ok((TurnLock { table, sleepers }, seat))
            }
            Err(Refused { mut slots }) => {
                let Some(Some(value)) = slots.pop() else {
                    unreachable!()
                };
                slots.destroy_empty();
                Err(value)
            }
        }
    }

    /// Makes one more seat. It has the next number, has seen what seat 0 has, has no calls of its
    /// own, drew nothing and doesn't have the turn. Seat 0 counts it, and is otherwise as it was.
    pub fn split(&self, first: &mut Seat<T>) -> Seat<T>
        requires lock { first.old.lock ≡ self.now }
        requires first { first.old.view.number ≡ 0 }
        requires room { first.old.view.made < 1024 }
        ensures first_lock { first.new.lock ≡ first.old.lock }
        ensures first { first.new.view ≡ split_view first.old.view }
        ensures new_lock { result.lock ≡ first.old.lock }
        ensures new { result.view ≡ new_view first.old.view }
        ensures no_calls { own first.old.view.made first.old.view.seen ≡ [] }
    {
        let shared = &self.table.shared;
        shared.load::<AskNext>(&mut first.place, TICKET);
        let place = shared.split_seat::<SplitOff>(&mut first.place);
        let number = first.made;
        first.made += 1;
        Seat {
            place,
            number,
            drawn: 0,
            made: 0,
            ticket: None,
        }
    }

    /// Joins another seat to seat 0. Seat 0 has then seen the longer of both histories, of which
    /// each of the two is a beginning. Of the other's number it has the calls that the other had,
    /// and of its own number, and of each number joined before, those that it had itself. Both
    /// seats have one common part.
    pub fn join(&self, first: &mut Seat<T>, other: Seat<T>)
        requires lock { first.old.lock ≡ self.now }
        requires other_lock { other.lock ≡ self.now }
        requires first { first.old.view.number ≡ 0 }
        requires idle { first.old.view.stage ≡ Idle }
        requires other_idle { other.view.stage ≡ Idle }
        ensures lock { first.new.lock ≡ first.old.lock }
        ensures seen { first.new.view ≡ joined_view first.old.view other.view }
        ensures begins { IsPrefix first.old.view.seen first.new.view.seen }
        ensures other_begins { IsPrefix other.view.seen first.new.view.seen }
        ensures theirs { own other.view.number first.new.view.seen
            ≡ own other.view.number other.view.seen }
        ensures mine { own 0 first.new.view.seen ≡ own 0 first.old.view.seen }
        ensures before { OwnsSame first.old.view.joined first.new.view.seen first.old.view.seen }
        ensures common_part { other.view.part ≡ first.old.view.part }
    {
        let Seat {
            place,
            number: _,
            drawn: _,
            made: _,
            ticket: _,
        } = other;
        let shared = &self.table.shared;
        shared.join_seat::<TakeIn>(&mut first.place, place);
        shared.load::<Compare>(&mut first.place, TICKET);
    }

    // Waits until the ticket is served, and takes the value out of the slot.
    fn wait<R: Wait>(&self, rt: &R, place: &mut TableSeat<T>, ticket: u64) -> T
        requires lock { place.old.table_id ≡ self.now }
        requires waits { place.old.me.0.stage ≡ Waiting ticket }
        requires empty { place.old.me.1 ≡ [] }
        ensures lock { place.new.table_id ≡ place.old.table_id }
        ensures took { TakesValue T.history T.turns T.stands place.old.me.0 result place.new.me.0 }
        ensures slot { place.new.me.1 ≡ (0, None) ∷ [] }
    {
        let shared = &self.table.shared;
        let mut looks = 0;
        for _ in rt.forever() {
            if shared.load::<Peek>(place, SERVING) == ticket {
                let Some(value) = shared.exchange(place, VALUE, None) else {
                    unreachable!()
                };
                return value;
            }
            if looks < LOOKS_IN_LINE {
                self.pause(looks);
                looks += 1;
            } else {
                self.sleep_in_line(rt, ticket);
            }
        }
        unreachable!()
    }

    /// Draws a turn, waits for it, and takes the value. Its history begins with what the seat had
    /// seen and has no more calls of the seat's number and, at seat 0, of the numbers joined.
    pub fn take<R: Wait>(&self, rt: &R, seat: &mut Seat<T>) -> T
        requires lock { seat.old.lock ≡ self.now }
        requires idle { seat.old.view.stage ≡ Idle }
        requires room { seat.old.view.drawn < 2 ^ 48 }
        ensures lock { seat.new.lock ≡ seat.old.lock }
        ensures seen { seat.new.view ≡ view_with_turn seat.old.view (T.turns result)
            (T.history result) }
        ensures begins { IsPrefix seat.old.view.seen (T.history result) }
        ensures own { own seat.old.view.number (T.history result)
            ≡ own seat.old.view.number seat.old.view.seen }
        ensures joined { seat.old.view.number ≡ 0
            → OwnsSame seat.old.view.joined (T.history result) seat.old.view.seen }
        ensures stands { T.stands result seat.old.view.part }
        ensures few { T.turns result < 2 ^ 58 }
    {
        self.approach(rt);
        let shared = &self.table.shared;
        let ticket = shared.fetch_add::<Draw>(&mut seat.place, TICKET, 1);
        let value = self.wait(rt, &mut seat.place, ticket);
        seat.drawn += 1;
        seat.ticket = Some(ticket);
        value
    }

    /// Gives the value back after one turn, and hands the turn on. The seat has then seen the
    /// value's history, which is the one that it took, or that with calls of this seat after it.
    /// No number that seat 0 joined is its own, so none of those has a call more.
    pub fn give(&self, seat: &mut Seat<T>, value: T)
        requires lock { seat.old.lock ≡ self.now }
        requires turn { IsHolding seat.old.view.stage }
        requires one_turn { T.turns value ≡ ticket_of seat.old.view.stage + 1 }
        requires grows { Grows seat.old.view.number seat.old.view.seen (T.history value) }
        requires stands { T.stands value seat.old.view.part }
        ensures lock { seat.new.lock ≡ seat.old.lock }
        ensures seen { seat.new.view ≡ idle_view seat.old.view (T.history value) }
        ensures joined { seat.old.view.number ≡ 0
            → OwnsSame seat.old.view.joined (T.history value) seat.old.view.seen }
    {
        let Some(ticket) = seat.ticket else {
            unreachable!()
        };
        let shared = &self.table.shared;
        match shared.exchange(&mut seat.place, VALUE, Some(value)) {
            None => {}
            Some(_) => unreachable!(),
        }
        shared.store::<HandOn>(&mut seat.place, SERVING, ticket + 1);
        seat.ticket = None;
        self.wake(ticket + 1);
    }

    /// The value, once all other seats were joined and no turn is held. It has just the history
    /// that seat 0 has seen.
    pub fn close(self, first: Seat<T>) -> T
        requires lock { first.lock ≡ self }
        requires first { first.view.number ≡ 0 }
        requires idle { first.view.stage ≡ Idle }
        requires joined { AllJoined first.view }
        ensures history { T.history result ≡ first.view.seen }
        ensures stands { T.stands result first.view.part }
        ensures made { AllMade first.view.made first.view.seen }
    {
        let TurnLock { table, sleepers: _ } = self;
        let Seat {
            place,
            number: _,
            drawn: _,
            made: _,
            ticket: _,
        } = first;
        let mut closed = table.close_with(place);
        let value = closed.take(VALUE);
        closed.free();
        let Some(value) = value else { unreachable!() };
        value
    }
}
