//! The counter, and its calls.
ghost use Rattle.std.specs.Prelude.{◌≡◌, ◌+◌, ◌*◌, ◌<◌, ◌≤◌, All, length, IfOk};
ghost use Rattle.std.specs.List.Sorted.{IsStrictlyIncreasing};
ghost use Rattle.page_counter.specs.Numbers.{EachOnce};
ghost use Rattle.page_counter.specs.Views.{first_view, claimed_view, split_view, new_view, joined_view, known_claims};
ghost use Rattle.page_counter.specs.Seats.{AllJoined};

use crate::seat::CounterSeat;
use crate::steps::{Claim, Claims, SplitOff, TakeIn};
use crate::view::SeatState;
use atomic_table::Table;
use std::alloc::{AllocError as NoMemory, Global};
use std::marker::Model;

// The one word: how many numbers were claimed.
const CLAIMED: usize = 0;

/// A counter from which its seats claim numbers. Contracts see which counter it is. Each call needs
/// seats of this same counter.
#[derive(Drop)]
pub struct PageCounter {
    table: Table<(), SeatState, (), Claims, Global>,
}

impl Model for PageCounter {
    ghost use Rattle.std.specs.Prelude.{◌≡◌};
    ghost use Rattle.atomic_table.specs.Seated.{TableId, table_id_coded};

    ghost Value = { TableId };

    ghost coded = { table_id_coded };

    ghost view = { λ c. c.table.shared.table_id };

    ghost invariant = { λ c. (c.table.shared.table_id.words ≡ 1)
        × (c.table.shared.table_id.slots ≡ 0) };
}

impl PageCounter {
    /// A counter with its seat 0, which has claimed nothing. `Err` means out of memory.
    pub fn make(alloc: Global) -> Result<(PageCounter, CounterSeat), NoMemory>
        ensures counter { IfOk result (λ made. made.1.counter ≡ made.0) }
        ensures seat { IfOk result (λ made. made.1.view ≡ first_view) }
    {
        let (table, place) = Table::of_words(alloc, &[0], &())?;
        Ok((PageCounter { table }, CounterSeat { place }))
    }

    /// Makes one more seat, of at most 33. It has the next number and no claims. Seat 0 counts it,
    /// and is otherwise as it was. It takes no memory.
    pub fn split(&self, first: &mut CounterSeat) -> CounterSeat
        requires counter { first.old.counter ≡ self.now }
        requires first { first.old.view.number ≡ 0 }
        requires room { first.old.view.made < 33 }
        ensures first_counter { first.new.counter ≡ first.old.counter }
        ensures first { first.new.view ≡ split_view first.old.view }
        ensures new_counter { result.counter ≡ first.old.counter }
        ensures new { result.view ≡ new_view first.old.view }
    {
        let shared = &self.table.shared;
        let place = shared.split_seat::<SplitOff>(&mut first.place);
        CounterSeat { place }
    }

    /// Claims the next number, which is how many claims all seats made before. It is the seat's
    /// last claim, of at most 64, and above all claims that the seat knows. Where seat 0 has joined
    /// all others it knows all claims. It neither waits nor takes memory.
    pub fn claim(&self, seat: &mut CounterSeat) -> u64
        requires counter { seat.old.counter ≡ self.now }
        requires room { length seat.old.view.claims < 64 }
        ensures counter { seat.new.counter ≡ seat.old.counter }
        ensures claimed { seat.new.view ≡ claimed_view seat.old.view result }
        ensures rises { IsStrictlyIncreasing seat.new.view.claims }
        ensures above { All (λ c. c < result) (known_claims seat.old.view) }
        ensures least { length (known_claims seat.old.view) ≤ result }
        ensures few { result < 33 * 64 }
        ensures all_known { AllJoined seat.old.view → result ≡ length (known_claims seat.old.view) }
    {
        let shared = &self.table.shared;
        shared.fetch_add::<Claim>(&mut seat.place, CLAIMED, 1)
    }

    /// Joins another seat to seat 0. Seat 0 keeps the number and the claims of the other. It takes
    /// no memory.
    pub fn join(&self, first: &mut CounterSeat, other: CounterSeat)
        requires counter { first.old.counter ≡ self.now }
        requires other_counter { other.counter ≡ self.now }
        requires first { first.old.view.number ≡ 0 }
        ensures counter { first.new.counter ≡ first.old.counter }
        ensures kept { first.new.view ≡ joined_view first.old.view other.view }
    {
        let CounterSeat { place } = other;
        let shared = &self.table.shared;
        shared.join_seat::<TakeIn>(&mut first.place, place);
    }

    /// How many claims were made, once all other seats were joined. The claims of seat 0 and those
    /// that it keeps are the numbers below that, each once. It takes no memory.
    pub fn close(self, first: CounterSeat) -> u64
        requires counter { first.counter ≡ self }
        requires first { first.view.number ≡ 0 }
        requires joined { AllJoined first.view }
        ensures once { EachOnce result (known_claims first.view) }
        ensures count { result ≡ length (known_claims first.view) }
    {
        let PageCounter { table } = self;
        let CounterSeat { place } = first;
        let closed = table.close_with(place);
        let claimed = closed.word(CLAIMED);
        closed.free();
        claimed
    }
}
