//! A seat at a turn lock.
ghost use Rattle.std.specs.Prelude.{◌≡◌};

use crate::view::View;
use std::marker::Model;

// What the table knows of it. It has no bytes.
pub(crate) type TableSeat<T> = atomic_table::Seat<Option<T>, View>;

/// A seat at a turn lock. Contracts see its lock and its view: its number, whether it has the turn,
/// how many turns it drew, the history that it has seen, and the common part; of seat 0 also how
/// many seats were made, and which were joined. A seat that is dropped stays live, and then no call
/// can close the lock.
#[derive(Drop)]
pub struct Seat<T> {
    pub(crate) place: TableSeat<T>,
    pub(crate) number: u32,
    pub(crate) drawn: u64,
    // At seat 0, how many seats were made.
    pub(crate) made: u32,
    // The ticket of its turn, while it has the turn.
    pub(crate) ticket: Option<u64>,
}

impl<T> Model for Seat<T> {
    ghost use Rattle.std.specs.Prelude.{◌≡◌};
    ghost use Rattle.turn_lock.specs.Seats.{SeatView, IsKept};
    ghost use Rattle.turn_lock.specs.Codes.{seat_code};

    ghost Value = { SeatView };

    ghost coded = { seat_code };

    ghost view = { λ s. record { lock = s.place.table_id; view = s.place.me.0 } };

    ghost invariant = { λ s. (s.number ≡ s.place.me.0.number) × (s.drawn ≡ s.place.me.0.drawn)
        × (s.made ≡ s.place.me.0.made) × IsKept s.ticket s.place.me };
}

impl<T> Seat<T> {
    /// Its number. Seat 0 is the one that came with the lock.
    pub fn number(&self) -> u32
        ensures { result ≡ self.now.view.number }
    {
        self.number
    }

    /// How many turns it drew.
    pub fn drawn(&self) -> u64
        ensures { result ≡ self.now.view.drawn }
    {
        self.drawn
    }
}
