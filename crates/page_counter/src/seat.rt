//! A seat at a page counter.
ghost use Rattle.std.specs.Prelude.{◌≡◌};

use crate::view::SeatState;
use std::marker::Model;

// What the table knows of it. It has no bytes.
pub(crate) type TableSeat = atomic_table::Seat<(), SeatState>;

/// A seat at a page counter. Contracts see its counter and its view: its number and its claims; of
/// seat 0 also how many seats were made, and which were joined, with their claims. A seat that is
/// dropped stays live, and then no call can close the counter.
#[derive(Drop)]
pub struct CounterSeat {
    pub(crate) place: TableSeat,
}

impl Model for CounterSeat {
    ghost use Rattle.std.specs.Prelude.{◌≡◌, true, []};
    ghost use Rattle.page_counter.specs.Seats.{SeatView};
    ghost use Rattle.page_counter.specs.Codes.{seat_code};

    ghost Value = { SeatView };

    ghost coded = { seat_code };

    ghost view = { λ s. record { counter = s.place.table_id; view = s.place.me.0.view } };

    ghost invariant = { λ s. (s.place.me.0.live ≡ true) × (s.place.me.1 ≡ []) };
}
