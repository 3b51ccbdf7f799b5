//! The rule of the lock, and what is known after each step. These types are for the proofs alone.
use crate::view::View;
use atomic_table::{Join, Play, Split, TableRule};
use cache_core::{GhostCommon, Told};

pub struct Turns;

impl<T: Told> TableRule<Option<T>, View, GhostCommon> for Turns {
    ghost use Rattle.turn_lock.specs.TurnRule.{TurnRule};
    ghost use Rattle.turn_lock.specs.Views.{opening_view};

    ghost holds = { λ about. TurnRule T.history T.turns T.stands about.part };

    ghost first = { λ about. opening_view about.part };
}

// Draws a ticket.
pub struct Draw;

impl<T> Play<Option<T>, View> for Draw {
    ghost use Rattle.turn_lock.specs.Steps.{DrawStep};

    ghost then = { DrawStep };
}

// Reads which ticket is served.
pub struct Peek;

impl<T: Told> Play<Option<T>, View> for Peek {
    ghost use Rattle.turn_lock.specs.Steps.{LookStep};

    ghost then = { LookStep T.history T.turns T.stands };
}

// Serves the next ticket.
pub struct HandOn;

impl<T: Told> Play<Option<T>, View> for HandOn {
    ghost use Rattle.turn_lock.specs.Steps.{HandOnStep};

    ghost then = { HandOnStep T.history };
}

// Seat 0 knows the number that it makes next.
pub struct AskNext;

impl<T> Play<Option<T>, View> for AskNext {
    ghost use Rattle.turn_lock.specs.Steps.{AskStep};

    ghost then = { AskStep };
}

// Seat 0 compares what it had seen with what the seat had that it took in.
pub struct Compare;

impl<T> Play<Option<T>, View> for Compare {
    ghost use Rattle.turn_lock.specs.Steps.{CompareStep};

    ghost then = { CompareStep };
}

pub struct SplitOff;

impl Split<View> for SplitOff {
    ghost use Rattle.turn_lock.specs.Views.{split_view, new_view};

    ghost left = { split_view };

    ghost right = { new_view };
}

pub struct TakeIn;

impl Join<View> for TakeIn {
    ghost use Rattle.turn_lock.specs.Views.{comparing_view, spent_view};

    ghost both = { comparing_view };

    ghost spent = { spent_view };
}
