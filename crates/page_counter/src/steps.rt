//! The rule of the counter, and what is known after each step. These types are for the proofs
//! alone.
use crate::view::SeatState;
use atomic_table::{Join, Play, Split, TableRule};

pub struct Claims;

impl TableRule<(), SeatState, ()> for Claims {
    ghost use Rattle.page_counter.specs.CounterRule.{CounterRule};
    ghost use Rattle.page_counter.specs.Views.{first_state};

    ghost holds = { λ _. CounterRule };

    ghost first = { λ _. first_state };
}

// Claims the next number.
pub struct Claim;

impl Play<(), SeatState> for Claim {
    ghost use Rattle.page_counter.specs.Steps.{ClaimStep};

    ghost then = { ClaimStep };
}

pub struct SplitOff;

impl Split<SeatState> for SplitOff {
    ghost use Rattle.page_counter.specs.Views.{split_state, new_state};

    ghost left = { split_state };

    ghost right = { new_state };
}

pub struct TakeIn;

impl Join<SeatState> for TakeIn {
    ghost use Rattle.page_counter.specs.Views.{joined_state, spent_state};

    ghost both = { joined_state };

    ghost spent = { spent_state };
}
