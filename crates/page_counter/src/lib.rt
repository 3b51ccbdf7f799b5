//! Which page of a round a worker draws next: one counter, from which seats claim numbers, each
//! once. The rule that holds between any two steps of all seats is in `specs/CounterRule.antt`.
#![tactic(auto)]

mod counter;
pub mod example;
pub mod laws;
mod seat;
mod steps;
mod view;

pub use counter::PageCounter;
pub use seat::CounterSeat;
pub use view::{SeatClaims, View};
