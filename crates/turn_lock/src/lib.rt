//! A lock whose value goes from seat to seat in the order in which turns were drawn: a ticket lock.
//! Its value keeps a history, and each seat knows the beginning of that history that it has seen.
//! The rule that holds between any two steps of all seats is in `specs/TurnRule.antt`.
#![tactic(auto)]

pub mod example;
pub mod laws;
mod lock;
mod seat;
mod sleepers;
mod steps;
mod view;
mod waiting;

pub use lock::TurnLock;
pub use seat::Seat;
pub use view::{Stage, View};
