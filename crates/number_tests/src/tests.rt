//! Numbers that were computed by hand.

mod cursors;
mod dots;
mod numbers;
mod sizes;
