//! What a seat knows, as contracts and the rule see it. No value of these types is made.
use std::collections::LinkedList;

/// A seat's number, and its claims in the order in which it made them.
pub struct SeatClaims {
    pub number: u32,
    pub claims: LinkedList<u64>,
}

/// What a seat knows.
pub struct View {
    pub number: u32,
    /// The numbers that it claimed, in that order.
    pub claims: LinkedList<u64>,
    /// How many seats were made. Only seat 0 knows.
    pub made: u32,
    /// The seats that were joined, in that order, each with its claims. Only seat 0 knows.
    pub joined: LinkedList<SeatClaims>,
}

/// What the rule knows of a seat that was made: its view, until it is joined.
pub struct SeatState {
    pub live: bool,
    pub view: View,
}
