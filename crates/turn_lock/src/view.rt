//! What a seat knows, as contracts and the rule see it.
use cache_core::{Call, Common};
use std::collections::LinkedList;

/// What a seat is doing. No value of it is made.
pub enum Stage {
    /// It neither waits nor has the turn.
    Idle,
    /// It drew this ticket, and waits.
    Waiting(u64),
    /// It has the turn of this ticket, and the value, which then had as many turns.
    Holding(u64),
    /// It took another seat in: that one's number, what this one had seen, what that one had, and
    /// that one's common part.
    Comparing(u32, LinkedList<Call>, LinkedList<Call>, Common),
    /// It was joined.
    Spent,
}

/// What a seat knows. No value of it is made.
pub struct View {
    pub number: u32,
    pub stage: Stage,
    /// How many turns it drew.
    pub drawn: u64,
    /// The calls that it has seen, in order.
    pub seen: LinkedList<Call>,
    pub part: Common,
    /// How many seats were made. Only seat 0 knows.
    pub made: u32,
    /// The numbers of the seats that were joined, in that order. Only seat 0 knows.
    pub joined: LinkedList<u32>,
    /// How many turns each of these drew, in that order. Only seat 0 knows.
    pub joined_drawn: LinkedList<u64>,
}
