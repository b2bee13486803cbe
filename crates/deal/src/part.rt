//! What a seat of a tally knows.
use std::collections::LinkedList;

// The number of seats, how many of them it represents, what it added to each kind, and the most it
// has seen of each. No value of it is
// made.
pub struct Part {
    pub seats: u64,
    pub parts: u64,
    pub added: LinkedList<u64>,
    pub seen: LinkedList<u64>,
}
