//! What a lane returns.

/// What a lane's call for the next block returns.
#[derive(Clone, Copy, Debug, PartialEq, Eq)]
pub enum Next {
    /// A block is the lane's, and no other's.
    Block {
        /// Its number in the division, from 0.
        number: usize,
        /// Its first point.
        first: usize,
        /// How many points it has, at least 1.
        length: usize,
    },
    /// Some block is not yet handed out or counted: another lane took one meanwhile. Ask again.
    Again,
    /// Every block has been handed out.
    Empty,
}
