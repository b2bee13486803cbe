//! A lane's deque and its ways to the others', before there is a lane.
use crate::dealt::Own;
use crate::reach::Reach;

#[derive(Drop)]
pub struct Hand {
    pub own: Own,
    pub others: Vec<Reach>,
}
