//! Visited states: kernels that rows have reached, and how they went on from there. Rows that reach
//! the same kernel go on alike.
use crate::meeting::ahead::Ahead;
use kernel::Snapshot;

/// The kernel as it was before a step of some row, after that row's last injection, and how the row
/// went on from there. Each row that reaches the same kernel goes on in the same way. The hint and
/// the step are that kernel's.
#[derive(Drop)]
pub(crate) struct VisitedState {
    pub(crate) kernel: Box<Snapshot>,
    pub(crate) hint: u64,
    pub(crate) step: u32,
    pub(crate) rest: Ahead,
}

/// A kernel that the row on its way has reached, after its last injection, and where its events
/// from there on begin in the trail. It becomes a visited state when the row is over.
#[derive(Drop)]
pub(crate) struct Passed {
    pub(crate) kernel: Box<Snapshot>,
    pub(crate) hint: u64,
    pub(crate) from: usize,
}
