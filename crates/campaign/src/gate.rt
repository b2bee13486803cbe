//! An observer of what the workers of a campaign do.
use deal::Counts;

/// Learns what the workers of a campaign do. No contract mentions it. It is called by the workers,
/// each in its own thread, and a worker goes on when it returns.
pub trait Gate {
    /// The campaign begins, and has this many points.
    fn begun(&self, _points: usize) {}

    /// A worker begins this block: it hasn't run the first of its points. `seen` is what the
    /// worker's seat then reads of the tally.
    fn entered(&self, worker: usize, block: usize, seen: &Counts);

    /// All workers are done.
    fn ended(&self) {}
}

/// A gate that does nothing.
#[derive(Clone, Copy)]
pub struct NoGate;

impl Gate for NoGate {
    fn entered(&self, _worker: usize, _block: usize, _seen: &Counts) {}
}
