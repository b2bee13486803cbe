//! Jobs whose progress is not watched.

use campaign::Gate;
use deal::Counts;
use explorer::Watch;

/// Ignores the progress of a job.
#[derive(Clone, Copy)]
pub(crate) struct Unwatched;

impl Gate for Unwatched {
    fn entered(&self, _worker: usize, _block: usize, _seen: &Counts) {}
}

impl Watch for Unwatched {
    fn passed(&self, _steps: u32, _states: usize) {}
}
