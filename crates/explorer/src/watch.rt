//! Who learns how far exploring has come.

/// Learns how far exploring has come. No contract speaks of it.
pub trait Watch {
    /// The runs have done so many steps, or have ended before, and go on from so many states.
    fn passed(&self, steps: u32, states: usize);

    /// Nothing more is passed.
    fn finished(&self) {}
}

/// Learns nothing.
#[derive(Clone, Copy)]
pub struct NoWatch;

impl Watch for NoWatch {
    fn passed(&self, _steps: u32, _states: usize) {}
}
