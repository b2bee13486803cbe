//! What jobs are done with.
use campaign::NoGate;
use std::alloc::Global;

/// What a job is done with: the runtime whose threads and files it uses, its memory, and the gate
/// that learns how far it has come.
#[derive(Drop)]
pub struct Host<'a, T, G> {
    /// The runtime.
    pub rt: &'a T,
    /// The memory.
    pub alloc: Global,
    /// The gate.
    pub gate: &'a G,
}

impl<'a, T, G> Host<'a, T, G> {
    /// The same, but nobody learns how far a job has come.
    pub(crate) fn quiet(&self) -> Host<'a, T, NoGate> {
        Host {
            rt: self.rt,
            alloc: self.alloc,
            gate: &NoGate,
        }
    }
}
