//! What runs are made with.
ghost use Rattle.std.specs.Prelude.{◌≡◌, []};
ghost use Rattle.machine.specs.Logged.{all_of};

use kernel::{Kernel, StepLog, Trail};
use model::{App, Meter};
use std::alloc::Global;

/// What runs are made with, one after another: a kernel, the log of a step, the events that were
/// reported, and the meter of the steps.
#[derive(Drop)]
pub struct Simulation {
    pub kernel: Kernel,
    pub log: StepLog,
    pub trail: Trail,
    pub meter: Meter,
}

impl Simulation {
    /// A kernel at reset, before any event or step. It takes no memory.
    pub fn new(alloc: Global, app: &App) -> Simulation
        ensures trail { all_of result.trail ≡ [] }
        ensures meter { result.meter ≡ 0 }
    {
        Simulation {
            kernel: Kernel::boot(app),
            log: StepLog::new(),
            trail: Trail::new(alloc),
            meter: Meter::new(),
        }
    }
}
