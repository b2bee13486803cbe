//! The kernel as it was along the base run.
ghost use Rattle.std.specs.Prelude.{◌<◌, ◌≤◌, ◌*◌, ◌≡◌, [], length, IfOk, OnOk};
ghost use Rattle.model.specs.Run.{IsRun};
ghost use Rattle.shelf.specs.Shelves.{AreCheckpoints};
ghost use Rattle.shelf.specs.Rests.{AreRests};

use kernel::{Kernel, Snapshot, StepLog, Trail, go_far};
use model::{App, Limits, Memory, Meter, Run};
use std::alloc::Global;

/// The kernel as it was before a step of the base run.
#[derive(Drop)]
pub(crate) struct Checkpoint {
    pub(crate) kernel: Snapshot,
    pub(crate) hint: u64,
    /// How many events the run had reported by then.
    pub(crate) before: usize,
}

/// Runs the base run from reset to its end, and keeps the kernel as it is before steps 0, `stride`, 2 `stride` and so on.
pub(crate) fn put_checkpoints(
    alloc: Global,
    app: &App,
    limits: &Limits,
    stride: u32,
    checkpoints: &mut Vec<Checkpoint>,
) -> Result<Run, Memory>
    requires none_put { checkpoints.old.items ≡ [] }
    requires apart { 0 < stride }
    requires near { stride ≤ 65536 }
    ensures base { IfOk result (λ base. IsRun app.now [] limits.now base) }
    ensures checkpoints { OnOk result (AreCheckpoints app.now limits.now stride checkpoints.new.items) }
    ensures rests { IfOk result (λ base. AreRests app.now limits.now base checkpoints.new.items) }
    ensures enough { IfOk result (λ base. base.steps ≤ length checkpoints.new.items * stride) }
{
    app.well_formed();
    limits.well_formed();
    let mut kernel = Kernel::boot(app);
    let mut trail = Trail::new(alloc);
    let mut meter = Meter::new();
    let mut log = StepLog::new();
    let mut next = 0;
    'checkpoints: loop {
        let ending = go_far(
            &mut kernel,
            app,
            &[],
            next,
            limits,
            &mut meter,
            &mut log,
            &mut trail,
        )?;
        if let Some(ending) = ending {
            return Ok(Run {
                events: trail.into_events(),
                steps: ending.steps,
                ticks: ending.ticks,
                end: ending.end,
            });
        }
        checkpoints.push(Checkpoint {
            kernel: kernel.snapshot(alloc)?,
            hint: kernel.hint(app),
            before: trail.len(),
        })?;
        next += stride;
    }
}
