//! Rows of a campaign: runs with one point each, on a kernel that is used again.
ghost use Rattle.std.specs.Prelude.{◌≡◌, ◌<◌, ◌≤◌, ◌+◌, ◌^◌, None, IfOk, OnErr, OnOk, [], length, ◌++◌};
ghost use Rattle.model.specs.Points.{first_step};
ghost use Rattle.model.specs.Run as definition;
ghost use Rattle.model.specs.Run.{end_of, IsRun, state_after};
ghost use Rattle.machine.specs.Logged.{all_of};
ghost use Rattle.machine.specs.Can.{IsUnderWay};
ghost use Rattle.kernel.specs.Rows.{Extends, events_from};

use crate::kernel::Kernel;
use crate::runs::go_to_step;
use machine::{StepLog, Trail};
use model::{App, End, Limits, Memory, Meter, Point};

/// Runs the first part of a row, up to this step or to the row's end before it, on a kernel that has reached the point's first injection
/// along the base run. The point's handlers come before their steps. The trail gains the events from there on, after those that it has.
/// Returns how the row ended; `None` if it goes on. The log is for the events of a step; what it has doesn't matter.
///
/// The base run gets beyond the step of the first injection. The meter, which is below 2^62 and the steps before that injection, rises by
/// the steps that are done here.
/// `Err(Memory)` is returned only if a growth was refused, so never if the row reports nothing. The trail then has the events that it
/// had, and some of the row's after them.
pub fn begin_row(
    kernel: &mut Kernel,
    app: &App,
    point: &Point,
    until: u32,
    limits: &Limits,
    meter: &mut Meter,
    log: &mut StepLog,
    trail: &mut Trail,
) -> Result<Option<End>, Memory>
    requires way { IsUnderWay app.now [] limits.now kernel.old }
    requires there { kernel.old.steps ≡ first_step point.now }
    requires goes { end_of app.now limits.now (state_after app.now limits.now [] (first_step point.now)) ≡ None }
    requires beyond { first_step point.now < until }
    requires meter { meter.old < 2 ^ 62 + kernel.old.steps }
    ensures way { IsUnderWay app.now point.now limits.now kernel.new }
    ensures on { first_step point.now ≤ kernel.new.steps }
    ensures past { OnOk result (first_step point.now < kernel.new.steps) }
    ensures far { kernel.new.steps ≤ until }
    ensures events { OnOk result
        (all_of trail.new ≡ all_of trail.old ++ events_from app.now limits.now point.now (first_step point.now) kernel.new.steps) }
    ensures end { IfOk result (λ end. end ≡ end_of app.now limits.now (state_after app.now limits.now point.now kernel.new.steps)) }
    ensures there { IfOk result (λ end. end ≡ None → kernel.new.steps ≡ until) }
    ensures meter { meter.new + first_step point.now ≡ meter.old + kernel.new.steps }
    ensures kept { OnErr result (Extends (all_of trail.old) (all_of trail.new)) }
    ensures refused { OnErr result ((run : definition.Run) → IsRun app.now point.now limits.now run
        → (kernel.new.steps ≤ run.steps) × (0 < length run.events)) }
{
    point.well_formed();
    app.well_formed();
    kernel.tasks = app.tasks().len();
    let injections = point.injections();
    go_to_step(
        &mut kernel.machine,
        app,
        injections.as_slice(),
        until,
        limits,
        meter,
        log,
        trail,
    )
}
