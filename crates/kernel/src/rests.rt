//! The rest of a run, into which nothing is injected any more. It is the same for each run that comes to the same kernel.
ghost use Rattle.std.specs.Prelude.{◌≡◌, ◌<◌, ◌≤◌, ◌+◌, ◌^◌, ℕ, [], None, IfOk, IfSome, OnErr, OnOk, length};
ghost use Rattle.model.specs.Run as definition;
ghost use Rattle.model.specs.Run.{IsRun, end_of, events_after, injected, state_after};
ghost use Rattle.machine.specs.Logged.{all_of};
ghost use Rattle.machine.specs.Can.{IsUnderWay};
ghost use Rattle.kernel.specs.Rows.{Extends};
ghost use Rattle.kernel.specs.Leads.{IsEnd, IsLed};

use crate::kernel::Kernel;
use crate::over::ended;
use crate::quiet::free_until;
use crate::runs::go_on;
use crate::steps::step_to_trail;
use machine::{StepLog, Trail};
use model::{App, End, Injection, Limits, Memory, Meter};

/// What is said of the rest of a run but its events.
#[derive(Clone, Copy)]
pub struct RestEnding {
    /// How many steps the run has in all.
    pub steps: u32,
    /// How many ticks had passed at its end.
    pub ticks: u64,
    /// How it ended.
    pub end: End,
}

/// Continues a run that is under way, into which no handler is injected any more, up to this step or to its end before it. The
/// trail gains the events from there on, after those that it has. Each run that was at this kernel, and into which nothing is
/// injected from there on, whatever injections it has had, reaches the state that the kernel then has, with the same events on the
/// way. Returns how it ended there; `None` if it goes on. The log is for the events of a step; its content doesn't matter.
///
/// The meter, which is below 2^62 and the steps that the run has done, rises by the steps that are done here. `Err(Memory)` is
/// returned only if a growth was refused, so never if the run reports nothing. The run has then gone no further than to its end;
/// the trail has the events that it had, and some of the run's after them.
pub fn go_far(
    kernel: &mut Kernel,
    app: &App,
    injections: &[Injection],
    until: u32,
    limits: &Limits,
    meter: &mut Meter,
    log: &mut StepLog,
    trail: &mut Trail,
) -> Result<Option<RestEnding>, Memory>
    requires way { IsUnderWay app.now injections.now limits.now kernel.old }
    requires past { (n : ℕ) → kernel.old.steps ≤ n → injected injections.now n ≡ [] }
    requires ahead { kernel.old.steps ≤ until }
    requires meter { meter.old < 2 ^ 62 + kernel.old.steps }
    ensures way { IsUnderWay app.now injections.now limits.now kernel.new }
    ensures on { kernel.old.steps ≤ kernel.new.steps }
    ensures far { kernel.new.steps ≤ until }
    ensures led { OnOk result (IsLed app.now limits.now kernel.old kernel.new (all_of trail.old) (all_of trail.new)) }
    ensures end { IfOk result (λ ending. IfSome ending (IsEnd app.now limits.now kernel.new)) }
    ensures there { IfOk result (λ ending. ending ≡ None → kernel.new.steps ≡ until) }
    ensures goes { IfOk result (λ ending. ending ≡ None
        → end_of app.now limits.now (state_after app.now limits.now injections.now until) ≡ None) }
    ensures meter { meter.new + kernel.old.steps ≡ meter.old + kernel.new.steps }
    ensures kept { OnErr result (Extends (all_of trail.old) (all_of trail.new)) }
    ensures refused { OnErr result ((run : definition.Run) → IsRun app.now injections.now limits.now run
        → (kernel.new.steps ≤ run.steps) × (0 < length run.events)) }
    // the run has reported something by then
    ensures memory { OnErr result (0 < length (events_after app.now limits.now injections.now kernel.new.steps)) }
{
    app.well_formed();
    limits.well_formed();
    kernel.tasks = app.tasks().len();
    let machine = &mut kernel.machine;
    'steps: loop {
        if let Some(end) = ended(machine, app, limits) {
            return Ok(Some(RestEnding {
                steps: machine.steps,
                ticks: machine.clock.elapsed(),
                end,
            }));
        }
        if machine.steps == until {
            return Ok(None);
        }
        if machine.sources.any_pending() {
            step_to_trail(machine, app, &[], limits, meter, log, trail)?;
        } else {
            let stop = free_until(machine, app, until, limits);
            go_on(machine, app, injections, stop, limits, meter, log, trail)?;
        }
    }
}
