//! The shortcuts of a run: steps that are done one after another, following one that reported nothing, with its parts at hand.
ghost use Rattle.std.specs.Prelude.{◌<◌, [], IfSome};
ghost use Rattle.machine.specs.Logged.{all_of};
ghost use Rattle.kernel.specs.Along.{IsFree, GoesOn, NoneIsOver};
ghost use Rattle.kernel.specs.InCall.{IsLeaving};

use crate::commands::pass_command;
use crate::dispatch::Following;
use crate::in_call::{deciding, pass_call, pass_leave};
use crate::quiet::{may_be_quiet, pass_quiet_steps, ticks_to_work};
use crate::suspended::go_on_while_suspended;
use machine::{Machine, Trail};
use model::{App, Injection, Limits, TaskId};

/// Does the steps after one that reported nothing, if they are such as are done one after another (see `pass_on`), and the one in
/// which a call lets go of the scheduler; or those during a `suspend_all`. It does none after an op that nothing may follow.
#[inline(always)]
pub(crate) fn pass_more(
    kernel: &mut Machine,
    app: &App,
    injections: &[Injection],
    until: u32,
    following: Following,
    limits: &Limits,
    trail: &mut Trail,
)
    requires free { IsFree app.now limits.now until kernel.old injections.now }
    requires soon { kernel.old.steps < until }
    ensures { GoesOn app.now limits.now until kernel.old kernel.new (all_of trail.old) (all_of trail.new) }
{
    app.well_formed();
    match following {
        Following::Steps => {
            if let Some(task) = pass_on(kernel, app, injections, until, trail.is_silent(), limits) {
                pass_leave(kernel, app, injections, until, task, limits, trail);
            }
        }
        Following::Command => {
            if trail.is_silent() {
                pass_command(kernel, app, injections, until, limits, trail);
            }
        }
        Following::Suspended => {
            go_on_while_suspended(kernel, app, injections, until, limits, trail);
        }
        _ => {}
    }
}

/// Does the steps after one that reported nothing, if they are such as are done one after another: those of a call that decides
/// next, or those that only let a tick pass. Most other steps are followed by none of these. Returns the task if its call lets go
/// of the scheduler next: then the run isn't over.
#[inline(always)]
pub(crate) fn pass_on(
    kernel: &mut Machine,
    app: &App,
    injections: &[Injection],
    until: u32,
    silent: bool,
    limits: &Limits,
) -> Option<TaskId>
    requires { IsFree app.now limits.now until kernel.old injections.now }
    ensures along { GoesOn app.now limits.now until kernel.old kernel.new [] [] }
    ensures leaving { IfSome result (λ task. IsLeaving app.now kernel.new task) }
    ensures going { IfSome result (λ task. NoneIsOver app.now limits.now until kernel.old kernel.new) }
{
    if !silent {
        return None;
    }
    if let Some(task) = deciding(kernel) {
        return pass_call(kernel, app, injections, until, task, limits);
    }
    if !may_be_quiet(kernel) {
        return None;
    }
    let work = ticks_to_work(kernel, app);
    if work > 0 {
        pass_quiet_steps(kernel, app, injections, until, work, limits);
    }
    None
}
