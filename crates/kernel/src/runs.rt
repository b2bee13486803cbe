//! Whole runs, and stretches of them.
ghost use Rattle.std.specs.Prelude.{◌≡◌, true, false, ◌<◌, ◌≤◌, ◌+◌, ◌^◌, ◌++◌, [], Some, None, IfSome, IfOk, OnOk, OnErr, length};
ghost use Rattle.std.specs.List.{AllByRecursion};
ghost use Rattle.model.specs.State.{State};
ghost use Rattle.model.specs.Step.{step};
ghost use Rattle.model.specs.Run as definition;
ghost use Rattle.model.specs.declared.plan.Injection as definitions;
ghost use Rattle.model.specs.Plans.{IsPlan};
ghost use Rattle.model.specs.Invariant.{IsState};
ghost use Rattle.model.specs.Run.{end_of, IsRun, state_after, events_after};
ghost use Rattle.machine.specs.Logged.{all_of};
ghost use Rattle.machine.specs.StandsFor.{Stands};
ghost use Rattle.kernel.specs.Over.{is_over};
ghost use Rattle.machine.specs.Can.{IsUnderWay};
ghost use Rattle.kernel.specs.InScript.{IsAt};
ghost use Rattle.kernel.specs.Along.{IsFree, GoesTo, GoesOn, IsGoing, GoesFurther};
ghost use Rattle.kernel.specs.Rows.{events_from, Extends};

use crate::bits::pass_held;
use crate::dispatch::Following;
use crate::over::{ended, is_at_tick_limit, is_left_alone, is_over};
use crate::quiet::{free_until, next_injection};
use crate::shortcuts::pass_more;
use crate::steps::{op_of, step_by_plan, step_of_op, step_to_trail, step_without_op};
use crate::suspended::go_on_while_suspended;
use machine::{Machine, StepLog, Trail};
use model::{App, End, Injection, Limits, Memory, Meter, Op, Plan, Run, TaskId};
use std::alloc::Global;

/// The running task and its op, if nothing holds the scheduler in a state of a run. If something holds it, or idle runs, it returns
/// some task and no op; if the run is over, nothing at all. A task that runs while nothing holds the scheduler is Ready, so the run
/// is over only if it has been stopped, or if that task is endless and left alone.
#[inline(always)]
fn op_if_going<'a>(
    machine: &Machine,
    app: &'a App,
    limits: &Limits,
) -> Option<(TaskId, Option<&'a Op>)>
    requires there { IfSome machine.now.sched.current (λ task. task < length app.now.tasks) }
    requires depth { machine.now.sched.suspensions ≤ machine.now.sched.depth }
    ensures going { IfSome result (λ found. (s : State) → Stands machine.now s → IsState app.now s
        → is_over app.now limits.now s ≡ false) }
    ensures some { IfSome result (λ found. IfSome found.1 (λ op. IsAt app.now machine.now found.0 op.now)) }
{
    let Some(task) = machine.sched.current() else {
        if is_over(machine, app, limits) {
            return None;
        }
        return Some((TaskId { number: 0 }, None));
    };
    if machine.sched.depth() > 0 {
        if is_over(machine, app, limits) {
            return None;
        }
        return Some((TaskId { number: 0 }, None));
    }
    if machine.stopped.is_some() {
        return None;
    }
    if is_left_alone(machine, app, task) {
        return None;
    }
    if is_at_tick_limit(machine, app, limits) {
        return None;
    }
    Some((task, op_of(app, task, machine.progress(task).op_index)))
}

/// Counts this many steps.
// The compiler makes one addition of it.
fn count_steps(meter: &mut Meter, steps: u32)
    requires { meter.old + steps ≤ 2 ^ 63 }
    ensures { meter.new ≡ meter.old + steps }
{
    for _ in 0..steps {
        meter.count();
    }
}

/// Does the steps in which the running task only goes on in its script, beginning with this op, and the next one, which does more.
/// If that one begins to set bits or to wait for some, it also does the one in which its call lets go of the scheduler. It does
/// none from the step before `until` on. The run is under way, and isn't over; the trail has no event of this step yet. Returns
/// what may follow the last of them (`pass_more`).
#[inline(always)]
fn steps_in_script(
    kernel: &mut Machine,
    app: &App,
    injections: &[Injection],
    until: u32,
    task: TaskId,
    first: &Op,
    limits: &Limits,
    trail: &mut Trail,
) -> Following
    requires going { IsGoing app.now limits.now until kernel.old injections.now }
    requires soon { kernel.old.steps + 1 < until }
    requires at { IsAt app.now kernel.old task first.now }
    requires begun { trail.old.told ≡ [] }
    requires room { 512 ≤ trail.old.room }
    ensures along { GoesFurther app.now limits.now until kernel.old kernel.new (all_of trail.old) (all_of trail.new) }
    ensures on { kernel.old.steps < kernel.new.steps }
    ensures soon { kernel.new.steps < until }
{
    app.well_formed();
    limits.well_formed();
    let last = until - 2;
    let mut op = first;
    'steps: loop {
        match step_of_op(kernel, app, task, op, limits, trail) {
            Following::NextOp => {
                if last < kernel.steps {
                    return Following::Nothing;
                }
            }
            Following::Answered => {
                if last < kernel.steps || trail.begin().is_err() {
                    return Following::Nothing;
                }
            }
            Following::LettingGo => {
                if kernel.steps <= last {
                    pass_held(kernel, app, injections, until, task, op, limits, trail);
                }
                return Following::Nothing;
            }
            following => return following,
        }
        let Some(next) = op_of(app, task, kernel.progress(task).op_index) else {
            return Following::Nothing;
        };
        op = next;
    }
}

/// Does a step in which something holds the scheduler or idle runs, and those during which a task holds it. It does none from the
/// step before `until` on. The run is under way, and isn't over; the trail has no event of this step yet. Returns what may follow
/// the last of them (`pass_more`).
// Most steps are none of these, and are the faster without them.
#[inline(never)]
fn steps_without_op(
    kernel: &mut Machine,
    app: &App,
    injections: &[Injection],
    until: u32,
    limits: &Limits,
    trail: &mut Trail,
) -> Following
    requires going { IsGoing app.now limits.now until kernel.old injections.now }
    requires soon { kernel.old.steps + 1 < until }
    requires begun { trail.old.told ≡ [] }
    requires room { 512 ≤ trail.old.room }
    ensures along { GoesFurther app.now limits.now until kernel.old kernel.new (all_of trail.old) (all_of trail.new) }
    ensures on { kernel.old.steps < kernel.new.steps }
    ensures soon { kernel.new.steps < until }
{
    app.well_formed();
    limits.well_formed();
    let following = step_without_op(kernel, app, limits, trail);
    if kernel.sched.suspensions() > 0 {
        go_on_while_suspended(kernel, app, injections, until, limits, trail);
    }
    following
}

/// Does the next step, and those before it in which the running task only goes on in its script. It does none from the step before
/// `until` on. The running task is at this op, if it has one. The run is under way, and isn't over; the trail has no event of this
/// step yet. Returns what may follow the last of them (`pass_more`).
#[inline(always)]
fn next_steps(
    kernel: &mut Machine,
    app: &App,
    injections: &[Injection],
    until: u32,
    task: TaskId,
    op: Option<&Op>,
    limits: &Limits,
    trail: &mut Trail,
) -> Following
    requires going { IsGoing app.now limits.now until kernel.old injections.now }
    requires soon { kernel.old.steps + 1 < until }
    requires some { IfSome op (λ op. IsAt app.now kernel.old task op.now) }
    requires begun { trail.old.told ≡ [] }
    requires room { 512 ≤ trail.old.room }
    ensures along { GoesFurther app.now limits.now until kernel.old kernel.new (all_of trail.old) (all_of trail.new) }
    ensures on { kernel.old.steps < kernel.new.steps }
    ensures soon { kernel.new.steps < until }
{
    app.well_formed();
    limits.well_formed();
    match op {
        Some(first) => {
            steps_in_script(kernel, app, injections, until, task, first, limits, trail)
        }
        None => steps_without_op(kernel, app, injections, until, limits, trail),
    }
}

/// Goes on as `go_on` does, but counts nothing. It also stops before the last step, so that two steps may be done at once, and if
/// the trail has less room than a step may need and gets no more.
#[inline(never)]
fn go_on_in_room(
    kernel: &mut Machine,
    app: &App,
    injections: &[Injection],
    until: u32,
    limits: &Limits,
    trail: &mut Trail,
)
    requires { IsFree app.now limits.now until kernel.old injections.now }
    ensures { GoesOn app.now limits.now until kernel.old kernel.new (all_of trail.old) (all_of trail.new) }
{
    app.well_formed();
    limits.well_formed();
    let last = until.saturating_sub(1);
    'steps: while kernel.steps < last {
        if trail.begin().is_err() {
            return;
        }
        let Some(found) = op_if_going(kernel, app, limits) else {
            return;
        };
        let following = next_steps(
            kernel, app, injections, until, found.0, found.1, limits, trail,
        );
        pass_more(kernel, app, injections, until, following, limits, trail);
    }
}

/// Goes on along a run that is under way, up to this step or to an end before it, and keeps the events from there on. The plan has no
/// injections before that step, and neither limit is reached before it, so none of this is looked at on the way. It does the same for
/// every such run that comes to this kernel.
pub(crate) fn go_on(
    kernel: &mut Machine,
    app: &App,
    injections: &[Injection],
    until: u32,
    limits: &Limits,
    meter: &mut Meter,
    log: &mut StepLog,
    trail: &mut Trail,
) -> Result<(), Memory>
    requires free { IsFree app.now limits.now until kernel.old injections.now }
    requires ahead { kernel.old.steps ≤ until }
    requires meter { meter.old < 2 ^ 62 + kernel.old.steps }
    ensures to { GoesTo app.now limits.now until kernel.old kernel.new }
    ensures there { OnOk result (kernel.new.steps < until
        → is_over app.now limits.now (state_after app.now limits.now injections.now kernel.new.steps) ≡ true) }
    ensures along { OnOk result
        (GoesOn app.now limits.now until kernel.old kernel.new (all_of trail.old) (all_of trail.new)) }
    ensures meter { meter.new + kernel.old.steps ≡ meter.old + kernel.new.steps }
    ensures kept { OnErr result (Extends (all_of trail.old) (all_of trail.new)) }
    ensures memory { OnErr result (0 < length (events_after app.now limits.now injections.now kernel.new.steps)) }
{
    app.well_formed();
    limits.well_formed();
    'steps: loop {
        let start = kernel.steps;
        go_on_in_room(kernel, app, injections, until, limits, trail);
        count_steps(meter, kernel.steps - start);
        if until <= kernel.steps {
            return Ok(());
        }
        if is_over(kernel, app, limits) {
            return Ok(());
        }
        step_to_trail(kernel, app, &[], limits, meter, log, trail)?;
    }
}

/// Continues a run that is under way, up to this step or to its end before it, and keeps the events from there on. These injections
/// are those of its plan that are left. Returns how the run ends there; `None` if it goes on.
pub(crate) fn go_to_step(
    kernel: &mut Machine,
    app: &App,
    injections: &[Injection],
    step: u32,
    limits: &Limits,
    meter: &mut Meter,
    log: &mut StepLog,
    trail: &mut Trail,
) -> Result<Option<End>, Memory>
    requires plan { IsPlan injections.now }
    requires ahead { AllByRecursion (λ (i : definitions.Injection). kernel.old.steps ≤ i.step) injections.now }
    requires way { IsUnderWay app.now injections.now limits.now kernel.old }
    requires soon { kernel.old.steps ≤ step }
    requires meter { meter.old < 2 ^ 62 + kernel.old.steps }
    ensures way { IsUnderWay app.now injections.now limits.now kernel.new }
    ensures on { kernel.old.steps ≤ kernel.new.steps }
    ensures far { kernel.new.steps ≤ step }
    ensures events { OnOk result
        (all_of trail.new ≡ all_of trail.old ++ events_from app.now limits.now injections.now kernel.old.steps kernel.new.steps) }
    ensures end { IfOk result
        (λ end. end ≡ end_of app.now limits.now (state_after app.now limits.now injections.now kernel.new.steps)) }
    ensures there { IfOk result (λ end. end ≡ None → kernel.new.steps ≡ step) }
    ensures meter { meter.new + kernel.old.steps ≡ meter.old + kernel.new.steps }
    ensures kept { OnErr result (Extends (all_of trail.old) (all_of trail.new)) }
    // memory is asked for events alone
    ensures memory { OnErr result (0 < length (events_after app.now limits.now injections.now kernel.new.steps)) }
{
    app.well_formed();
    limits.well_formed();
    let mut left = injections;
    'steps: loop {
        if let Some(end) = ended(kernel, app, limits) {
            return Ok(Some(end));
        }
        if kernel.steps == step {
            return Ok(None);
        }
        left = step_by_plan(kernel, app, left, limits, meter, log, trail)?;
        if !kernel.sources.any_pending() {
            let until = free_until(kernel, app, next_injection(left).min(step), limits);
            go_on(kernel, app, injections, until, limits, meter, log, trail)?;
        }
    }
}

/// Goes on to the end of a run that is under way, and keeps the events from there on. These injections are its plan, all of
/// them still to come.
pub(crate) fn finish(
    kernel: &mut Machine,
    app: &App,
    injections: &[Injection],
    limits: &Limits,
    meter: &mut Meter,
    log: &mut StepLog,
    trail: &mut Trail,
) -> Result<End, Memory>
    requires plan { IsPlan injections.now }
    requires ahead { AllByRecursion (λ (i : definitions.Injection). kernel.old.steps ≤ i.step) injections.now }
    requires way { IsUnderWay app.now injections.now limits.now kernel.old }
    requires meter { meter.old < 2 ^ 62 + kernel.old.steps }
    ensures way { IsUnderWay app.now injections.now limits.now kernel.new }
    ensures on { kernel.old.steps ≤ kernel.new.steps }
    ensures events { OnOk result
        (all_of trail.new ≡ all_of trail.old ++ events_from app.now limits.now injections.now kernel.old.steps kernel.new.steps) }
    ensures ended { IfOk result
        (λ end. end_of app.now limits.now (state_after app.now limits.now injections.now kernel.new.steps) ≡ Some end) }
    ensures meter { meter.new + kernel.old.steps ≡ meter.old + kernel.new.steps }
    ensures kept { OnErr result (Extends (all_of trail.old) (all_of trail.new)) }
    ensures memory { OnErr result (0 < length (events_after app.now limits.now injections.now kernel.new.steps)) }
{
    limits.well_formed();
    match go_to_step(kernel, app, injections, u32::MAX, limits, meter, log, trail)? {
        Some(end) => Ok(end),
        // No run comes so far (profile).
        None => unreachable!(),
    }
}

/// The run of an application with this plan, from reset to its end under these limits. An injection of the plan past the end of the
/// run does nothing.
///
/// The meter, which is below 2^62, rises by the steps of the run. `Err(Memory)` is returned only if a growth was refused, so never
/// if the run reports nothing. The meter has then risen by no more than that.
pub fn run(
    alloc: Global,
    app: &App,
    plan: &Plan,
    limits: Limits,
    meter: &mut Meter,
) -> Result<Run, Memory>
    requires { meter.old < 2 ^ 62 }
    ensures run { IfOk result (λ run. IsRun app.now plan.now limits run) }
    ensures meter { IfOk result (λ run. meter.new ≡ meter.old + run.steps) }
    ensures rises { meter.old ≤ meter.new }
    ensures refused { OnErr result ((run : definition.Run) → IsRun app.now plan.now limits run
        → (meter.new ≤ meter.old + run.steps) × (0 < length run.events)) }
{
    limits.well_formed();
    plan.well_formed();
    let mut trail = Trail::new(alloc);
    let mut kernel = Machine::boot(app);
    let injections = plan.injections();
    let mut log = StepLog::new();
    let end = finish(
        &mut kernel,
        app,
        injections,
        &limits,
        meter,
        &mut log,
        &mut trail,
    )?;
    Ok(Run {
        events: trail.into_events(),
        steps: kernel.steps,
        ticks: kernel.clock.elapsed(),
        end,
    })
}
