//! Whether a run is over, and how it ends.
ghost use Rattle.std.specs.Prelude.{◌≡◌, ◌<◌, None, Some, false, true, ◌&&◌, length};
ghost use Rattle.std.specs.List.{list_all, list_any};
ghost use Rattle.model.specs.Application.{is_endless};
ghost use Rattle.model.specs.State.{State, Task};
ghost use Rattle.model.specs.Step.{is_ended};
ghost use Rattle.model.specs.Run.{end_of, are_all_ended, is_stuck};
ghost use Rattle.objects.specs.Objects as objects;
ghost use Rattle.groups.specs.StandsFor as groups;
ghost use Rattle.sched.specs.StandsFor as sched;
ghost use Rattle.machine.specs.StandsFor.{Stands};
ghost use Rattle.kernel.specs.Blocked.{is_blocked};
ghost use Rattle.kernel.specs.Over.{is_at_tick_limit, is_over};

use crate::suspended::is_ended;
use machine::Machine;
use model::{App, End, Limits, TaskId};

/// Whether any task waits, for an object or for bits, or is suspended.
// It is asked only if no task is Ready and none sleeps.
#[cold]
#[inline(never)]
pub(crate) fn has_waiter(machine: &Machine) -> bool
    ensures { (s : State) → objects.StandsFor machine.now.objects None s → groups.StandsFor machine.now.groups s
        → sched.StandsFor machine.now.sched s → result ≡ list_any is_blocked s.tasks }
{
    machine.objects.has_waiter() || machine.groups.has_waiter() || machine.sched.has_suspended()
}

/// Whether every task is Ended, the endless ones too: nobody is Ready, sleeps, waits or is suspended.
#[inline(always)]
fn is_nobody_left(machine: &Machine) -> bool
    ensures { (s : State) → Stands machine.now s
        → result ≡ list_all (λ (t : Task). is_ended t.status) s.tasks }
{
    !machine.sched.has_ready() && machine.clock.is_quiet() && !has_waiter(machine)
}

/// Whether every task that isn't endless is Ended, whoever else is, and there is one.
// Few applications have endless tasks.
#[cold]
#[inline(never)]
fn are_others_ended(machine: &Machine, app: &App) -> bool
    ensures { (s : State) → Stands machine.now s → result ≡ are_all_ended app.now s }
{
    if !app.is_any_awaited() {
        return false;
    }
    for number in 0..32 {
        let task = TaskId { number };
        if !app.is_endless(task) && !is_ended(machine, task) {
            return false;
        }
    }
    true
}

/// Whether the run waits for a task's end: it isn't endless, and is Ready or waits for bits.
#[inline(always)]
fn is_awaited(machine: &Machine, app: &App, task: TaskId) -> bool
    ensures { (s : State) → Stands machine.now s → result ≡ true → are_all_ended app.now s ≡ false }
{
    if app.is_endless(task) {
        return false;
    }
    if machine.sched.is_ready(task) {
        return true;
    }
    machine.groups.is_waiting(task)
}

/// Whether every task but the endless ones is Ended, and there is one, if this task runs.
#[inline(always)]
fn are_all_ended_beside(machine: &Machine, app: &App, task: TaskId) -> bool
    ensures { (s : State) → Stands machine.now s → result ≡ are_all_ended app.now s }
{
    if !app.has_endless() {
        app.well_formed();
        return is_nobody_left(machine);
    }
    if is_awaited(machine, app, task) {
        return false;
    }
    // Where the daemon runs.
    if is_awaited(machine, app, app.first_awaited()) {
        return false;
    }
    are_others_ended(machine, app)
}

/// Whether every task but the endless ones is Ended, and there is one.
#[inline(always)]
fn are_all_ended(machine: &Machine, app: &App) -> bool
    ensures { (s : State) → Stands machine.now s → result ≡ are_all_ended app.now s }
{
    if app.has_endless() {
        return are_others_ended(machine, app);
    }
    app.well_formed();
    is_nobody_left(machine)
}

/// Whether no run waits for the end of this task, which is there.
#[inline(always)]
fn is_endless(app: &App, task: TaskId) -> bool
    requires { task < length app.now.tasks }
    ensures { result ≡ is_endless app.now task }
{
    app.tasks()[task.number as usize].is_endless()
}

/// Whether a task is endless, and every other that isn't is Ended.
#[inline(always)]
pub(crate) fn is_left_alone(machine: &Machine, app: &App, task: TaskId) -> bool
    requires { task < length app.now.tasks }
    ensures { (s : State) → Stands machine.now s
        → result ≡ is_endless app.now task && are_all_ended app.now s }
{
    if !is_endless(app, task) {
        return false;
    }
    if is_awaited(machine, app, app.first_awaited()) {
        return false;
    }
    are_others_ended(machine, app)
}

/// Whether idle runs, no task will wake by itself, and no interrupt is to come.
fn is_stuck(machine: &Machine, app: &App) -> bool
    ensures { (s : State) → Stands machine.now s → result ≡ is_stuck app.now s }
{
    if machine.sched.current().is_some() {
        return false;
    }
    if !machine.clock.is_quiet() {
        return false;
    }
    if machine.sources.first_raised().is_some() {
        return false;
    }
    !app.has_interrupt_after(machine.clock.elapsed())
}

/// Whether idle may jump, and the ticks are at their limit.
#[inline(always)]
pub(crate) fn is_at_tick_limit(machine: &Machine, app: &App, limits: &Limits) -> bool
    ensures { (s : State) → Stands machine.now s → result ≡ is_at_tick_limit app.now limits.now s }
{
    if !app.tickless() {
        return false;
    }
    limits.ticks <= machine.clock.elapsed()
}

/// Whether the run is over before its next step, whatever its limit of steps: an `expect` failed or a misuse occurred, every task
/// but the endless ones is Ended, the ticks are at their limit, or it is stuck. The limit of ticks is looked at only if idle may
/// jump.
#[inline(always)]
pub(crate) fn is_over(machine: &Machine, app: &App, limits: &Limits) -> bool
    ensures { (s : State) → Stands machine.now s → result ≡ is_over app.now limits.now s }
{
    if machine.stopped.is_some() {
        return true;
    }
    if are_all_ended(machine, app) {
        return true;
    }
    if is_at_tick_limit(machine, app, limits) {
        return true;
    }
    is_stuck(machine, app)
}

/// The same if this task runs: then the run isn't stuck.
#[inline(always)]
pub(crate) fn is_over_running(machine: &Machine, app: &App, task: TaskId, limits: &Limits) -> bool
    requires { machine.now.sched.current ≡ Some task }
    ensures { (s : State) → Stands machine.now s → result ≡ is_over app.now limits.now s }
{
    if machine.stopped.is_some() {
        return true;
    }
    if are_all_ended_beside(machine, app, task) {
        return true;
    }
    is_at_tick_limit(machine, app, limits)
}

/// The end of the run before its next step, under these limits (profile). It is the first of these that holds: a failed `expect` or
/// a misuse; every task but the endless ones is Ended; the ticks; the steps; stuck. `None` if the run goes on.
#[inline(always)]
pub(crate) fn ended(machine: &Machine, app: &App, limits: &Limits) -> Option<End>
    ensures { (s : State) → Stands machine.now s → result ≡ end_of app.now limits.now s }
{
    if machine.stopped.is_some() {
        return machine.stopped;
    }
    if are_all_ended(machine, app) {
        return Some(End::Pass);
    }
    if limits.ticks <= machine.clock.elapsed() {
        return Some(End::Ticks);
    }
    if limits.steps <= machine.steps {
        return Some(End::Steps);
    }
    if is_stuck(machine, app) {
        return Some(End::Stuck);
    }
    None
}
