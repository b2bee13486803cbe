//! Ops that let time pass, give the processor away, or ask the time.
ghost use Rattle.std.specs.Prelude.{◌≡◌, ◌<◌, ◌≤◌, ◌+◌, true, Some};
ghost use Rattle.model.specs.declared.op.Op.TheVariants as op;
ghost use Rattle.model.specs.Time.{sleep, set_previous_wake};
ghost use Rattle.model.specs.Ops.{use_up, stamp, since};
ghost use Rattle.model.specs.Step.{act};
ghost use Rattle.model.specs.Invariant.{IsUsedBy};
ghost use Rattle.machine.specs.StandsFor.{Does, IsPlaced, Moves, progress_in};
ghost use Rattle.machine.specs.Can.{Agrees, Runs};
ghost use Rattle.ops.specs.Can.{Can};

use machine::{Log, Machine};
use model::{App, TaskId};

/// One more of a `work` is used up.
#[inline(always)]
pub fn use_up(machine: &mut Machine, app: &App, task: TaskId, ticks: u32)
    requires runs { Runs machine.old task }
    requires used { IsUsedBy (progress_in machine.old.progress task).used (Some (op.Work ticks)) }
    ensures does { Moves machine.old machine.new (use_up app.now task ticks) }
    ensures depth { machine.new.sched.depth ≡ machine.old.sched.depth }
    ensures clock { machine.new.clock ≡ machine.old.clock }
    ensures objects { machine.new.objects ≡ machine.old.objects }
    ensures suspensions { machine.new.sched.suspensions ≡ machine.old.sched.suspensions }
{
    let used = machine.progress(task).used + 1;
    if used == ticks {
        machine.complete(app, task);
    } else {
        machine.set_used(task, used);
    }
}

/// The running task sleeps for some ticks, if it is still Ready.
fn sleep(machine: &mut Machine, task: TaskId, ticks: u32)
    requires some { 0 < ticks }
    requires agrees { Agrees machine.old }
    ensures { Moves machine.old machine.new (λ s. sleep task (s.time + ticks) s) }
{
    if machine.is_ready(task) {
        machine.sched.block(task);
        machine.clock.sleep(task, ticks);
    }
}

/// `delay`: the task sleeps; for 0 ticks it yields.
#[inline(always)]
pub fn delay<L: Log>(machine: &mut Machine, app: &App, task: TaskId, ticks: u32, log: &mut L)
    requires room { 2 ≤ (L.logged log.old).room }
    requires can { Can app.now machine.old task (op.Delay ticks) }
    ensures { Does 2 machine.old (L.logged log.old) machine.new (L.logged log.new)
        (act app.now task (op.Delay ticks)) }
{
    machine.answer(app, task, 0, log);
    if ticks == 0 {
        machine.yield_now(log);
    } else {
        sleep(machine, task, ticks);
    }
}

/// `delay_until`: the task sleeps until this many ticks after the time from which it counts, and counts from there; if
/// that is not in the future, it goes on.
pub fn delay_until<L: Log>(machine: &mut Machine, app: &App, task: TaskId, ticks: u32, log: &mut L)
    requires room { 1 ≤ (L.logged log.old).room }
    requires can { Can app.now machine.old task (op.DelayUntil ticks) }
    ensures { Does 1 machine.old (L.logged log.old) machine.new (L.logged log.new)
        (act app.now task (op.DelayUntil ticks)) }
{
    let wake_time = machine.progress(task).previous_wake + ticks as u64;
    let now = machine.clock.now();
    if now < wake_time {
        machine.answer(app, task, 1, log);
        sleep(machine, task, (wake_time - now) as u32);
        machine.set_previous_wake(task, wake_time);
    } else {
        machine.answer(app, task, 0, log);
        machine.set_previous_wake(task, wake_time);
    }
}

/// `yield`: the task moves after its equals.
#[inline(always)]
pub fn call_yield<L: Log>(machine: &mut Machine, app: &App, task: TaskId, log: &mut L)
    requires room { 2 ≤ (L.logged log.old).room }
    requires can { Can app.now machine.old task op.Yield }
    ensures { Does 2 machine.old (L.logged log.old) machine.new (L.logged log.new)
        (act app.now task op.Yield) }
{
    machine.answer(app, task, 0, log);
    machine.yield_now(log);
}

/// `time`: the printed tick is the result. Returns whether the task's script goes on.
#[inline(always)]
pub fn time<L: Log>(machine: &mut Machine, app: &App, task: TaskId, log: &mut L) -> bool
    requires room { 1 ≤ (L.logged log.old).room }
    requires runs { Runs machine.old task }
    ensures does { Does 1 machine.old (L.logged log.old) machine.new (L.logged log.new)
        (act app.now task op.Time) }
    ensures amid { result ≡ true → IsPlaced machine.old machine.new task }
{
    let tick = machine.clock.tick();
    machine.answer(app, task, tick, log)
}

/// `stamp`: the task notes the time. Returns whether the task's script goes on.
pub fn stamp(machine: &mut Machine, app: &App, task: TaskId) -> bool
    requires runs { Runs machine.old task }
    ensures does { Moves machine.old machine.new (stamp app.now task) }
    ensures amid { result ≡ true → IsPlaced machine.old machine.new task }
{
    let now = machine.clock.now();
    machine.set_stamp(task, now);
    machine.complete(app, task)
}

/// `since`: the result is the number of ticks since the task's last `stamp`, at most 4294967295. Returns whether the task's script goes on.
pub fn since<L: Log>(machine: &mut Machine, app: &App, task: TaskId, log: &mut L) -> bool
    requires room { 1 ≤ (L.logged log.old).room }
    requires runs { Runs machine.old task }
    requires stamped { (progress_in machine.old.progress task).stamp ≤ machine.old.clock.now }
    ensures does { Does 1 machine.old (L.logged log.old) machine.new (L.logged log.new) (since app.now task) }
    ensures amid { result ≡ true → IsPlaced machine.old machine.new task }
{
    let passed = machine.clock.now() - machine.progress(task).stamp;
    machine.answer(app, task, passed.min(u32::MAX as u64) as u32, log)
}
