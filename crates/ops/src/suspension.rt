//! Tasks suspended and resumed, and the scheduler suspended and resumed.
ghost use Rattle.std.specs.Prelude.{◌≡◌, ◌<◌, ◌≤◌, None};
ghost use Rattle.model.specs.declared.op.Op.TheVariants as op;
ghost use Rattle.model.specs.State.{State, status_at};
ghost use Rattle.model.specs.Suspension as definitions;
ghost use Rattle.model.specs.Step.{act};
ghost use Rattle.machine.specs.StandsFor.{Does, Moves, MovesAny, Stands, StandsFor};
ghost use Rattle.machine.specs.Can.{Leaves, Runs, StandsForSome};
ghost use Rattle.ops.specs.Can.{Can, CanHold};

use crate::holds::release;
use machine::{Log, Machine, one_if};
use model::{App, TaskId};

/// Whether a suspend of a task does something: it is neither Suspended nor Ended.
pub fn can_suspend(machine: &Machine, task: TaskId) -> bool
    ensures { (s : State) → StandsFor machine.now s → result ≡ definitions.can_suspend (status_at s task) }
{
    machine.sched.is_ready(task)
        || machine.clock.is_asleep(task)
        || machine.objects.is_waiting(task)
        || machine.groups.is_waiting(task)
}

/// The task is in no list any more, if it was in one.
fn suspend(machine: &mut Machine, task: TaskId)
    requires free { machine.old.objects.lock ≡ None }
    ensures does { Moves machine.old machine.new (definitions.suspend task) }
    ensures depth { machine.new.sched.depth ≡ machine.old.sched.depth }
{
    if can_suspend(machine, task) {
        machine.clock.wake(task);
        machine.objects.drop_waiter(task);
        machine.groups.drop_waiter(task);
        machine.sched.suspend(task);
    }
}

/// A suspended task is Ready again, counts from now if its wake time is in the future, and tries its call again.
/// Returns whether the task was Suspended.
pub fn resume(machine: &mut Machine, task: TaskId) -> bool
    requires stands { StandsForSome machine.old }
    ensures does { Moves machine.old machine.new (definitions.resume task) }
    ensures any { MovesAny machine.old machine.new (definitions.resume task) }
    ensures answer { (s : State) → Stands machine.old s → result ≡ definitions.can_resume (status_at s task) }
    ensures leaves { Leaves machine.old machine.new }
{
    let resumed = machine.sched.resume(task);
    if resumed {
        let now = machine.clock.now();
        machine.set_resumed(task, now);
    }
    resumed
}

/// `suspend`: its result is whether it did something. A task that suspends itself with its last op has nothing left to be
/// suspended.
pub fn call_suspend<L: Log>(
    machine: &mut Machine,
    app: &App,
    task: TaskId,
    other: TaskId,
    log: &mut L,
)
    requires room { 2 ≤ (L.logged log.old).room }
    requires can { Can app.now machine.old task (op.Suspend other) }
    ensures { Does 2 machine.old (L.logged log.old) machine.new (L.logged log.new)
        (act app.now task (op.Suspend other)) }
{
    let did = can_suspend(machine, other);
    machine.answer(app, task, one_if(did), log);
    suspend(machine, other);
    machine.preempt(log);
}

/// `resume`: its result is whether it did something.
pub fn call_resume<L: Log>(
    machine: &mut Machine,
    app: &App,
    task: TaskId,
    other: TaskId,
    log: &mut L,
)
    requires room { 2 ≤ (L.logged log.old).room }
    requires can { Can app.now machine.old task (op.Resume other) }
    ensures { Does 2 machine.old (L.logged log.old) machine.new (L.logged log.new)
        (act app.now task (op.Resume other)) }
{
    let did = resume(machine, other);
    machine.answer(app, task, one_if(did), log);
    machine.preempt(log);
}

/// `suspend_all`: one more is active.
// Who calls it does little else.
#[inline(always)]
pub fn suspend_all<L: Log>(machine: &mut Machine, app: &App, task: TaskId, log: &mut L)
    requires room { 1 ≤ (L.logged log.old).room }
    requires runs { Runs machine.old task }
    requires few { machine.old.sched.suspensions < 4294967295 }
    requires depth { machine.old.sched.depth < 4294967295 }
    ensures { Does 1 machine.old (L.logged log.old) machine.new (L.logged log.new)
        (definitions.suspend_all app.now task) }
{
    machine.sched.suspend_all();
    machine.answer(app, task, 0, log);
}

/// One `suspend_all` fewer is active; after the last the held ticks are applied.
// It is in `resume_all` alone.
#[inline(always)]
fn resume_scheduler(machine: &mut Machine, app: &App, task: TaskId)
    requires can { CanHold app.now machine.old task op.ResumeAll }
    requires some { 0 < machine.old.sched.suspensions }
    requires closed { machine.old.sections ≡ 0 }
    ensures does { Moves machine.old machine.new definitions.resume_scheduler }
    ensures depth { machine.new.sched.suspensions ≡ 0 → machine.new.sched.depth ≡ 0 }
{
    machine.sched.resume_all();
    if machine.sched.suspensions() == 0 {
        release(machine);
    }
}

/// `resume_all` while no critical section is open: one fewer is active; after the last the held ticks are applied, and a higher task
/// may run.
pub fn resume_all<L: Log>(machine: &mut Machine, app: &App, task: TaskId, log: &mut L)
    requires room { 2 ≤ (L.logged log.old).room }
    requires can { CanHold app.now machine.old task op.ResumeAll }
    requires some { 0 < machine.old.sched.suspensions }
    requires closed { machine.old.sections ≡ 0 }
    ensures { Does 2 machine.old (L.logged log.old) machine.new (L.logged log.new)
        (definitions.resume_all app.now task) }
{
    resume_scheduler(machine, app, task);
    let is_last = machine.sched.suspensions() == 0;
    machine.answer(app, task, 0, log);
    if is_last {
        machine.preempt(log);
    }
}
