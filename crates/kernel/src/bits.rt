//! The steps in which a call on an event group, or a wait for a notification, lets go of the scheduler. Each comes after a step that
//! reported nothing, in which the call has taken hold of it, and is done with the call in hand.
ghost use Rattle.std.specs.Prelude.{◌≡◌, ◌<◌, ◌≤◌, ◌+◌, []};
ghost use Rattle.model.specs.Application.{Limits};
ghost use Rattle.model.specs.State.{State};
ghost use Rattle.model.specs.Step.{act_current, step};
ghost use Rattle.machine.specs.Logged.{all_of};
ghost use Rattle.machine.specs.StandsFor.{DoesAny, Stands};
ghost use Rattle.kernel.specs.Bits.{IsLettingGo};
ghost use Rattle.machine.specs.Can.{NonePends};
ghost use Rattle.kernel.specs.Can.{CanOp, CanStepUnderSome};
ghost use Rattle.kernel.specs.Along.{IsGoing, GoesFurther};

use machine::{Log, Machine, Trail};
use model::{App, Injection, Limits, Op, TaskId};
use ops::daemon::{command_of, end_set_by_daemon};
use ops::event_groups::{end_set, leave_bits_wait};

/// What such an op does in the step in which it lets go of the scheduler.
// A wait is tried first, since most of them are waits.
#[inline(always)]
fn let_go<L: Log>(machine: &mut Machine, app: &App, task: TaskId, op: &Op, log: &mut L)
    requires room { 337 ≤ (L.logged log.old).room }
    requires can { CanOp app.now machine.old task op.now }
    requires going { IsLettingGo app.now machine.old task op.now }
    ensures { (limits : Limits) → DoesAny 337 machine.old (L.logged log.old) machine.new (L.logged log.new)
        (λ s. act_current app.now limits s.current s) }
{
    if let Op::WaitBits(_, _, _) = *op {
        leave_bits_wait(machine, task, log);
        return;
    }
    match *op {
        Op::SetBits(_, _) => end_set(machine, app, task, log),
        Op::AwaitNotification(_, _) => leave_bits_wait(machine, task, log),
        Op::Obey => {
            let group = command_of(machine, task).group;
            end_set_by_daemon(machine, app, task, group, log);
        }
        // No other op takes hold of it so.
        _ => {}
    }
}

/// One step of the run, in which the running task's call on an event group lets go of the scheduler. The log has no event of this
/// step yet.
#[inline(always)]
fn step_letting_go<L: Log>(machine: &mut Machine, app: &App, task: TaskId, op: &Op, log: &mut L)
    requires going { CanStepUnderSome app.now machine.old }
    requires none { NonePends machine.old }
    requires letting { IsLettingGo app.now machine.old task op.now }
    requires begun { (L.logged log.old).told ≡ [] }
    requires room { 512 ≤ (L.logged log.old).room }
    ensures stands { (limits : Limits) (s : State) → Stands machine.old s → Stands machine.new (step app.now limits [] s) }
    ensures told { (limits : Limits) (s : State) → Stands machine.old s
        → (L.logged log.new).told ≡ (step app.now limits [] s).log }
    ensures before { (L.logged log.new).before ≡ (L.logged log.old).before }
{
    app.well_formed();
    let_go(machine, app, task, op, log);
    machine.settle(log);
    machine.steps += 1;
}

/// The same in a run that isn't over there. The trail has no event of that step yet, since the step before it reported nothing.
#[inline(always)]
pub(crate) fn pass_held(
    kernel: &mut Machine,
    app: &App,
    injections: &[Injection],
    until: u32,
    task: TaskId,
    op: &Op,
    limits: &Limits,
    trail: &mut Trail,
)
    requires going { IsGoing app.now limits.now until kernel.old injections.now }
    requires soon { kernel.old.steps < until }
    requires letting { IsLettingGo app.now kernel.old task op.now }
    requires begun { trail.old.told ≡ [] }
    requires room { 512 ≤ trail.old.room }
    ensures along { GoesFurther app.now limits.now until kernel.old kernel.new (all_of trail.old) (all_of trail.new) }
    ensures one { kernel.new.steps ≡ kernel.old.steps + 1 }
{
    app.well_formed();
    limits.well_formed();
    step_letting_go(kernel, app, task, op, trail);
}
