//! The daemon's ops: it waits for a command of a handler, and sets or clears bits of an event group for it.
ghost use Rattle.std.specs.Prelude.{◌≡◌, ◌<◌, ◌≤◌, None, unwrap_or};
ghost use Rattle.model.specs.declared.op.Access.TheVariants as access;
ghost use Rattle.model.specs.declared.op.Op.TheVariants as op;
ghost use Rattle.model.specs.Daemon.{clear_by_daemon, command_of, end_set_by_daemon, take_command};
ghost use Rattle.model.specs.Step.{act};
ghost use Rattle.machine.specs.StandsFor.{Does, DoesAny, progress_in};
ghost use Rattle.machine.specs.Can.{Runs};
ghost use Rattle.ops.specs.Can.{CanGoOn, CanLeave, CanSetBits, CanTry};

use crate::calls::go_on_waiting;
use crate::event_groups::begin_set;
use crate::holds::end_hold;
use crate::queues::fulfil;
use machine::{Log, Machine};
use model::{Access, App, Command, GroupId, ObjectId, Phase, TaskId};

/// A command that is there is taken. Otherwise the daemon decides to wait for one. Returns whether there was one.
#[inline(always)]
fn take_command<L: Log>(
    machine: &mut Machine,
    app: &App,
    task: TaskId,
    queue: ObjectId,
    log: &mut L,
) -> bool
    requires room { 1 ≤ (L.logged log.old).room }
    requires can { CanTry machine.old task queue access.Receive }
    ensures { Does 1 machine.old (L.logged log.old) machine.new (L.logged log.new)
        (take_command app.now task queue) }
{
    if machine.objects.possible(queue, Access::Receive) {
        let item = fulfil(machine, Some(task), queue, Access::Receive);
        machine.received(app, task, item);
        machine.preempt(log);
        return true;
    }
    machine.set_phase(task, Phase::Decide);
    false
}

/// The next phase of the daemon's receive, which waits forever, and which no event reports. Returns whether a command was
/// received.
// Few applications have a daemon, so it is no part of the step.
#[inline(never)]
pub fn next_command<L: Log>(
    machine: &mut Machine,
    app: &App,
    task: TaskId,
    queue: ObjectId,
    log: &mut L,
) -> bool
    requires room { 2 ≤ (L.logged log.old).room }
    requires can { CanGoOn machine.old task queue access.Receive None
        (progress_in machine.old.progress task).call.phase }
    ensures { DoesAny 2 machine.old (L.logged log.old) machine.new (L.logged log.new)
        (act app.now task (op.NextCommand queue)) }
{
    match machine.progress(task).call.phase {
        Phase::Start => take_command(machine, app, task, queue, log),
        Phase::Try => take_command(machine, app, task, queue, log),
        _ => {
            go_on_waiting(machine, app, task, queue, &Access::Receive, None, log);
            false
        }
    }
}

/// The bits of a mask are cleared, and the bits before it are the answer.
fn clear_by_daemon<L: Log>(
    machine: &mut Machine,
    app: &App,
    task: TaskId,
    group: GroupId,
    mask: u32,
    log: &mut L,
)
    requires room { 1 ≤ (L.logged log.old).room }
    requires runs { Runs machine.old task }
    ensures { Does 1 machine.old (L.logged log.old) machine.new (L.logged log.new)
        (clear_by_daemon app.now task group mask) }
{
    let bits = machine.groups.clear(group, mask);
    machine.obeyed(app, task, true, bits, log);
}

/// The hold of a set ends, and the bits of the group are the answer.
pub fn end_set_by_daemon<L: Log>(
    machine: &mut Machine,
    app: &App,
    task: TaskId,
    group: GroupId,
    log: &mut L,
)
    requires room { 2 ≤ (L.logged log.old).room }
    requires runs { Runs machine.old task }
    requires can { CanLeave machine.old task }
    ensures { Does 2 machine.old (L.logged log.old) machine.new (L.logged log.new)
        (end_set_by_daemon app.now task group) }
{
    let bits = machine.groups.bits(group);
    end_hold(machine, task, Phase::Start);
    machine.obeyed(app, task, false, bits, log);
    machine.preempt(log);
}

/// The command that the daemon has received, its last answer.
#[inline(always)]
pub fn command_of(machine: &Machine, task: TaskId) -> Command
    ensures { result ≡ command_of (unwrap_or (progress_in machine.now.progress task).answer 0) }
{
    Command::of_item(machine.progress(task).answer.unwrap_or(0))
}

/// The next phase of the command that the daemon has received.
#[inline(never)]
pub fn obey<L: Log>(machine: &mut Machine, app: &App, task: TaskId, log: &mut L)
    requires room { 2 ≤ (L.logged log.old).room }
    requires can { CanSetBits machine.old task (progress_in machine.old.progress task).call.phase }
    ensures { DoesAny 2 machine.old (L.logged log.old) machine.new (L.logged log.new)
        (act app.now task op.Obey) }
{
    let command = command_of(machine, task);
    match machine.progress(task).call.phase {
        Phase::Start if command.clear => {
            clear_by_daemon(machine, app, task, command.group, command.mask, log);
        }
        Phase::Start => begin_set(machine, task, command.group, command.mask),
        _ => end_set_by_daemon(machine, app, task, command.group, log),
    }
}
