//! What the running task's op does.
ghost use Rattle.std.specs.Prelude.{◌≡◌, ◌≢◌, ◌<◌, ◌≤◌, true, false};
ghost use Rattle.model.specs.Step.{act_unless, misuse, act};
ghost use Rattle.machine.specs.StandsFor.{DoesAny, Does, IsPlaced};
ghost use Rattle.kernel.specs.declared.dispatch.Following.TheVariants as following;
ghost use Rattle.kernel.specs.InScript.{is_amid, may_stay_amid};
ghost use Rattle.kernel.specs.Bits.{HasTakenHold};
ghost use Rattle.kernel.specs.Can.{CanOp};
ghost use Rattle.kernel.specs.Frequent.{is_frequent};
ghost use Rattle.model.specs.declared.op.Op.TheVariants as op;
ghost use Rattle.model.specs.Ops.{use_up};
ghost use Rattle.machine.specs.Can.{Runs};
ghost use Rattle.ops.specs.Can.{Can};

use crate::handlers::tick_interrupt;
use crate::suspended::{call_enter_critical, call_suspend_all};
use machine::{Log, Machine};
use model::{Access, App, Misuse, ObjectId, Op, TaskId, Value};
use ops::calls::go_on_by_value;
use ops::daemon::{next_command, obey};
use ops::event_groups::{BitsWait, clear_bits, get_bits, set_bits, wait_bits};
use ops::mutexes::give_mutex;
use ops::notifications::{await_notification, call_notify, clear_notification};
use ops::queues::{do_now, messages_waiting, spaces_available};
use ops::script::{branch, close_turn, end_if, expect, leave_loop, mark, open_loop, skip_branch};
use ops::sources::control;
use ops::suspension::{call_resume, call_suspend};
use ops::time::{call_yield, delay, delay_until, since, stamp, time, use_up};
use ops::values::calculate;

/// What may follow a step, and is done next with the step's parts at hand. In `Answered` and `Suspended` the step has reported
/// something, in the others nothing.
#[derive(Clone, Copy, PartialEq)]
pub(crate) enum Following {
    /// Nothing: any other step.
    Nothing,
    /// Steps that are done one after another: those of a call, or those of a `work` of which a tick is left before the last.
    Steps,
    /// Those in which the daemon does the command that it has received.
    Command,
    /// The next op of the task's script, if nothing else changed.
    NextOp,
    /// The same after a call that has returned, or a mark.
    Answered,
    /// The one in which its call on an event group, or for a notification, which has taken hold of the scheduler, lets go of it.
    LettingGo,
    /// Those that come while a `suspend_all` is in force that has just begun.
    Suspended,
}

impl Following {
    ghost use Rattle.std.specs.Prelude.{◌≡◌, ◌≢◌, true, false};
    ghost use Rattle.ops.specs.declared.event_groups.BitsWait.TheVariants as wait;
    ghost use Rattle.kernel.specs.declared.dispatch.Following.TheVariants as following;
    ghost use Rattle.kernel.specs.InScript.{is_amid};

    /// The task's next op, if its script goes on.
    #[inline]
    fn op_if(stays: bool) -> Following
        ensures amid { is_amid result ≡ true → stays ≡ true }
        ensures letting { result ≢ following.LettingGo }
    {
        if stays {
            Following::NextOp
        } else {
            Following::Nothing
        }
    }

    /// The same after a call that has returned, or a mark.
    #[inline]
    fn answered_if(stays: bool) -> Following
        ensures amid { is_amid result ≡ true → stays ≡ true }
        ensures told { result ≢ following.NextOp }
        ensures letting { result ≢ following.LettingGo }
    {
        if stays {
            Following::Answered
        } else {
            Following::Nothing
        }
    }

    /// What may follow a call that waits for bits.
    #[inline]
    fn behind_wait(came_to: BitsWait) -> Following
        ensures amid { is_amid result ≡ true → came_to ≡ wait.Answered }
        ensures told { result ≢ following.NextOp }
        ensures letting { result ≡ following.LettingGo → came_to ≡ wait.Begun }
    {
        match came_to {
            BitsWait::Begun => Following::LettingGo,
            BitsWait::Answered => Following::Answered,
            BitsWait::Other => Following::Nothing,
        }
    }

    /// What may follow a call that sets bits, or waits for a notification.
    #[inline]
    fn letting_go_if(begun: bool) -> Following
        ensures amid { is_amid result ≡ false }
        ensures told { result ≢ following.NextOp }
        ensures letting { result ≡ following.LettingGo → begun ≡ true }
    {
        if begun {
            Following::LettingGo
        } else {
            Following::Nothing
        }
    }

    /// Steps, if some may come.
    #[inline]
    fn steps_if(may_come: bool) -> Following
        ensures amid { is_amid result ≡ false }
        ensures letting { result ≢ following.LettingGo }
    {
        if may_come {
            Following::Steps
        } else {
            Following::Nothing
        }
    }

    /// Those of a command, if one was received, otherwise those of the call that waits for one.
    #[inline]
    fn command_if(received: bool) -> Following
        ensures amid { is_amid result ≡ false }
        ensures letting { result ≢ following.LettingGo }
    {
        if received {
            Following::Command
        } else {
            Following::Steps
        }
    }
}

/// `work`: a tick of it is used up, and the tick passes. Returns what may follow.
#[inline(always)]
fn work<L: Log>(
    machine: &mut Machine,
    app: &App,
    task: TaskId,
    ticks: u32,
    log: &mut L,
) -> Following
    requires room { 337 ≤ (L.logged log.old).room }
    requires can { Can app.now machine.old task (op.Work ticks) }
    ensures does { Does 337 machine.old (L.logged log.old) machine.new (L.logged log.new)
        (act app.now task (op.Work ticks)) }
    ensures amid { is_amid result ≡ false }
    ensures letting { result ≢ following.LettingGo }
{
    // This tick and the last aren't passed with others.
    let left = ticks - machine.progress(task).used;
    use_up(machine, app, task, ticks);
    tick_interrupt(machine, app, log);
    Following::steps_if(left > 2)
}

/// What the running task's op does, if no task holds the scheduler. A misuse ends the run, and does nothing else. Returns what may
/// follow. The most frequent ops are done here, in the code of the step itself; a call does the others.
#[inline(always)]
pub(crate) fn act<L: Log>(
    machine: &mut Machine,
    app: &App,
    task: TaskId,
    op: &Op,
    log: &mut L,
) -> Following
    requires room { 337 ≤ (L.logged log.old).room }
    requires can { CanOp app.now machine.old task op.now }
    requires awake { machine.old.sched.suspensions ≡ 0 }
    ensures does { DoesAny 337 machine.old (L.logged log.old) machine.new (L.logged log.new)
        (λ s. act_unless app.now task (misuse s task op.now) op.now s) }
    ensures amid { is_amid result ≡ true → IsPlaced machine.old machine.new task }
    ensures runs { is_amid result ≡ true → Runs machine.old task }
    ensures plain { is_amid result ≡ true → may_stay_amid op.now ≡ true }
    ensures silent { result ≡ following.NextOp → L.logged log.new ≡ L.logged log.old }
    ensures letting { result ≡ following.LettingGo
        → HasTakenHold machine.old machine.new task op.now × (L.logged log.new ≡ L.logged log.old) }
{
    match *op {
        Op::Work(ticks) => return work(machine, app, task, ticks, log),
        Op::Await(object, ref access, ref ticks) => {
            go_on_by_value(machine, app, task, object, access, *ticks, log);
            return Following::Steps;
        }
        Op::SetBits(group, mask) => {
            return Following::letting_go_if(set_bits(machine, app, task, group, mask, log));
        }
        Op::WaitBits(group, ref condition, ref ticks) => {
            return Following::behind_wait(wait_bits(
                machine, app, task, group, condition, *ticks, log,
            ));
        }
        Op::End => return Following::op_if(close_turn(machine, app, task)),
        Op::If(ref condition) => return Following::op_if(branch(machine, app, task, condition)),
        Op::Repeat(turns) => return Following::op_if(open_loop(machine, app, task, turns)),
        Op::Value(ref op) => return Following::answered_if(calculate(machine, app, task, op, log)),
        Op::Do(object, ref access) => do_now(machine, app, task, object, access, log),
        Op::Notify(other, ref action) => call_notify(machine, app, task, other, action, log),
        Op::AwaitNotification(ref wait, ref ticks) => {
            return Following::letting_go_if(await_notification(
                machine, app, task, wait, *ticks, log,
            ));
        }
        Op::Delay(ticks) => delay(machine, app, task, ticks, log),
        Op::Yield => call_yield(machine, app, task, log),
        Op::Time => return Following::answered_if(time(machine, app, task, log)),
        _ => return act_seldom(machine, app, task, op, log),
    }
    Following::Nothing
}

/// The same for the ops that `act` doesn't do itself.
#[inline(never)]
fn act_seldom<L: Log>(
    machine: &mut Machine,
    app: &App,
    task: TaskId,
    op: &Op,
    log: &mut L,
) -> Following
    requires room { 337 ≤ (L.logged log.old).room }
    requires can { CanOp app.now machine.old task op.now }
    requires seldom { is_frequent op.now ≡ false }
    requires awake { machine.old.sched.suspensions ≡ 0 }
    ensures does { DoesAny 337 machine.old (L.logged log.old) machine.new (L.logged log.new)
        (λ s. act_unless app.now task (misuse s task op.now) op.now s) }
    ensures amid { is_amid result ≡ true → IsPlaced machine.old machine.new task }
    ensures runs { is_amid result ≡ true → Runs machine.old task }
    ensures plain { is_amid result ≡ true → may_stay_amid op.now ≡ true }
    ensures silent { result ≡ following.NextOp → L.logged log.new ≡ L.logged log.old }
    ensures letting { result ≡ following.LettingGo
        → HasTakenHold machine.old machine.new task op.now × (L.logged log.new ≡ L.logged log.old) }
{
    match *op {
        Op::Expect(ref condition) => return Following::op_if(expect(machine, app, task, condition)),
        Op::Else => return Following::op_if(skip_branch(machine, app, task)),
        Op::EndIf => return Following::op_if(end_if(machine, app, task)),
        Op::Break => return Following::op_if(leave_loop(machine, app, task)),
        Op::DelayUntil(ticks) => delay_until(machine, app, task, ticks, log),
        Op::Mark(value) => return Following::answered_if(mark(machine, app, task, value, log)),
        Op::Stamp => return Following::op_if(stamp(machine, app, task)),
        Op::Since => return Following::answered_if(since(machine, app, task, log)),
        Op::GiveMutex(object) => give_mutex(machine, app, task, object, log),
        Op::MessagesWaiting(object) => {
            return Following::answered_if(messages_waiting(machine, app, task, object, log));
        }
        Op::SpacesAvailable(object) => {
            return Following::answered_if(spaces_available(machine, app, task, object, log));
        }
        Op::ClearBits(group, mask) => clear_bits(machine, app, task, group, mask, log),
        Op::GetBits(group) => {
            return Following::answered_if(get_bits(machine, app, task, group, log));
        }
        Op::ClearNotification(what) => clear_notification(machine, app, task, what, log),
        Op::Suspend(other) => call_suspend(machine, app, task, other, log),
        Op::Resume(other) => call_resume(machine, app, task, other, log),
        Op::SuspendAll => {
            call_suspend_all(machine, app, task, log);
            return Following::Suspended;
        }
        Op::ResumeAll => machine.misuse(task, Misuse::NotSuspended),
        Op::EnterCritical => call_enter_critical(machine, app, task),
        Op::ExitCritical => machine.misuse(task, Misuse::NotCritical),
        Op::Source(handler, op) => control(machine, app, task, handler, op),
        Op::NextCommand(queue) => {
            return Following::command_if(next_command(machine, app, task, queue, log));
        }
        Op::Obey => obey(machine, app, task, log),
        Op::Work(_)
        | Op::Delay(_)
        | Op::Yield
        | Op::Time
        | Op::Await(_, _, _)
        | Op::Do(_, _)
        | Op::SetBits(_, _)
        | Op::WaitBits(_, _, _)
        | Op::Notify(_, _)
        | Op::AwaitNotification(_, _)
        | Op::End
        | Op::If(_)
        | Op::Repeat(_)
        | Op::Value(_) => unreachable!(),
    }
    Following::Nothing
}
