//! Task notifications: a notify, and the calls that wait for a notification or clear one.
ghost use Rattle.std.specs.Prelude.{◌≡◌, ◌≢◌, ◌<◌, ◌≤◌, ◌+◌, ◌^◌, ◌||◌, ℕ, Some, false, nat_eq, true};
ghost use Rattle.std.specs.Option.{option_eq};
ghost use Rattle.model.specs.declared.op.Op.TheVariants as op;
ghost use Rattle.model.specs.declared.call.Phase.TheVariants as phase;
ghost use Rattle.model.specs.State.{State, notification_at};
ghost use Rattle.model.specs.Notifications.{notify_answer, notify_with_number};
ghost use Rattle.model.specs.Notifications as definitions;
ghost use Rattle.model.specs.Step.{act, act_by_value};
ghost use Rattle.machine.specs.StandsFor.{Does, DoesAny, Moves, MovesAny, Stands, StandsFor, progress_in};
ghost use Rattle.machine.specs.Can.{Leaves, Runs, StandsForSome};
ghost use Rattle.ops.specs.Can.{Can, CanAwaitEvent, CanDecide, IsShort};
ghost use Rattle.ops.specs.InCall.{IsUnnotified, Remains, TakesHold};

use crate::event_groups::leave_bits_wait;
use crate::values::fail_check;
use machine::{Log, Machine, place_sleeper_for};
use model::{App, NotificationClear, NotificationWait, NotifyAction, Phase, TaskId, Value};

/// A task that waits for a notification is Ready.
fn wake_notified(machine: &mut Machine, task: TaskId)
    requires { StandsForSome machine.old }
    ensures does { Moves machine.old machine.new (definitions.wake_notified task) }
    ensures any { MovesAny machine.old machine.new (definitions.wake_notified task) }
    ensures leaves { Leaves machine.old machine.new }
    ensures runs { (other : ℕ) → Runs machine.old other → Runs machine.new other }
{
    if machine.groups.waits_for_notification(task) {
        machine.groups.drop_waiter(task);
        machine.clock.wake(task);
        machine.sched.wake(task);
    }
}

/// A task is notified: its notification changes so, and is pending. If it waits for one it is Ready.
pub fn notify(machine: &mut Machine, task: TaskId, action: NotifyAction<u32>)
    requires { StandsForSome machine.old }
    ensures does { Moves machine.old machine.new (definitions.notify task action) }
    ensures any { MovesAny machine.old machine.new (definitions.notify task action) }
    ensures leaves { Leaves machine.old machine.new }
    ensures runs { (other : ℕ) → Runs machine.old other → Runs machine.new other }
{
    let notification = machine.notification(task);
    machine.set_notification(task, action.notified(notification));
    wake_notified(machine, task);
}

/// A handler, whose last answer is this one, notifies a task. Returns the call's result: 0 if it keeps the value of a pending
/// notification, otherwise 1.
#[inline(never)]
pub fn notify_by_handler(
    machine: &mut Machine,
    task: TaskId,
    action: NotifyAction<Value>,
    last: Option<u32>,
) -> u32
    requires { StandsForSome machine.old }
    ensures does { Moves machine.old machine.new
        (λ s. definitions.notify task (notify_with_number s.variables last action) s) }
    ensures any { MovesAny machine.old machine.new
        (λ s. definitions.notify task (notify_with_number s.variables last action) s) }
    ensures leaves { Leaves machine.old machine.new }
    ensures answer { (s : State) → Stands machine.old s
        → Some result ≡ notify_answer (notify_with_number s.variables last action) (notification_at s task) }
{
    let action = action.with_number(machine.variables.values(), last);
    let answer = action.answer(machine.notification(task));
    notify(machine, task, action);
    answer
}

/// `notify` of a task, perhaps of the caller: it is notified, and a higher task may run. A call that has no value to put there is a check
/// that fails.
#[inline(never)]
pub fn call_notify<L: Log>(
    machine: &mut Machine,
    app: &App,
    task: TaskId,
    other: TaskId,
    action: &NotifyAction<Value>,
    log: &mut L,
)
    requires room { 2 ≤ (L.logged log.old).room }
    requires can { Can app.now machine.old task (op.Notify other action.now) }
    ensures { Does 2 machine.old (L.logged log.old) machine.new (L.logged log.new)
        (act_by_value app.now task (op.Notify other action.now)) }
{
    let last = machine.progress(task).answer;
    if action.lacks_value(last) {
        fail_check(machine, task);
        return;
    }
    let action = action.with_number(machine.variables.values(), last);
    let answer = action.answer(machine.notification(other));
    notify(machine, other, action);
    machine.answer(app, task, answer, log);
    machine.preempt(log);
}

/// The wait is over: the call is complete, and no notification is pending any more.
fn end_notification_wait<L: Log>(
    machine: &mut Machine,
    app: &App,
    task: TaskId,
    wait: &NotificationWait,
    log: &mut L,
)
    requires room { 1 ≤ (L.logged log.old).room }
    requires runs { Runs machine.old task }
    ensures { Does 1 machine.old (L.logged log.old) machine.new (L.logged log.new)
        (definitions.end_notification_wait app.now task wait.now) }
{
    let notification = machine.notification(task);
    machine.set_notification(task, wait.left(notification));
    machine.answer_given(app, task, wait.answer(notification), log);
}

/// The scheduler is held, and the task waits for a notification, for this many ticks at most.
fn begin_notification_wait(machine: &mut Machine, task: TaskId, ticks: Option<u32>)
    requires can { CanDecide machine.old task }
    requires short { IsShort ticks }
    requires some { ticks ≢ Some 0 }
    requires time { machine.old.clock.now + 2 ^ 32 < 2 ^ 63 }
    ensures does { Moves machine.old machine.new (definitions.begin_notification_wait task ticks) }
    ensures remains { Remains machine.old machine.new task }
    ensures held { machine.new.sched.depth ≡ 1 }
    ensures reached { (progress_in machine.new.progress task).call.phase ≡ phase.Leave }
{
    machine.sched.hold();
    machine.set_deadline(task, ticks);
    machine.sched.block(task);
    machine.groups.place_for_notification(task);
    place_sleeper_for(&mut machine.clock, ticks, task);
    machine.set_phase(task, Phase::Leave);
}

/// Whether a call finds what it waits for, or has no ticks to wait.
fn need_not_wait(
    machine: &Machine,
    task: TaskId,
    wait: &NotificationWait,
    ticks: Option<u32>,
) -> bool
    ensures needs { (s : State) → StandsFor machine.now s
        → result ≡ (definitions.is_there wait.now (notification_at s task) || option_eq nat_eq ticks (Some 0)) }
    ensures some { result ≡ false → ticks ≢ Some 0 }
{
    wait.is_there(machine.notification(task)) || ticks == Some(0)
}

/// A call that finds what it waits for, or that has no ticks to wait, is over. Otherwise the task waits, and the function returns `true`.
fn check_notification<L: Log>(
    machine: &mut Machine,
    app: &App,
    task: TaskId,
    wait: &NotificationWait,
    ticks: Option<u32>,
    log: &mut L,
) -> bool
    requires room { 1 ≤ (L.logged log.old).room }
    requires can { CanDecide machine.old task }
    requires short { IsShort ticks }
    requires time { machine.old.clock.now + 2 ^ 32 < 2 ^ 63 }
    ensures does { Does 1 machine.old (L.logged log.old) machine.new (L.logged log.new)
        (definitions.check_notification app.now task wait.now ticks) }
    ensures takes { result ≡ true → TakesHold machine.old machine.new task }
    ensures unmet { result ≡ true → (s : State) → StandsFor machine.old s
        → (definitions.is_there wait.now (notification_at s task) || option_eq nat_eq ticks (Some 0)) ≡ false }
    ensures silent { result ≡ true → L.logged log.new ≡ L.logged log.old }
{
    if need_not_wait(machine, task, wait, ticks) {
        end_notification_wait(machine, app, task, wait, log);
        return false;
    }
    begin_notification_wait(machine, task, ticks);
    true
}

/// The next phase of `notify_take` or `notify_wait`. It returns whether the wait has begun: then nothing was reported, its call holds the
/// scheduler, and lets go of it next.
#[inline(never)]
pub fn await_notification<L: Log>(
    machine: &mut Machine,
    app: &App,
    task: TaskId,
    wait: &NotificationWait,
    ticks: Option<u32>,
    log: &mut L,
) -> bool
    requires room { 2 ≤ (L.logged log.old).room }
    requires can { CanAwaitEvent machine.old task ticks (progress_in machine.old.progress task).call.phase }
    ensures does { DoesAny 2 machine.old (L.logged log.old) machine.new (L.logged log.new)
        (act app.now task (op.AwaitNotification wait.now ticks)) }
    ensures start { result ≡ true → (progress_in machine.old.progress task).call.phase ≡ phase.Start }
    ensures takes { result ≡ true → TakesHold machine.old machine.new task }
    ensures unmet { result ≡ true → IsUnnotified machine.old task wait.now ticks }
    ensures silent { result ≡ true → L.logged log.new ≡ L.logged log.old }
{
    match machine.progress(task).call.phase {
        Phase::Start => {
            let notification = machine.notification(task);
            machine.set_notification(task, wait.entered(notification));
            check_notification(machine, app, task, wait, ticks, log)
        }
        Phase::Leave => {
            leave_bits_wait(machine, task, log);
            false
        }
        _ => {
            end_notification_wait(machine, app, task, wait, log);
            false
        }
    }
}

/// `notify_clear`, `notify_value_clear`: the task clears something of its own notification.
#[inline(never)]
pub fn clear_notification<L: Log>(
    machine: &mut Machine,
    app: &App,
    task: TaskId,
    what: NotificationClear,
    log: &mut L,
)
    requires room { 1 ≤ (L.logged log.old).room }
    requires runs { Runs machine.old task }
    ensures { Does 1 machine.old (L.logged log.old) machine.new (L.logged log.new)
        (act app.now task (op.ClearNotification what)) }
{
    let notification = machine.notification(task);
    machine.set_notification(task, what.cleared(notification));
    machine.answer(app, task, what.answer(notification), log);
}
