//! What is done while a task holds the scheduler: by `suspend_all`, or in a critical section.
ghost use Rattle.std.specs.Prelude.{◌≡◌, ◌<◌, ◌≤◌, length, [], IfSome, None, Some};
ghost use Rattle.model.specs.declared.op.Op.{Op};
ghost use Rattle.model.specs.declared.op.Op.TheVariants as op;
ghost use Rattle.model.specs.Application.{Limits, op_at};
ghost use Rattle.model.specs.State.{State, object_at, status_at};
ghost use Rattle.model.specs.Handlers.{tick_interrupt};
ghost use Rattle.model.specs.Step.{act, act_by_value, act_current, act_unless, end_misuse, is_barred, is_ended, judge, may_switch, misuse, own_misuse, step};
ghost use Rattle.model.specs.Switching.{is_same, is_scheduler_suspended};
ghost use Rattle.machine.specs.StandsFor.{Does, DoesAny, Moves, Stands, progress_in};
ghost use Rattle.machine.specs.Can.{NonePends};
ghost use Rattle.machine.specs.Logged.{all_of};
ghost use Rattle.ops.specs.Can.{Can, CanHold};
ghost use Rattle.kernel.specs.Along.{IsFree, GoesOn};
ghost use Rattle.kernel.specs.Can.{CanStep};

use crate::handlers::held_tick_interrupt;
use crate::over::is_over_running;
use crate::steps::op_of;
use machine::{Log, Machine, Trail};
use model::{App, End, Injection, Limits, Misuse, ObjectId, Op, TaskId};
use ops::critical::{enter_critical, exit_critical};
use ops::event_groups::{clear_bits, get_bits};
use ops::notifications::clear_notification;
use ops::queues::{messages_waiting, spaces_available};
use ops::script::{branch, close_turn, end_if, expect, leave_loop, mark, open_loop, skip_branch};
use ops::sources::control;
use ops::suspension::{resume_all, suspend_all};
use ops::time::{since, stamp, time, use_up};
use ops::values::calculate;

/// Whether an op may switch, or wait.
fn may_switch(op: &Op) -> bool
    ensures { result ≡ may_switch op.now }
{
    matches!(
        op,
        Op::Delay(_)
            | Op::DelayUntil(_)
            | Op::Yield
            | Op::Await(_, _, _)
            | Op::Do(_, _)
            | Op::GiveMutex(_)
            | Op::SetBits(_, _)
            | Op::WaitBits(_, _, _)
            | Op::Notify(_, _)
            | Op::AwaitNotification(_, _)
            | Op::Suspend(_)
            | Op::Resume(_)
            | Op::NextCommand(_)
            | Op::Obey
    )
}

/// Whether an op has no place in a critical section.
fn is_barred(op: &Op) -> bool
    ensures { result ≡ is_barred op.now }
{
    matches!(op, Op::Work(_) | Op::SuspendAll | Op::ResumeAll) || may_switch(op)
}

/// Whether a task's script is done: it is in no list, and isn't suspended.
pub(crate) fn is_ended(machine: &Machine, task: TaskId) -> bool
    ensures { (s : State) → Stands machine.now s → result ≡ is_ended (status_at s task) }
{
    if machine.sched.is_ready(task) {
        return false;
    }
    if machine.clock.is_asleep(task) {
        return false;
    }
    if machine.objects.is_waiting(task) {
        return false;
    }
    if machine.groups.is_waiting(task) {
        return false;
    }
    !machine.sched.is_suspended(task)
}

/// Whether a `suspend_all` is in force: tasks hold the scheduler more often than by critical sections.
#[inline(always)]
fn is_scheduler_suspended(machine: &Machine) -> bool
    ensures { (s : State) → Stands machine.now s → result ≡ is_scheduler_suspended s }
{
    machine.sched.suspensions() > machine.sections
}

/// Which misuse it is to come to the end of a script now, if it is one.
#[inline(always)]
fn end_misuse(machine: &Machine) -> Option<Misuse>
    ensures { (s : State) → Stands machine.now s → result ≡ end_misuse s }
{
    if is_scheduler_suspended(machine) {
        return Some(Misuse::EndedSuspended);
    }
    if machine.sections > 0 {
        return Some(Misuse::EndedCritical);
    }
    None
}

/// A task that came to the end of its script with the op of this index must hold the scheduler no more.
fn judge(machine: &mut Machine, task: TaskId, op_index: u16)
    ensures { Moves machine.old machine.new (judge task op_index) }
{
    if !is_ended(machine, task) {
        return;
    }
    if let Some(misuse) = end_misuse(machine) {
        machine.stopped = Some(End::Misuse(task, op_index, misuse));
    }
}

/// `suspend_all` while no task holds the scheduler. The task is judged at the end of the step.
#[cold]
pub(crate) fn call_suspend_all<L: Log>(machine: &mut Machine, app: &App, task: TaskId, log: &mut L)
    requires room { 1 ≤ (L.logged log.old).room }
    requires can { Can app.now machine.old task op.SuspendAll }
    ensures { Does 1 machine.old (L.logged log.old) machine.new (L.logged log.new)
        (λ s. act_unless app.now task (misuse s task op.SuspendAll) op.SuspendAll s) }
{
    let op_index = machine.progress(task).op_index;
    suspend_all(machine, app, task, log);
    judge(machine, task, op_index);
}

/// `enter_critical` while no task holds the scheduler. The task is judged at the end of the step.
#[inline(never)]
pub(crate) fn call_enter_critical(machine: &mut Machine, app: &App, task: TaskId)
    requires { Can app.now machine.old task op.EnterCritical }
    ensures { Moves machine.old machine.new (λ s. act_unless app.now task (misuse s task op.EnterCritical) op.EnterCritical s) }
{
    let op_index = machine.progress(task).op_index;
    enter_critical(machine, app, task);
    judge(machine, task, op_index);
}

/// `work` while a `suspend_all` is in force: a tick of it is used up, and the tick that comes is held.
#[inline(always)]
fn work_on<L: Log>(machine: &mut Machine, app: &App, task: TaskId, ticks: u32, log: &mut L)
    requires room { 336 ≤ (L.logged log.old).room }
    requires can { CanHold app.now machine.old task (op.Work ticks) }
    requires some { 0 < machine.old.sched.suspensions }
    requires closed { machine.old.sections ≡ 0 }
    ensures { Does 336 machine.old (L.logged log.old) machine.new (L.logged log.new)
        (act app.now task (op.Work ticks)) }
{
    use_up(machine, app, task, ticks);
    held_tick_interrupt(machine, app, log);
}

/// What an op does that is no misuse while a task holds the scheduler.
#[inline(always)]
fn act_on<L: Log>(machine: &mut Machine, app: &App, task: TaskId, op: &Op, log: &mut L)
    requires room { 336 ≤ (L.logged log.old).room }
    requires can { CanHold app.now machine.old task op.now }
    requires some { 0 < machine.old.sched.suspensions }
    requires fine { (s : State) → Stands machine.old s → misuse s task op.now ≡ None }
    ensures { Does 336 machine.old (L.logged log.old) machine.new (L.logged log.new)
        (act_by_value app.now task op.now) }
{
    match *op {
        Op::Work(ticks) => work_on(machine, app, task, ticks, log),
        Op::Time => {
            time(machine, app, task, log);
        }
        Op::Mark(value) => {
            mark(machine, app, task, value, log);
        }
        Op::Value(ref op) => {
            calculate(machine, app, task, op, log);
        }
        Op::Stamp => {
            stamp(machine, app, task);
        }
        Op::Since => {
            since(machine, app, task, log);
        }
        Op::Expect(ref condition) => {
            expect(machine, app, task, condition);
        }
        Op::Repeat(turns) => {
            open_loop(machine, app, task, turns);
        }
        Op::End => {
            close_turn(machine, app, task);
        }
        Op::If(ref condition) => {
            branch(machine, app, task, condition);
        }
        Op::Else => {
            skip_branch(machine, app, task);
        }
        Op::EndIf => {
            end_if(machine, app, task);
        }
        Op::Break => {
            leave_loop(machine, app, task);
        }
        Op::MessagesWaiting(object) => {
            messages_waiting(machine, app, task, object, log);
        }
        Op::SpacesAvailable(object) => {
            spaces_available(machine, app, task, object, log);
        }
        Op::ClearBits(group, mask) => clear_bits(machine, app, task, group, mask, log),
        Op::GetBits(group) => {
            get_bits(machine, app, task, group, log);
        }
        Op::ClearNotification(what) => clear_notification(machine, app, task, what, log),
        Op::SuspendAll => suspend_all(machine, app, task, log),
        Op::ResumeAll => resume_all(machine, app, task, log),
        Op::EnterCritical => enter_critical(machine, app, task),
        Op::ExitCritical => exit_critical(machine, app, task),
        Op::Source(handler, op) => control(machine, app, task, handler, op),
        // Every other may switch.
        _ => {}
    }
}

/// Whether the task holds this mutex.
fn is_holder(machine: &Machine, task: TaskId, object: ObjectId) -> bool
    ensures { (s : State) → Stands machine.now s → result ≡ is_same (object_at s object).holder (Some task) }
{
    machine.objects.holder(object) == Some(task)
}

/// Which misuse an op is by itself, if it is one.
fn own_misuse(machine: &Machine, task: TaskId, op: &Op) -> Option<Misuse>
    ensures { (s : State) → Stands machine.now s → result ≡ own_misuse s task op.now }
{
    match *op {
        Op::ResumeAll => {
            if is_scheduler_suspended(machine) {
                None
            } else {
                Some(Misuse::NotSuspended)
            }
        }
        Op::GiveMutex(object) => {
            if is_holder(machine, task, object) {
                None
            } else {
                Some(Misuse::NotHolder)
            }
        }
        Op::ExitCritical => {
            if machine.sections > 0 {
                None
            } else {
                Some(Misuse::NotCritical)
            }
        }
        _ => None,
    }
}

/// Which misuse an op is, if it is one.
#[inline(always)]
fn misuse(machine: &Machine, task: TaskId, op: &Op) -> Option<Misuse>
    ensures { (s : State) → Stands machine.now s → result ≡ misuse s task op.now }
{
    if is_scheduler_suspended(machine) && may_switch(op) {
        return Some(Misuse::WhileSuspended);
    }
    if let Some(misuse) = own_misuse(machine, task, op) {
        return Some(misuse);
    }
    if machine.sections > 0 && is_barred(op) {
        return Some(Misuse::WhileCritical);
    }
    None
}

/// What an op does while a task holds the scheduler, unless it is a misuse.
#[inline(always)]
fn act_unless_misuse<L: Log>(machine: &mut Machine, app: &App, task: TaskId, op: &Op, log: &mut L)
    requires room { 336 ≤ (L.logged log.old).room }
    requires can { CanHold app.now machine.old task op.now }
    requires some { 0 < machine.old.sched.suspensions }
    ensures { Does 336 machine.old (L.logged log.old) machine.new (L.logged log.new)
        (λ s. act_unless app.now task (misuse s task op.now) op.now s) }
{
    if let Some(misuse) = misuse(machine, task, op) {
        machine.misuse(task, misuse);
        return;
    }
    let op_index = machine.progress(task).op_index;
    act_on(machine, app, task, op, log);
    judge(machine, task, op_index);
}

/// What the running task does while it holds the scheduler: its op, if it has one.
// It finds the op by itself, so that the usual path needs it nowhere in memory.
#[inline(always)]
pub(crate) fn act_while_suspended<L: Log>(
    machine: &mut Machine,
    app: &App,
    task: TaskId,
    log: &mut L,
)
    requires room { 337 ≤ (L.logged log.old).room }
    requires there { task < length app.now.tasks }
    requires runs { machine.old.sched.current ≡ Some task }
    requires can { (op : Op) → op_at app.now task (progress_in machine.old.progress task).op_index ≡ Some op
        → CanHold app.now machine.old task op }
    requires some { 0 < machine.old.sched.suspensions }
    ensures { (limits : Limits) → DoesAny 337 machine.old (L.logged log.old) machine.new (L.logged log.new)
        (λ s. act_current app.now limits s.current s) }
{
    let op_index = machine.progress(task).op_index;
    if let Some(op) = op_of(app, task, op_index) {
        act_unless_misuse(machine, app, task, op, log);
    }
}

/// The running task, if it holds the scheduler.
#[inline(always)]
fn running_while_suspended(machine: &Machine) -> Option<TaskId>
    ensures runs { IfSome result (λ task. machine.now.sched.current ≡ Some task) }
    ensures some { IfSome result (λ task. 0 < machine.now.sched.suspensions) }
{
    if machine.sched.suspensions() == 0 {
        return None;
    }
    machine.sched.current()
}

/// One step of the run without handlers and with nothing pending, in which this task runs while it holds the scheduler. Its events go to a
/// log that has none of this step yet.
#[inline(always)]
fn step_while_suspended<L: Log>(
    machine: &mut Machine,
    app: &App,
    task: TaskId,
    limits: &Limits,
    log: &mut L,
)
    requires going { CanStep app.now limits.now machine.old }
    requires none { NonePends machine.old }
    requires runs { machine.old.sched.current ≡ Some task }
    requires some { 0 < machine.old.sched.suspensions }
    requires begun { (L.logged log.old).told ≡ [] }
    requires room { 512 ≤ (L.logged log.old).room }
    ensures stands { (s : State) → Stands machine.old s → Stands machine.new (step app.now limits.now [] s) }
    ensures told { (s : State) → Stands machine.old s → (L.logged log.new).told ≡ (step app.now limits.now [] s).log }
    ensures before { (L.logged log.new).before ≡ (L.logged log.old).before }
{
    app.well_formed();
    let _ = limits;
    act_while_suspended(machine, app, task, log);
    machine.settle(log);
    machine.steps += 1;
}

/// Goes on along a run that is under way, while a task holds the scheduler and the run isn't over. It does no step from the one before
/// `until` on, since the plan may have an injection at `until`, or a limit may be reached there.
// Each of these steps asks for less than any other does.
#[inline(never)]
pub(crate) fn go_on_while_suspended(
    kernel: &mut Machine,
    app: &App,
    injections: &[Injection],
    until: u32,
    limits: &Limits,
    trail: &mut Trail,
)
    requires { IsFree app.now limits.now until kernel.old injections.now }
    ensures along { GoesOn app.now limits.now until kernel.old kernel.new (all_of trail.old) (all_of trail.new) }
    ensures soon { kernel.old.steps < until → kernel.new.steps < until }
{
    app.well_formed();
    limits.well_formed();
    let last = until.saturating_sub(1);
    'steps: while kernel.steps < last {
        let Some(task) = running_while_suspended(kernel) else {
            return;
        };
        if trail.begin().is_err() || is_over_running(kernel, app, task, limits) {
            return;
        }
        step_while_suspended(kernel, app, task, limits, trail);
    }
}
