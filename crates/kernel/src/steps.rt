//! The steps of a run.
ghost use Rattle.std.specs.Prelude.{◌≡◌, true, false, ◌<◌, ◌≤◌, ◌+◌, ◌^◌, ◌++◌, [], Some, None, IfSome, IsNone, IfOk, OnOk, OnErr, drop, length};
ghost use Rattle.std.specs.List.{AllByRecursion};
ghost use Rattle.model.specs.Application.{op_at};
ghost use Rattle.model.specs.State.{State};
ghost use Rattle.model.specs.Step.{act_current, step};
ghost use Rattle.model.specs.Run as definition;
ghost use Rattle.model.specs.declared.plan.Injection as definitions;
ghost use Rattle.model.specs.Points.{Rises};
ghost use Rattle.model.specs.Placements.{can_all_come};
ghost use Rattle.model.specs.Run.{injected};
ghost use Rattle.machine.specs.Logged.{all_of};
ghost use Rattle.machine.specs.StandsFor.{Stands, DoesAny};
ghost use Rattle.kernel.specs.Over.{is_over};
ghost use Rattle.machine.specs.Can.{NonePends};
ghost use Rattle.kernel.specs.Can.{CanAct, CanStep};
ghost use Rattle.kernel.specs.InScript.{IsAt, IsAtNone, is_amid};
ghost use Rattle.kernel.specs.Bits.{IsLettingGo};
ghost use Rattle.kernel.specs.declared.dispatch.Following.TheVariants as following;

use crate::dispatch::{Following, act};
use crate::handlers::come_before;
use crate::idle::idle;
use crate::suspended::act_while_suspended;
use arrayvec::ArrayVec;
use machine::{Log, Machine, StepLog, Trail};
use model::{App, HandlerId, Injection, Limits, Memory, Meter, Op, TaskId};

/// The room that a step needs at most, whichever handlers come before it.
const MOST_EVENTS: usize = 1958;

/// The handlers that come before a step: three at most (profile).
type Injected = ArrayVec<HandlerId, 3>;

/// The op of this index in the script of a task that is there; `None` past its end.
// By a reference, so that of an op no more is read than what it does needs.
#[inline(always)]
pub(crate) fn op_of(app: &App, task: TaskId, op_index: u16) -> Option<&Op>
    requires { task < length app.now.tasks }
    ensures some { IfSome result (λ op. op_at app.now task op_index ≡ Some op.now) }
    ensures none { IsNone result → op_at app.now task op_index ≡ None }
{
    let definition = &app.tasks()[task.number as usize];
    definition.ops().get(op_index as usize)
}

/// The op that the running task is at, if no task holds the scheduler; `None` also if idle runs.
#[inline(always)]
fn current_op<'a>(machine: &Machine, app: &'a App) -> Option<(TaskId, &'a Op)>
    requires there { IfSome machine.now.sched.current (λ task. task < length app.now.tasks) }
    ensures some { IfSome result (λ found. IsAt app.now machine.now found.0 found.1.now) }
    ensures none { IsNone result → IsAtNone app.now machine.now }
{
    let Some(task) = machine.sched.current() else {
        return None;
    };
    if machine.sched.suspensions() > 0 {
        return None;
    }
    match op_of(app, task, machine.progress(task).op_index) {
        None => None,
        Some(op) => Some((task, op)),
    }
}

/// What a step does if the running task has no op, or holds the scheduler, or idle runs. Returns what may follow (`pass_more`).
#[inline(always)]
fn act_without_op<L: Log>(
    machine: &mut Machine,
    app: &App,
    limits: &Limits,
    log: &mut L,
) -> Following
    requires room { 337 ≤ (L.logged log.old).room }
    requires there { IfSome machine.old.sched.current (λ task. task < length app.now.tasks) }
    requires can { CanAct app.now limits.now machine.old }
    requires none { IsAtNone app.now machine.old }
    ensures does { DoesAny 337 machine.old (L.logged log.old) machine.new (L.logged log.new)
        (λ s. act_current app.now limits.now s.current s) }
    ensures other { is_amid result ≡ false }
{
    let Some(task) = machine.sched.current() else {
        idle(machine, app, limits, log);
        return Following::Steps;
    };
    if machine.sched.suspensions() > 0 {
        act_while_suspended(machine, app, task, log);
    }
    Following::Nothing
}

/// What a step does: the running task's op, or idle. Returns what may follow (`pass_more`).
#[inline(always)]
fn act_current<L: Log>(machine: &mut Machine, app: &App, limits: &Limits, log: &mut L) -> Following
    requires room { 337 ≤ (L.logged log.old).room }
    requires there { IfSome machine.old.sched.current (λ task. task < length app.now.tasks) }
    requires can { CanAct app.now limits.now machine.old }
    ensures { DoesAny 337 machine.old (L.logged log.old) machine.new (L.logged log.new)
        (λ s. act_current app.now limits.now s.current s) }
{
    match current_op(machine, app) {
        Some(found) => act(machine, app, found.0, found.1, log),
        None => act_without_op(machine, app, limits, log),
    }
}

/// The same as a call: of the steps that are done one by one, all have this code.
#[inline(never)]
fn act_once<L: Log>(machine: &mut Machine, app: &App, limits: &Limits, log: &mut L) -> Following
    requires room { 337 ≤ (L.logged log.old).room }
    requires there { IfSome machine.old.sched.current (λ task. task < length app.now.tasks) }
    requires can { CanAct app.now limits.now machine.old }
    ensures { DoesAny 337 machine.old (L.logged log.old) machine.new (L.logged log.new)
        (λ s. act_current app.now limits.now s.current s) }
{
    act_current(machine, app, limits, log)
}

/// One step of the run, with these handlers, and with what is pending. Its events go to a log that has none of this step yet. Returns
/// whether each of the handlers can come in its turn.
#[cold]
#[inline(never)]
fn step_with_handlers<L: Log>(
    machine: &mut Machine,
    app: &App,
    handlers: &[HandlerId],
    limits: &Limits,
    log: &mut L,
) -> bool
    requires few { length handlers.now ≤ 3 }
    requires going { CanStep app.now limits.now machine.old }
    requires begun { (L.logged log.old).told ≡ [] }
    requires room { 1958 ≤ (L.logged log.old).room }
    ensures stands { (s : State) → Stands machine.old s → Stands machine.new (step app.now limits.now handlers.now s) }
    ensures told { (s : State) → Stands machine.old s
        → (L.logged log.new).told ≡ (step app.now limits.now handlers.now s).log }
    ensures before { (L.logged log.new).before ≡ (L.logged log.old).before }
    ensures came { (s : State) → Stands machine.old s → result ≡ can_all_come app.now handlers.now s }
{
    app.well_formed();
    let came = come_before(machine, app, handlers, log);
    act_once(machine, app, limits, log);
    machine.settle(log);
    machine.steps += 1;
    came
}

/// One step of the run, without handlers and with nothing pending. Its events go to a log that has none of this step yet. Returns
/// what may follow (`pass_more`).
#[inline(never)]
fn step_without_handlers<L: Log>(
    machine: &mut Machine,
    app: &App,
    limits: &Limits,
    log: &mut L,
) -> Following
    requires going { CanStep app.now limits.now machine.old }
    requires none { NonePends machine.old }
    requires begun { (L.logged log.old).told ≡ [] }
    requires room { 512 ≤ (L.logged log.old).room }
    ensures stands { (s : State) → Stands machine.old s → Stands machine.new (step app.now limits.now [] s) }
    ensures told { (s : State) → Stands machine.old s → (L.logged log.new).told ≡ (step app.now limits.now [] s).log }
    ensures before { (L.logged log.new).before ≡ (L.logged log.old).before }
{
    app.well_formed();
    // The end of the step is here twice, so that nothing is asked after an op that nothing may follow.
    let following = act_once(machine, app, limits, log);
    if following == Following::Nothing {
        machine.settle(log);
        machine.steps += 1;
        return Following::Nothing;
    }
    machine.settle(log);
    machine.steps += 1;
    following
}

/// One step of the run without handlers and with nothing pending, in which the running task does this op. Its events go to a log
/// that has none of this step yet. Returns what may follow (`pass_more`).
#[inline(always)]
pub(crate) fn step_of_op<L: Log>(
    machine: &mut Machine,
    app: &App,
    task: TaskId,
    op: &Op,
    limits: &Limits,
    log: &mut L,
) -> Following
    requires going { CanStep app.now limits.now machine.old }
    requires none { NonePends machine.old }
    requires at { IsAt app.now machine.old task op.now }
    requires begun { (L.logged log.old).told ≡ [] }
    requires room { 512 ≤ (L.logged log.old).room }
    ensures stands { (s : State) → Stands machine.old s → Stands machine.new (step app.now limits.now [] s) }
    ensures told { (s : State) → Stands machine.old s → (L.logged log.new).told ≡ (step app.now limits.now [] s).log }
    ensures before { (L.logged log.new).before ≡ (L.logged log.old).before }
    ensures silent { result ≡ following.NextOp → L.logged log.new ≡ L.logged log.old }
    ensures letting { result ≡ following.LettingGo
        → IsLettingGo app.now machine.new task op.now × (L.logged log.new ≡ L.logged log.old) }
    ensures held { result ≡ following.LettingGo → (s : State) → Stands machine.old s → is_over app.now limits.now s ≡ false
        → is_over app.now limits.now (step app.now limits.now [] s) ≡ false }
    ensures runs { is_amid result ≡ true → machine.new.sched.current ≡ Some task }
    ensures awake { is_amid result ≡ true → machine.new.sched.suspensions ≡ 0 }
    ensures on { is_amid result ≡ true → (s : State) → Stands machine.old s → is_over app.now limits.now s ≡ false
        → is_over app.now limits.now (step app.now limits.now [] s) ≡ false }
{
    app.well_formed();
    let _ = limits;
    // The end of the step is in each arm, so that the compiler knows there what may follow and doesn't ask again, and no switch is
    // looked for after an op that only takes its task to another op, or whose call holds the scheduler.
    match act(machine, app, task, op, log) {
        Following::Steps => {
            machine.settle(log);
            machine.steps += 1;
            Following::Steps
        }
        Following::NextOp => {
            machine.steps += 1;
            Following::NextOp
        }
        Following::Answered => {
            machine.steps += 1;
            Following::Answered
        }
        Following::LettingGo => {
            machine.steps += 1;
            Following::LettingGo
        }
        Following::Nothing => {
            machine.settle(log);
            machine.steps += 1;
            Following::Nothing
        }
        seldom => {
            machine.settle(log);
            machine.steps += 1;
            seldom
        }
    }
}

/// One step of the run without handlers and with nothing pending, if something holds the scheduler or idle runs. Its events go to a
/// log that has none of this step yet. Returns what may follow (`pass_more`).
#[inline(always)]
pub(crate) fn step_without_op<L: Log>(
    machine: &mut Machine,
    app: &App,
    limits: &Limits,
    log: &mut L,
) -> Following
    requires going { CanStep app.now limits.now machine.old }
    requires none { NonePends machine.old }
    requires begun { (L.logged log.old).told ≡ [] }
    requires room { 512 ≤ (L.logged log.old).room }
    ensures stands { (s : State) → Stands machine.old s → Stands machine.new (step app.now limits.now [] s) }
    ensures told { (s : State) → Stands machine.old s → (L.logged log.new).told ≡ (step app.now limits.now [] s).log }
    ensures before { (L.logged log.new).before ≡ (L.logged log.old).before }
{
    app.well_formed();
    if machine.sched.suspensions() == 0 && machine.sched.current().is_some() {
        return step_without_handlers(machine, app, limits, log);
    }
    let following = act_without_op(machine, app, limits, log);
    machine.settle(log);
    machine.steps += 1;
    following
}

/// One step of the run: these handlers, three at most, and then the running task's op, or a tick of idle (profile). While a critical
/// section is open the handlers become pending; what is pending comes before the first step before which none is open. The
/// events that it reports are then in the log, in order, and nothing else. It takes no memory.
///
/// The kernel is of this application, and its run has not ended under some limits. The meter, which rises by 1, is
/// below 2^63. Returns whether each of the handlers can come in its turn; those that can't do nothing.
pub(crate) fn step(
    machine: &mut Machine,
    app: &App,
    handlers: &[HandlerId],
    limits: &Limits,
    meter: &mut Meter,
    log: &mut StepLog,
) -> bool
    requires few { length handlers.now ≤ 3 }
    requires going { CanStep app.now limits.now machine.old }
    requires meter { meter.old < 2 ^ 63 }
    ensures stands { (s : State) → Stands machine.old s → Stands machine.new (step app.now limits.now handlers.now s) }
    ensures log { (s : State) → Stands machine.old s
        → log.new.items ≡ (step app.now limits.now handlers.now s).log }
    ensures meter { meter.new ≡ meter.old + 1 }
    ensures came { (s : State) → Stands machine.old s → result ≡ can_all_come app.now handlers.now s }
{
    log.clear();
    let came = step_with_handlers(machine, app, handlers, limits, log);
    meter.count();
    came
}

/// One step of the run, whose events go to this log first, in place of its content: memory is taken only for those that the step
/// reports. It is used if the trail gets no room for all that a step may need. `Err(Memory)` is returned only if the trail had less
/// room for them and that growth was refused. The step is done all the same.
#[cold]
#[inline(never)]
fn step_through_log(
    kernel: &mut Machine,
    app: &App,
    handlers: &[HandlerId],
    limits: &Limits,
    meter: &mut Meter,
    log: &mut StepLog,
    trail: &mut Trail,
) -> Result<(), Memory>
    requires few { length handlers.now ≤ 3 }
    requires going { CanStep app.now limits.now kernel.old }
    requires meter { meter.old < 2 ^ 63 }
    requires begun { trail.old.told ≡ [] }
    ensures stands { (s : State) → Stands kernel.old s → Stands kernel.new (step app.now limits.now handlers.now s) }
    ensures told { OnOk result ((s : State) → Stands kernel.old s
        → trail.new.told ≡ (step app.now limits.now handlers.now s).log) }
    ensures before { trail.new.before ≡ trail.old.before }
    ensures meter { meter.new ≡ meter.old + 1 }
    ensures kept { OnErr result (trail.new.told ≡ []) }
    ensures memory { OnErr result ((s : State) → Stands kernel.old s
        → trail.old.room < length (step app.now limits.now handlers.now s).log) }
{
    log.clear();
    step_with_handlers(kernel, app, handlers, limits, log);
    meter.count();
    trail.append(log.as_slice())
}

/// One step of the run, after these handlers, whose events go to the end of the trail. `Err(Memory)` is returned only if a growth
/// was refused, so never if the step reports nothing. The step is done all the same.
#[inline(always)]
pub(crate) fn step_to_trail(
    kernel: &mut Machine,
    app: &App,
    handlers: &[HandlerId],
    limits: &Limits,
    meter: &mut Meter,
    log: &mut StepLog,
    trail: &mut Trail,
) -> Result<(), Memory>
    requires few { length handlers.now ≤ 3 }
    requires going { CanStep app.now limits.now kernel.old }
    requires meter { meter.old < 2 ^ 63 }
    ensures stands { (s : State) → Stands kernel.old s → Stands kernel.new (step app.now limits.now handlers.now s) }
    ensures told { OnOk result ((s : State) → Stands kernel.old s
        → all_of trail.new ≡ all_of trail.old ++ (step app.now limits.now handlers.now s).log) }
    ensures meter { meter.new ≡ meter.old + 1 }
    ensures kept { OnErr result (all_of trail.new ≡ all_of trail.old) }
    ensures memory { OnErr result ((s : State) → Stands kernel.old s
        → 0 < length (step app.now limits.now handlers.now s).log) }
{
    let is_roomy = trail.begin().is_ok();
    if is_roomy && handlers.is_empty() && !kernel.sources.any_pending() {
        step_without_handlers(kernel, app, limits, trail);
        meter.count();
        return Ok(());
    }
    if trail.make_room_for(MOST_EVENTS) {
        step_with_handlers(kernel, app, handlers, limits, trail);
        meter.count();
        return Ok(());
    }
    step_through_log(kernel, app, handlers, limits, meter, log, trail)
}

/// The handlers of a plan's injections at this step. These injections are those from this step on.
fn handlers_at(injections: &[Injection], step: u32) -> Injected
    requires order { Rises (λ (i : definitions.Injection). i.step) injections.now }
    requires left { AllByRecursion (λ (i : definitions.Injection). step ≤ i.step) injections.now }
    requires few { length (injected injections.now step) ≤ 3 }
    ensures { result.items ≡ injected injections.now step }
{
    let mut handlers = Injected::new();
    for injection in injections {
        if injection.step != step {
            break;
        }
        handlers.push(injection.handler);
    }
    handlers
}

/// One step of the run, after the handlers of the injections at it: these injections are those from this step on. Returns the
/// injections after it.
#[inline(always)]
pub(crate) fn step_by_plan<'a>(
    kernel: &mut Machine,
    app: &App,
    injections: &'a [Injection],
    limits: &Limits,
    meter: &mut Meter,
    log: &mut StepLog,
    trail: &mut Trail,
) -> Result<&'a [Injection], Memory>
    requires order { Rises (λ (i : definitions.Injection). i.step) injections.now }
    requires left { AllByRecursion (λ (i : definitions.Injection). kernel.old.steps ≤ i.step) injections.now }
    requires few { length (injected injections.now kernel.old.steps) ≤ 3 }
    requires going { CanStep app.now limits.now kernel.old }
    requires meter { meter.old < 2 ^ 63 }
    ensures stands { (s : State) → Stands kernel.old s
        → Stands kernel.new (step app.now limits.now (injected injections.now kernel.old.steps) s) }
    ensures told { OnOk result ((s : State) → Stands kernel.old s
        → all_of trail.new ≡ all_of trail.old ++ (step app.now limits.now (injected injections.now kernel.old.steps) s).log) }
    ensures later { IfOk result (λ later. later.now
        ≡ drop (length (injected injections.now kernel.old.steps)) injections.now) }
    ensures meter { meter.new ≡ meter.old + 1 }
    ensures kept { OnErr result (all_of trail.new ≡ all_of trail.old) }
    ensures memory { OnErr result ((s : State) → Stands kernel.old s
        → 0 < length (step app.now limits.now (injected injections.now kernel.old.steps) s).log) }
{
    let handlers = handlers_at(injections, kernel.steps);
    step_to_trail(kernel, app, handlers.as_slice(), limits, meter, log, trail)?;
    let (_, later) = injections.split_at(handlers.len());
    Ok(later)
}
