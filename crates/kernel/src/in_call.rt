//! The steps of a call that waits, from the one in which it decides until it has let go of the scheduler. They are done one after
//! another, with the call in hand, and none of them looks anything up.
ghost use Rattle.std.specs.Prelude.{◌≡◌, ◌+◌, ◌≤◌, ℕ, false, List, [], None, Option, IfSome};
ghost use Rattle.model.specs.Values.{with_number};
ghost use Rattle.model.specs.declared.call.Phase as declared;
ghost use Rattle.model.specs.declared.call.Phase.TheVariants.{Decide, Leave};
ghost use Rattle.model.specs.declared.plan.Injection as definitions;
ghost use Rattle.model.specs.Application.{Limits};
ghost use Rattle.model.specs.State.{State};
ghost use Rattle.model.specs.Step.{step};
ghost use Rattle.model.specs.Run.{state_after};
ghost use Rattle.machine.specs.Logged.{all_of};
ghost use Rattle.machine.specs.StandsFor.{Stands, progress_in};
ghost use Rattle.machine.specs.Can.{NonePends};
ghost use Rattle.kernel.specs.Can.{CanStepUnderSome};
ghost use Rattle.ops.specs.InCall.{IsSilent};
ghost use Rattle.kernel.specs.InCall.{IsCallOn, IsInPhase, IsLeaving};
ghost use Rattle.kernel.specs.Over.{is_over};
ghost use Rattle.kernel.specs.Along.{IsFree, GoesOn, NoneIsOver, IsGoing, GoesFurther};

use crate::over::{is_at_tick_limit, is_left_alone};
use crate::steps::op_of;
use machine::{Log, Machine, Trail};
use model::{Access, App, Injection, Limits, ObjectId, Op, Phase, TaskId, Value};
use ops::calls::{go_on_silently, leave_call};

/// The call with some number for its item, which is asked for only when the call tries again.
#[inline(always)]
fn with_any_number(access: Access<Value>) -> Access<u32>
    ensures { result ≡ with_number [] None access }
{
    access.with_number(&[], None)
}

/// On which object an op is a call that waits, and what it does there.
#[inline(always)]
fn call_of(op: &Op) -> Option<(ObjectId, Access<u32>)>
    ensures { IfSome result (λ call. (ticks : Option ℕ) × IsCallOn op.now call.0 call.1 ticks) }
{
    match *op {
        Op::Await(object, access, _) => Some((object, with_any_number(access))),
        Op::NextCommand(queue) => Some((queue, Access::Receive)),
        _ => None,
    }
}

/// The phase that is next of a task's call.
pub(crate) fn phase(machine: &Machine, task: TaskId) -> Phase
    ensures { result ≡ (progress_in machine.now.progress task).call.phase }
{
    machine.progress(task).call.phase
}

/// The running task, if its call decides next.
#[inline(always)]
pub(crate) fn deciding(machine: &Machine) -> Option<TaskId>
    ensures current { IfSome result (λ task. machine.now.sched.current ≡ Some task) }
    ensures reached { IfSome result (λ task. (progress_in machine.now.progress task).call.phase ≡ Decide) }
{
    let task = machine.sched.current()?;
    if phase(machine, task) != Phase::Decide {
        return None;
    }
    Some(task)
}

/// One step of the run, in which the running task's call goes on in such a phase. While it holds the scheduler nothing
/// switches, so nothing else is done.
#[inline(always)]
fn step_in_call(
    machine: &mut Machine,
    app: &App,
    task: TaskId,
    object: ObjectId,
    access: Access<u32>,
    phase: Phase,
)
    requires silent { IsSilent phase }
    requires going { CanStepUnderSome app.now machine.old }
    requires none { NonePends machine.old }
    requires call { IsInPhase app.now machine.old task object access phase }
    ensures stands { (limits : Limits) (s : State) → Stands machine.old s → Stands machine.new (step app.now limits [] s) }
    ensures silent { (limits : Limits) (s : State) → Stands machine.old s → (step app.now limits [] s).log ≡ [] }
    ensures on { (limits : Limits) (s : State) → Stands machine.old s → is_over app.now limits s ≡ false
        → is_over app.now limits (step app.now limits [] s) ≡ false }
    ensures call { (next : declared.Phase) → (progress_in machine.new.progress task).call.phase ≡ next
        → IsInPhase app.now machine.new task object access next }
{
    app.well_formed();
    go_on_silently(machine, task, object, access, phase);
    machine.steps += 1;
}

/// One step of the run, in which the running task's call lets go of the scheduler. The log has no event of this step yet.
#[inline(always)]
fn step_leaving<L: Log>(machine: &mut Machine, app: &App, task: TaskId, log: &mut L)
    requires going { CanStepUnderSome app.now machine.old }
    requires none { NonePends machine.old }
    requires leaving { IsLeaving app.now machine.old task }
    requires begun { (L.logged log.old).told ≡ [] }
    requires room { 512 ≤ (L.logged log.old).room }
    ensures stands { (limits : Limits) (s : State) → Stands machine.old s → Stands machine.new (step app.now limits [] s) }
    ensures told { (limits : Limits) (s : State) → Stands machine.old s
        → (L.logged log.new).told ≡ (step app.now limits [] s).log }
    ensures before { (L.logged log.new).before ≡ (L.logged log.old).before }
{
    app.well_formed();
    leave_call(machine, task, log);
    machine.settle(log);
    machine.steps += 1;
}

/// One step along a run that is under way and not over, in which the running task's call on an object goes on in this phase. Neither has
/// the plan an injection at that step, nor is a limit reached before it. The run isn't over then either.
#[inline(always)]
fn pass_phase(
    kernel: &mut Machine,
    app: &App,
    injections: &[Injection],
    task: TaskId,
    call: &(ObjectId, Access<u32>),
    phase: Phase,
    limits: &Limits,
)
    requires going { IsGoing app.now limits.now (kernel.old.steps + 1) kernel.old injections.now }
    requires silent { IsSilent phase }
    requires call { IsInPhase app.now kernel.old task call.now.0 call.now.1 phase }
    ensures along { GoesFurther app.now limits.now (kernel.old.steps + 1) kernel.old kernel.new [] [] }
    ensures going { (plan : List definitions.Injection) → IsGoing app.now limits.now (kernel.old.steps + 1) kernel.old plan
        → is_over app.now limits.now (state_after app.now limits.now plan kernel.new.steps) ≡ false }
    ensures call { (next : declared.Phase) → (progress_in kernel.new.progress task).call.phase ≡ next
        → IsInPhase app.now kernel.new task call.now.0 call.now.1 next }
{
    app.well_formed();
    limits.well_formed();
    step_in_call(kernel, app, task, call.0, call.1, phase);
}

/// The same if the call has reached this phase.
#[inline(always)]
fn pass_if_next(
    kernel: &mut Machine,
    app: &App,
    injections: &[Injection],
    task: TaskId,
    call: &(ObjectId, Access<u32>),
    next: Phase,
    limits: &Limits,
)
    requires going { IsGoing app.now limits.now (kernel.old.steps + 1) kernel.old injections.now }
    requires silent { IsSilent next }
    requires call { (reached : declared.Phase) → (progress_in kernel.old.progress task).call.phase ≡ reached
        → IsInPhase app.now kernel.old task call.now.0 call.now.1 reached }
    ensures along { GoesFurther app.now limits.now (kernel.old.steps + 1) kernel.old kernel.new [] [] }
    ensures going { (plan : List definitions.Injection) → IsGoing app.now limits.now (kernel.old.steps + 1) kernel.old plan
        → is_over app.now limits.now (state_after app.now limits.now plan kernel.new.steps) ≡ false }
    ensures call { (reached : declared.Phase) → (progress_in kernel.new.progress task).call.phase ≡ reached
        → IsInPhase app.now kernel.new task call.now.0 call.now.1 reached }
{
    if phase(kernel, task) != next {
        return;
    }
    pass_phase(kernel, app, injections, task, call, next, limits);
}

/// Does the steps of the running task's call, which decides next, until it lets go of the scheduler next. Returns the task if the
/// call has reached that phase. It does none if the plan may have an injection, or a limit may be reached, before three steps are
/// done.
// Before it decides the task is Ready, so the run is over only if it has been stopped, or if the task is endless and left alone;
// and none of these steps ends it.
#[inline(never)]
pub(crate) fn pass_call(
    kernel: &mut Machine,
    app: &App,
    injections: &[Injection],
    until: u32,
    task: TaskId,
    limits: &Limits,
) -> Option<TaskId>
    requires free { IsFree app.now limits.now until kernel.old injections.now }
    requires runs { kernel.old.sched.current ≡ Some task }
    requires decides { (progress_in kernel.old.progress task).call.phase ≡ Decide }
    ensures along { GoesOn app.now limits.now until kernel.old kernel.new [] [] }
    ensures leaving { IfSome result (λ task. IsLeaving app.now kernel.new task) }
    ensures going { IfSome result (λ task. NoneIsOver app.now limits.now until kernel.old kernel.new) }
{
    app.well_formed();
    if kernel.stopped.is_some() {
        return None;
    }
    if is_left_alone(kernel, app, task) {
        return None;
    }
    if is_at_tick_limit(kernel, app, limits) {
        return None;
    }
    if kernel.sched.suspensions() > 0 || until.saturating_sub(kernel.steps) < 3 {
        return None;
    }
    let Some(op) = op_of(app, task, kernel.progress(task).op_index) else {
        return None;
    };
    let Some(call) = call_of(op) else {
        return None;
    };
    pass_phase(kernel, app, injections, task, &call, Phase::Decide, limits);
    pass_if_next(kernel, app, injections, task, &call, Phase::Place, limits);
    pass_if_next(kernel, app, injections, task, &call, Phase::Unlock, limits);
    if phase(kernel, task) != Phase::Leave {
        return None;
    }
    Some(task)
}

/// Does the step in which the running task's call lets go of the scheduler, after `pass_call` in a run that isn't over. It does
/// none if that step is the one of this number: before it the plan may have an injection, or a limit may be reached.
#[inline(always)]
pub(crate) fn pass_leave(
    kernel: &mut Machine,
    app: &App,
    injections: &[Injection],
    until: u32,
    task: TaskId,
    limits: &Limits,
    trail: &mut Trail,
)
    requires going { IsGoing app.now limits.now until kernel.old injections.now }
    requires leaving { IsLeaving app.now kernel.old task }
    ensures { GoesFurther app.now limits.now until kernel.old kernel.new (all_of trail.old) (all_of trail.new) }
{
    app.well_formed();
    limits.well_formed();
    if until <= kernel.steps {
        return;
    }
    if trail.begin().is_err() {
        return;
    }
    step_leaving(kernel, app, task, trail);
}
