//! The steps in which the daemon sets bits for a command that it has just received. They are done one after another, and nothing is
//! looked for in each.
ghost use Rattle.std.specs.Prelude.{◌≡◌, ◌<◌, ◌+◌, false, List, [], Some, IfSome, length};
ghost use Rattle.model.specs.declared.op.Op.TheVariants as op;
ghost use Rattle.model.specs.declared.plan.Injection as definitions;
ghost use Rattle.model.specs.Application.{Limits};
ghost use Rattle.model.specs.State.{State};
ghost use Rattle.model.specs.Step.{step};
ghost use Rattle.model.specs.Run.{state_after};
ghost use Rattle.machine.specs.Logged.{all_of};
ghost use Rattle.machine.specs.StandsFor.{Stands};
ghost use Rattle.machine.specs.Can.{NonePends};
ghost use Rattle.kernel.specs.Can.{CanStepUnderSome};
ghost use Rattle.kernel.specs.Bits.{IsLettingGo};
ghost use Rattle.kernel.specs.Commands.{IsToSet};
ghost use Rattle.kernel.specs.Over.{is_over};
ghost use Rattle.kernel.specs.Along.{IsFree, GoesOn, IsGoing, GoesFurther};

use crate::bits::pass_held;
use crate::in_call::phase;
use crate::over::is_over_running;
use crate::steps::op_of;
use machine::{Machine, Trail};
use model::{App, Command, Injection, Limits, Op, Phase, TaskId};
use ops::daemon::command_of;
use ops::event_groups::begin_set;

/// The command that the running task, the daemon, has received and begins next, if it sets bits.
#[inline(always)]
fn set_received(machine: &Machine, app: &App, task: TaskId) -> Option<Command>
    requires there { task < length app.now.tasks }
    requires runs { machine.now.sched.current ≡ Some task }
    ensures { IfSome result (λ command. IsToSet app.now machine.now task command) }
{
    if machine.sched.suspensions() > 0 || phase(machine, task) != Phase::Start {
        return None;
    }
    let Some(op) = op_of(app, task, machine.progress(task).op_index) else {
        return None;
    };
    let Op::Obey = *op else {
        return None;
    };
    let command = command_of(machine, task);
    if command.clear {
        return None;
    }
    Some(command)
}

/// One step of the run, in which the daemon begins to set the bits of the command that it has received. Its call holds the scheduler
/// then, so that nothing switches, and nothing is reported.
#[inline(always)]
fn step_setting(machine: &mut Machine, app: &App, task: TaskId, command: &Command)
    requires going { CanStepUnderSome app.now machine.old }
    requires none { NonePends machine.old }
    requires sets { IsToSet app.now machine.old task command.now }
    ensures stands { (limits : Limits) (s : State) → Stands machine.old s → Stands machine.new (step app.now limits [] s) }
    ensures silent { (limits : Limits) (s : State) → Stands machine.old s → (step app.now limits [] s).log ≡ [] }
    ensures on { (limits : Limits) (s : State) → Stands machine.old s → is_over app.now limits s ≡ false
        → is_over app.now limits (step app.now limits [] s) ≡ false }
    ensures letting { IsLettingGo app.now machine.new task op.Obey }
{
    app.well_formed();
    begin_set(machine, task, command.group, command.mask);
    machine.steps += 1;
}

/// The same in a run that is under way and not over, if that step is before the one of this number: before that one the plan has no
/// injection, and no limit is reached. The run isn't over then either.
#[inline(always)]
fn pass_set(
    kernel: &mut Machine,
    app: &App,
    injections: &[Injection],
    until: u32,
    task: TaskId,
    command: &Command,
    limits: &Limits,
)
    requires going { IsGoing app.now limits.now until kernel.old injections.now }
    requires soon { kernel.old.steps < until }
    requires sets { IsToSet app.now kernel.old task command.now }
    ensures along { GoesFurther app.now limits.now until kernel.old kernel.new [] [] }
    ensures going { (plan : List definitions.Injection) → IsGoing app.now limits.now until kernel.old plan
        → is_over app.now limits.now (state_after app.now limits.now plan kernel.new.steps) ≡ false }
    ensures letting { IsLettingGo app.now kernel.new task op.Obey }
    ensures one { kernel.new.steps ≡ kernel.old.steps + 1 }
{
    app.well_formed();
    limits.well_formed();
    step_setting(kernel, app, task, command);
}

/// Does the two steps in which the daemon sets the bits of the command that it has just received, if it is one that sets. It does
/// none if the plan may have an injection, or a limit may be reached, before both are done. Whether the run is over is asked once,
/// since the first of the two ends no task.
#[inline(never)]
pub(crate) fn pass_command(
    kernel: &mut Machine,
    app: &App,
    injections: &[Injection],
    until: u32,
    limits: &Limits,
    trail: &mut Trail,
)
    requires free { IsFree app.now limits.now until kernel.old injections.now }
    requires soon { kernel.old.steps < until }
    ensures { GoesOn app.now limits.now until kernel.old kernel.new (all_of trail.old) (all_of trail.new) }
{
    app.well_formed();
    if until - kernel.steps < 2 {
        return;
    }
    let Some(task) = kernel.sched.current() else {
        return;
    };
    let Some(command) = set_received(kernel, app, task) else {
        return;
    };
    if is_over_running(kernel, app, task, limits) {
        return;
    }
    pass_set(kernel, app, injections, until, task, &command, limits);
    if trail.begin().is_err() {
        return;
    }
    pass_held(
        kernel,
        app,
        injections,
        until,
        task,
        &Op::Obey,
        limits,
        trail,
    );
}
