//! Critical sections.
ghost use Rattle.std.specs.Prelude.{◌<◌};
ghost use Rattle.model.specs.Ops as definitions;
ghost use Rattle.machine.specs.StandsFor.{Moves};
ghost use Rattle.machine.specs.Can.{Agrees, Runs};

use machine::Machine;
use model::{App, TaskId};

/// `enter_critical`: one critical section more is open (`taskENTER_CRITICAL`), which holds the scheduler.
#[inline(always)]
pub fn enter_critical(machine: &mut Machine, app: &App, task: TaskId)
    requires runs { Runs machine.old task }
    requires depth { machine.old.sched.depth < 4294967295 }
    requires few { machine.old.sched.suspensions < 4294967295 }
    requires sections { machine.old.sections < 4294967295 }
    ensures { Moves machine.old machine.new (definitions.enter_critical app.now task) }
{
    machine.sched.suspend_all();
    machine.sections += 1;
    machine.complete(app, task);
}

/// `exit_critical` while one is open: one fewer is (`taskEXIT_CRITICAL`). After the last, the pending handlers come before the next
/// step.
#[inline(always)]
pub fn exit_critical(machine: &mut Machine, app: &App, task: TaskId)
    requires runs { Runs machine.old task }
    requires agrees { Agrees machine.old }
    requires held { 0 < machine.old.sched.depth }
    requires some { 0 < machine.old.sched.suspensions }
    requires open { 0 < machine.old.sections }
    ensures { Moves machine.old machine.new (definitions.exit_critical app.now task) }
{
    machine.sched.resume_all();
    machine.sections -= 1;
    machine.complete(app, task);
}
