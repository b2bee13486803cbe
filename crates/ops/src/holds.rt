//! The end of a hold of the scheduler, by a call or by the last `suspend_all`: the ticks that came meanwhile are applied.
ghost use Rattle.std.specs.Prelude.{◌≡◌, ◌≢◌, ◌<◌, ℕ};
ghost use Rattle.model.specs.declared.call.Phase.TheVariants as phase;
ghost use Rattle.model.specs.Time as time;
ghost use Rattle.model.specs.Waiting as waiting;
ghost use Rattle.machine.specs.StandsFor.{Moves};
ghost use Rattle.machine.specs.Can.{Leaves, Runs};
ghost use Rattle.ops.specs.Can.{CanApply, CanLeave};

use machine::Machine;
use model::{Phase, TaskId};

/// A tick that was held is applied.
fn apply_one(machine: &mut Machine)
    requires some { 0 < machine.old.clock.held }
    requires can { CanApply machine.old }
    ensures does { Moves machine.old machine.new time.apply_one }
    ensures leaves { Leaves machine.old machine.new }
{
    machine.clock.release();
    machine.advance();
}

/// The ticks that are held are applied, one after another.
// They are rare, and inlined this would be in each copy of the step.
#[inline(never)]
fn apply_held(machine: &mut Machine)
    requires can { CanApply machine.old }
    ensures does { Moves machine.old machine.new time.release }
    ensures leaves { Leaves machine.old machine.new }
{
    for _ in 0..machine.clock.held() {
        apply_one(machine);
    }
}

/// The same, if some may be held. The running task goes on.
#[inline(always)]
pub(crate) fn release(machine: &mut Machine)
    requires can { CanApply machine.old }
    ensures does { Moves machine.old machine.new time.release }
    ensures leaves { Leaves machine.old machine.new }
    ensures runs { (task : ℕ) → Runs machine.old task → Runs machine.new task }
{
    if machine.clock.held() > 0 {
        apply_held(machine);
    }
}

/// A call releases the scheduler, and goes on with this phase: the tasks that were woken in the meantime are Ready, and then
/// the ticks that came in the meantime are applied.
#[inline(always)]
pub(crate) fn end_hold(machine: &mut Machine, task: TaskId, next: Phase)
    requires can { CanLeave machine.old task }
    requires off { next ≢ phase.Place }
    ensures does { Moves machine.old machine.new (waiting.end_hold task next) }
    ensures depth { machine.new.sched.depth ≡ 0 }
    ensures runs { Runs machine.old task → Runs machine.new task }
{
    machine.sched.unhold();
    machine.set_wait(task, next, false);
    release(machine);
}
