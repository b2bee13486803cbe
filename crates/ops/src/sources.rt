//! Interrupt sources: arming, disarming, raising and cancelling a handler.
ghost use Rattle.model.specs.Ops as definitions;
ghost use Rattle.machine.specs.StandsFor.{Moves};
ghost use Rattle.machine.specs.Can.{Runs};

use machine::Machine;
use model::{App, HandlerId, SourceOp, TaskId};

/// `arm`, `disarm`, `raise` and `cancel`: what the op does to this handler's interrupt (profile).
pub fn control(machine: &mut Machine, app: &App, task: TaskId, handler: HandlerId, op: SourceOp)
    requires { Runs machine.old task }
    ensures { Moves machine.old machine.new (definitions.control app.now task handler op) }
{
    machine.do_to_source(handler, op);
    machine.complete(app, task);
}
