//! The kernel against a snapshot of it.
ghost use Rattle.std.specs.Prelude.{◌≡◌, ℕ, []};
ghost use Rattle.machine.specs.StandsFor.{progress_in};

use kernel::Kernel;
use machine::Machine;
use model::{App, Loop, TaskId, Value, ValueOp, VariableId};
use random_apps::Dice;
use std::process::Abort;

/// The kernel at reset, with no open loop of a task.
fn at_reset(app: &App) -> Machine
    ensures { (task : ℕ) → (progress_in result.progress task).loops ≡ [] }
{
    Machine::boot(app)
}

#[test]
fn a_loop_that_is_closed_makes_no_difference(rt: HostRuntime) {
    let app = Dice::new(1).app(rt.alloc()).expect(&rt, "an application");
    let mut machine = at_reset(&app);
    let snapshot = machine.snapshot(rt.alloc(), 32).ok().expect(&rt, "memory");
    let hint = machine.hint(32);
    assert!(rt; machine.is_at(&snapshot, 32));
    let task = TaskId { number: 0 };
    machine.push_loop(
        task,
        Loop {
            start: 0,
            left: Some(1),
        },
    );
    assert!(rt; !machine.is_at(&snapshot, 32));
    assert!(rt; machine.end_turn(task).is_none());
    assert!(rt; machine.is_at(&snapshot, 32));
    assert!(rt; machine.hint(32) == hint);
    machine.set_used(task, 1);
    assert!(rt; !machine.is_at(&snapshot, 32));
    assert!(rt; machine.hint(32) != hint);
}

#[test]
fn a_variable_makes_a_difference(rt: HostRuntime) {
    let app = Dice::new(1).app(rt.alloc()).expect(&rt, "an application");
    let mut machine = at_reset(&app);
    let snapshot = machine.snapshot(rt.alloc(), 32).ok().expect(&rt, "memory");
    let hint = machine.hint(32);
    let op = ValueOp::Store(VariableId { number: 3 }, Value::Answer);
    machine.store(op, Some(4_294_967_295));
    assert!(rt; machine.variables.values() == [0, 0, 0, 4_294_967_295].as_slice());
    assert!(rt; !machine.is_at(&snapshot, 32));
    assert!(rt; machine.hint(32) != hint);
    machine.store(op, None);
    assert!(rt; !machine.is_at(&snapshot, 32));
    machine.store(op, Some(0));
    assert!(rt; machine.is_at(&snapshot, 32));
    assert!(rt; machine.hint(32) == hint);
}

#[test]
fn a_kernel_is_saved_into_a_snapshot_of_another_time(rt: HostRuntime) {
    let app = Dice::new(1).app(rt.alloc()).expect(&rt, "an application");
    let mut machine = at_reset(&app);
    let kernel = Kernel::boot(&app);
    machine.set_used(TaskId { number: 0 }, 1);
    let mut snapshot = machine.snapshot(rt.alloc(), 32).ok().expect(&rt, "memory");
    assert!(rt; !kernel.is_at(&snapshot));
    assert!(rt; kernel.save(&mut snapshot));
    assert!(rt; kernel.is_at(&snapshot));
    assert!(rt; machine.save(&mut snapshot, 32));
    assert!(rt; machine.is_at(&snapshot, 32));
    assert!(rt; !kernel.is_at(&snapshot));
}
