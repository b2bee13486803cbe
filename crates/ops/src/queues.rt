//! Calls on queues and semaphores that don't wait, and the parts of those that do.
ghost use Rattle.std.specs.Prelude.{◌≡◌, ◌≤◌, ℕ, List, Option, Some, true, false};
ghost use Rattle.model.specs.declared.op.Op.TheVariants as op;
ghost use Rattle.model.specs.State.{State, Object};
ghost use Rattle.model.specs.Waiting.{wake_best};
ghost use Rattle.model.specs.Objects as definitions;
ghost use Rattle.model.specs.Objects.{allows, answer_to, attempt, fulfil, reply};
ghost use Rattle.model.specs.Step.{act, act_by_value, call_with_number};
ghost use Rattle.model.specs.Values.{with_number};
ghost use Rattle.objects.specs.Items.{object_in};
ghost use Rattle.machine.specs.StandsFor.{Stands, Does, IsPlaced, Moves, MovesAny};
ghost use Rattle.machine.specs.Can.{HasRoom, Leaves, Runs, StandsForSome};
ghost use Rattle.ops.specs.Can.{Can, IsCaller};

use crate::values::{call_with_number, fail_check, lacks_item, without_item};
use machine::{Log, Machine};
use model::{Access, App, ObjectId, TaskId, Value, WaitList};

/// The result of a call that isn't possible.
pub(crate) fn refusal(access: Access<u32>) -> Option<u32>
    ensures { (o : Object) → allows o access ≡ false → result ≡ reply o access }
{
    match access {
        Access::Receive | Access::Peek => None,
        _ => Some(0),
    }
}

/// The list whose best waiter a possible call wakes, if any: the peek of a handler, which is no task's call, wakes no task.
fn list_woken(caller: Option<TaskId>, object: ObjectId, access: Access<u32>) -> Option<WaitList>
    ensures { result ≡ definitions.list_woken caller object access }
{
    match access {
        Access::Send(_) | Access::SendFront(_) | Access::Overwrite(_) | Access::Give => {
            Some(WaitList::ToReceive(object))
        }
        Access::Receive => Some(WaitList::ToSend(object)),
        Access::Take | Access::Lock => None,
        Access::Peek => {
            caller?;
            Some(WaitList::ToReceive(object))
        }
    }
}

/// The best waiter of a list is woken, if anyone waits there.
#[inline(always)]
pub(crate) fn wake_best(machine: &mut Machine, list: WaitList)
    requires { StandsForSome machine.old }
    ensures does { Moves machine.old machine.new (wake_best list) }
    ensures any { MovesAny machine.old machine.new (wake_best list) }
    ensures leaves { Leaves machine.old machine.new }
    ensures runs { (task : ℕ) → Runs machine.old task → Runs machine.new task }
{
    if let Some(task) = machine.objects.wake_best(list) {
        machine.clock.wake(task);
        machine.sched.wake(task);
    }
}

/// A possible call is done, of the running task or (none) of a handler: the object changes, and one waiter is woken.
/// Returns the call's result.
// Inlined, it knows whose call it is.
#[inline(always)]
pub(crate) fn fulfil(
    machine: &mut Machine,
    caller: Option<TaskId>,
    object: ObjectId,
    access: Access<u32>,
) -> Option<u32>
    requires stands { StandsForSome machine.old }
    requires possible { allows (object_in machine.old.objects.objects object) access ≡ true }
    requires caller { IsCaller machine.old caller }
    requires room { HasRoom machine.old object access }
    ensures does { Moves machine.old machine.new (fulfil caller object access) }
    ensures any { MovesAny machine.old machine.new (fulfil caller object access) }
    ensures answer { (s : State) → Stands machine.old s → result ≡ answer_to s object access }
    ensures leaves { Leaves machine.old machine.new }
    ensures runs { (task : ℕ) → Runs machine.old task → Runs machine.new task }
{
    // Through a reference, since the borrow checker takes a value that is passed on twice for moved.
    let caller = &caller;
    let answer = machine.objects.carry_out(*caller, object, access);
    if let Some(list) = list_woken(*caller, object, access) {
        wake_best(machine, list);
    }
    answer
}

/// A call is done if it is possible. Returns the call's result.
pub fn attempt(
    machine: &mut Machine,
    caller: Option<TaskId>,
    object: ObjectId,
    access: Access<u32>,
) -> Option<u32>
    requires stands { StandsForSome machine.old }
    requires caller { IsCaller machine.old caller }
    requires room { HasRoom machine.old object access }
    ensures does { Moves machine.old machine.new (attempt caller object access) }
    ensures any { MovesAny machine.old machine.new (attempt caller object access) }
    ensures answer { (s : State) → Stands machine.old s → result ≡ answer_to s object access }
    ensures leaves { Leaves machine.old machine.new }
    ensures runs { (task : ℕ) → Runs machine.old task → Runs machine.new task }
{
    if machine.objects.possible(object, access) {
        fulfil(machine, caller, object, access)
    } else {
        refusal(access)
    }
}

/// A task's call whose item is a value, which isn't missing, is done if it is possible. Returns the call's result.
// Whether it is possible is asked first, so that the compiler goes from what the call asks to what it does at once.
#[inline(always)]
fn attempt_by_value(
    machine: &mut Machine,
    task: TaskId,
    object: ObjectId,
    access: &Access<Value>,
) -> Option<u32>
    requires stands { StandsForSome machine.old }
    requires caller { IsCaller machine.old (Some task) }
    requires room { (variables : List ℕ) (answer : Option ℕ)
        → HasRoom machine.old object (with_number variables answer access.now) }
    ensures does { Moves machine.old machine.new (λ s. attempt (Some task) object (call_with_number s task access.now) s) }
    ensures answer { (s : State) → Stands machine.old s → result ≡ answer_to s object (call_with_number s task access.now) }
    ensures leaves { Leaves machine.old machine.new }
    ensures runs { (task : ℕ) → Runs machine.old task → Runs machine.new task }
{
    let any_item = without_item(access);
    if machine.objects.possible(object, any_item) {
        let access = call_with_number(machine, task, access);
        fulfil(machine, Some(task), object, access)
    } else {
        refusal(any_item)
    }
}

/// `overwrite` and `give`: the call is done if it is possible, and is complete. The check fails if its item is missing.
// A call, since with its code the compiler would make one of each step.
#[inline(never)]
pub fn do_now<L: Log>(
    machine: &mut Machine,
    app: &App,
    task: TaskId,
    object: ObjectId,
    access: &Access<Value>,
    log: &mut L,
)
    requires room { 2 ≤ (L.logged log.old).room }
    requires can { Can app.now machine.old task (op.Do object access.now) }
    ensures { Does 2 machine.old (L.logged log.old) machine.new (L.logged log.new)
        (act_by_value app.now task (op.Do object access.now)) }
{
    if lacks_item(machine, task, access) {
        fail_check(machine, task);
        return;
    }
    let answer = attempt_by_value(machine, task, object, access);
    machine.answer_given(app, task, answer, log);
    machine.preempt(log);
}

/// `waiting`: the number of items in a queue is the result. Returns whether the task's script goes on.
pub fn messages_waiting<L: Log>(
    machine: &mut Machine,
    app: &App,
    task: TaskId,
    queue: ObjectId,
    log: &mut L,
) -> bool
    requires room { 1 ≤ (L.logged log.old).room }
    requires runs { Runs machine.old task }
    ensures does { Does 1 machine.old (L.logged log.old) machine.new (L.logged log.new)
        (act app.now task (op.MessagesWaiting queue)) }
    ensures amid { result ≡ true → IsPlaced machine.old machine.new task }
{
    let waiting = machine.objects.waiting(queue) as u32;
    machine.answer(app, task, waiting, log)
}

/// `spaces`: the number of items that a queue still has room for is the result. Returns whether the task's script
/// goes on.
pub fn spaces_available<L: Log>(
    machine: &mut Machine,
    app: &App,
    task: TaskId,
    queue: ObjectId,
    log: &mut L,
) -> bool
    requires room { 1 ≤ (L.logged log.old).room }
    requires runs { Runs machine.old task }
    ensures does { Does 1 machine.old (L.logged log.old) machine.new (L.logged log.new)
        (act app.now task (op.SpacesAvailable queue)) }
    ensures amid { result ≡ true → IsPlaced machine.old machine.new task }
{
    let spaces = machine.objects.spaces(queue) as u32;
    machine.answer(app, task, spaces, log)
}
