//! Calls on objects that may wait, phase by phase.
ghost use Rattle.std.specs.Prelude.{◌≡◌, ◌≢◌, ◌<◌, ◌≤◌, ◌||◌, ℕ, false, List, Option, Some, None};
ghost use Rattle.model.specs.declared.event.Event.{Event};
ghost use Rattle.model.specs.declared.op.Op.TheVariants as op;
ghost use Rattle.model.specs.State.{State, call_at, go_on};
ghost use Rattle.model.specs.Waiting as waiting;
ghost use Rattle.model.specs.Waiting.{set_deadline, unlock, wait_in};
ghost use Rattle.model.specs.Objects as definitions;
ghost use Rattle.model.specs.declared.call.Phase.TheVariants as phase;
ghost use Rattle.model.specs.Application.{Application};
ghost use Rattle.model.specs.Calls.{try, lock, decide, leave_call, await};
ghost use Rattle.model.specs.Step.{act_by_value, call_with_number};
ghost use Rattle.model.specs.Values.{with_number};
ghost use Rattle.machine.specs.StandsFor.{StandsFor, At, AtAny, Does, DoesAny, Moves, progress_in};
ghost use Rattle.ops.specs.InCall.{IsSilent, Remains};
ghost use Rattle.machine.specs.Can.{Agrees, IsInCall};
ghost use Rattle.ops.specs.Can.{CanTry, CanDecide, CanPlace, CanLeave, CanGoOn};

use crate::holds::end_hold;
use crate::mutexes::{after_timeout, inherit};
use crate::queues::{fulfil, refusal};
use crate::values::{begins_without_item, call_with_number, fail_check, without_item};
use machine::{Log, Machine, NO_WAIT_LIST, place_sleeper, wake_all};
use model::{Access, App, ObjectId, Phase, TaskId, Value, WaitList};

/// The list in which a call waits.
fn list_for(object: ObjectId, access: Access<u32>) -> WaitList
    ensures { result ≡ definitions.list_for object access }
{
    match access {
        Access::Send(_) | Access::SendFront(_) => WaitList::ToSend(object),
        _ => WaitList::ToReceive(object),
    }
}

/// Whether the deadline of a task's call has come.
fn is_expired(machine: &Machine, task: TaskId) -> bool
    ensures { (s : State) → StandsFor machine.now s → result ≡ waiting.is_expired s task }
{
    match machine.progress(task).call.deadline {
        None => false,
        Some(deadline) => deadline <= machine.clock.now(),
    }
}

/// A call whose item is a value, which isn't missing, is done if it is possible; it fails if its deadline has come; otherwise it
/// decides next.
// Whether it is possible is asked first, so that the compiler goes from what the call asks to what it does at once.
#[inline(always)]
fn try_call<L: Log>(
    machine: &mut Machine,
    app: &App,
    task: TaskId,
    object: ObjectId,
    access: &Access<Value>,
    log: &mut L,
)
    requires room { 2 ≤ (L.logged log.old).room }
    requires can { (variables : List ℕ) (answer : Option ℕ)
        → CanTry machine.old task object (with_number variables answer access.now) }
    ensures { Does 2 machine.old (L.logged log.old) machine.new (L.logged log.new)
        (λ s. try app.now task object (call_with_number s task access.now) s) }
{
    let any_item = without_item(access);
    if machine.objects.possible(object, any_item) {
        let access = call_with_number(machine, task, access);
        let answer = fulfil(machine, Some(task), object, access);
        machine.answer_given(app, task, answer, log);
        machine.preempt(log);
    } else if is_expired(machine, task) {
        after_timeout(machine, task, object);
        machine.answer_given(app, task, refusal(any_item), log);
    } else {
        machine.set_phase(task, Phase::Decide);
    }
}

/// Whether a call is possible by now, or its deadline has come.
#[inline(always)]
fn need_not_wait(machine: &Machine, task: TaskId, object: ObjectId, access: Access<u32>) -> bool
    ensures { (s : State) → StandsFor machine.now s
        → result ≡ definitions.possible s object access || waiting.is_expired s task }
{
    machine.objects.possible(object, access) || is_expired(machine, task)
}

/// The scheduler is held and the object locked. The task begins to wait if its call still isn't possible and its
/// deadline hasn't come. Before that the holder of a mutex inherits from it.
#[inline(always)]
fn decide(machine: &mut Machine, task: TaskId, object: ObjectId, access: Access<u32>)
    requires { CanDecide machine.old task }
    ensures does { (log : List Event) (s : State) → At machine.old log s
        → AtAny machine.new log (decide task object access s) }
    ensures remains { Remains machine.old machine.new task }
    ensures held { machine.new.sched.depth ≡ 1 }
{
    if need_not_wait(machine, task, object, access) {
        pass_on(machine, task, object);
    } else {
        inherit(machine, task, object);
        begin_wait(machine, task, object, access);
    }
}

/// The scheduler is held and the object locked, and the call goes on without a wait.
fn pass_on(machine: &mut Machine, task: TaskId, object: ObjectId)
    requires { CanDecide machine.old task }
    ensures does { Moves machine.old machine.new (lock task object phase.Unlock) }
    ensures remains { Remains machine.old machine.new task }
    ensures held { machine.new.sched.depth ≡ 1 }
{
    machine.sched.hold();
    machine.objects.lock(object);
    machine.set_phase(task, Phase::Unlock);
}

/// The scheduler is held and the object locked, and the task begins to wait.
fn begin_wait(machine: &mut Machine, task: TaskId, object: ObjectId, access: Access<u32>)
    requires { CanDecide machine.old task }
    ensures does { (log : List Event) (s : State) → At machine.old log s → AtAny machine.new log
        (lock task object phase.Place (wait_in task (definitions.list_for object access) s)) }
    ensures remains { Remains machine.old machine.new task }
    ensures held { machine.new.sched.depth ≡ 1 }
{
    machine.sched.hold();
    machine.objects.lock(object);
    machine.wait_list = list_for(object, access);
    machine.set_wait(task, Phase::Place, true);
}

/// The task is put into its waiting list and, if it waits until a deadline, among the tasks that wake by
/// themselves.
#[inline(always)]
fn place(machine: &mut Machine, task: TaskId)
    requires { CanPlace machine.old task }
    ensures does { (log : List Event) (s : State) → AtAny machine.old log s
        → At machine.new log (go_on task phase.Unlock s) }
    ensures remains { Remains machine.old machine.new task }
    ensures depth { machine.new.sched.depth ≡ machine.old.sched.depth }
{
    let deadline = machine.progress(task).call.deadline;
    machine.sched.block(task);
    let priority = machine.sched.priority(task);
    machine.objects.place(machine.wait_list, task, priority);
    machine.wait_list = NO_WAIT_LIST;
    place_sleeper(&mut machine.clock, deadline, task);
    machine.set_phase(task, Phase::Unlock);
}

/// The tasks that were woken while the queue was locked become Ready, and the queue is unlocked.
// Inlined, the lists of the woken tasks would be zeroed at every unlock.
#[inline(never)]
fn unlock_and_wake(machine: &mut Machine)
    requires { Agrees machine.old }
    ensures does { Moves machine.old machine.new unlock }
    ensures depth { machine.new.sched.depth ≡ machine.old.sched.depth }
    ensures current { machine.new.sched.current ≡ machine.old.sched.current }
    ensures progress { machine.new.progress ≡ machine.old.progress }
    ensures suspensions { machine.new.sched.suspensions ≡ machine.old.sched.suspensions }
{
    if let Some(unlocked) = machine.objects.unlock() {
        wake_all(
            &mut machine.sched,
            &mut machine.clock,
            unlocked.to_receive.as_slice(),
        );
        wake_all(
            &mut machine.sched,
            &mut machine.clock,
            unlocked.to_send.as_slice(),
        );
    }
}

/// The queue is unlocked, and the tasks that were woken in the meantime, if any, become Ready.
#[inline(always)]
fn unlock(machine: &mut Machine, task: TaskId)
    requires { IsInCall machine.old task }
    ensures does { Moves machine.old machine.new (λ s. go_on task phase.Leave (unlock s)) }
    ensures remains { Remains machine.old machine.new task }
    ensures depth { machine.new.sched.depth ≡ machine.old.sched.depth }
{
    if !machine.objects.unlock_if_none_woken() {
        unlock_and_wake(machine);
    }
    machine.set_phase(task, Phase::Leave);
}

/// The hold ends, and the call will try again: after a wait has begun the choice runs, otherwise a higher task may run.
#[inline(always)]
pub fn leave_call<L: Log>(machine: &mut Machine, task: TaskId, log: &mut L)
    requires room { 1 ≤ (L.logged log.old).room }
    requires can { CanLeave machine.old task }
    ensures { Does 1 machine.old (L.logged log.old) machine.new (L.logged log.new) (leave_call task) }
{
    let waits = machine.progress(task).call.waits;
    end_hold(machine, task, Phase::Try);
    if waits {
        machine.choose(log);
    } else {
        machine.preempt(log);
    }
}

/// The next phase of a call, of those in which it reports nothing, and holds the scheduler after it.
#[inline(always)]
pub fn go_on_silently(
    machine: &mut Machine,
    task: TaskId,
    object: ObjectId,
    access: Access<u32>,
    next: Phase,
)
    requires silent { IsSilent next }
    requires can { (ticks : Option ℕ) × CanGoOn machine.old task object access ticks next }
    requires held { next ≢ phase.Decide → machine.old.sched.depth ≡ 1 }
    ensures does { (app : Application) (ticks : Option ℕ) (log : List Event) (s : State)
        → AtAny machine.old log s → AtAny machine.new log (await app task object access ticks next s) }
    ensures remains { Remains machine.old machine.new task }
    ensures held { machine.new.sched.depth ≡ 1 }
{
    match next {
        Phase::Decide => decide(machine, task, object, access),
        Phase::Place => place(machine, task),
        Phase::Unlock => unlock(machine, task),
        _ => {}
    }
}

/// The next phase of a call that may wait for this many ticks, or forever, and whose item is a value, which isn't missing if the call
/// begins.
#[inline(always)]
pub fn go_on_waiting<L: Log>(
    machine: &mut Machine,
    app: &App,
    task: TaskId,
    object: ObjectId,
    access: &Access<Value>,
    ticks: Option<u32>,
    log: &mut L,
)
    requires room { 2 ≤ (L.logged log.old).room }
    requires can { (variables : List ℕ) (answer : Option ℕ)
        → CanGoOn machine.old task object (with_number variables answer access.now) ticks
        (progress_in machine.old.progress task).call.phase }
    ensures { DoesAny 2 machine.old (L.logged log.old) machine.new (L.logged log.new)
        (λ s. await app.now task object (call_with_number s task access.now) ticks (call_at s task).phase s) }
{
    match machine.progress(task).call.phase {
        Phase::Start => {
            machine.set_deadline(task, ticks);
            try_call(machine, app, task, object, access, log);
        }
        Phase::Try => try_call(machine, app, task, object, access, log),
        Phase::Decide => decide(machine, task, object, without_item(access)),
        Phase::Place => place(machine, task),
        Phase::Unlock => unlock(machine, task),
        Phase::Leave => leave_call(machine, task, log),
    }
}

/// The same. If the item is missing as the call begins, the check fails.
#[inline(always)]
pub fn go_on_by_value<L: Log>(
    machine: &mut Machine,
    app: &App,
    task: TaskId,
    object: ObjectId,
    access: &Access<Value>,
    ticks: Option<u32>,
    log: &mut L,
)
    requires room { 2 ≤ (L.logged log.old).room }
    requires can { (variables : List ℕ) (answer : Option ℕ)
        → CanGoOn machine.old task object (with_number variables answer access.now) ticks
        (progress_in machine.old.progress task).call.phase }
    ensures { DoesAny 2 machine.old (L.logged log.old) machine.new (L.logged log.new)
        (act_by_value app.now task (op.Await object access.now ticks)) }
{
    if begins_without_item(machine, task, access) {
        fail_check(machine, task);
        return;
    }
    go_on_waiting(machine, app, task, object, access, ticks, log);
}
