//! Mutexes, and the priorities that their holders inherit (profile).
ghost use Rattle.std.specs.Prelude.{◌≡◌, ◌<◌, ◌≤◌, List, Some, None, length};
ghost use Rattle.model.specs.declared.event.Event.{Event};
ghost use Rattle.model.specs.declared.op.Op.TheVariants as op;
ghost use Rattle.model.specs.State.{State};
ghost use Rattle.model.specs.declared.call.WaitList.TheVariants.{ToReceive};
ghost use Rattle.model.specs.Mutexes as definitions;
ghost use Rattle.model.specs.Ops.{answer};
ghost use Rattle.model.specs.Switching.{preempt};
ghost use Rattle.model.specs.Waiting.{wake_best};
ghost use Rattle.model.specs.Step.{act_unless, misuse};
ghost use Rattle.machine.specs.StandsFor.{At, Does, Moves, StandsFor};
ghost use Rattle.machine.specs.Can.{Agrees, Runs};
ghost use Rattle.ops.specs.Can.{Can, CanDecide, Reranks};

use crate::queues::wake_best;
use machine::{Log, Machine};
use model::{App, Misuse, ObjectId, TaskId, WaitList};
use objects::NotHolder;

/// A task has this priority, of 0 to 31, from now on; if that is a change it moves after its new equals, if it is Ready.
fn set_priority(machine: &mut Machine, task: TaskId, priority: u8)
    requires priority { priority < 32 }
    requires depth { machine.old.sched.depth ≡ 0 }
    ensures does { (log : List Event) (s : State) → At machine.old log s → task < length s.tasks
        → At machine.new log (definitions.set_priority task priority s) }
    ensures reranks { Reranks machine.old machine.new }
    ensures suspensions { machine.new.sched.suspensions ≡ machine.old.sched.suspensions }
{
    machine.sched.set_priority(task, priority);
}

/// The holder of a mutex takes this priority, of 0 to 31, if its own is lower.
fn raise(machine: &mut Machine, holder: TaskId, priority: u8)
    requires priority { priority < 32 }
    requires depth { machine.old.sched.depth ≡ 0 }
    ensures does { (log : List Event) (s : State) → At machine.old log s → holder < length s.tasks
        → At machine.new log (definitions.raise holder priority s) }
    ensures reranks { Reranks machine.old machine.new }
    ensures suspensions { machine.new.sched.suspensions ≡ machine.old.sched.suspensions }
{
    if machine.sched.priority(holder) < priority {
        set_priority(machine, holder, priority);
    }
}

/// Whether a wait of a task for what this one holds inherits: it is another, of lower base priority.
fn inherits(machine: &Machine, task: TaskId, holder: TaskId) -> bool
    ensures { (s : State) → StandsFor machine.now s → result ≡ definitions.inherits task holder s }
{
    holder != task && machine.sched.base_priority(holder) < machine.sched.priority(task)
}

/// A task will wait for what this one holds, and lends it its priority.
// Few waits get here.
#[inline(never)]
fn inherit_from(machine: &mut Machine, task: TaskId, holder: TaskId)
    requires { CanDecide machine.old task }
    ensures does { (log : List Event) (s : State) → At machine.old log s → holder < length s.tasks
        → At machine.new log (definitions.inherit_from task holder s) }
    ensures reranks { Reranks machine.old machine.new }
    ensures suspensions { machine.new.sched.suspensions ≡ machine.old.sched.suspensions }
{
    let inherited = inherits(machine, task, holder);
    machine.set_inherited(task, inherited);
    let priority = machine.sched.priority(task);
    raise(machine, holder, priority);
}

/// A task will wait for an object, whose holder, if it has one, inherits from it.
// Usually no task holds it, and a call would cost more than this test.
#[inline(always)]
pub(crate) fn inherit(machine: &mut Machine, task: TaskId, object: ObjectId)
    requires { CanDecide machine.old task }
    ensures does { Moves machine.old machine.new (definitions.inherit task object) }
    ensures can { CanDecide machine.new task }
    ensures reranks { Reranks machine.old machine.new }
    ensures suspensions { machine.new.sched.suspensions ≡ machine.old.sched.suspensions }
{
    if let Some(holder) = machine.objects.holder(object) {
        inherit_from(machine, task, holder);
    }
}

/// The holder of this mutex alone has its base priority again, or the best waiter's if that is greater.
fn fall_back(machine: &mut Machine, object: ObjectId, holder: TaskId)
    requires depth { machine.old.sched.depth ≡ 0 }
    requires free { machine.old.objects.lock ≡ None }
    ensures does { (log : List Event) (s : State) → At machine.old log s → holder < length s.tasks
        → At machine.new log (definitions.fall_back object holder s) }
    ensures reranks { Reranks machine.old machine.new }
{
    if machine.objects.mutexes_held(holder) == 1 {
        let best = machine.objects.best_priority(WaitList::ToReceive(object));
        let base = machine.sched.base_priority(holder);
        set_priority(machine, holder, base.max(best));
    }
}

/// A task's call fails: if its last wait has inherited, the present holder of the mutex falls back.
#[cold]
pub(crate) fn after_timeout(machine: &mut Machine, task: TaskId, object: ObjectId)
    requires depth { machine.old.sched.depth ≡ 0 }
    requires free { machine.old.objects.lock ≡ None }
    ensures does { Moves machine.old machine.new (definitions.after_timeout task object) }
    ensures reranks { Reranks machine.old machine.new }
{
    if !machine.progress(task).call.inherited {
        return;
    }
    if let Some(holder) = machine.objects.holder(object) {
        fall_back(machine, object, holder);
    }
}

/// A task that holds no mutex any more has its base priority again.
fn disinherit(machine: &mut Machine, task: TaskId)
    requires { machine.old.sched.depth ≡ 0 }
    ensures does { (log : List Event) (s : State) → At machine.old log s → task < length s.tasks
        → At machine.new log (definitions.disinherit task s) }
    ensures reranks { Reranks machine.old machine.new }
{
    if machine.objects.mutexes_held(task) == 0 {
        let priority = machine.sched.base_priority(task);
        set_priority(machine, task, priority);
    }
}

/// `unlock`: the task, which is the holder of the mutex, gives it back, and one task that waits for it is
/// woken.
pub fn give_mutex<L: Log>(
    machine: &mut Machine,
    app: &App,
    task: TaskId,
    object: ObjectId,
    log: &mut L,
)
    requires room { 2 ≤ (L.logged log.old).room }
    requires can { Can app.now machine.old task (op.GiveMutex object) }
    ensures { Does 2 machine.old (L.logged log.old) machine.new (L.logged log.new)
        (λ s. act_unless app.now task (misuse s task (op.GiveMutex object)) (op.GiveMutex object) s) }
{
    match machine.objects.give_mutex(task, object) {
        Ok(()) => let_go(machine, app, task, object, log),
        Err(NotHolder) => machine.misuse(task, Misuse::NotHolder),
    }
}

/// A task that has given this mutex back has its base priority again, if it holds no other; then one task that waits
/// for the mutex is woken, and the call is complete.
fn let_go<L: Log>(machine: &mut Machine, app: &App, task: TaskId, object: ObjectId, log: &mut L)
    requires room { 2 ≤ (L.logged log.old).room }
    requires runs { Runs machine.old task }
    requires agrees { Agrees machine.old }
    requires depth { machine.old.sched.depth ≡ 0 }
    ensures { Does 2 machine.old (L.logged log.old) machine.new (L.logged log.new)
        (λ s. preempt (answer app.now task (Some 1)
        (wake_best (ToReceive object) (definitions.disinherit task s)))) }
{
    disinherit(machine, task);
    wake_best(machine, WaitList::ToReceive(object));
    machine.answer(app, task, 1, log);
    machine.preempt(log);
}
