//! Ops that load a variable, store one, or calculate; and the values of other ops.
ghost use Rattle.std.specs.Prelude.{◌≡◌, ◌<◌, ◌≤◌, ◌&&◌, true, Some};
ghost use Rattle.model.specs.declared.op.Op.TheVariants as op;
ghost use Rattle.model.specs.declared.event.End.TheVariants.{Check};
ghost use Rattle.model.specs.Ops.{fail};
ghost use Rattle.model.specs.State.{State, call_at, progress_at};
ghost use Rattle.model.specs.Step.{act_by_value, call_with_number, is_start};
ghost use Rattle.model.specs.Values.{answer_of, is_missing, lacks_item, number_of, with_number};
ghost use Rattle.machine.specs.StandsFor.{Does, IsPlaced, Moves, MovesAny, Stands, progress_in};
ghost use Rattle.machine.specs.Can.{Runs};
ghost use Rattle.ops.specs.InCall.{without_item};

use machine::{Log, Machine};
use model::{Access, App, End, Phase, TaskId, Value, ValueOp};

/// Whether a value is the task's last answer, and that is `none`.
#[inline(always)]
pub fn is_missing(machine: &Machine, task: TaskId, value: Value) -> bool
    ensures { (s : State) → Stands machine.now s → result ≡ is_missing (progress_at s task).answer value }
{
    value.is_missing(machine.progress(task).answer)
}

/// The number that a value is for a task.
#[inline(always)]
pub fn number_of(machine: &Machine, task: TaskId, value: Value) -> u32
    ensures { (s : State) → Stands machine.now s → result ≡ number_of s.variables (progress_at s task).answer value }
{
    value.number(machine.variables.values(), machine.progress(task).answer)
}

/// Whether the item of a call is the task's last answer, and that is `none`.
// Calls are lent, so that of a call no more is read than is needed.
#[inline(always)]
pub fn lacks_item(machine: &Machine, task: TaskId, access: &Access<Value>) -> bool
    ensures { (s : State) → Stands machine.now s → result ≡ lacks_item (progress_at s task).answer access.now }
{
    access.lacks_item(machine.progress(task).answer)
}

/// Whether a call of the task that waits begins now, and its item is missing.
#[inline(always)]
pub fn begins_without_item(machine: &Machine, task: TaskId, access: &Access<Value>) -> bool
    ensures { (s : State) → Stands machine.now s
        → result ≡ is_start (call_at s task).phase && lacks_item (progress_at s task).answer access.now }
{
    let progress = machine.progress(task);
    matches!(progress.call.phase, Phase::Start) && access.lacks_item(progress.answer)
}

// The number that a value is for a task, if it isn't just a number.
#[cold]
#[inline(never)]
fn looked_up(machine: &Machine, task: TaskId, value: &Value) -> u32
    ensures { result ≡ number_of machine.now.variables (progress_in machine.now.progress task).answer value.now }
{
    value.number(machine.variables.values(), machine.progress(task).answer)
}

// The number that the item of a call is. Most items are numbers: then nothing else is read.
#[inline(always)]
fn item_of(machine: &Machine, task: TaskId, item: &Value) -> u32
    ensures { result ≡ number_of machine.now.variables (progress_in machine.now.progress task).answer item.now }
{
    match *item {
        Value::Number(number) => number,
        _ => looked_up(machine, task, item),
    }
}

/// A call of the task with a number for its value.
#[inline(always)]
pub fn call_with_number(machine: &Machine, task: TaskId, access: &Access<Value>) -> Access<u32>
    ensures kernel { result ≡ with_number machine.now.variables (progress_in machine.now.progress task).answer access.now }
    ensures state { (s : State) → Stands machine.now s → result ≡ call_with_number s task access.now }
{
    match *access {
        Access::Send(ref item) => Access::Send(item_of(machine, task, item)),
        Access::SendFront(ref item) => Access::SendFront(item_of(machine, task, item)),
        Access::Overwrite(ref item) => Access::Overwrite(item_of(machine, task, item)),
        Access::Receive => Access::Receive,
        Access::Peek => Access::Peek,
        Access::Take => Access::Take,
        Access::Give => Access::Give,
        Access::Lock => Access::Lock,
    }
}

/// The call with 0 for its item. It is possible if the call is.
#[inline(always)]
pub fn without_item(access: &Access<Value>) -> Access<u32>
    ensures { result ≡ without_item access.now }
{
    match *access {
        Access::Send(_) => Access::Send(0),
        Access::SendFront(_) => Access::SendFront(0),
        Access::Overwrite(_) => Access::Overwrite(0),
        Access::Receive => Access::Receive,
        Access::Peek => Access::Peek,
        Access::Take => Access::Take,
        Access::Give => Access::Give,
        Access::Lock => Access::Lock,
    }
}

/// The task's op is a check that fails, which ends the run.
pub fn fail_check(machine: &mut Machine, task: TaskId)
    ensures does { Moves machine.old machine.new (λ s. fail (Check task (progress_at s task).op_index) s) }
    ensures any { MovesAny machine.old machine.new (λ s. fail (Check task (progress_at s task).op_index) s) }
{
    let failed = End::Check(task, machine.progress(task).op_index);
    machine.fail(failed);
}

// The result of an op on values for a task; `None` if it has no value to work with.
#[inline(always)]
fn answer_of(machine: &Machine, task: TaskId, op: ValueOp) -> Option<u32>
    ensures { (s : State) → Stands machine.now s → result ≡ answer_of s.variables (progress_at s task).answer op }
{
    op.answer(machine.variables.values(), machine.progress(task).answer)
}

/// An op that loads a variable, stores one, or calculates: it is complete, or the check fails if it has no value to work with. Returns
/// whether the task's script goes on and no variable changed.
#[inline(never)]
pub fn calculate<L: Log>(
    machine: &mut Machine,
    app: &App,
    task: TaskId,
    values: &ValueOp,
    log: &mut L,
) -> bool
    requires room { 1 ≤ (L.logged log.old).room }
    requires runs { Runs machine.old task }
    ensures does { Does 1 machine.old (L.logged log.old) machine.new (L.logged log.new)
        (act_by_value app.now task (op.Value values.now)) }
    ensures amid { result ≡ true → IsPlaced machine.old machine.new task }
{
    let Some(number) = answer_of(machine, task, *values) else {
        fail_check(machine, task);
        return false;
    };
    if let ValueOp::Store(_, _) = *values {
        machine.store(*values, Some(number));
        machine.answer(app, task, number, log);
        false
    } else {
        machine.answer(app, task, number, log)
    }
}
