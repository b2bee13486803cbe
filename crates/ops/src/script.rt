//! Ops of the script alone: marks, expectations, loops, branches (profile). Each returns whether it only took the task to another
//! op of its script, whatever it reported.
ghost use Rattle.std.specs.Prelude.{◌≡◌, ◌<◌, ◌≤◌, ◌+◌, true, length};
ghost use Rattle.model.specs.declared.op.Op.TheVariants as op;
ghost use Rattle.model.specs.Ops.{expect, open_loop, close_turn, complete, branch, skip_branch, leave_loop};
ghost use Rattle.model.specs.State.{progress_at};
ghost use Rattle.model.specs.Application.{script_of};
ghost use Rattle.model.specs.Blocks.{jump_from};
ghost use Rattle.model.specs.declared.event.What.TheVariants as what;
ghost use Rattle.model.specs.Step.{act_by_value};
ghost use Rattle.model.specs.Switching.{write};
ghost use Rattle.machine.specs.StandsFor.{Does, IsPlaced, Moves, progress_in};
ghost use Rattle.machine.specs.Can.{Runs};

use crate::values::{fail_check, is_missing, number_of};
use machine::{Log, Machine};
use model::{AnswerCondition, App, End, Loop, TaskId, Value, What};

/// `mark`: a mark event is reported, with this number for its value. Returns whether the task's script goes
/// on.
#[inline(always)]
fn mark_number<L: Log>(
    machine: &mut Machine,
    app: &App,
    task: TaskId,
    number: u32,
    log: &mut L,
) -> bool
    requires room { 1 ≤ (L.logged log.old).room }
    requires runs { Runs machine.old task }
    ensures does { Does 1 machine.old (L.logged log.old) machine.new (L.logged log.new)
        (λ s. complete app.now task (progress_at s task) (write (what.Mark task number) s)) }
    ensures amid { result ≡ true → IsPlaced machine.old machine.new task }
{
    machine.write(log, What::Mark(task, number));
    machine.complete(app, task)
}

/// `mark`: a mark event is reported, or the check fails if its value is missing. Returns whether the task's script goes
/// on.
#[inline(always)]
pub fn mark<L: Log>(
    machine: &mut Machine,
    app: &App,
    task: TaskId,
    value: Value,
    log: &mut L,
) -> bool
    requires room { 1 ≤ (L.logged log.old).room }
    requires runs { Runs machine.old task }
    ensures does { Does 1 machine.old (L.logged log.old) machine.new (L.logged log.new)
        (act_by_value app.now task (op.Mark value)) }
    ensures amid { result ≡ true → IsPlaced machine.old machine.new task }
{
    if is_missing(machine, task, value) {
        fail_check(machine, task);
        return false;
    }
    let number = number_of(machine, task, value);
    mark_number(machine, app, task, number, log)
}

/// `expect`: the run ends if the condition doesn't hold of the last answer.
// The condition isn't copied, since most steps need no room for one.
pub fn expect(machine: &mut Machine, app: &App, task: TaskId, condition: &AnswerCondition) -> bool
    requires runs { Runs machine.old task }
    ensures does { Moves machine.old machine.new (expect app.now task condition.now) }
    ensures amid { result ≡ true → IsPlaced machine.old machine.new task }
{
    let progress = machine.progress(task);
    if condition.holds(machine.variables.values(), progress.answer) {
        machine.complete(app, task)
    } else {
        let failed = End::Check(task, progress.op_index);
        machine.fail(failed);
        false
    }
}

/// `repeat`: a loop of this many turns, or without end, begins at the next op.
pub fn open_loop(machine: &mut Machine, app: &App, task: TaskId, turns: Option<u16>) -> bool
    requires runs { Runs machine.old task }
    requires nesting { length (progress_in machine.old.progress task).loops < 4 }
    ensures does { Moves machine.old machine.new (open_loop app.now task turns) }
    ensures amid { result ≡ true → IsPlaced machine.old machine.new task }
{
    let start = machine.progress(task).op_index + 1;
    machine.push_loop(task, Loop { start, left: turns });
    machine.complete(app, task)
}

/// `end`: the next turn begins, or the loop is left.
#[inline(always)]
pub fn close_turn(machine: &mut Machine, app: &App, task: TaskId) -> bool
    requires runs { Runs machine.old task }
    ensures does { Moves machine.old machine.new (close_turn app.now task) }
    ensures amid { result ≡ true → IsPlaced machine.old machine.new task }
{
    match machine.end_turn(task) {
        Some(start) => machine.go_to(app, task, start),
        None => machine.complete(app, task),
    }
}

// The next op, if the task's op jumps.
#[inline(always)]
fn jump_from(machine: &Machine, app: &App, task: TaskId) -> u16
    requires { (progress_in machine.now.progress task).op_index < 256 }
    ensures { result ≡ jump_from (script_of app.now task) (progress_in machine.now.progress task).op_index }
{
    app.jump_from(task, machine.progress(task).op_index)
}

/// `if`: the first branch is next if the condition holds of the last answer, and otherwise what follows it.
#[inline(always)]
pub fn branch(machine: &mut Machine, app: &App, task: TaskId, condition: &AnswerCondition) -> bool
    requires runs { Runs machine.old task }
    ensures does { Moves machine.old machine.new (branch app.now task condition.now) }
    ensures amid { result ≡ true → IsPlaced machine.old machine.new task }
{
    let answer = machine.progress(task).answer;
    if condition.holds(machine.variables.values(), answer) {
        machine.complete(app, task)
    } else {
        let behind_branch = jump_from(machine, app, task);
        machine.go_to(app, task, behind_branch)
    }
}

/// `else`: what follows the `end` of its `if` is next.
#[inline(always)]
pub fn skip_branch(machine: &mut Machine, app: &App, task: TaskId) -> bool
    requires runs { Runs machine.old task }
    ensures does { Moves machine.old machine.new (skip_branch app.now task) }
    ensures amid { result ≡ true → IsPlaced machine.old machine.new task }
{
    let behind_if = jump_from(machine, app, task);
    machine.go_to(app, task, behind_if)
}

/// The `end` of an `if`: the next op is next.
#[inline(always)]
pub fn end_if(machine: &mut Machine, app: &App, task: TaskId) -> bool
    requires runs { Runs machine.old task }
    ensures does { Moves machine.old machine.new (λ s. complete app.now task (progress_at s task) s) }
    ensures amid { result ≡ true → IsPlaced machine.old machine.new task }
{
    machine.complete(app, task)
}

/// `break`: the innermost loop is left; what follows its `end` is next.
#[inline(always)]
pub fn leave_loop(machine: &mut Machine, app: &App, task: TaskId) -> bool
    requires runs { Runs machine.old task }
    ensures does { Moves machine.old machine.new (leave_loop app.now task) }
    ensures amid { result ≡ true → IsPlaced machine.old machine.new task }
{
    let behind_loop = jump_from(machine, app, task);
    machine.leave_loop(task);
    machine.go_to(app, task, behind_loop)
}
