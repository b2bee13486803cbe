//! An op is complete, or is a misuse: the task goes on, and its call returns.
ghost use Rattle.std.specs.Prelude.{◌≡◌, ◌<◌, ◌≤◌, ◌+◌, true, Some, None};
ghost use Rattle.std.specs.Option.{option_or};
ghost use Rattle.model.specs.State.{progress_at};
ghost use Rattle.model.specs.Ops.{go_to, complete, called, answer, fail, one_if};
ghost use Rattle.model.specs.Daemon.{obeyed, received};
ghost use Rattle.model.specs.Step.{misuse, misused};
ghost use Rattle.machine.specs.StandsFor.{Does, IsPlaced, Moves, MovesAny};
ghost use Rattle.machine.specs.Can.{Runs};

use crate::log::Log;
use crate::machine::Machine;
use model::{App, End, Misuse, TaskId, What};

// What a complete call reports.
fn called(task: TaskId, op_index: u16, given: Option<u32>) -> What
    ensures { result ≡ called task op_index given }
{
    match given {
        Some(answer) => What::Call(task, op_index, answer),
        None => What::CallNone(task, op_index),
    }
}

/// The result of a call that did something, or did nothing.
pub fn one_if(did: bool) -> u32
    ensures { Some result ≡ one_if did }
{
    u32::from(did)
}

impl Machine {
    /// The running task goes on at this op; past its last one it is Ended. Returns whether the task's script goes on.
    // Most ops end so, and a call would cost a third of it.
    #[inline(always)]
    pub fn go_to(&mut self, app: &App, task: TaskId, op_index: u16) -> bool
        requires { Runs self.old task }
        ensures does { Moves self.old self.new
            (λ s. go_to app.now task op_index (progress_at s task) s) }
        ensures amid { result ≡ true → IsPlaced self.old self.new task }
        ensures depth { self.new.sched.depth ≡ self.old.sched.depth }
        ensures clock { self.new.clock ≡ self.old.clock }
        ensures objects { self.new.objects ≡ self.old.objects }
        ensures suspensions { self.new.sched.suspensions ≡ self.old.sched.suspensions }
    {
        self.set_op_index(task, op_index);
        if op_index as usize == app.op_count(task) {
            self.sched.block(task);
            return false;
        }
        true
    }

    /// The op that the running task is at is complete. Returns whether the task's script goes on.
    #[inline(always)]
    pub fn complete(&mut self, app: &App, task: TaskId) -> bool
        requires { Runs self.old task }
        ensures does { Moves self.old self.new
            (λ s. complete app.now task (progress_at s task) s) }
        ensures amid { result ≡ true → IsPlaced self.old self.new task }
        ensures depth { self.new.sched.depth ≡ self.old.sched.depth }
        ensures clock { self.new.clock ≡ self.old.clock }
        ensures objects { self.new.objects ≡ self.old.objects }
        ensures suspensions { self.new.sched.suspensions ≡ self.old.sched.suspensions }
    {
        let next = self.progress(task).op_index + 1;
        self.go_to(app, task, next)
    }

    /// A call of the running task is complete with this result, or with `none`. Returns whether the task's script goes on.
    // Apart from `answer`, since most calls return a number, and the step is faster if that is known.
    #[inline(always)]
    pub fn answer_given<L: Log>(
        &mut self,
        app: &App,
        task: TaskId,
        given: Option<u32>,
        log: &mut L,
    ) -> bool
        requires room { 1 ≤ (L.logged log.old).room }
        requires runs { Runs self.old task }
        ensures does { Does 1 self.old (L.logged log.old) self.new (L.logged log.new)
            (answer app.now task given) }
        ensures amid { result ≡ true → IsPlaced self.old self.new task }
        ensures depth { self.new.sched.depth ≡ self.old.sched.depth }
        ensures clock { self.new.clock ≡ self.old.clock }
        ensures objects { self.new.objects ≡ self.old.objects }
    {
        let op_index = self.progress(task).op_index;
        self.write(log, called(task, op_index, given));
        self.set_answer(task, given);
        self.complete(app, task)
    }

    /// A call of the running task is complete with this number as its result. Returns whether the task's script goes on.
    #[inline(always)]
    pub fn answer<L: Log>(&mut self, app: &App, task: TaskId, number: u32, log: &mut L) -> bool
        requires room { 1 ≤ (L.logged log.old).room }
        requires runs { Runs self.old task }
        ensures does { Does 1 self.old (L.logged log.old) self.new (L.logged log.new)
            (answer app.now task (Some number)) }
        ensures amid { result ≡ true → IsPlaced self.old self.new task }
        ensures depth { self.new.sched.depth ≡ self.old.sched.depth }
        ensures clock { self.new.clock ≡ self.old.clock }
        ensures objects { self.new.objects ≡ self.old.objects }
    {
        self.answer_given(app, task, Some(number), log)
    }

    /// The op of the running task is complete with this answer, and reports nothing.
    pub fn received(&mut self, app: &App, task: TaskId, given: Option<u32>)
        requires { Runs self.old task }
        ensures does { Moves self.old self.new (received app.now task given) }
        ensures depth { self.new.sched.depth ≡ self.old.sched.depth }
    {
        self.set_answer(task, given);
        self.complete(app, task);
    }

    /// The running task has done a command, with these bits as its answer, and goes on at its first op.
    pub fn obeyed<L: Log>(&mut self, app: &App, task: TaskId, clear: bool, bits: u32, log: &mut L)
        requires room { 1 ≤ (L.logged log.old).room }
        requires runs { Runs self.old task }
        ensures does { Does 1 self.old (L.logged log.old) self.new (L.logged log.new)
            (obeyed app.now task clear bits) }
        ensures depth { self.new.sched.depth ≡ self.old.sched.depth }
    {
        self.write(log, What::Obeyed(task, clear, bits));
        self.set_answer(task, Some(bits));
        self.go_to(app, task, 0);
    }

    /// The op of a task is a misuse, which ends the run.
    pub fn misuse(&mut self, task: TaskId, misuse: Misuse)
        ensures { Moves self.old self.new (λ s. misused task (progress_at s task).op_index misuse s) }
    {
        let op_index = self.progress(task).op_index;
        self.stopped = Some(End::Misuse(task, op_index, misuse));
    }

    /// A check fails, which ends the run after the step, unless one has failed in the step already.
    #[inline]
    pub fn fail(&mut self, check: End)
        ensures does { Moves self.old self.new (fail check) }
        ensures any { MovesAny self.old self.new (fail check) }
        ensures new { self.new ≡ record self.old { stopped = option_or self.old.stopped (Some check) } }
    {
        self.stopped = self.stopped.or(Some(check));
    }
}
