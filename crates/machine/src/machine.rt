//! The kernel's state, and the parts that each step is made of.
ghost use Rattle.std.specs.Prelude.{◌≡◌, ◌<◌, ◌+◌, ◌++◌, ◌∷◌, [], Some, drop, length};
ghost use Rattle.model.specs.State.{no_call, printed};
ghost use Rattle.model.specs.Switching.{write};
ghost use Rattle.model.specs.Suspension.{phase_resumed, resumed};
ghost use Rattle.machine.specs.Loops.{after_turn, next_turn};
ghost use Rattle.machine.specs.StandsFor.{AreBlankFrom, Does, DoesAny, progress_in, with_progress};

use crate::log::Log;
use crate::notifications::Notifications;
use crate::progress::Progress;
use crate::sources::Sources;
use crate::variables::Variables;
use clock::Clock;
use groups::Groups;
use model::{CallProgress, Condition, End, Event, Loop, Phase, TaskId, WaitList, What};
use objects::Objects;
use sched::Sched;

/// The state of a kernel between two steps: FreeRTOS's scheduler and its tick, over tasks that follow scripts (profile).
#[derive(Drop)]
pub struct Machine {
    pub progress: [Progress; 32],
    pub sched: Sched,
    pub clock: Clock,
    pub objects: Objects,
    pub groups: Groups,
    pub notifications: Notifications,
    pub variables: Variables,
    pub sources: Sources,
    /// How many critical sections are open. Each of them holds the scheduler once.
    pub sections: u32,
    /// The list in which a wait at an object has begun, if its task isn't placed there yet. Otherwise it is
    /// `NO_WAIT_LIST`, and nothing rests on it.
    pub wait_list: WaitList,
    /// The index of the base interrupt that is taken for the next. It is a guess, which is tested before it is used.
    pub next_interrupt: u32,
    pub steps: u32,
    pub stopped: Option<End>,
}

/// The phase in which a resumed task's call goes on: one that was to decide tries again.
fn phase_resumed(phase: Phase) -> Phase
    ensures { result ≡ phase_resumed phase }
{
    match phase {
        Phase::Decide => Phase::Try,
        phase => phase,
    }
}

impl Machine {
    /// A copy. It takes no memory.
    pub fn copy(&self) -> Self
        ensures { result ≡ self.now }
    {
        Machine {
            progress: self.progress,
            sched: self.sched.copy(),
            clock: self.clock.copy(),
            objects: self.objects.copy(),
            groups: self.groups.copy(),
            notifications: self.notifications.copy(),
            variables: self.variables.copy(),
            sources: self.sources.copy(),
            sections: self.sections,
            wait_list: self.wait_list,
            next_interrupt: self.next_interrupt,
            steps: self.steps,
            stopped: self.stopped,
        }
    }

    /// Becomes a copy of the other, in place, if no task after so many has done anything, in either. It takes no memory.
    pub fn set_from_first(&mut self, other: &Self, tasks: usize)
        ensures { AreBlankFrom tasks self.old.progress → AreBlankFrom tasks other.now.progress → self.new ≡ other.now }
    {
        let tasks = tasks.min(32);
        self.progress[..tasks].copy_from_slice(&other.progress[..tasks]);
        self.set_parts_from(other);
    }

    /// Becomes a copy of the other, and keeps its own progress of the tasks.
    #[inline(always)]
    fn set_parts_from(&mut self, other: &Self)
        ensures { self.new ≡ record other.now { progress = self.old.progress } }
    {
        self.sched.set_from(&other.sched);
        self.clock.set_from(&other.clock);
        self.objects.set_from(&other.objects);
        self.groups.set_from(&other.groups);
        self.notifications.set_from(&other.notifications);
        self.variables.set_from(&other.variables);
        self.sources.set_from(&other.sources);
        self.sections = other.sections;
        self.wait_list = other.wait_list;
        self.next_interrupt = other.next_interrupt;
        self.steps = other.steps;
        self.stopped = other.stopped;
    }

    /// A task's place in its script.
    pub fn progress(&self, task: TaskId) -> &Progress
        ensures { result.now ≡ progress_in self.now.progress task }
    {
        &self.progress[task.number as usize]
    }

    /// Reports an event.
    pub fn write<L: Log>(&self, log: &mut L, what: What)
        requires { 0 < (L.logged log.old).room }
        ensures does { Does 1 self.now (L.logged log.old) self.now (L.logged log.new) (write what) }
        ensures any { DoesAny 1 self.now (L.logged log.old) self.now (L.logged log.new) (write what) }
        // which one it is, for callers that report one event or none
        ensures event { (L.logged log.new).told ≡ (L.logged log.old).told
            ++ record { step = self.now.steps; tick = printed self.now.clock.now; what = what } ∷ [] }
    {
        log.push(Event {
            step: self.steps,
            tick: self.clock.tick(),
            what,
        });
    }

    /// Places a task at this op, with nothing of it used up.
    pub(crate) fn set_op_index(&mut self, task: TaskId, op_index: u16)
        ensures { self.new ≡ with_progress task
            (record (progress_in self.old.progress task) { op_index = op_index; used = 0; call = no_call }) self.old }
    {
        let progress = &mut self.progress[task.number as usize];
        progress.op_index = op_index;
        progress.used = 0;
        progress.call = CallProgress::default();
    }

    /// A task's call goes on with this phase.
    pub fn set_phase(&mut self, task: TaskId, phase: Phase)
        ensures { let p = progress_in self.old.progress task in
            self.new ≡ with_progress task (record p { call = record p.call { phase = phase } }) self.old }
    {
        let progress = &mut self.progress[task.number as usize];
        progress.call.phase = phase;
    }

    /// A task's call goes on with this phase, and has begun to wait, or hasn't.
    pub fn set_wait(&mut self, task: TaskId, phase: Phase, waits: bool)
        ensures { let p = progress_in self.old.progress task in
            self.new ≡ with_progress task (record p { call = record p.call { phase = phase; waits = waits } }) self.old }
    {
        let progress = &mut self.progress[task.number as usize];
        progress.call.phase = phase;
        progress.call.waits = waits;
    }

    /// A task's call waits until this time at the latest, in ticks without bound, or forever.
    pub(crate) fn set_call_deadline(&mut self, task: TaskId, deadline: Option<u64>)
        ensures { let p = progress_in self.old.progress task in
            self.new ≡ with_progress task (record p { call = record p.call { deadline = deadline } }) self.old }
    {
        let progress = &mut self.progress[task.number as usize];
        progress.call.deadline = deadline;
    }

    /// These bits are kept as the answer of a task's call.
    pub fn keep_answer(&mut self, task: TaskId, bits: u32)
        ensures { let p = progress_in self.old.progress task in
            self.new ≡ with_progress task (record p { call = record p.call { kept = Some bits } }) self.old }
    {
        let progress = &mut self.progress[task.number as usize];
        progress.call.kept = Some(bits);
    }

    /// A task's call waits for such bits.
    pub fn want(&mut self, task: TaskId, condition: Condition)
        ensures { let p = progress_in self.old.progress task in
            self.new ≡ with_progress task (record p { call = record p.call { wants = Some condition } }) self.old }
    {
        let progress = &mut self.progress[task.number as usize];
        progress.call.wants = Some(condition);
    }

    /// Whether the wait that a task begins has inherited.
    pub fn set_inherited(&mut self, task: TaskId, inherited: bool)
        ensures { let p = progress_in self.old.progress task in
            self.new ≡ with_progress task (record p { call = record p.call { inherited = inherited } }) self.old }
    {
        let progress = &mut self.progress[task.number as usize];
        progress.call.inherited = inherited;
    }

    /// So much is used up of a task's `work`.
    pub fn set_used(&mut self, task: TaskId, used: u32)
        ensures { self.new ≡ with_progress task (record (progress_in self.old.progress task) { used = used }) self.old }
    {
        let progress = &mut self.progress[task.number as usize];
        progress.used = used;
    }

    /// A task's last answer is this.
    pub(crate) fn set_answer(&mut self, task: TaskId, answer: Option<u32>)
        ensures { self.new ≡ with_progress task (record (progress_in self.old.progress task) { answer = answer }) self.old }
    {
        let progress = &mut self.progress[task.number as usize];
        progress.answer = answer;
    }

    /// A task's `delay_until` counts from this time on.
    pub fn set_previous_wake(&mut self, task: TaskId, time: u64)
        ensures { self.new ≡ with_progress task
            (record (progress_in self.old.progress task) { previous_wake = time }) self.old }
    {
        let progress = &mut self.progress[task.number as usize];
        progress.previous_wake = time;
    }

    /// A task notes this time.
    pub fn set_stamp(&mut self, task: TaskId, time: u64)
        ensures { self.new ≡ with_progress task
            (record (progress_in self.old.progress task) { stamp = time }) self.old }
    {
        let progress = &mut self.progress[task.number as usize];
        progress.stamp = time;
    }

    /// A task is resumed at this time: it counts from then at the latest, and a call that was to decide tries again.
    pub fn set_resumed(&mut self, task: TaskId, now: u64)
        ensures { self.new ≡ with_progress task (resumed now (progress_in self.old.progress task)) self.old }
    {
        let progress = &mut self.progress[task.number as usize];
        progress.previous_wake = progress.previous_wake.min(now);
        progress.call.phase = phase_resumed(progress.call.phase);
    }

    /// One more loop of a task is open, the innermost.
    pub fn push_loop(&mut self, task: TaskId, innermost: Loop)
        requires { length (progress_in self.old.progress task).loops < 4 }
        ensures { let p = progress_in self.old.progress task in
            self.new ≡ with_progress task (record p { loops = innermost ∷ p.loops }) self.old }
    {
        let progress = &mut self.progress[task.number as usize];
        progress.loops.open(innermost);
    }

    /// A task's innermost loop ends a turn. Returns the op at which the next turn begins, or `None` if there is none.
    // A quarter of all steps end a turn, and a call would cost a tenth of one.
    #[inline(always)]
    pub fn end_turn(&mut self, task: TaskId) -> Option<u16>
        ensures loops { let p = progress_in self.old.progress task in
            self.new ≡ with_progress task (record p { loops = after_turn p.loops }) self.old }
        ensures next { result ≡ next_turn (progress_in self.old.progress task).loops }
    {
        let progress = &mut self.progress[task.number as usize];
        progress.loops.end_turn()
    }

    /// A task leaves its innermost loop, if one is open.
    pub fn leave_loop(&mut self, task: TaskId)
        ensures { let p = progress_in self.old.progress task in
            self.new ≡ with_progress task (record p { loops = drop 1 p.loops }) self.old }
    {
        let progress = &mut self.progress[task.number as usize];
        progress.loops.leave();
    }
}
