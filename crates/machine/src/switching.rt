//! Who runs: each way in which the processor changes.
ghost use Rattle.std.specs.Prelude.{◌≡◌, ℕ, ◌<◌, ◌≤◌, ◌+◌, ◌^◌, ◌++◌, [], List, None, nat_lt};
ghost use Rattle.model.specs.State.{State, for_each};
ghost use Rattle.model.specs.Switching.{choose, is_held, is_ready, preempt, slice, settle, unless_held, yield_now, make_ready};
ghost use Rattle.model.specs.Time.{increment_tick, jump};
ghost use Rattle.sched.specs.StandsFor.{StandsFor as ScheduleStandsFor};
ghost use Rattle.sched.specs.Schedule as schedule;
ghost use Rattle.clock.specs.StandsFor.{StandsFor as ClockStandsFor};
ghost use Rattle.objects.specs.Objects.{StandsFor as ObjectsStandFor};
ghost use Rattle.groups.specs.StandsFor.{StandsFor as GroupsStandFor};
ghost use Rattle.machine.specs.StandsFor.{StandsFor, Stands, Does, DoesAny, Moves, change};
ghost use Rattle.machine.specs.Can.{CanAdvance, CanJump, AreThere, AreToWake, Leaves};

use crate::log::Log;
use crate::machine::Machine;
use clock::Clock;
use groups::Groups;
use model::{TaskId, What};
use objects::Objects;
use sched::Sched;

/// Each of these tasks wakes at its time: it becomes Ready, one after the other, and no longer waits, if it did.
fn make_all_ready(sched: &mut Sched, objects: &mut Objects, groups: &mut Groups, tasks: &[TaskId])
    requires free { AreToWake sched.old tasks.now }
    requires unlocked { objects.old.lock ≡ None }
    ensures ready { (s : State) → ScheduleStandsFor sched.old s
        → AreThere s tasks.now
        → ScheduleStandsFor sched.new (for_each make_ready tasks.now s) }
    ensures left { (s : State) → ObjectsStandFor objects.old None s
        → AreThere s tasks.now
        → ObjectsStandFor objects.new None (for_each make_ready tasks.now s) }
    ensures gone { (s : State) → GroupsStandFor groups.old s → AreThere s tasks.now
        → GroupsStandFor groups.new (for_each make_ready tasks.now s) }
    ensures depth { sched.new.depth ≡ sched.old.depth }
    ensures number { objects.new.number ≡ objects.old.number }
    ensures objects { objects.new.objects ≡ objects.old.objects }
{
    for task in tasks {
        objects.drop_waiter(*task);
        groups.drop_waiter(*task);
        sched.wake(*task);
    }
}

/// These tasks, which are in no waiting list any more, are woken before their time. One after the other they become
/// Ready, and those that have a deadline no longer sleep.
pub fn wake_all(sched: &mut Sched, clock: &mut Clock, tasks: &[TaskId])
    requires { AreToWake sched.old tasks.now }
    ensures ready { (s : State) → ScheduleStandsFor sched.old s
        → AreThere s tasks.now
        → ScheduleStandsFor sched.new (for_each make_ready tasks.now s) }
    ensures woken { (s : State) → ClockStandsFor clock.old s
        → AreThere s tasks.now
        → ClockStandsFor clock.new (for_each make_ready tasks.now s) }
    ensures rest { (more : List ℕ) → AreToWake sched.old (tasks.now ++ more) → AreToWake sched.new more }
    ensures depth { sched.new.depth ≡ sched.old.depth }
    ensures suspensions { sched.new.suspensions ≡ sched.old.suspensions }
    ensures current { sched.new.current ≡ sched.old.current }
{
    for task in tasks {
        clock.wake(*task);
        sched.wake(*task);
    }
}

impl Machine {
    /// Reports the task that runs now, if that is a change.
    // This, the slice and the end of a step come in most steps, and are at several places of the program, so the compiler doesn't inline
    // them by itself.
    #[inline(always)]
    fn write_change<L: Log>(&self, before: Option<TaskId>, log: &mut L)
        requires { 0 < (L.logged log.old).room }
        ensures event { (L.logged log.new).told ≡ (L.logged log.old).told
            ++ change self.now.steps self.now.clock.now before self.now.sched.current }
        ensures few { (L.logged log.old).room ≤ (L.logged log.new).room + 1 }
        ensures before { (L.logged log.new).before ≡ (L.logged log.old).before }
    {
        let now = self.sched.current();
        if now != before {
            self.write(log, What::Run(now));
        }
    }

    /// Whether a task is Ready.
    pub fn is_ready(&self, task: TaskId) -> bool
        ensures ready { (s : State) → StandsFor self.now s → result ≡ is_ready s task }
        ensures scheduled { result ≡ schedule.is_ready self.now.sched task }
    {
        self.sched.is_ready(task)
    }

    /// Whether the scheduler is held.
    pub fn is_held(&self) -> bool
        ensures held { (s : State) → Stands self.now s → result ≡ is_held s }
        ensures depth { result ≡ nat_lt 0 self.now.sched.depth }
    {
        self.sched.depth() > 0
    }

    /// The choice runs.
    // Inlined, it would take more from the rest of the step, in registers, than a call costs.
    #[inline(never)]
    pub fn choose<L: Log>(&mut self, log: &mut L)
        requires room { 0 < (L.logged log.old).room }
        requires free { self.old.sched.depth ≡ 0 }
        ensures { Does 1 self.old (L.logged log.old) self.new (L.logged log.new) choose }
    {
        let before = self.sched.current();
        self.sched.choose();
        self.write_change(before, log);
    }

    /// The running task moves after its equals, and the choice runs.
    pub fn yield_now<L: Log>(&mut self, log: &mut L)
        requires room { 0 < (L.logged log.old).room }
        requires free { self.old.sched.depth ≡ 0 }
        ensures { Does 1 self.old (L.logged log.old) self.new (L.logged log.new) yield_now }
    {
        let before = self.sched.current();
        self.sched.yield_now();
        self.write_change(before, log);
    }

    /// The end of a tick: a task above the running one runs, otherwise the next of equal priority.
    // Usually nothing switches, and the tick that asks has at hand what shows it.
    #[inline(always)]
    pub fn slice<L: Log>(&mut self, log: &mut L)
        requires room { 0 < (L.logged log.old).room }
        requires free { self.old.sched.depth ≡ 0 }
        ensures { Does 1 self.old (L.logged log.old) self.new (L.logged log.new) slice }
    {
        let before = self.sched.current();
        if self.sched.slice() {
            self.write_change(before, log);
        }
    }

    /// A task above the running one runs, if there is one.
    // Usually there is none, and nothing must be reported.
    #[inline(always)]
    pub fn preempt<L: Log>(&mut self, log: &mut L)
        requires room { 0 < (L.logged log.old).room }
        requires free { self.old.sched.depth ≡ 0 }
        ensures does { Does 1 self.old (L.logged log.old) self.new (L.logged log.new) preempt }
        ensures objects { self.new.objects ≡ self.old.objects }
    {
        let before = self.sched.current();
        if self.sched.preempt() {
            self.write_change(before, log);
        }
    }

    /// The end of a step: if the running task isn't Ready any more, the choice runs, unless the scheduler is held.
    #[inline(always)]
    pub fn settle<L: Log>(&mut self, log: &mut L)
        requires { 0 < (L.logged log.old).room }
        ensures { DoesAny 1 self.old (L.logged log.old) self.new (L.logged log.new)
            (unless_held settle) }
    {
        let Some(task) = self.sched.current() else {
            return;
        };
        if self.is_ready(task) {
            return;
        }
        if !self.is_held() {
            self.choose(log);
        }
    }

    /// A tick of the clock, if nothing holds the scheduler: the tasks that are due become Ready, in the order in which they began
    /// to sleep.
    // The step is twice in the program, so the compiler doesn't inline this by itself.
    #[inline(always)]
    pub fn advance(&mut self)
        requires { CanAdvance self.old }
        ensures does { Moves self.old self.new increment_tick }
        ensures leaves { Leaves self.old self.new }
    {
        if !self.clock.advance_if_none_due() {
            self.wake_due();
        }
    }

    /// The same, by way of a list of the tasks that are due. Inlined, that list would be zeroed at every
    /// tick.
    #[inline(never)]
    fn wake_due(&mut self)
        requires { CanAdvance self.old }
        ensures does { Moves self.old self.new increment_tick }
        ensures leaves { Leaves self.old self.new }
    {
        let mut due = clock::Due::new();
        self.clock.advance_into(&mut due);
        make_all_ready(
            &mut self.sched,
            &mut self.objects,
            &mut self.groups,
            due.as_slice(),
        );
    }

    /// This many ticks of the clock at once, 0 to 4294967295; no wake time comes before the last of them. The tasks that are due then
    /// become Ready, in the order in which they began to sleep.
    #[inline(never)]
    pub fn jump(&mut self, ticks: u32)
        requires { CanJump ticks self.old }
        ensures does { Moves self.old self.new (jump ticks) }
        ensures leaves { Leaves self.old self.new }
    {
        let mut due = clock::Due::new();
        self.clock.jump_into(ticks, &mut due);
        make_all_ready(
            &mut self.sched,
            &mut self.objects,
            &mut self.groups,
            due.as_slice(),
        );
    }

    /// The same while nobody sleeps, however many they are. After the call the clock's age is 2^62 ticks at most.
    // Only a tick that is injected into a step can leave nothing to wait for but the limit.
    #[cold]
    #[inline(never)]
    pub fn jump_unslept(&mut self, ticks: u64)
        requires quiet { self.old.clock.delayed_list ≡ [] }
        requires age { self.old.clock.age + ticks ≤ 2 ^ 62 }
        ensures does { Moves self.old self.new (jump ticks) }
        ensures leaves { Leaves self.old self.new }
    {
        self.clock.jump_unslept(ticks);
    }
}
