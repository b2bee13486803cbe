//! The kernel, as an application runs on it: its state, its steps, and its ends.
ghost use Rattle.std.specs.Prelude.{◌≡◌, true, ℕ, ◌<◌, ◌+◌, Some, None, length, ◌≤◌, List, IfOk, ◌^◌};
ghost use Rattle.model.specs.declared.call.WaitList as definitions;
ghost use Rattle.model.specs.State.{State, call_at};
ghost use Rattle.sched.specs.StandsFor.{StandsFor as ScheduleStandsFor, StandsBefore as ScheduleStandsBefore};
ghost use Rattle.clock.specs.StandsFor.{StandsFor as ClockStandsFor, StandsBefore as ClockStandsBefore};
ghost use Rattle.objects.specs.Objects.{StandsFor as ObjectsStandFor};
ghost use Rattle.groups.specs.StandsFor.{StandsFor as GroupsStandFor};
ghost use Rattle.machine.specs.StandsFor.{Stands, StandsFor, StandsBefore, decider};
ghost use Rattle.model.specs.declared.plan.Injection.{Injection};
ghost use Rattle.model.specs.Application.{Limits};
ghost use Rattle.model.specs.Handlers.{can_come};
ghost use Rattle.model.specs.Step.{reset, step};
ghost use Rattle.machine.specs.Can.{IsUnderWay};
ghost use Rattle.model.specs.Placements.{can_all_come};
ghost use Rattle.model.specs.Run.{end_of};
ghost use Rattle.kernel.specs.Can.{CanStep};

use crate::over::ended;
use crate::steps::step;
use clock::Clock;
use groups::Groups;
use machine::{Machine, Snapshot, StepLog};
use model::{App, End, HandlerId, Limits, Memory, Meter};
use objects::Objects;
use sched::Sched;
use std::alloc::Global;
use std::marker::Model;

/// So many tasks a kernel has room for.
const MOST_TASKS: usize = 32;

/// A kernel between two steps: FreeRTOS's scheduler and its tick, over tasks that follow scripts (profile).
#[derive(Drop)]
pub struct Kernel {
    pub(crate) machine: Machine,
    /// No task after so many has done anything.
    pub(crate) tasks: usize,
}

// Clauses see its state.
impl Model for Kernel {
    ghost use Rattle.machine.specs.declared.machine.Machine as declared;
    ghost use Rattle.machine.specs.StandsFor.{AreBlankFrom};

    ghost Value = { declared.Machine };

    ghost view = { λ k. k.machine };

    ghost invariant = { λ k. AreBlankFrom k.tasks k.machine.progress };
}

impl Kernel {
    /// The kernel at reset: the tasks are Ready in the order of the file, and the choice runs (profile: FreeRTOS runs the
    /// task of highest priority that was created last). A task with an empty script is Ended.
    pub fn boot(app: &App) -> Self
        ensures stands { StandsFor result (reset app.now) }
        ensures steps { result.steps ≡ 0 }
        // Its run is under way, whatever handlers are to come, and whatever limits it has.
        ensures way { (plan : List Injection) (limits : Limits) → IsUnderWay app.now plan limits result }
    {
        Kernel {
            machine: Machine::boot(app),
            tasks: MOST_TASKS,
        }
    }

    /// A copy. It takes no memory.
    pub fn copy(&self) -> Self
        ensures { result ≡ self.now }
    {
        Kernel {
            machine: self.machine.copy(),
            tasks: self.tasks,
        }
    }

    /// Becomes a copy of the other, in place. It takes no memory.
    // Inlined into a long function it looks up the place of each part on the stack.
    #[inline(never)]
    pub fn set_from(&mut self, other: &Self)
        ensures { self.new ≡ other.now }
    {
        let tasks = self.tasks.max(other.tasks);
        self.machine.set_from_first(&other.machine, tasks);
        self.tasks = other.tasks;
    }

    /// The kernel as it is now. It takes some 3 kB, and memory of 112 bytes for each task and of four for each item that the queues
    /// can hold.
    ///
    /// `Memory` is returned only if a growth was refused.
    pub fn snapshot(&self, alloc: Global) -> Result<Snapshot, Memory>
        ensures { IfOk result (λ snapshot. snapshot ≡ self.now) }
    {
        self.machine.snapshot(alloc, self.tasks)
    }

    /// As `snapshot`, in a box.
    pub fn boxed_snapshot(&self, alloc: Global) -> Result<Box<Snapshot>, Memory>
        ensures { IfOk result (λ snapshot. snapshot.value ≡ self.now) }
    {
        self.machine.boxed_snapshot(alloc, self.tasks)
    }

    /// Makes a snapshot that of the kernel as it is now, in the memory that it has, and more only if more tasks have done
    /// something. Returns `false` if that is refused, or if the snapshot is of another application; then it is of no more use.
    pub fn save(&self, snapshot: &mut Snapshot) -> bool
        ensures { result ≡ true → snapshot.new ≡ self.now }
    {
        self.machine.save(snapshot, self.tasks)
    }

    /// Becomes the kernel of a snapshot, in place. It takes no memory.
    pub fn restore(&mut self, snapshot: &Snapshot)
        ensures { self.new ≡ snapshot.now }
    {
        self.machine.restore(snapshot, self.tasks);
        self.tasks = snapshot.tasks();
    }

    /// Whether it is as it was in this snapshot: before the same step, and then the snapshot represents each state that it represents. How
    /// many places its lists and items have gone round doesn't count, nor does what a task waited for last.
    pub fn is_at(&self, snapshot: &Snapshot) -> bool
        ensures steps { result ≡ true → self.now.steps ≡ snapshot.now.steps }
        ensures stands { result ≡ true → (s : State) → Stands self.now s → Stands snapshot.now s }
    {
        self.machine.is_at(snapshot, self.tasks)
    }

    /// A number that kernels of an application have in common which are the same (`is_at`), and most others don't. It is a hint, on
    /// which nothing rests.
    pub fn hint(&self, app: &App) -> u64 {
        self.machine.hint(app.tasks().len())
    }

    /// How many steps are done, at most 1,000,000 in a run.
    pub fn steps(&self) -> u32
        ensures { result ≡ self.now.steps }
    {
        self.machine.steps
    }

    /// The ticks since reset, at most 2^48 in a run that is under way.
    pub fn ticks(&self) -> u64
        ensures { (s : State) → Stands self.now s → result ≡ s.elapsed }
    {
        self.machine.clock.elapsed()
    }

    /// Whether this interrupt comes if it is injected before the next step: its handler is armed, and far enough from its last coming
    /// (profile). The tick always can.
    pub fn can_come(&self, source: HandlerId) -> bool
        ensures { (s : State) → Stands self.now s → result ≡ can_come s source }
    {
        self.machine.can_come(source)
    }

    /// The scheduler, which represents each state that the kernel represents. A task that is still to be placed is among
    /// its Ready tasks.
    pub fn sched(&self) -> &Sched
        ensures stands { (s : State) → StandsFor self.now s → ScheduleStandsFor result.now s }
        ensures before { (task : ℕ) (list : definitions.WaitList) (s : State)
            → StandsBefore task list self.now s → ScheduleStandsBefore task result.now s }
    {
        &self.machine.sched
    }

    /// The clock, which represents each state that the kernel represents. A task that is still to be placed does not sleep.
    pub fn clock(&self) -> &Clock
        ensures stands { (s : State) → StandsFor self.now s → ClockStandsFor result.now s }
        ensures before { (task : ℕ) (list : definitions.WaitList) (s : State)
            → StandsBefore task list self.now s
            → ClockStandsBefore task (call_at s task).deadline result.now s }
    {
        &self.machine.clock
    }

    /// The objects, which represent each state that the kernel represents. A task that is still to be placed is in no
    /// waiting list.
    pub fn objects(&self) -> &Objects
        ensures stands { (s : State) → StandsFor self.now s → ObjectsStandFor result.now None s }
        ensures before { (task : ℕ) (list : definitions.WaitList) (s : State)
            → StandsBefore task list self.now s
            → ObjectsStandFor result.now (Some (decider task list s)) s }
    {
        &self.machine.objects
    }

    /// The event groups. They represent each state that the kernel represents, even if a task isn't placed in its waiting list yet.
    pub fn groups(&self) -> &Groups
        ensures stands { (s : State) → StandsFor self.now s → GroupsStandFor result.now s }
        ensures before { (task : ℕ) (list : definitions.WaitList) (s : State)
            → StandsBefore task list self.now s → GroupsStandFor result.now s }
    {
        &self.machine.groups
    }

    /// One step of the run: these handlers, three at most, and then the running task's op, or idle. Idle lets a tick pass; in an
    /// application that is tickless it lets all pass up to the next thing to happen, but none past the limit (profile). The events
    /// that it reports are then in the log, in order, and nothing else. It takes no memory.
    ///
    /// The kernel is of this application, and its run has not ended under these limits. The meter, which rises by 1, is
    /// below 2^63. Returns whether each of the handlers can come in its turn (profile); those that can't do nothing.
    pub fn step(
        &mut self,
        app: &App,
        handlers: &[HandlerId],
        limits: &Limits,
        meter: &mut Meter,
        log: &mut StepLog,
    ) -> bool
        requires few { length handlers.now ≤ 3 }
        requires going { CanStep app.now limits.now self.old }
        requires meter { meter.old < 2 ^ 63 }
        ensures stands { (s : State) → Stands self.old s → Stands self.new (step app.now limits.now handlers.now s) }
        ensures log { (s : State) → Stands self.old s
            → log.new.items ≡ (step app.now limits.now handlers.now s).log }
        ensures meter { meter.new ≡ meter.old + 1 }
        ensures came { (s : State) → Stands self.old s → result ≡ can_all_come app.now handlers.now s }
    {
        self.tasks = MOST_TASKS;
        step(&mut self.machine, app, handlers, limits, meter, log)
    }

    /// The end of the run before its next step, under these limits (profile). It is the first of these that holds: a failed
    /// `expect` or a misuse; every task but the endless ones is Ended; the ticks; the steps; stuck. `None` if the run goes on.
    #[inline(always)]
    pub fn ended(&self, app: &App, limits: &Limits) -> Option<End>
        ensures { (s : State) → Stands self.now s → result ≡ end_of app.now limits.now s }
    {
        ended(&self.machine, app, limits)
    }
}
