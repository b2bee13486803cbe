//! The kernel at reset.
ghost use Rattle.std.specs.Prelude.{◌≡◌, ◌<◌, ◌≤◌, ℕ, List, length, map, false, slice_index_or};
ghost use Rattle.std.specs.List.{AllByRecursion};
ghost use Rattle.model.specs.declared.plan.Injection.{Injection};
ghost use Rattle.model.specs.Application.{Limits};
ghost use Rattle.model.specs.State.{State, no_task, no_progress, status_at, for_each};
ghost use Rattle.model.specs.Switching.{make_ready};
ghost use Rattle.model.specs.Suspension.{can_resume};
ghost use Rattle.model.specs.Step.{reset, nobody_ready, task_at_reset, with_ops};
ghost use Rattle.model.specs.Scripts.{IsDefinition};
ghost use Rattle.sched.specs.Schedule.{priority_in};
ghost use Rattle.sched.specs.StandsFor.{StandsFor as ScheduleStandsFor};
ghost use Rattle.machine.specs.StandsFor.{StandsFor, progress_in};
ghost use Rattle.machine.specs.Can.{IsUnderWay};
ghost use Rattle.machine.specs.Boot.{priorities_in, HasNoneFrom};

use crate::machine::Machine;
use crate::notifications::Notifications;
use crate::progress::Progress;
use crate::sources::Sources;
use crate::variables::Variables;
use clock::Clock;
use groups::Groups;
use model::{App, ObjectId, TaskDefinition, TaskId, WaitList};
use objects::Objects;
use sched::Sched;

/// What is kept if no task must be put into a waiting list: the same for all kernels, so that they can be compared.
pub const NO_WAIT_LIST: WaitList = WaitList::ToReceive(ObjectId { number: 0 });

/// The progress if there are no tasks.
pub(crate) fn without_tasks() -> [Progress; 32]
    ensures progress { (task : ℕ) → progress_in result task ≡ no_progress }
    ensures full { length result ≡ 32 }
{
    [Progress::new(0); 32]
}

/// The progress of the tasks at this time of reset.
fn progress_of(tasks: &[TaskDefinition], start: u32) -> [Progress; 32]
    requires { length tasks.now ≤ 32 }
    ensures progress { (task : ℕ) → progress_in result task
        ≡ (slice_index_or (map (task_at_reset start) tasks.now) task no_task).progress }
    ensures full { length result ≡ 32 }
{
    let mut progress = without_tasks();
    for (index, _task) in tasks.iter().enumerate() {
        progress[index] = Progress::new(start as u64);
    }
    progress
}

/// The priorities of the tasks, and 0 in the places after them.
fn priorities_of(tasks: &[TaskDefinition]) -> [u8; 32]
    requires few { length tasks.now ≤ 32 }
    requires formed { AllByRecursion IsDefinition tasks.now }
    ensures priorities { (task : ℕ) → priority_in result task
        ≡ priority_in (priorities_in tasks.now) task }
    ensures known { AllByRecursion (λ priority. priority < 32) result }
{
    let mut priorities = [0; 32];
    for (index, task) in tasks.iter().enumerate() {
        priorities[index] = task.priority();
    }
    priorities
}

/// Each task that has an op is made Ready, in the order of the file.
fn make_ready_at_reset(sched: &mut Sched, tasks: &[TaskDefinition])
    requires few { length tasks.now ≤ 32 }
    requires calm { sched.old.depth ≡ 0 }
    requires none { HasNoneFrom 0 sched.old }
    ensures { (s : State) → ScheduleStandsFor sched.old s → length s.tasks ≡ length tasks.now
        → ((task : ℕ) → can_resume (status_at s task) ≡ false)
        → ScheduleStandsFor sched.new (for_each make_ready (with_ops 0 tasks.now) s) }
{
    for (index, task) in tasks.iter().enumerate() {
        if !task.ops().is_empty() {
            let number = index as u8;
            sched.make_ready(TaskId { number });
        }
    }
}

impl Machine {
    /// The kernel at reset: the tasks are Ready in the order of the file, and the choice runs (profile: FreeRTOS runs the
    /// task of highest priority that was created last). A task with an empty script is Ended.
    pub fn boot(app: &App) -> Self
        ensures stands { StandsFor result (reset app.now) }
        ensures steps { result.steps ≡ 0 }
        // Its run is under way, whatever handlers are to come, and whatever limits it has.
        ensures way { (plan : List Injection) (limits : Limits) → IsUnderWay app.now plan limits result }
    {
        app.well_formed();
        let mut kernel = Machine::nobody_ready(app);
        make_ready_at_reset(&mut kernel.sched, app.tasks());
        kernel.sched.choose();
        kernel
    }

    /// The kernel before any task has been Ready.
    // A call, whose stack is free again when the kernel is there.
    #[inline(never)]
    fn nobody_ready(app: &App) -> Self
        ensures stands { StandsFor result (nobody_ready app.now) }
        ensures calm { result.sched.depth ≡ 0 }
        ensures none { HasNoneFrom 0 result.sched }
    {
        app.well_formed();
        Machine {
            progress: progress_of(app.tasks(), app.start()),
            sched: Sched::new(priorities_of(app.tasks())),
            clock: Clock::new(app.start()),
            objects: Objects::new(app.objects()),
            groups: Groups::new(),
            notifications: Notifications::new(),
            variables: Variables::new(app.variables()),
            sources: Sources::new(app.handlers()),
            sections: 0,
            wait_list: NO_WAIT_LIST,
            next_interrupt: 0,
            steps: 0,
            stopped: None,
        }
    }
}
