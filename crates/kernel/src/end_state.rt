//! The end state of a run.
ghost use Rattle.std.specs.Prelude.{◌≡◌, ◌≤◌, ◌<◌, ◌+◌, ◌^◌, ◌++◌, ◌||◌, [], Some, None, IfOk, is_some, length, option_map, if◌then◌else◌};
ghost use Rattle.std.specs.List.{cons_option};
ghost use Rattle.arrayvec.specs.ArrayVec.{array_vec_len};
ghost use Rattle.model.specs.declared.call.Phase.TheVariants.{Unlock};
ghost use Rattle.model.specs.State.{State, go_on, status_at};
ghost use Rattle.model.specs.Switching.{is_same};
ghost use Rattle.model.specs.Invariant.{IsState, wait_of};
ghost use Rattle.model.specs.Run.{IsRun, state_after};
ghost use Rattle.task_lists.specs.Tasks.{is_among};
ghost use Rattle.groups.specs.StandsFor.{StandsFor as GroupsStandFor, event_wait};
ghost use Rattle.objects.specs.Objects.{StandsFor as ObjectsStandFor};
ghost use Rattle.objects.specs.WaitersStand.{AtLocked};
ghost use Rattle.machine.specs.StandsFor.{Stands, StandsFor};
ghost use Rattle.ops.specs.Can.{CanPlace};
ghost use Rattle.kernel.specs.EndStates.{IsOpened, Settles, StandsOpened};
ghost use Rattle.model.specs.declared.end_state.Situation.TheVariants as situation;
ghost use Rattle.model.specs.EndStates.{end_state_of, held_by, held_from, situation_of, situations_of};

use crate::in_call::phase;
use crate::runs::finish;
use arrayvec::ArrayVec;
use machine::{Machine, StepLog, Trail, place_sleeper};
use model::{
    App, EndState, HeldMutex, Limits, Memory, Meter, ObjectId, Phase, Plan, Run, Situation, TaskId,
};
use objects::{Objects, Taken, Unlocked};
use std::alloc::Global;

/// The task, which has begun to wait, is put into its waiting list and, if it waits until a deadline, among those who wake by
/// themselves.
fn place(machine: &mut Machine, task: TaskId)
    requires { CanPlace machine.old task }
    ensures { (s : State) → Stands machine.old s → StandsFor machine.new (go_on task Unlock s) }
{
    let deadline = machine.progress(task).call.deadline;
    machine.sched.block(task);
    let priority = machine.sched.priority(task);
    machine.objects.place(machine.wait_list, task, priority);
    place_sleeper(&mut machine.clock, deadline, task);
    machine.set_phase(task, Phase::Unlock);
}

/// Puts the running task into its lists, if it has begun to wait and isn't there yet.
fn settle_lists(machine: &mut Machine, app: &App)
    requires { (s : State) × IsState app.now s × Stands machine.old s }
    ensures { (s : State) → IsState app.now s → Stands machine.old s → Settles app.now machine.new s }
{
    let Some(task) = machine.sched.current() else {
        return;
    };
    if phase(machine, task) == Phase::Place {
        place(machine, task);
    }
}

fn nobody() -> Unlocked
    ensures { (result.to_receive.items ≡ []) × (result.to_send.items ≡ []) }
{
    Unlocked {
        to_receive: Taken::new(),
        to_send: Taken::new(),
    }
}

/// Takes the Awake tasks out of the waiting lists, and returns them.
fn take_awake(objects: &mut Objects) -> Unlocked
    ensures { (s : State) → ObjectsStandFor objects.old None s → AtLocked None s → IsOpened objects.new result s }
{
    match objects.unlock() {
        Some(awake) => awake,
        None => nobody(),
    }
}

fn has(tasks: &[TaskId], task: TaskId) -> bool
    ensures { result ≡ is_among task tasks.now }
{
    tasks.iter().any(|other| other.number == task.number)
}

/// Whether a task was Awake.
fn was_awake(awake: &Unlocked, task: TaskId) -> bool
    ensures { result ≡ is_among task (awake.now.to_receive.items ++ awake.now.to_send.items) }
{
    has(awake.to_receive.as_slice(), task) || has(awake.to_send.as_slice(), task)
}

/// Whether a task is the running one.
fn is_running(machine: &Machine, task: TaskId) -> bool
    ensures { result ≡ is_same machine.now.sched.current (Some task) }
{
    match machine.sched.current() {
        None => false,
        Some(running) => running.number == task.number,
    }
}

/// What a Ready task is doing.
fn ready_situation(op_index: u16, is_running: bool) -> Situation
    ensures { result ≡ if is_running then situation.Runs op_index else situation.Ready op_index }
{
    if is_running {
        Situation::Runs { op_index }
    } else {
        Situation::Ready { op_index }
    }
}

/// Whether a task is in a waiting list, or waits for bits.
fn is_waiting(machine: &Machine, task: TaskId) -> bool
    ensures { (opened s : State) → ObjectsStandFor machine.now.objects None opened → GroupsStandFor machine.now.groups s
        → result ≡ is_some (wait_of (status_at opened task)) || is_some (event_wait (status_at s task)) }
{
    machine.objects.is_waiting(task) || machine.groups.is_waiting(task)
}

/// What a task is doing; these were Awake.
fn situation(machine: &Machine, awake: &Unlocked, task: TaskId) -> Situation
    ensures { (s : State) → StandsOpened machine.now awake.now s → result ≡ situation_of s task }
{
    let op_index = machine.progress(task).op_index;
    if machine.sched.is_suspended(task) {
        return Situation::Suspended { op_index };
    }
    if machine.sched.is_ready(task) {
        return ready_situation(op_index, is_running(machine, task));
    }
    if was_awake(awake, task) {
        return Situation::Awake { op_index };
    }
    let until = machine.clock.wake_tick(task);
    if is_waiting(machine, task) {
        return Situation::Waits { op_index, until };
    }
    match until {
        Some(until) => Situation::Sleeps { op_index, until },
        None => Situation::Ended,
    }
}

/// What each of this many tasks is doing; these were Awake.
fn situations(machine: &Machine, awake: &Unlocked, count: usize) -> ArrayVec<Situation, 32>
    requires { count ≤ 32 }
    ensures { (s : State) → StandsOpened machine.now awake.now s → length s.tasks ≡ count → result.items ≡ situations_of s }
{
    let mut situations = ArrayVec::new();
    for number in 0..count {
        let task = TaskId {
            number: number as u8,
        };
        situations.push(situation(machine, awake, task));
    }
    situations
}

/// Adds a mutex, if it is held.
fn push_held(held: &mut ArrayVec<HeldMutex, 33>, object: ObjectId, holder: Option<TaskId>)
    requires { array_vec_len held.old < 33 }
    ensures items { held.new.items ≡ held.old.items ++ cons_option (option_map (held_by object) holder) [] }
    ensures count { array_vec_len held.new ≤ array_vec_len held.old + 1 }
{
    if let Some(holder) = holder {
        held.push(HeldMutex { object, holder });
    }
}

/// The mutexes that are held, of this many objects.
fn held_mutexes(objects: &Objects, count: usize) -> ArrayVec<HeldMutex, 33>
    requires { count ≤ 33 }
    ensures { (s : State) → ObjectsStandFor objects.now None s → length s.objects ≡ count → result.items ≡ held_from 0 s.objects }
{
    let mut held = ArrayVec::new();
    for number in 0..count {
        let object = ObjectId {
            number: number as u8,
        };
        push_held(&mut held, object, objects.holder(object));
    }
    held
}

/// The end state that the kernel represents, which is one of a run. After it the kernel is of no use.
fn end_state(machine: &mut Machine, app: &App) -> EndState
    requires { (s : State) × IsState app.now s × Stands machine.old s }
    ensures { (s : State) → IsState app.now s → Stands machine.old s → result ≡ end_state_of s }
{
    app.well_formed();
    settle_lists(machine, app);
    let held = held_mutexes(&machine.objects, app.objects().len());
    let awake = take_awake(&mut machine.objects);
    let situations = situations(machine, &awake, app.tasks().len());
    let variables = machine.variables.to_array();
    EndState {
        situations,
        held,
        variables,
    }
}

/// The run of an application with this plan, as `run` has it, and the end state after its last step.
///
/// The meter, which is below 2^62, rises by the steps of the run. `Memory` is returned only if a growth was refused.
pub fn run_to_end_state(
    alloc: Global,
    app: &App,
    plan: &Plan,
    limits: Limits,
    meter: &mut Meter,
) -> Result<(Run, EndState), Memory>
    requires { meter.old < 2 ^ 62 }
    ensures run { IfOk result (λ ended. IsRun app.now plan.now limits ended.0) }
    ensures end_state { IfOk result (λ ended. ended.1 ≡ end_state_of (state_after app.now limits plan.now ended.0.steps)) }
{
    app.well_formed();
    limits.well_formed();
    plan.well_formed();
    let mut trail = Trail::new(alloc);
    let mut kernel = Machine::boot(app);
    let injections = plan.injections();
    let mut log = StepLog::new();
    let end = finish(
        &mut kernel,
        app,
        injections,
        &limits,
        meter,
        &mut log,
        &mut trail,
    )?;
    let steps = kernel.steps;
    let ticks = kernel.clock.elapsed();
    let end_state = end_state(&mut kernel, app);
    let run = Run {
        events: trail.into_events(),
        steps,
        ticks,
        end,
    };
    Ok((run, end_state))
}
