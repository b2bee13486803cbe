//! Calls on event groups, phase by phase.
ghost use Rattle.std.specs.Prelude.{◌≡◌, ◌≢◌, ◌<◌, ◌≤◌, ◌+◌, ◌^◌, ◌||◌, false, nat_eq, true, Some};
ghost use Rattle.std.specs.Option.{option_eq};
ghost use Rattle.model.specs.declared.op.Op.TheVariants as op;
ghost use Rattle.model.specs.declared.call.Phase.TheVariants as phase;
ghost use Rattle.model.specs.State.{State, bits_at, call_at, for_each};
ghost use Rattle.model.specs.Groups as definitions;
ghost use Rattle.model.specs.Ops.{answer};
ghost use Rattle.model.specs.Switching.{choose, make_ready, preempt};
ghost use Rattle.model.specs.Waiting.{end_hold};
ghost use Rattle.model.specs.Step.{act};
ghost use Rattle.sched.specs.StandsFor.{StandsFor as ScheduleStandsFor};
ghost use Rattle.clock.specs.StandsFor.{StandsFor as ClockStandsFor};
ghost use Rattle.machine.specs.StandsFor.{StandsFor, Does, DoesAny, IsPlaced, Moves, progress_in};
ghost use Rattle.machine.specs.Keeping.{kept_by};
ghost use Rattle.machine.specs.Can.{AreThere, AreToWake, Runs};
ghost use Rattle.ops.specs.Can.{CanDecide, CanLeave, CanSetBits, CanAwaitEvent, IsShort};
ghost use Rattle.ops.specs.InCall.{IsUnmet, Remains, TakesHold};
ghost use Rattle.ops.specs.declared.event_groups.BitsWait.TheVariants as wait;

use crate::holds::end_hold;
use groups::Met;
use machine::{Log, Machine, place_sleeper_for, wake_all};
use model::{App, Condition, GroupId, Phase, TaskId};

/// The bits of a group are the result of the task's call; if they meet its condition it may clear them.
#[inline(always)]
fn answer_bits<L: Log>(
    machine: &mut Machine,
    app: &App,
    task: TaskId,
    group: GroupId,
    condition: &Condition,
    log: &mut L,
)
    requires room { 1 ≤ (L.logged log.old).room }
    requires runs { Runs machine.old task }
    ensures { Does 1 machine.old (L.logged log.old) machine.new (L.logged log.new)
        (definitions.answer_bits app.now task group condition.now) }
{
    let bits = machine.groups.final_bits(group, condition);
    machine.answer(app, task, bits, log);
}

/// `clear`: the mask's bits are cleared; the bits before are the answer.
pub fn clear_bits<L: Log>(
    machine: &mut Machine,
    app: &App,
    task: TaskId,
    group: GroupId,
    mask: u32,
    log: &mut L,
)
    requires room { 1 ≤ (L.logged log.old).room }
    requires runs { Runs machine.old task }
    ensures { Does 1 machine.old (L.logged log.old) machine.new (L.logged log.new)
        (act app.now task (op.ClearBits group mask)) }
{
    let bits = machine.groups.clear(group, mask);
    machine.answer(app, task, bits, log);
}

/// `bits`: the bits of a group are the result. Returns whether the task's script goes on.
pub fn get_bits<L: Log>(
    machine: &mut Machine,
    app: &App,
    task: TaskId,
    group: GroupId,
    log: &mut L,
) -> bool
    requires room { 1 ≤ (L.logged log.old).room }
    requires runs { Runs machine.old task }
    ensures does { Does 1 machine.old (L.logged log.old) machine.new (L.logged log.new)
        (act app.now task (op.GetBits group)) }
    ensures amid { result ≡ true → IsPlaced machine.old machine.new task }
{
    let bits = machine.groups.bits(group);
    machine.answer(app, task, bits, log)
}

/// These bits are kept as the answer of each of these tasks' calls.
fn keep_answers(machine: &mut Machine, tasks: &[TaskId], bits: u32)
    ensures { machine.new ≡ record machine.old { progress = kept_by bits tasks.now machine.old.progress } }
{
    for task in tasks {
        machine.keep_answer(*task, bits);
    }
}

/// The tasks whose conditions a set has met are woken, with the bits that met them.
fn wake_met(machine: &mut Machine, met: &Met)
    requires free { AreToWake machine.old.sched met.now.tasks.items }
    ensures kept { machine.new ≡ record machine.old {
      progress = kept_by met.now.bits met.now.tasks.items machine.old.progress;
      sched = machine.new.sched;
      clock = machine.new.clock;
    } }
    ensures ready { (s : State) → ScheduleStandsFor machine.old.sched s
        → AreThere s met.now.tasks.items
        → ScheduleStandsFor machine.new.sched (for_each make_ready met.now.tasks.items s) }
    ensures woken { (s : State) → ClockStandsFor machine.old.clock s
        → AreThere s met.now.tasks.items
        → ClockStandsFor machine.new.clock (for_each make_ready met.now.tasks.items s) }
    ensures current { machine.new.sched.current ≡ machine.old.sched.current }
    ensures depth { machine.new.sched.depth ≡ machine.old.sched.depth }
    ensures suspensions { machine.new.sched.suspensions ≡ machine.old.sched.suspensions }
{
    let tasks = met.tasks.as_slice();
    keep_answers(machine, tasks, met.bits);
    wake_all(&mut machine.sched, &mut machine.clock, tasks);
}

/// The scheduler is held, and the bits are set; what is left of them will be the answer.
// Inlined, the list of these tasks would be part of every step.
#[inline(never)]
pub fn begin_set(machine: &mut Machine, task: TaskId, group: GroupId, mask: u32)
    requires { CanDecide machine.old task }
    ensures does { Moves machine.old machine.new (definitions.begin_set task group mask) }
    ensures remains { Remains machine.old machine.new task }
    ensures held { machine.new.sched.depth ≡ 1 }
    ensures reached { (progress_in machine.new.progress task).call.phase ≡ phase.Leave }
{
    machine.sched.hold();
    let mut met = Met::none();
    machine.groups.set(group, mask, &mut met);
    wake_met(machine, &met);
    machine.keep_answer(task, met.left);
    machine.set_phase(task, Phase::Leave);
}

/// The hold ends, and the set returns the bits that are kept.
// Inlined, it would be the half of the main loop that hardly any step goes through.
#[inline(never)]
pub fn end_set<L: Log>(machine: &mut Machine, app: &App, task: TaskId, log: &mut L)
    requires room { 2 ≤ (L.logged log.old).room }
    requires runs { Runs machine.old task }
    requires can { CanLeave machine.old task }
    ensures { Does 2 machine.old (L.logged log.old) machine.new (L.logged log.new)
        (λ s. preempt (answer app.now task (call_at s task).kept (end_hold task phase.Start s))) }
{
    let left = machine.progress(task).call.kept;
    end_hold(machine, task, Phase::Start);
    machine.answer_given(app, task, left, log);
    machine.preempt(log);
}

/// The next phase of a set. Returns whether the set has begun: then nothing was reported, and its call holds the scheduler and releases
/// it next.
// Most steps of a task that sets bits come through here, and a call would cost a third of it.
#[inline(always)]
pub fn set_bits<L: Log>(
    machine: &mut Machine,
    app: &App,
    task: TaskId,
    group: GroupId,
    mask: u32,
    log: &mut L,
) -> bool
    requires room { 2 ≤ (L.logged log.old).room }
    requires can { CanSetBits machine.old task (progress_in machine.old.progress task).call.phase }
    ensures does { DoesAny 2 machine.old (L.logged log.old) machine.new (L.logged log.new)
        (act app.now task (op.SetBits group mask)) }
    ensures start { result ≡ true → (progress_in machine.old.progress task).call.phase ≡ phase.Start }
    ensures takes { result ≡ true → TakesHold machine.old machine.new task }
    ensures silent { result ≡ true → L.logged log.new ≡ L.logged log.old }
{
    match machine.progress(task).call.phase {
        Phase::Start => {
            begin_set(machine, task, group, mask);
            true
        }
        _ => {
            end_set(machine, app, task, log);
            false
        }
    }
}

/// The scheduler is held, and the task waits for bits of a group, for this many ticks at most.
// Inlined, it would be in each copy of the step.
#[inline(never)]
fn begin_bits_wait(
    machine: &mut Machine,
    task: TaskId,
    group: GroupId,
    condition: &Condition,
    ticks: Option<u32>,
)
    requires can { CanDecide machine.old task }
    requires short { IsShort ticks }
    requires some { ticks ≢ Some 0 }
    requires time { machine.old.clock.now + 2 ^ 32 < 2 ^ 63 }
    ensures does { Moves machine.old machine.new (definitions.begin_bits_wait task group condition.now ticks) }
    ensures remains { Remains machine.old machine.new task }
    ensures held { machine.new.sched.depth ≡ 1 }
    ensures reached { (progress_in machine.new.progress task).call.phase ≡ phase.Leave }
{
    machine.sched.hold();
    machine.set_deadline(task, ticks);
    machine.want(task, *condition);
    machine.sched.block(task);
    machine.groups.place(task, group, *condition);
    place_sleeper_for(&mut machine.clock, ticks, task);
    machine.set_phase(task, Phase::Leave);
}

/// Whether the bits of a group meet a condition by now, or there are no ticks to wait for them.
fn need_not_wait_for_bits(
    machine: &Machine,
    group: GroupId,
    condition: &Condition,
    ticks: Option<u32>,
) -> bool
    ensures needs { (s : State) → StandsFor machine.now s
        → result ≡ (definitions.is_met (bits_at s group) condition.now
        || option_eq nat_eq ticks (Some 0)) }
    ensures some { result ≡ false → ticks ≢ Some 0 }
{
    machine.groups.check(group, condition) || ticks == Some(0)
}

/// A wait whose condition is met, or that has no ticks to wait, is complete. Otherwise the task waits, and `true` is
/// returned.
#[inline(always)]
fn check_bits<L: Log>(
    machine: &mut Machine,
    app: &App,
    task: TaskId,
    group: GroupId,
    condition: &Condition,
    ticks: Option<u32>,
    log: &mut L,
) -> bool
    requires room { 1 ≤ (L.logged log.old).room }
    requires can { CanDecide machine.old task }
    requires short { IsShort ticks }
    requires time { machine.old.clock.now + 2 ^ 32 < 2 ^ 63 }
    ensures does { Does 1 machine.old (L.logged log.old) machine.new (L.logged log.new)
        (definitions.check app.now task group condition.now ticks) }
    ensures takes { result ≡ true → TakesHold machine.old machine.new task }
    ensures unmet { result ≡ true → IsUnmet machine.old group condition.now ticks }
    ensures silent { result ≡ true → L.logged log.new ≡ L.logged log.old }
{
    if need_not_wait_for_bits(machine, group, condition, ticks) {
        answer_bits(machine, app, task, group, condition, log);
        return false;
    }
    begin_bits_wait(machine, task, group, condition, ticks);
    true
}

/// The hold ends, and the choice runs.
#[inline(always)]
pub fn leave_bits_wait<L: Log>(machine: &mut Machine, task: TaskId, log: &mut L)
    requires room { 1 ≤ (L.logged log.old).room }
    requires can { CanLeave machine.old task }
    ensures { Does 1 machine.old (L.logged log.old) machine.new (L.logged log.new)
        (λ s. choose (end_hold task phase.Try s)) }
{
    end_hold(machine, task, Phase::Try);
    machine.choose(log);
}

/// How the next phase of a wait for bits has ended.
#[derive(Clone, Copy, PartialEq)]
pub enum BitsWait {
    /// The task waits from now on, and its call holds the scheduler.
    Begun,
    /// It has returned the bits that were kept for it, and the task's script goes on; nothing else changed.
    Answered,
    /// Anything else.
    Other,
}

impl BitsWait {
    ghost use Rattle.std.specs.Prelude.{◌≡◌, ◌≢◌, true};
    ghost use Rattle.ops.specs.declared.event_groups.BitsWait.TheVariants as wait;

    /// At its start it has begun, or has ended in any other way.
    #[inline]
    fn begun_if(waits: bool) -> BitsWait
        ensures begun { result ≡ wait.Begun → waits ≡ true }
        ensures answered { result ≢ wait.Answered }
    {
        if waits {
            BitsWait::Begun
        } else {
            BitsWait::Other
        }
    }

    /// At its end it has returned those bits, or has ended in any other way.
    #[inline]
    fn answered_if(stays: bool) -> BitsWait
        ensures answered { result ≡ wait.Answered → stays ≡ true }
        ensures begun { result ≢ wait.Begun }
    {
        if stays {
            BitsWait::Answered
        } else {
            BitsWait::Other
        }
    }
}

/// The woken task returns the bits that are kept for it, otherwise the present ones. Returns whether they were kept, and the task's script
/// goes on: then nothing else changed.
#[inline(always)]
fn finish_wait<L: Log>(
    machine: &mut Machine,
    app: &App,
    task: TaskId,
    group: GroupId,
    condition: &Condition,
    log: &mut L,
) -> bool
    requires room { 1 ≤ (L.logged log.old).room }
    requires runs { Runs machine.old task }
    ensures does { Does 1 machine.old (L.logged log.old) machine.new (L.logged log.new)
        (λ s. definitions.final_bits app.now task group condition.now (call_at s task).kept s) }
    ensures amid { result ≡ true → IsPlaced machine.old machine.new task }
{
    match machine.progress(task).call.kept {
        None => {
            answer_bits(machine, app, task, group, condition, log);
            false
        }
        Some(bits) => machine.answer(app, task, bits, log),
    }
}

/// The next phase of a wait for bits. Returns how it has ended.
// The step has what it takes at hand, and a call with so many arguments would cost a third of it.
#[inline(always)]
pub fn wait_bits<L: Log>(
    machine: &mut Machine,
    app: &App,
    task: TaskId,
    group: GroupId,
    condition: &Condition,
    ticks: Option<u32>,
    log: &mut L,
) -> BitsWait
    requires room { 2 ≤ (L.logged log.old).room }
    requires can { CanAwaitEvent machine.old task ticks
        (progress_in machine.old.progress task).call.phase }
    ensures does { DoesAny 2 machine.old (L.logged log.old) machine.new (L.logged log.new)
        (act app.now task (op.WaitBits group condition.now ticks)) }
    ensures amid { result ≡ wait.Answered → IsPlaced machine.old machine.new task }
    ensures runs { result ≡ wait.Answered → Runs machine.old task }
    ensures start { result ≡ wait.Begun → (progress_in machine.old.progress task).call.phase ≡ phase.Start }
    ensures takes { result ≡ wait.Begun → TakesHold machine.old machine.new task }
    ensures unmet { result ≡ wait.Begun → IsUnmet machine.old group condition.now ticks }
    ensures silent { result ≡ wait.Begun → L.logged log.new ≡ L.logged log.old }
{
    match machine.progress(task).call.phase {
        Phase::Start => BitsWait::begun_if(check_bits(
            machine, app, task, group, condition, ticks, log,
        )),
        Phase::Leave => {
            leave_bits_wait(machine, task, log);
            BitsWait::Other
        }
        _ => BitsWait::answered_if(finish_wait(machine, app, task, group, condition, log)),
    }
}
