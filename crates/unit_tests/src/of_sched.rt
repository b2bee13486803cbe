//! Tasks that take turns and yield.
use model::TaskId;
use sched::Sched;
use std::process::Abort;

/// What is done to the scheduler and what it returns, or what is seen of it.
#[derive(Clone, Copy)]
enum Move {
    Wake(TaskId),
    Block(TaskId),
    Suspend(TaskId),
    /// Whether it was suspended.
    Resume(TaskId, bool),
    Priority(TaskId, u8),
    Hold,
    /// The depth of the hold after that.
    Unhold(u32),
    Choose(Option<TaskId>),
    /// The task that runs after that, if the switch is made.
    Preempt(Option<TaskId>),
    Slice(Option<TaskId>),
    Yield(TaskId),
    Runs(Option<TaskId>),
    HasReady(bool),
    IsReady(TaskId, bool),
    IsSuspended(TaskId, bool),
    HasPriority(TaskId, u8),
    HasBasePriority(TaskId, u8),
}

use Move::*;

/// Wakes a task that isn't Ready.
fn wake(rt: &impl Abort, sched: &mut Sched, task: TaskId) {
    assert!(rt; !sched.is_ready(task), "task {} isn't Ready", task.number);
    sched.wake(task);
}

/// Holds the scheduler once more.
fn hold(rt: &impl Abort, sched: &mut Sched) {
    assert!(rt; sched.depth() < 10);
    sched.hold();
}

/// Takes back a hold.
fn unhold(rt: &impl Abort, sched: &mut Sched) -> u32 {
    assert!(rt; sched.depth() > 0);
    sched.unhold();
    sched.depth()
}

/// Gives a task another priority, while the scheduler isn't held.
fn set_priority(rt: &impl Abort, sched: &mut Sched, task: TaskId, priority: u8) {
    assert!(rt; sched.depth() == 0 && priority < 32);
    sched.set_priority(task, priority);
}

/// Ends a task's suspension, and returns whether it was suspended.
fn resume(rt: &impl Abort, sched: &mut Sched, task: TaskId) -> bool {
    if !sched.is_suspended(task) {
        return sched.resume(task);
    }
    assert!(rt; !sched.is_ready(task), "task {} isn't Ready", task.number);
    sched.resume(task)
}

/// The task that runs after a switch, or `None` if none was made.
fn switched(sched: &Sched, is_switch: bool) -> Option<TaskId> {
    if is_switch { sched.current() } else { None }
}

/// Whether the scheduler's state is as the move says.
fn is_seen(sched: &Sched, sight: Move) -> bool {
    match sight {
        Runs(task) => sched.current() == task,
        HasReady(has_ready) => sched.has_ready() == has_ready,
        IsReady(task, is_ready) => sched.is_ready(task) == is_ready,
        IsSuspended(task, is_suspended) => sched.is_suspended(task) == is_suspended,
        HasPriority(task, priority) => sched.priority(task) == priority,
        HasBasePriority(task, priority) => sched.base_priority(task) == priority,
        _ => false,
    }
}

/// Whether the scheduler switches as the move says.
fn is_switched(sched: &mut Sched, switch: Move) -> bool {
    match switch {
        Choose(task) => sched.choose() == task,
        Preempt(task) => {
            let is_switch = sched.preempt();
            switched(sched, is_switch) == task
        }
        Slice(task) => {
            let is_switch = sched.slice();
            switched(sched, is_switch) == task
        }
        Yield(task) => {
            sched.yield_now();
            sched.current() == Some(task)
        }
        _ => is_seen(sched, switch),
    }
}

/// Makes a move, and returns whether the scheduler's result is as the move says.
fn is_answered(rt: &impl Abort, sched: &mut Sched, step: Move) -> bool {
    match step {
        Wake(task) => wake(rt, sched, task),
        Block(task) => sched.block(task),
        Suspend(task) => sched.suspend(task),
        Resume(task, was_suspended) => return resume(rt, sched, task) == was_suspended,
        Priority(task, priority) => set_priority(rt, sched, task, priority),
        Hold => hold(rt, sched),
        Unhold(depth) => return unhold(rt, sched) == depth,
        _ => return is_switched(sched, step),
    }
    true
}

/// Makes the moves in turn, with a scheduler of these priorities.
fn play(rt: &impl Abort, moves: &[Move]) {
    let mut sched = Sched::new(PRIORITIES);
    for (number, step) in moves.iter().enumerate() {
        assert!(rt;
            is_answered(rt, &mut sched, *step),
            "move {number}, from 0 on"
        );
    }
}

const PRIORITIES: [u8; 32] = [
    1, 1, 0, 2, 7, 7, 7, 0, 0, 0, 0, 0, 0, 0, 0, 0, 0, 0, 0, 0, 0, 0, 0, 0, 0, 0, 0, 0, 0, 0, 0, 0,
];

// Two of priority 1, one of 2, and three of 7.
const LOW: TaskId = TaskId { number: 0 };

const OTHER: TaskId = TaskId { number: 1 };

const HIGH: TaskId = TaskId { number: 3 };

const SECOND: TaskId = TaskId { number: 4 };

const FIRST: TaskId = TaskId { number: 5 };

const GONE: TaskId = TaskId { number: 6 };

#[test]
fn tasks_take_turns_and_give_way(rt: HostRuntime) {
    play(
        &rt,
        &[
            Runs(None),
            Wake(LOW),
            Wake(OTHER),
            Choose(Some(LOW)),
            Preempt(None),
            Slice(Some(OTHER)),
            Wake(HIGH),
            Preempt(Some(HIGH)),
            Block(HIGH),
            IsReady(HIGH, false),
            Choose(Some(LOW)),
            Yield(OTHER),
            HasPriority(HIGH, 2),
        ],
    );
}

#[test]
fn tasks_woken_while_held_are_lined_up_when_the_last_hold_ends(rt: HostRuntime) {
    play(
        &rt,
        &[
            Wake(LOW),
            Choose(Some(LOW)),
            Hold,
            Hold,
            Wake(OTHER),
            Wake(HIGH),
            IsReady(OTHER, true),
            IsReady(HIGH, true),
            Preempt(None),
            Slice(None),
            Unhold(1),
            Preempt(None),
            Unhold(0),
            Runs(Some(LOW)),
            Preempt(Some(HIGH)),
            Block(HIGH),
            Choose(Some(OTHER)),
            Slice(Some(LOW)),
        ],
    );
}

#[test]
fn pending_tasks_keep_the_order_of_their_waking(rt: HostRuntime) {
    play(
        &rt,
        &[
            Hold,
            Wake(FIRST),
            Wake(GONE),
            Wake(SECOND),
            Block(GONE),
            IsReady(GONE, false),
            HasReady(true),
            Unhold(0),
            Choose(Some(FIRST)),
            Block(FIRST),
            Choose(Some(SECOND)),
            Block(SECOND),
            Choose(None),
            HasReady(false),
        ],
    );
}

#[test]
fn a_task_goes_behind_its_new_equals(rt: HostRuntime) {
    play(
        &rt,
        &[
            Wake(LOW),
            Wake(OTHER),
            // If it is given its own priority, it stays first among its equals.
            Priority(LOW, 1),
            Choose(Some(LOW)),
            Wake(HIGH),
            // It inherits, and moves after the task that was already there.
            Priority(LOW, 2),
            HasPriority(LOW, 2),
            HasBasePriority(LOW, 1),
            Choose(Some(HIGH)),
            Yield(LOW),
            // Back at its base priority, it is after the other.
            Priority(LOW, 1),
            Preempt(Some(HIGH)),
            Block(HIGH),
            Choose(Some(OTHER)),
            // A task that isn't Ready has the new priority once it is woken.
            Priority(HIGH, 0),
            IsReady(HIGH, false),
            Wake(HIGH),
            Preempt(None),
        ],
    );
}

#[test]
fn a_suspended_task_is_ready_once_it_is_resumed(rt: HostRuntime) {
    play(
        &rt,
        &[
            Wake(LOW),
            Wake(HIGH),
            Choose(Some(HIGH)),
            Suspend(HIGH),
            Suspend(HIGH),
            IsSuspended(HIGH, true),
            IsReady(HIGH, false),
            IsSuspended(LOW, false),
            Choose(Some(LOW)),
            Resume(LOW, false),
            // One resume undoes both.
            Resume(HIGH, true),
            IsSuspended(HIGH, false),
            Resume(HIGH, false),
            Choose(Some(HIGH)),
            // While the scheduler is held, a pending task is suspended, and a resumed task is pending.
            Hold,
            Wake(OTHER),
            Suspend(OTHER),
            Suspend(HIGH),
            IsReady(OTHER, false),
            Resume(HIGH, true),
            IsReady(HIGH, true),
            Preempt(None),
            Unhold(0),
            Choose(Some(HIGH)),
            Block(HIGH),
            Block(LOW),
            Choose(None),
        ],
    );
}

#[test]
fn the_order_in_which_others_were_ready_makes_no_difference(rt: HostRuntime) {
    let mut sched = Sched::new(PRIORITIES);
    wake(&rt, &mut sched, LOW);
    let mut other = Sched::new(PRIORITIES);
    wake(&rt, &mut other, OTHER);
    wake(&rt, &mut other, HIGH);
    wake(&rt, &mut other, LOW);
    other.block(OTHER);
    assert!(rt; !sched.is_same(&other));
    other.block(HIGH);
    assert!(rt; sched.is_same(&other));
    other.choose();
    assert!(rt; !sched.is_same(&other));
}
