//! Sleepers across the wrap of the tick.
ghost use Rattle.lists.specs.Lists.{Each};
ghost use Rattle.std.specs.Prelude.{◌+◌, ◌<◌, ◌≤◌};

use clock::{Clock, Mark};
use model::TaskId;
use std::process::Abort;

/// Puts a task that is awake to sleep.
fn sleep(rt: &impl Abort, clock: &mut Clock, task: TaskId, ticks: u32)
    requires { 0 < ticks }
{
    assert!(rt; !clock.is_asleep(task), "task {} is awake", task.number);
    clock.sleep(task, ticks);
}

/// Lets a tick pass, and compares the tasks that wake.
fn advance(rt: &impl Abort, clock: &mut Clock, expected: &[TaskId]) {
    assert!(rt; clock.age() < 1000);
    let due = clock.advance();
    assert!(rt; due.as_slice() == expected, "{expected:?} wake");
}

/// Lets a tick pass if no task is due, and compares whether it did.
fn advance_if_none_due(rt: &impl Abort, clock: &mut Clock, expected: bool) {
    assert!(rt; clock.age() < 1000);
    assert!(rt;
        clock.advance_if_none_due() == expected,
        "it passed: {expected}"
    );
}

/// Holds a tick.
fn hold_tick(rt: &impl Abort, clock: &mut Clock) {
    assert!(rt; clock.held() < 10);
    clock.hold_tick();
}

/// Releases a tick that is held, lets it pass, and compares the tasks that wake.
fn apply_tick(rt: &impl Abort, clock: &mut Clock, expected: &[TaskId]) {
    assert!(rt; clock.held() > 0);
    clock.release();
    advance(rt, clock, expected);
}

/// Compares the tick, how many ticks have passed, and how many are held.
fn shows(rt: &impl Abort, clock: &Clock, tick: u32, age: u64, held: u64) {
    assert!(rt; clock.tick() == tick, "the tick is {tick}");
    assert!(rt; clock.age() == age, "{age} ticks have passed");
    assert!(rt; clock.held() == held, "{held} ticks are held");
}

/// Compares how many ticks lie between the mark and now.
fn has_elapsed(rt: &impl Abort, clock: &Clock, mark: Mark, expected: u32) {
    assert!(rt; mark.moment <= clock.mark().moment);
    assert!(rt;
        clock.elapsed_since(mark) == expected,
        "{expected} ticks since the mark"
    );
}

/// Compares how many ticks lie between the mark and now, however many.
fn lags(rt: &impl Abort, clock: &Clock, mark: Mark, expected: u64) {
    assert!(rt; mark.moment <= clock.mark().moment);
    assert!(rt; clock.lag(mark) == expected, "{expected} ticks behind");
}

/// Compares the number of ticks until the first sleeper wakes.
fn has_nearest(rt: &impl Abort, clock: &Clock, expected: Option<u32>) {
    assert!(rt; clock.nearest() == expected, "{expected:?} is nearest");
}

/// No task wakes before the last of this many ticks.
fn reaches(rt: &impl Abort, clock: &Clock, ticks: u32)
    ensures { Each (λ e. clock.now.now + ticks ≤ e.1) clock.now.delayed_list }
{
    match clock.nearest() {
        None => {}
        Some(nearest) => assert!(rt; ticks <= nearest, "{nearest} is nearer"),
    }
}

/// Lets this many ticks pass at once, and compares the tasks that wake.
fn jump(rt: &impl Abort, clock: &mut Clock, ticks: u32, expected: &[TaskId])
    requires { 0 < ticks }
{
    assert!(rt; clock.age() < 1 << 40);
    reaches(rt, clock, ticks);
    let due = clock.jump(ticks);
    assert!(rt; due.as_slice() == expected, "{expected:?} wake");
}

#[test]
fn sleepers_wake_across_the_wrap(rt: HostRuntime) {
    let mut clock = Clock::new(u32::MAX - 1);
    let mark = clock.mark();
    sleep(&rt, &mut clock, TaskId { number: 4 }, 3);
    sleep(&rt, &mut clock, TaskId { number: 9 }, 1);
    sleep(&rt, &mut clock, TaskId { number: 2 }, 3);
    sleep(&rt, &mut clock, TaskId { number: 7 }, 2);
    clock.wake(TaskId { number: 7 });
    advance_if_none_due(&rt, &mut clock, false);
    advance(&rt, &mut clock, &[TaskId { number: 9 }]);
    shows(&rt, &clock, u32::MAX, 1, 0);
    advance_if_none_due(&rt, &mut clock, true);
    shows(&rt, &clock, 0, 2, 0);
    let last = [TaskId { number: 4 }, TaskId { number: 2 }];
    advance(&rt, &mut clock, &last);
    shows(&rt, &clock, 1, 3, 0);
    assert!(rt; clock.now() == (1 << 32) + 1);
    has_elapsed(&rt, &clock, mark, 3);
    has_elapsed(&rt, &clock, Mark { moment: 0 }, u32::MAX);
}

#[test]
fn a_held_tick_is_applied_later(rt: HostRuntime) {
    let mut clock = Clock::new(5);
    sleep(&rt, &mut clock, TaskId { number: 3 }, 1);
    hold_tick(&rt, &mut clock);
    hold_tick(&rt, &mut clock);
    shows(&rt, &clock, 5, 0, 2);
    apply_tick(&rt, &mut clock, &[TaskId { number: 3 }]);
    shows(&rt, &clock, 6, 1, 1);
    apply_tick(&rt, &mut clock, &[]);
    shows(&rt, &clock, 7, 2, 0);
}

#[test]
fn a_sleep_that_is_over_makes_no_difference(rt: HostRuntime) {
    let mut clock = Clock::new(5);
    sleep(&rt, &mut clock, TaskId { number: 3 }, 9);
    let mut other = Clock::new(5);
    sleep(&rt, &mut other, TaskId { number: 4 }, 2);
    sleep(&rt, &mut other, TaskId { number: 3 }, 9);
    assert!(rt; !clock.is_same(&other));
    other.wake(TaskId { number: 4 });
    assert!(rt; clock.is_same(&other));
    hold_tick(&rt, &mut other);
    assert!(rt; !clock.is_same(&other));
}

#[test]
fn a_jump_ends_where_the_first_sleeper_wakes(rt: HostRuntime) {
    let mut clock = Clock::new(5);
    has_nearest(&rt, &clock, None);
    sleep(&rt, &mut clock, TaskId { number: 3 }, 9);
    sleep(&rt, &mut clock, TaskId { number: 4 }, 2);
    sleep(&rt, &mut clock, TaskId { number: 1 }, 9);
    has_nearest(&rt, &clock, Some(2));
    jump(&rt, &mut clock, 1, &[]);
    has_nearest(&rt, &clock, Some(1));
    jump(&rt, &mut clock, 1, &[TaskId { number: 4 }]);
    has_nearest(&rt, &clock, Some(7));
    hold_tick(&rt, &mut clock);
    let last = [TaskId { number: 3 }, TaskId { number: 1 }];
    jump(&rt, &mut clock, 7, &last);
    shows(&rt, &clock, 14, 9, 1);
    has_nearest(&rt, &clock, None);
}

#[test]
fn a_jump_goes_across_the_wrap(rt: HostRuntime) {
    let mut clock = Clock::new(u32::MAX - 9);
    let mark = clock.mark();
    sleep(&rt, &mut clock, TaskId { number: 9 }, 12);
    has_nearest(&rt, &clock, Some(12));
    jump(&rt, &mut clock, 11, &[]);
    shows(&rt, &clock, 1, 11, 0);
    has_nearest(&rt, &clock, Some(1));
    jump(&rt, &mut clock, 1, &[TaskId { number: 9 }]);
    shows(&rt, &clock, 2, 12, 0);
    lags(&rt, &clock, mark, 12);
    assert!(rt; clock.now() == (1 << 32) + 2);
}

#[test]
fn a_jump_ends_at_the_wrap(rt: HostRuntime) {
    let mut clock = Clock::new(u32::MAX - 9);
    sleep(&rt, &mut clock, TaskId { number: 4 }, 10);
    sleep(&rt, &mut clock, TaskId { number: 9 }, 12);
    sleep(&rt, &mut clock, TaskId { number: 2 }, 10);
    has_nearest(&rt, &clock, Some(10));
    let both = [TaskId { number: 4 }, TaskId { number: 2 }];
    jump(&rt, &mut clock, 10, &both);
    shows(&rt, &clock, 0, 10, 0);
    has_nearest(&rt, &clock, Some(2));
    advance_if_none_due(&rt, &mut clock, true);
    advance(&rt, &mut clock, &[TaskId { number: 9 }]);
    shows(&rt, &clock, 2, 12, 0);
}

#[test]
fn jumps_go_over_several_wraps(rt: HostRuntime) {
    let mut clock = Clock::new(1);
    let mark = clock.mark();
    sleep(&rt, &mut clock, TaskId { number: 6 }, u32::MAX);
    has_nearest(&rt, &clock, Some(u32::MAX));
    jump(&rt, &mut clock, u32::MAX, &[TaskId { number: 6 }]);
    shows(&rt, &clock, 0, u32::MAX as u64, 0);
    lags(&rt, &clock, mark, u32::MAX as u64);
    jump(&rt, &mut clock, u32::MAX, &[]);
    sleep(&rt, &mut clock, TaskId { number: 6 }, 3);
    jump(&rt, &mut clock, 3, &[TaskId { number: 6 }]);
    shows(&rt, &clock, 2, (2 << 32) + 1, 0);
    lags(&rt, &clock, mark, (2 << 32) + 1);
    has_elapsed(&rt, &clock, mark, u32::MAX);
    assert!(rt; clock.now() == (2 << 32) + 2);
}

#[test]
fn a_jump_is_as_many_ticks_one_by_one(rt: HostRuntime) {
    let mut clock = Clock::new(u32::MAX);
    sleep(&rt, &mut clock, TaskId { number: 3 }, 3);
    let mut other = clock.copy();
    jump(&rt, &mut clock, 3, &[TaskId { number: 3 }]);
    advance(&rt, &mut other, &[]);
    advance(&rt, &mut other, &[]);
    assert!(rt; !clock.is_same(&other));
    advance(&rt, &mut other, &[TaskId { number: 3 }]);
    assert!(rt; clock.is_same(&other));
}
