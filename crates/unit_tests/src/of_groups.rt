//! Tasks that wait for bits.
ghost use Rattle.std.specs.Prelude.{◌<◌};

use groups::{Groups, Met};
use model::{Condition, GroupId, TaskId};
use std::process::Abort;

const GROUP: GroupId = GroupId { number: 3 };

/// A wait for any of these bits, or for all.
fn condition(mask: u32, all: bool, clear: bool) -> Condition {
    Condition { mask, all, clear }
}

/// Puts a task that waits at no group after the waiting tasks.
fn wait(rt: &impl Abort, groups: &mut Groups, number: u8, condition: Condition)
    requires { number < 32 }
{
    let task = TaskId { number };
    assert!(rt; !groups.is_waiting(task), "task {} is free", number);
    groups.place(task, GROUP, condition);
}

/// Sets bits. Compares the tasks that are met, the bits that meet them, and the bits that are left.
fn set(rt: &impl Abort, groups: &mut Groups, mask: u32, tasks: &[TaskId], by: u32, left: u32) {
    let mut met = Met::none();
    groups.set(GROUP, mask, &mut met);
    assert!(rt; met.tasks.as_slice() == tasks, "{tasks:?} are met");
    assert!(rt; met.bits == by, "met by {by}");
    assert!(rt; met.left == left, "{left} is left");
    has_bits(rt, groups, left);
}

/// Compares which bits are set.
fn has_bits(rt: &impl Abort, groups: &Groups, expected: u32) {
    assert!(rt; groups.bits(GROUP) == expected, "{expected} is set");
}

/// Compares whether a wait is met, and which bits are set before and after it ends.
fn end_wait(
    rt: &impl Abort,
    groups: &mut Groups,
    condition: &Condition,
    is_met: bool,
    before: u32,
    after: u32,
) {
    assert!(rt;
        groups.check(GROUP, condition) == is_met,
        "it is met: {is_met}"
    );
    assert!(rt;
        groups.final_bits(GROUP, condition) == before,
        "{before} was set"
    );
    has_bits(rt, groups, after);
}

#[test]
fn all_are_tested_before_any_bit_is_cleared(rt: HostRuntime) {
    let mut groups = Groups::new();
    assert!(rt; !groups.has_waiter());
    wait(&rt, &mut groups, 7, condition(0b0011, true, true));
    wait(&rt, &mut groups, 2, condition(0b0110, false, false));
    wait(&rt, &mut groups, 9, condition(0b1001, true, false));
    wait(&rt, &mut groups, 4, condition(0b0010, true, true));
    set(&rt, &mut groups, 0b0001, &[], 0b0001, 0b0001);
    set(&rt, &mut groups, 0b0110, &FIRST_MET, 0b0111, 0b0100);
    assert!(rt; groups.is_waiting(TaskId { number: 9 }));
    assert!(rt; !groups.is_waiting(TaskId { number: 2 }));
    groups.drop_waiter(TaskId { number: 9 });
    assert!(rt; !groups.has_waiter());
}

// In the order in which their waits began.
const FIRST_MET: [TaskId; 3] = [
    TaskId { number: 7 },
    TaskId { number: 2 },
    TaskId { number: 4 },
];

#[test]
fn a_wait_that_is_over_clears_only_what_is_met(rt: HostRuntime) {
    let mut groups = Groups::new();
    set(&rt, &mut groups, 0b0101, &[], 0b0101, 0b0101);
    let all = condition(0b0111, true, true);
    end_wait(&rt, &mut groups, &all, false, 0b0101, 0b0101);
    let any = condition(0b0110, false, true);
    end_wait(&rt, &mut groups, &any, true, 0b0101, 0b0001);
    assert!(rt; groups.clear(GROUP, 0b0001) == 0b0001);
    has_bits(&rt, &groups, 0);
}

#[test]
fn the_order_of_waits_that_are_over_makes_no_difference(rt: HostRuntime) {
    let any = condition(0b0011, false, false);
    let mut groups = Groups::new();
    wait(&rt, &mut groups, 7, any);
    wait(&rt, &mut groups, 2, any);
    let mut other = Groups::new();
    wait(&rt, &mut other, 2, any);
    other.drop_waiter(TaskId { number: 2 });
    wait(&rt, &mut other, 7, any);
    assert!(rt; !groups.is_same(&other));
    groups.drop_waiter(TaskId { number: 2 });
    assert!(rt; groups.is_same(&other));
    set(&rt, &mut other, 0b0100, &[], 0b0100, 0b0100);
    assert!(rt; !groups.is_same(&other));
}

#[test]
fn what_a_task_waited_for_last_makes_no_difference(rt: HostRuntime) {
    let any = condition(0b0011, false, false);
    let mut groups = Groups::new();
    wait(&rt, &mut groups, 7, any);
    let mut other = Groups::new();
    wait(&rt, &mut other, 2, any);
    other.drop_waiter(TaskId { number: 2 });
    wait(&rt, &mut other, 7, condition(0b0011, true, false));
    assert!(rt; !groups.is_same(&other) && !other.is_same(&groups));
    groups.drop_waiter(TaskId { number: 7 });
    other.drop_waiter(TaskId { number: 7 });
    assert!(rt; groups.is_same(&other) && other.is_same(&groups));
    wait(&rt, &mut groups, 2, any);
    wait(&rt, &mut other, 2, any);
    assert!(rt; groups.is_same(&other) && other.is_same(&groups));
}
