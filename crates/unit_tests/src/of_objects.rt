//! Items that are added and removed, counts, holders, and tasks that wait and are woken.
ghost use Rattle.objects.specs.Objects.{HasRoom};
ghost use Rattle.std.specs.Prelude.{◌≡◌, ◌<◌};

use model::{Access, ObjectId, ObjectKind, TaskId, WaitList};
use objects::{NotHolder, Objects};
use std::process::Abort;

/// Puts a task that waits nowhere into a list.
fn put(rt: &impl Abort, objects: &mut Objects, list: WaitList, number: u8, priority: u8)
    requires { number < 32 }
{
    let task = TaskId { number };
    assert!(rt; priority < 32);
    assert!(rt; !objects.is_waiting(task), "task {number} is free");
    objects.place(list, task, priority);
}

const SEMAPHORE: ObjectId = ObjectId { number: 0 };

const QUEUE: ObjectId = ObjectId { number: 1 };

const RECEIVERS: WaitList = WaitList::ToReceive(QUEUE);

const SENDERS: WaitList = WaitList::ToSend(QUEUE);

const MUTEX: ObjectId = ObjectId { number: 2 };

/// A semaphore, a queue and a mutex.
fn some_objects() -> Objects
    ensures { result.number ≡ 3 }
{
    Objects::new(&[
        ObjectKind::Semaphore(2, 1),
        ObjectKind::Queue(2),
        ObjectKind::Mutex,
    ])
}

/// The last place for an object. No object of a file is there.
const LAST: ObjectId = ObjectId { number: 32 };

/// As many queues of the greatest length as there are places.
fn most_queues() -> Objects
    ensures { result.number ≡ 33 }
{
    Objects::new(&[ObjectKind::Queue(256); 33])
}

/// Compares the greatest priority of the tasks that wait to receive.
fn has_best(rt: &impl Abort, objects: &Objects, expected: u8) {
    assert!(rt;
        objects.best_priority(RECEIVERS) == expected,
        "{expected} is the best"
    );
}

/// Wakes the tasks that wait to receive, one after the other, and compares which they are.
fn wake_all(rt: &impl Abort, objects: &mut Objects, expected: &[u8]) {
    for number in expected {
        let woken = objects.wake_best(RECEIVERS);
        assert!(rt; woken == TaskId::new(*number), "of {expected:?}");
        assert!(rt; woken.is_none_or(|task| !objects.is_waiting(task)));
    }
}

/// Compares whether a task waits.
fn is_waiting(rt: &impl Abort, objects: &Objects, task: TaskId, expected: bool) {
    assert!(rt;
        objects.is_waiting(task) == expected,
        "{task:?} waits: {expected}"
    );
}

/// Locks the queue, which is free.
fn lock(rt: &impl Abort, objects: &mut Objects) {
    assert!(rt; !objects.is_locked());
    objects.lock(QUEUE);
}

/// Unlocks, and compares which tasks are woken by that.
fn unlock(rt: &impl Abort, objects: &mut Objects, to_receive: &[TaskId], to_send: &[TaskId]) {
    match objects.unlock() {
        None => panic!(rt; "locked"),
        Some(unlocked) => {
            assert!(rt;
                unlocked.to_receive.as_slice() == to_receive,
                "{to_receive:?}"
            );
            assert!(rt; unlocked.to_send.as_slice() == to_send, "{to_send:?}");
        }
    }
    assert!(rt; !objects.is_locked());
}

#[test]
fn the_best_is_first_and_equals_stay_in_order(rt: HostRuntime) {
    let mut objects = some_objects();
    for (number, priority) in [(4, 1), (9, 31), (2, 1), (7, 0), (5, 1)] {
        put(&rt, &mut objects, RECEIVERS, number, priority);
    }
    has_best(&rt, &objects, 31);
    wake_all(&rt, &mut objects, &[9]);
    has_best(&rt, &objects, 1);
    objects.drop_waiter(TaskId { number: 2 });
    wake_all(&rt, &mut objects, &[4, 5, 7]);
    assert!(rt; objects.wake_best(RECEIVERS).is_none());
}

#[test]
fn an_unlock_takes_the_counted_ones(rt: HostRuntime) {
    let mut objects = some_objects();
    put(&rt, &mut objects, SENDERS, 1, 2);
    put(&rt, &mut objects, SENDERS, 0, 3);
    put(&rt, &mut objects, RECEIVERS, 8, 0);
    lock(&rt, &mut objects);
    for _ in 0..200_u8 {
        objects.wake_best(RECEIVERS);
    }
    objects.wake_best(SENDERS);
    let receiver = TaskId { number: 8 };
    unlock(&rt, &mut objects, &[receiver], &[TaskId { number: 0 }]);
    is_waiting(&rt, &objects, TaskId { number: 1 }, true);
}

#[test]
fn a_wake_through_the_locked_queue_waits_for_its_unlock(rt: HostRuntime) {
    let mut objects = some_objects();
    let task = TaskId { number: 6 };
    lock(&rt, &mut objects);
    put(&rt, &mut objects, RECEIVERS, 6, 3);
    assert!(rt; objects.wake_best(RECEIVERS).is_none());
    is_waiting(&rt, &objects, task, true);
    unlock(&rt, &mut objects, &[task], &[]);
    objects.drop_waiter(task);
}

#[test]
fn items_leave_in_order(rt: HostRuntime) {
    let mut objects = some_objects();
    succeed(&rt, &mut objects, None, QUEUE, Access::Send(8));
    succeed(&rt, &mut objects, None, QUEUE, Access::SendFront(9));
    assert!(rt; objects.waiting(QUEUE) == 2 && objects.spaces(QUEUE) == 0);
    assert!(rt; !objects.possible(QUEUE, Access::Send(7)));
}

#[test]
fn the_last_place_has_room_too(rt: HostRuntime) {
    let mut objects = most_queues();
    succeed(&rt, &mut objects, None, LAST, Access::Send(8));
    assert!(rt; objects.waiting(LAST) == 1 && objects.spaces(LAST) == 255);
    assert!(rt; objects.waiting(QUEUE) == 0 && objects.spaces(QUEUE) == 256);
    let snapshot = objects.snapshot(rt.alloc()).ok().expect(&rt, "memory");
    put(&rt, &mut objects, WaitList::ToSend(LAST), 4, 1);
    put(&rt, &mut objects, RECEIVERS, 9, 2);
    assert!(rt; !objects.is_at(&snapshot));
    assert!(rt; objects.wake_best(WaitList::ToSend(LAST)) == TaskId::new(4));
    wake_all(&rt, &mut objects, &[9]);
    assert!(rt; objects.is_at(&snapshot));
    assert!(rt; !most_queues().is_at(&snapshot));
}

#[test]
fn a_semaphore_counts_to_its_greatest(rt: HostRuntime) {
    let mut objects = some_objects();
    succeed(&rt, &mut objects, None, SEMAPHORE, Access::Give);
    assert!(rt; !objects.possible(SEMAPHORE, Access::Give));
    succeed(&rt, &mut objects, None, SEMAPHORE, Access::Take);
    succeed(&rt, &mut objects, None, SEMAPHORE, Access::Take);
    assert!(rt; !objects.possible(SEMAPHORE, Access::Take));
}

#[test]
fn a_mutex_has_one_holder_who_gives_it_back(rt: HostRuntime) {
    let mut objects = some_objects();
    let task = TaskId { number: 6 };
    succeed(&rt, &mut objects, Some(task), MUTEX, Access::Lock);
    assert!(rt; !objects.possible(MUTEX, Access::Lock));
    has_holder(&rt, &objects, Some(task), 1);
    assert!(rt; give(&mut objects, TaskId { number: 5 }) == Err(NotHolder));
    assert!(rt; give(&mut objects, task) == Ok(()));
    has_holder(&rt, &objects, None, 0);
}

/// A task gives the mutex back.
fn give(objects: &mut Objects, task: TaskId) -> Result<(), NotHolder> {
    objects.give_mutex(task, MUTEX)
}

/// Compares the holder of the mutex, and the number of mutexes that task 6 holds.
fn has_holder(rt: &impl Abort, objects: &Objects, holder: Option<TaskId>, held: u8) {
    assert!(rt; objects.holder(MUTEX) == holder, "{holder:?} holds it");
    assert!(rt;
        objects.mutexes_held(TaskId { number: 6 }) == held,
        "{held}"
    );
}

/// Makes a possible call, which returns 1. It isn't an `overwrite`.
fn succeed(
    rt: &impl Abort,
    objects: &mut Objects,
    caller: Option<TaskId>,
    object: ObjectId,
    access: Access<u32>,
)
    requires { HasRoom objects.old object access }
    ensures { objects.new.number ≡ objects.old.number }
{
    assert!(rt; objects.possible(object, access));
    assert!(rt; objects.carry_out(caller, object, access) == Some(1));
}

/// Receives an item from the queue, and compares it.
fn receive(rt: &impl Abort, objects: &mut Objects, expected: u32)
    requires { 1 < objects.old.number }
    ensures { objects.new.number ≡ objects.old.number }
{
    assert!(rt; objects.possible(QUEUE, Access::Receive));
    let item = objects.carry_out(None, QUEUE, Access::Receive);
    assert!(rt; item == Some(expected), "{expected} is received");
}

#[test]
fn where_items_lie_and_who_has_waited_makes_no_difference(rt: HostRuntime) {
    let mut objects = some_objects();
    succeed(&rt, &mut objects, None, QUEUE, Access::Send(8));
    let snapshot = objects.snapshot(rt.alloc()).ok().expect(&rt, "memory");
    assert!(rt; objects.is_at(&snapshot));
    let mut other = some_objects();
    succeed(&rt, &mut other, None, QUEUE, Access::Send(9));
    assert!(rt; !other.is_at(&snapshot));
    receive(&rt, &mut other, 9);
    assert!(rt; !other.is_at(&snapshot));
    succeed(&rt, &mut other, None, QUEUE, Access::Send(8));
    assert!(rt; other.is_at(&snapshot));
    put(&rt, &mut other, RECEIVERS, 4, 1);
    assert!(rt; !other.is_at(&snapshot));
    other.drop_waiter(TaskId { number: 4 });
    assert!(rt; other.is_at(&snapshot));
}

#[test]
fn objects_are_saved_into_a_snapshot_of_the_same_queues(rt: HostRuntime) {
    let mut objects = some_objects();
    let mut snapshot = objects.snapshot(rt.alloc()).ok().expect(&rt, "memory");
    succeed(&rt, &mut objects, None, QUEUE, Access::Send(8));
    assert!(rt; !objects.is_at(&snapshot));
    assert!(rt; objects.save(&mut snapshot));
    assert!(rt; objects.is_at(&snapshot));
    assert!(rt; !most_queues().save(&mut snapshot));
}
