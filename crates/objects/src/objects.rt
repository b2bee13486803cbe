//! The objects that tasks share: queues, semaphores and mutexes, which tasks wait at them, and which one is
//! locked.
ghost use Rattle.std.specs.Prelude.{◌≡◌, ◌==◌, ◌&&◌, not, ℕ, ◌-◌, ◌<◌, ◌≤◌, [], length, replicate, slice_index_or, slice_set, map, ◌++◌, ◌↔◌, if◌then◌else◌, true, false, Some, None, Option, IsSome, IfSome, IsTrue, IfOk, IsOk, OnOk, OnErr};
ghost use Rattle.std.specs.List.{AllByRecursion, list_any};
ghost use Rattle.std.specs.Option.{is_some};
ghost use Rattle.lists.specs.Lists.{place_of, without};
ghost use Rattle.model.specs.Application.{Application};
ghost use Rattle.model.specs.State.{State, Suspended, Task, no_object, object_at, with_object, status_at, with_status, wait_if_awake, for_each};
ghost use Rattle.model.specs.Invariant.{wait_of};
ghost use Rattle.model.specs.Order.{first, task_of};
ghost use Rattle.model.specs.Switching.{make_ready};
ghost use Rattle.model.specs.Waiting as waiting;
ghost use Rattle.model.specs.Waiting.{is_locked};
ghost use Rattle.model.specs.declared.event.Misuse.TheVariants as misuses;
ghost use Rattle.model.specs.declared.op.Op.TheVariants as op;
ghost use Rattle.model.specs.Scripts.{IsObjectKind};
ghost use Rattle.model.specs.Step.{own_misuse, object_at_reset, reset};
ghost use Rattle.model.specs.Objects as definitions;
ghost use Rattle.model.specs.Objects.{allows, object_after, reply};
ghost use Rattle.model.specs.Mutexes as mutexes;
ghost use Rattle.objects.specs.Items.{object_in};
ghost use Rattle.objects.specs.Together.{held_of};
ghost use Rattle.objects.specs.Places.{list_places, object_places};
ghost use Rattle.objects.specs.WaitingLists.{first_priority, number_of, waiting_in};
ghost use Rattle.task_lists.specs.Tasks.{insert_by_priority};
ghost use Rattle.objects.specs.WaitersStand.{AreAwakened, AtLocked, Decider, opened};
ghost use Rattle.objects.specs.Objects.{AreCounted, CountsNobody, HasRoom, StandsFor, after_unlock, after_wake, counted_by, readied_by};

use crate::OBJECTS;
use crate::items::{Items, ItemsSnapshot};
use crate::lock::Lock;
use crate::mutexes::Mutexes;
use crate::semaphores::Semaphores;
use crate::waiting_lists::{Unlocked, WaitingLists};
use model::{Access, Memory, ObjectId, ObjectKind, TaskId, WaitList};
use std::alloc::Global;
use std::marker::Model;

/// It isn't the task that holds the mutex.
#[derive(Clone, Copy, PartialEq, Eq)]
pub struct NotHolder;

/// 33 objects at most, each a queue, a semaphore or a mutex, and the tasks that wait at them.
#[derive(Drop)]
pub struct Objects {
    // How many objects the application has, 0 to 33.
    number: u8,
    items: Items,
    semaphores: Semaphores,
    mutexes: Mutexes,
    waiting: WaitingLists,
    lock: Option<Lock>,
}

// Clauses see the objects of the definitions, and for each list its tasks in order.
impl Model for Objects {
    ghost use Rattle.objects.specs.Together.{objects_of_all};
    ghost use Rattle.objects.specs.Objects.{Objects};

    ghost Value = { Objects };

    ghost view = { λ q. record { number = q.number; objects = objects_of_all q.items q.semaphores q.mutexes; waiting = q.waiting; lock = q.lock } };
}

/// The objects as they once were: with no more of the items' storage than the application's queues have.
#[derive(Drop)]
pub struct ObjectsSnapshot {
    number: u8,
    items: ItemsSnapshot,
    semaphores: Semaphores,
    mutexes: Mutexes,
    waiting: WaitingLists,
    lock: Option<Lock>,
}

// Clauses see the same as of the objects themselves.
impl Model for ObjectsSnapshot {
    ghost use Rattle.objects.specs.Together.{objects_of_all};
    ghost use Rattle.objects.specs.Objects.{Objects};

    ghost Value = { Objects };

    ghost view = { λ q. record { number = q.number; objects = objects_of_all q.items q.semaphores q.mutexes; waiting = q.waiting; lock = q.lock } };
}

impl Objects {
    /// These objects as they are at reset, 33 at most: no task waits, nothing is locked, queues are empty, semaphores have
    /// their initial counts, mutexes are free. Those past the last have no room, no count and no holder.
    pub fn new(objects: &[ObjectKind]) -> Self
        requires few { length objects.now ≤ object_places }
        requires kinds { AllByRecursion IsObjectKind objects.now }
        ensures number { result.number ≡ length objects.now }
        ensures objects { (object : ℕ) → object_in result.objects object
            ≡ slice_index_or (map object_at_reset objects.now) object no_object }
        ensures nobody { result.waiting ≡ replicate list_places [] }
        ensures free { result.lock ≡ None }
        // They are those of an application that has these objects.
        ensures stands { (app : Application) → app.objects ≡ objects.now → length app.tasks ≤ 32
            → StandsFor result None (reset app) }
    {
        Objects {
            number: objects.len() as u8,
            items: Items::new(objects),
            semaphores: Semaphores::new(objects),
            mutexes: Mutexes::new(),
            waiting: WaitingLists::new(),
            lock: None,
        }
    }

    /// A copy. It takes no memory.
    pub fn copy(&self) -> Self
        ensures { result ≡ self.now }
    {
        let mut copy = Objects::new(&[]);
        copy.set_from(self);
        copy
    }

    /// Becomes a copy of the other, in place. It takes no memory. Of the pool only the regions of the queues are copied.
    pub fn set_from(&mut self, other: &Self)
        ensures { self.new ≡ other.now }
    {
        self.number = other.number;
        self.items.set_from(&other.items);
        self.semaphores.set_from(&other.semaphores);
        self.mutexes.set_from(&other.mutexes);
        self.waiting.set_from(&other.waiting);
        self.lock = other.lock;
    }

    /// The objects as they are now. It takes four bytes of memory for each item that the queues can hold.
    ///
    /// `Memory` is returned only if a growth was refused.
    pub fn snapshot(&self, alloc: Global) -> Result<ObjectsSnapshot, Memory>
        ensures { IfOk result (λ snapshot. snapshot ≡ self.now) }
    {
        Ok(ObjectsSnapshot {
            number: self.number,
            items: self.items.snapshot(alloc)?,
            semaphores: self.semaphores.copy(),
            mutexes: self.mutexes.copy(),
            waiting: self.waiting.copy(),
            lock: self.lock,
        })
    }

    /// Makes a snapshot that of the objects as they are now. It takes no memory. `false` if the snapshot has other memory than these
    /// objects ask for, as one of another application has.
    pub fn save(&self, snapshot: &mut ObjectsSnapshot) -> bool
        ensures { result ≡ true → snapshot.new ≡ self.now }
    {
        if !self.items.save(&mut snapshot.items) {
            return false;
        }
        snapshot.number = self.number;
        snapshot.semaphores.set_from(&self.semaphores);
        snapshot.mutexes.set_from(&self.mutexes);
        snapshot.waiting.set_from(&self.waiting);
        snapshot.lock = self.lock;
        true
    }

    /// Becomes what a snapshot holds, in place. It takes no memory.
    pub fn restore(&mut self, snapshot: &ObjectsSnapshot)
        ensures { self.new ≡ snapshot.now }
    {
        self.number = snapshot.number;
        self.items.restore(&snapshot.items);
        self.semaphores.set_from(&snapshot.semaphores);
        self.mutexes.set_from(&snapshot.mutexes);
        self.waiting.set_from(&snapshot.waiting);
        self.lock = snapshot.lock;
    }

    /// Whether the objects are as in a snapshot, the same tasks wait at them, and the same one is locked.
    pub fn is_at(&self, snapshot: &ObjectsSnapshot) -> bool
        ensures { result ≡ true → self.now ≡ snapshot.now }
    {
        self.number == snapshot.number
            && self.lock == snapshot.lock
            && self.mutexes.is_same(&snapshot.mutexes)
            && self.semaphores.is_same(&snapshot.semaphores)
            && self.items.is_at(&snapshot.items)
            && self.waiting.is_same(&snapshot.waiting)
    }

    /// A number that objects have in common which are the same (`is_at`), and many others don't: it is made of how many items each
    /// queue has, of its first item, and of the counts of the semaphores. It is a hint, on which nothing rests.
    pub fn hint(&self) -> u64 {
        let mut hint: u64 = 0;
        for object in 0..(self.number as usize).min(OBJECTS) {
            let counts = self.items.len(object) as u64
                | (self.semaphores.count(object) as u64) << 32;
            let first = self.items.first(object).unwrap_or(0) as u64;
            hint = hint
                .rotate_left(7)
                .wrapping_add(counts ^ first.rotate_left(9));
        }
        hint
    }

    /// The number of items in a queue (`uxQueueMessagesWaiting`).
    pub fn waiting(&self, queue: ObjectId) -> usize
        ensures waiting { result ≡ length (object_in self.now.objects queue).items }
        ensures stands { (s : State) (decider : Option Decider) → StandsFor self.now decider s
            → result ≡ length (object_at s queue).items }
        ensures small { result ≤ 256 }
    {
        self.items.len(queue.number as usize)
    }

    /// The number of items that a queue still has room for (`uxQueueSpacesAvailable`).
    pub fn spaces(&self, queue: ObjectId) -> usize
        ensures spaces { result ≡ (object_in self.now.objects queue).size
            - length (object_in self.now.objects queue).items }
        ensures stands { (s : State) (decider : Option Decider) → StandsFor self.now decider s
            → result ≡ (object_at s queue).size - length (object_at s queue).items }
        ensures small { result ≤ 256 }
    {
        self.items.room(queue.number as usize)
    }

    /// Whether a call is possible on an object now. One that puts an item in is if there is room, one that takes or
    /// reads the first item if there is one, and `overwrite` always. `take` is possible if the count isn't 0, `give`
    /// if it is below its greatest, and `lock` if no task holds the mutex.
    #[inline(always)]
    pub fn possible(&self, object: ObjectId, access: Access<u32>) -> bool
        ensures possible { result ≡ allows (object_in self.now.objects object) access }
        ensures stands { (s : State) (decider : Option Decider) → StandsFor self.now decider s
            → result ≡ definitions.possible s object access }
    {
        let number = object.number as usize;
        // An arm for each, so that the compiler goes from it to that of `carry_out` at once.
        match access {
            Access::Send(_) => self.items.room(number) > 0,
            Access::SendFront(_) => self.items.room(number) > 0,
            Access::Overwrite(_) => true,
            Access::Receive => self.items.len(number) > 0,
            Access::Peek => self.items.len(number) > 0,
            Access::Take => self.semaphores.can_take(number),
            Access::Give => self.semaphores.can_give(number),
            Access::Lock => self.mutexes.holder(number).is_none(),
        }
    }

    /// Does a possible call (see `possible`) of a task, or of a handler (`None`), on an object that is there. Returns the call's
    /// result: of `receive` and `peek` the first item, and of any other 1. No task is woken.
    #[inline(always)]
    pub fn carry_out(
        &mut self,
        caller: Option<TaskId>,
        object: ObjectId,
        access: Access<u32>,
    ) -> Option<u32>
        requires possible { allows (object_in self.old.objects object) access ≡ true }
        requires room { HasRoom self.old object access }
        ensures answer { result ≡ reply (object_in self.old.objects object) access }
        ensures objects { self.new ≡ record self.old {
          objects = slice_set self.old.objects object
              (object_after caller access (object_in self.old.objects object));
        } }
        // In the definitions too, if the caller is a task that exists.
        ensures stands { (s : State) (decider : Option Decider) → StandsFor self.old decider s
            → IfSome caller (λ task. task < length s.tasks) → StandsFor self.new decider
            (with_object object (object_after caller access (object_at s object)) s) }
    {
        let number = object.number as usize;
        match access {
            Access::Send(item) => {
                self.items.push_back(number, item);
                Some(1)
            }
            Access::SendFront(item) => {
                self.items.push_front(number, item);
                Some(1)
            }
            Access::Overwrite(item) => {
                self.items.replace(number, item);
                Some(1)
            }
            Access::Receive => self.items.pop_front(number),
            Access::Peek => self.items.first(number),
            Access::Take => {
                self.semaphores.take(number);
                Some(1)
            }
            Access::Give => {
                self.semaphores.give(number);
                Some(1)
            }
            Access::Lock => {
                self.mutexes.lock(number, caller);
                Some(1)
            }
        }
    }

    /// The task that holds a mutex (`xSemaphoreGetMutexHolder`); `None` if none does.
    pub fn holder(&self, object: ObjectId) -> Option<TaskId>
        ensures holder { result ≡ (object_in self.now.objects object).holder }
        ensures stands { (s : State) (decider : Option Decider) → StandsFor self.now decider s
            → result ≡ (object_at s object).holder }
        // It is a task that there is.
        ensures known { (s : State) (decider : Option Decider) → StandsFor self.now decider s
            → IfSome result (λ task. task < length s.tasks) }
    {
        self.mutexes.holder(object.number as usize)
    }

    /// How many mutexes a task holds, 0 to 33 (`uxMutexesHeld`).
    pub fn mutexes_held(&self, task: TaskId) -> u8
        ensures held { result ≡ held_of self.now.objects task }
        ensures stands { (s : State) (decider : Option Decider) → StandsFor self.now decider s
            → result ≡ mutexes.mutexes_held s task }
    {
        self.mutexes.held_by(task)
    }

    /// Frees a mutex that this task holds; any other task is refused, and changes nothing.
    pub fn give_mutex(&mut self, task: TaskId, object: ObjectId) -> Result<(), NotHolder>
        ensures held { IsOk result ↔ ((object_in self.old.objects object).holder ≡ Some task) }
        ensures given { OnOk result (self.new ≡ record self.old {
          objects = slice_set self.old.objects object
              (record (object_in self.old.objects object) { holder = None });
        }) }
        ensures refused { OnErr result (self.new ≡ self.old) }
        // In the definitions too; and by itself it is no misuse,
        ensures stands { OnOk result ((s : State) (decider : Option Decider)
            → StandsFor self.old decider s → StandsFor self.new decider
            (with_object object (record (object_at s object) { holder = None }) s)) }
        ensures allowed { OnOk result ((s : State) (decider : Option Decider)
            → StandsFor self.old decider s → own_misuse s task (op.GiveMutex object) ≡ None) }
        // or it is one.
        ensures misuse { OnErr result ((s : State) (decider : Option Decider)
            → StandsFor self.old decider s
            → own_misuse s task (op.GiveMutex object) ≡ Some misuses.NotHolder) }
    {
        if self.holder(object) != Some(task) {
            return Err(NotHolder);
        }
        self.mutexes.unlock(object.number as usize, task);
        Ok(())
    }

    /// Whether an object is locked.
    pub fn is_locked(&self) -> bool
        ensures locked { result ≡ is_some self.now.lock }
        ensures stands { (s : State) (decider : Option Decider) → StandsFor self.now decider s
            → result ≡ is_some s.locked }
    {
        self.lock.is_some()
    }

    /// Whether a task is in a waiting list.
    pub fn is_waiting(&self, task: TaskId) -> bool
        ensures waiting { result ≡ is_some (place_of self.now.waiting task) }
        // In the definitions it waits, or has been woken and isn't Ready yet.
        ensures stands { (s : State) → StandsFor self.now None s
            → result ≡ is_some (wait_of (status_at s task)) }
        // A task that isn't placed yet is in none, and any other in the list in which it waits.
        ensures placing { (s : State) (decider : Decider) → StandsFor self.now (Some decider) s
            → result ≡ not (task == decider.task) && is_some (wait_of (status_at s task)) }
    {
        self.waiting.is_waiting(task)
    }

    /// Whether any task is in a waiting list.
    pub fn has_waiter(&self) -> bool
        // In the definitions some task waits, or has been woken and isn't Ready yet.
        ensures stands { (s : State) → StandsFor self.now None s
            → result ≡ list_any (λ (t : Task). is_some (wait_of t.status)) s.tasks }
    {
        for number in 0..32 {
            if self.is_waiting(TaskId { number }) {
                return true;
            }
        }
        false
    }

    /// The priority of the best waiter of a list, 0 to 31 (`prvGetDisinheritPriorityAfterTimeout`); 0 if no task waits
    /// there.
    pub fn best_priority(&self, list: WaitList) -> u8
        ensures best { result ≡ first_priority (waiting_in self.now.waiting list) }
        ensures known { result < 32 }
        // In the definitions too, while nothing is locked.
        ensures stands { (s : State) → StandsFor self.now None s → AtLocked None s → self.now.lock ≡ None
            → result ≡ mutexes.best_priority s list }
    {
        self.waiting.best_priority(list)
    }

    /// Locks an object, if none is locked (see `is_locked`; `prvLockQueue`).
    pub fn lock(&mut self, object: ObjectId)
        requires free { self.old.lock ≡ None }
        ensures lock { self.new ≡ record self.old {
          lock = Some (record { object = object; receivers = 0; senders = 0 });
        } }
        // In the definitions nobody is Awake then.
        ensures stands { (s : State) (decider : Option Decider) → StandsFor self.old decider s
            → ((task : ℕ) → wait_if_awake (status_at s task) ≡ None)
            → StandsFor self.new decider (record s { locked = Some object }) }
    {
        self.lock = Some(Lock {
            object,
            receivers: 0,
            senders: 0,
        });
    }

    /// Wakes the best waiter of a list (`xTaskRemoveFromEventList`). Returns the task that becomes Ready; `None` if no
    /// task waits there, or if its object is locked: then the wake is counted.
    pub fn wake_best(&mut self, list: WaitList) -> Option<TaskId>
        ensures objects { self.new.objects ≡ self.old.objects }
        ensures woken { self.new ≡ after_wake (counted_by list self.old.lock) list self.old }
        ensures best { result ≡ readied_by (counted_by list self.old.lock) list self.old }
        ensures stands { (s : State) (decider : Option Decider) → StandsFor self.old decider s
            → AtLocked decider s → StandsFor self.new decider (waiting.wake_best list s) }
        ensures ready { (s : State) (decider : Option Decider) → StandsFor self.old decider s
            → AtLocked decider s → result ≡ if is_locked s.locked list then None
            else task_of (first (waiting.waiters s list)) }
    {
        // Through a reference, since the borrow checker takes a value that is passed on twice for moved.
        let list = &list;
        match self.counted(*list) {
            Some(lock) => {
                self.lock = Some(lock);
                None
            }
            None => self.waiting.take_best(*list),
        }
    }

    /// The lock with one more wake counted, if the list is one of the locked object's; otherwise `None`.
    fn counted(&self, list: WaitList) -> Option<Lock>
        ensures counted { result ≡ counted_by list self.now.lock }
    {
        self.lock?.counted(list)
    }

    /// Unlocks the locked object (`prvUnlockQueue`): takes the tasks that were woken since out of its lists. They become
    /// Ready, first those that waited to receive. `None` if nothing is locked.
    pub fn unlock(&mut self) -> Option<Unlocked>
        ensures locked { IsSome result ↔ IsSome self.old.lock }
        ensures left { self.new ≡ after_unlock self.old.lock self.old }
        // The tasks that it returns are the first of the two lists, in order, as many of each as the lock has
        // counted.
        ensures counted { IfSome result (λ unlocked. IfSome self.old.lock (λ lock.
            AreCounted lock self.old unlocked.to_receive.items unlocked.to_send.items)) }
        ensures free { self.new.lock ≡ None }
        ensures objects { self.new.objects ≡ self.old.objects }
        ensures stands { (s : State) → StandsFor self.old None s
            → StandsFor self.new None (waiting.unlock s) }
        // They are the Awake tasks, in their order.
        ensures awakened { (s : State) → StandsFor self.old None s
            → IfSome result (λ unlocked. (object : ℕ) × (s.locked ≡ Some object)
            × AreAwakened s object unlocked.to_receive.items unlocked.to_send.items) }
        ensures woken { (s : State) → StandsFor self.old None s
            → IfSome result (λ unlocked. waiting.unlock s ≡ for_each make_ready
            (unlocked.to_receive.items ++ unlocked.to_send.items) (opened s)) }
    {
        let lock = self.lock?;
        self.lock = None;
        Some(
            self.waiting
                .unlock(lock.object, lock.receivers, lock.senders),
        )
    }

    /// Unlocks the locked object if no task was woken since, and returns whether that is so; otherwise nothing changes.
    pub fn unlock_if_none_woken(&mut self) -> bool
        ensures answers { IsTrue result ↔ (IsSome self.old.lock × CountsNobody self.old) }
        ensures kept { result ≡ false → self.new ≡ self.old }
        ensures free { result ≡ true → self.new.lock ≡ None }
        ensures objects { self.new.objects ≡ self.old.objects }
        ensures stands { (s : State) → result ≡ true → StandsFor self.old None s
            → StandsFor self.new None (waiting.unlock s) }
        // In the definitions nobody becomes Ready then.
        ensures woken { (s : State) → result ≡ true → StandsFor self.old None s → waiting.unlock s ≡ opened s }
    {
        match self.lock {
            Some(lock) if lock.receivers == 0 && lock.senders == 0 => self.lock.take().is_some(),
            _ => false,
        }
    }

    /// Puts a task that has begun to wait, and is in no list (see `is_waiting`), into its list, with its priority of 0 to
    /// 31 (`vTaskPlaceOnEventList`): after all that are not of lower priority.
    #[inline(always)]
    pub fn place(&mut self, list: WaitList, task: TaskId, priority: u8)
        requires priority { priority < 32 }
        requires free { place_of self.old.waiting task ≡ None }
        ensures put { self.new ≡ record self.old {
          waiting = slice_set self.old.waiting (number_of list)
              (insert_by_priority (task, priority) (waiting_in self.old.waiting list));
        } }
        ensures stands { (s : State)
            → StandsFor self.old (Some (record { task = task; list = list; priority = priority })) s
            → StandsFor self.new None s }
    {
        self.waiting.wait(list, task, priority);
    }

    /// Takes a task out of the list that it is in, as its deadline has come or it is suspended. One that is in none stays so.
    pub fn drop_waiter(&mut self, task: TaskId)
        ensures gone { self.new ≡ record self.old { waiting = map (without task) self.old.waiting } }
        // In the definitions nothing is locked then, and it becomes Ready.
        ensures stands { (s : State) → StandsFor self.old None s → self.old.lock ≡ None
            → task < length s.tasks → StandsFor self.new None (make_ready task s) }
        // Or it is Suspended.
        ensures suspended { (s : State) → StandsFor self.old None s → self.old.lock ≡ None
            → task < length s.tasks → StandsFor self.new None (with_status task Suspended s) }
    {
        self.waiting.drop_waiter(task);
    }
}
