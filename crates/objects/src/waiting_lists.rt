//! The tasks that wait at objects, in lists.
ghost use Rattle.std.specs.Prelude.{◌≡◌, ◌≢◌, ℕ, ◌<◌, [], ◌++◌, map, replicate, slice_set, take, drop, length, true, false, Option, Some, None};
ghost use Rattle.std.specs.Option.{is_some};
ghost use Rattle.lists.specs.Lists.{first_of, has_node, place_of, without, IsSound};
ghost use Rattle.model.specs.declared.call.WaitList as definitions;
ghost use Rattle.model.specs.declared.call.WaitList.TheVariants.{ToReceive, ToSend};
ghost use Rattle.model.specs.State.{State, Suspended, task_at, with_status, for_one, for_each};
ghost use Rattle.model.specs.Order as order;
ghost use Rattle.model.specs.Switching.{make_ready};
ghost use Rattle.model.specs.Waiting as waiting;
ghost use Rattle.model.specs.Waiting.{is_locked, waiters, wait_in, wake_best};
ghost use Rattle.model.specs.Invariant.{IsTable};
ghost use Rattle.objects.specs.Places.{list_places};
ghost use Rattle.objects.specs.WaitingLists.{best_of, first_priority, number_of, waiting_in, without_woken};
ghost use Rattle.task_lists.specs.Tasks.{insert_by_priority, tasks_in};
ghost use Rattle.objects.specs.WaitersStand.{AreAwakened, AtLocked, Decider, StandLocked, WaitersStand, opened, standing};

use crate::OBJECTS;
use arrayvec::ArrayVec;
use lists::ListId;
use model::{ObjectId, TaskId, WaitList};
use std::marker::Model;
use task_lists::TaskLists;

/// How many waiting lists there are: two of each object.
const LISTS: usize = 2 * OBJECTS;

/// How many links they have: one for each list, and one for each of 32 tasks.
const LINKS: usize = LISTS + 32;

/// Tasks that were taken out of a list, 32 at most, in the order in which they were there.
pub type Taken = ArrayVec<TaskId, 32>;

/// Tasks that were taken out of the two lists of an object.
#[derive(Drop)]
pub struct Unlocked {
    pub to_receive: Taken,
    pub to_send: Taken,
}

/// The tasks that wait to receive from each object, and those that wait to send to it: each task is in one list at most.
/// In a list a task comes before those of lower priority, and after those of its own that came before it.
///
/// These are FreeRTOS's event lists, whose items also have the value `configMAX_PRIORITIES` minus the priority, so that
/// `vListInsert` puts the highest priority first.
#[derive(Drop)]
pub(crate) struct WaitingLists {
    lists: TaskLists<LISTS, LINKS>,
}

// Clauses see for each list its tasks in order, each with its priority.
impl Model for WaitingLists {
    ghost use Rattle.std.specs.Prelude.{ℕ, List};
    ghost use Rattle.objects.specs.WaitingLists.{mirrored, AreWaitingLists};

    ghost Value = { List (List (ℕ × ℕ)) };

    ghost view = { λ w. mirrored w.lists };

    ghost invariant = { λ w. AreWaitingLists w.lists };
}

/// The number of a list.
fn list_id(list: WaitList) -> ListId
    ensures number { result.number ≡ number_of list }
    ensures known { result.number < list_places }
{
    let number = match list {
        WaitList::ToReceive(object) => 2 * object.number,
        WaitList::ToSend(object) => 2 * object.number + 1,
    };
    ListId {
        number: number as u16,
    }
}

impl WaitingLists {
    /// Nobody waits.
    pub(crate) fn new() -> Self
        ensures empty { result ≡ replicate list_places [] }
        ensures stand { (s : State) → IsTable s
            → ((list : definitions.WaitList) → standing s list ≡ []) → WaitersStand result None s }
        ensures sound { IsSound list_places 32 result }
    {
        WaitingLists {
            lists: TaskLists::new(),
        }
    }

    /// A copy.
    pub(crate) fn copy(&self) -> Self
        ensures { result ≡ self.now }
    {
        WaitingLists {
            lists: self.lists.copy(),
        }
    }

    /// Becomes a copy of the other, in place.
    pub(crate) fn set_from(&mut self, other: &Self)
        ensures { self.new ≡ other.now }
    {
        self.lists.set_from(&other.lists);
    }

    /// Whether the same tasks wait in each list of the other, in the same order and with the same priorities.
    pub(crate) fn is_same(&self, other: &Self) -> bool
        ensures { result ≡ true → self.now ≡ other.now }
    {
        self.lists.is_same(&other.lists)
    }

    /// Whether a task is in a list.
    pub(crate) fn is_waiting(&self, task: TaskId) -> bool
        ensures waiting { result ≡ is_some (place_of self.now task) }
        ensures sound { IsSound list_places 32 self.now }
    {
        self.lists.contains(task)
    }

    /// Puts a task that is in no list (see `is_waiting`) into a list, with its priority of 0 to 31: after all that are
    /// not of lower priority.
    #[inline(always)]
    pub(crate) fn wait(&mut self, list: WaitList, task: TaskId, priority: u8)
        requires priority { priority < 32 }
        requires free { place_of self.old task ≡ None }
        ensures put { self.new ≡ slice_set self.old (number_of list)
            (insert_by_priority (task, priority) (waiting_in self.old list)) }
        // In the definitions it begins to wait,
        ensures begins { (s : State) → WaitersStand self.old None s → task < length s.tasks
            → (task_at s task).priority ≡ priority → WaitersStand self.new None (wait_in task list s) }
        // or has begun before, and is placed.
        ensures places { (s : State)
            → WaitersStand self.old (Some (record { task = task; list = list; priority = priority })) s
            → WaitersStand self.new None s }
        ensures sound { IsSound list_places 32 self.new }
    {
        self.lists
            .insert_sorted(list_id(list), task, 31 - priority as u32);
    }

    /// The best waiter of a list, its first; `None` if no task waits there.
    pub(crate) fn best(&self, list: WaitList) -> Option<TaskId>
        ensures best { result ≡ first_of (waiting_in self.now list) }
        // In the definitions it is the best of the tasks that wait there, if its object isn't locked.
        ensures waiter { (s : State) (decider : Option Decider) → WaitersStand self.now decider s
            → AtLocked decider s → is_locked s.locked list ≡ false
            → result ≡ order.task_of (order.first (waiters s list)) }
        ensures sound { IsSound list_places 32 self.now }
    {
        self.lists.first(list_id(list))
    }

    /// The priority of the best waiter of a list, 0 to 31; 0 if no task waits there.
    pub(crate) fn best_priority(&self, list: WaitList) -> u8
        ensures best { result ≡ first_priority (waiting_in self.now list) }
        ensures known { result < 32 }
    {
        match self.lists.first(list_id(list)) {
            None => 0,
            Some(best) => 31 - self.lists.value(best) as u8,
        }
    }

    /// Takes the best waiter out of a list; `None` if no task waits there.
    pub(crate) fn take_best(&mut self, list: WaitList) -> Option<TaskId>
        ensures best { result ≡ first_of (waiting_in self.old list) }
        ensures left { self.new ≡ slice_set self.old (number_of list)
            (drop 1 (waiting_in self.old list)) }
        ensures waiter { (s : State) (decider : Option Decider) → WaitersStand self.old decider s
            → AtLocked decider s → is_locked s.locked list ≡ false
            → result ≡ order.task_of (order.first (waiters s list)) }
        // In the definitions the best waiter is woken, if its object isn't locked;
        ensures wakes { (s : State) (decider : Option Decider) → WaitersStand self.old decider s
            → AtLocked decider s → is_locked s.locked list ≡ false
            → WaitersStand self.new decider (wake_best list s) }
        // and if another object is, its counts stay;
        ensures counts { (s : State) (decider : Option Decider) (object receivers senders : ℕ)
            → StandLocked self.old decider object receivers senders s → AtLocked decider s
            → is_locked s.locked list ≡ false
            → StandLocked self.new decider object receivers senders (wake_best list s) }
        // and in any case the task that is taken out becomes Ready.
        ensures woken { (s : State) → WaitersStand self.old None s
            → WaitersStand self.new None (for_one make_ready result s) }
        ensures sound { IsSound list_places 32 self.new }
    {
        let best = self.best(list)?;
        self.drop_waiter(best);
        Some(best)
    }

    /// Takes a task out of the list that it is in. One that is in none stays so.
    pub(crate) fn drop_waiter(&mut self, task: TaskId)
        ensures gone { self.new ≡ map (without task) self.old }
        // In the definitions it becomes Ready,
        ensures readied { (s : State) → WaitersStand self.old None s → task < length s.tasks
            → WaitersStand self.new None (make_ready task s) }
        // or Suspended,
        ensures suspended { (s : State) → WaitersStand self.old None s → task < length s.tasks
            → WaitersStand self.new None (with_status task Suspended s) }
        // It becomes Ready also while another task isn't placed yet, in whose list it isn't.
        ensures readied_but { (s : State) (decider : Decider) → WaitersStand self.old (Some decider) s
            → task < length s.tasks → task ≢ decider.task
            → has_node task (waiting_in self.old decider.list) ≡ false
            → WaitersStand self.new (Some decider) (make_ready task s) }
        ensures sound { IsSound list_places 32 self.new }
    {
        self.lists.remove(task);
    }

    /// Takes this many of the best waiters out of a list, or all if there are fewer, and returns them in order.
    pub(crate) fn take(&mut self, list: WaitList, count: u8) -> Taken
        ensures taken { result.items ≡ take count (tasks_in (waiting_in self.old list)) }
        ensures left { self.new ≡ slice_set self.old (number_of list)
            (drop count (waiting_in self.old list)) }
        // In the definitions they become Ready, one after another.
        ensures woken { (s : State) → WaitersStand self.old None s
            → WaitersStand self.new None (for_each make_ready result.items s) }
        ensures sound { IsSound list_places 32 self.new }
    {
        self.in_order();
        let mut taken = ArrayVec::new();
        // Through a reference, since the borrow checker takes a value that the loop passes on for moved.
        let list = &list;
        for _ in 0..count {
            if let Some(best) = self.take_best(*list) {
                taken.push(best);
            }
        }
        taken
    }

    /// Takes the tasks out of the lists of an object that were woken while it was locked: this many that wait to
    /// receive, and this many that wait to send. They become Ready, the former first.
    pub(crate) fn unlock(&mut self, object: ObjectId, receivers: u8, senders: u8) -> Unlocked
        ensures left { self.new ≡ without_woken object receivers senders self.old }
        ensures to_receive { result.to_receive.items ≡ best_of (ToReceive object) receivers self.old }
        ensures to_send { result.to_send.items ≡ best_of (ToSend object) senders self.old }
        ensures awakened { (s : State) → StandLocked self.old None object receivers senders s
            → AreAwakened s object result.to_receive.items result.to_send.items }
        ensures woken { (s : State) → StandLocked self.old None object receivers senders s
            → waiting.unlock s
            ≡ for_each make_ready (result.to_receive.items ++ result.to_send.items) (opened s) }
        ensures unlocks { (s : State) → StandLocked self.old None object receivers senders s
            → WaitersStand self.new None (waiting.unlock s) }
        ensures sound { IsSound list_places 32 self.new }
    {
        let to_receive = self.take(WaitList::ToReceive(object), receivers);
        let to_send = self.take(WaitList::ToSend(object), senders);
        Unlocked {
            to_receive,
            to_send,
        }
    }

    /// Does nothing: its contract says what holds of the lists.
    fn in_order(&self)
        ensures sound { IsSound list_places 32 self.now }
    {
        let _ = &self.lists;
    }
}
