//! The event groups, and the tasks that wait for bits of them or for a notification.
ghost use Rattle.std.specs.Prelude.{bit_or, ◌≡◌, ◌<◌, ◌++◌, ◌∷◌, ℕ, List, [], None, Some, Option, length, map, replicate, slice_set, if◌then◌else◌, true, IsTrue};
ghost use Rattle.std.specs.List.{list_any};
ghost use Rattle.std.specs.Option.{is_some};
ghost use Rattle.lists.specs.Lists.{place_of, without};
ghost use Rattle.model.specs.State.{State, Suspended, Task, bits_at, status_at, waits_for_notification, with_bits, with_status};
ghost use Rattle.model.specs.Switching.{make_ready};
ghost use Rattle.model.specs.Invariant.{IsTable};
ghost use Rattle.model.specs.Groups as definitions;
ghost use Rattle.model.specs.Notifications.{begin_notification_wait, wait_for_notification};
ghost use Rattle.groups.specs.EventGroups.{bits_in, after_set, for_notifications, left_by, met_of, no_condition, waiting_in, wanted_by};
ghost use Rattle.groups.specs.StandsFor.{StandsFor, event_wait};

use crate::bits::{bits_left, bits_without, is_met};
use crate::met::{Met, take_met};
use lists::ListId;
use model::{Condition, GroupId, TaskId};
use std::marker::Model;
use task_lists::TaskLists;

/// What is kept of a task that has not waited for bits yet.
const NO_CONDITION: Condition = Condition {
    mask: 0,
    all: false,
    clear: false,
};

/// 16 event groups, each of 24 bits, and the tasks that wait for bits of them, each task at one group at most, or for a notification. A
/// mask is 0 to 16,777,215; its upper 8 bits, which FreeRTOS refuses, are treated like the others (profile).
///
/// A group is FreeRTOS's `EventGroup_t`, whose `xTasksWaitingForBits` has the tasks in the order in which they began to wait too, whatever
/// their priorities. That the groups are in one table is profile, as is the list of it for tasks that wait for a notification.
#[derive(Drop)]
pub struct Groups {
    bits: [u32; 16],
    lists: TaskLists<17, 49>,
    wants: [Condition; 32],
    /// Whether anything was done with a group. If not, nothing is copied or compared.
    used: bool,
}

// Clauses see the bits of each group, which tasks wait at it, and for which bits.
impl Model for Groups {
    ghost use Rattle.std.specs.Prelude.{◌≡◌, false};
    ghost use Rattle.groups.specs.EventGroups.{EventGroups, AreGroups, unused};

    ghost Value = { EventGroups };

    ghost view = { λ g. record { bits = g.bits; waiting = g.lists; wants = g.wants } };

    ghost invariant = { λ g. AreGroups (record { bits = g.bits; waiting = g.lists; wants = g.wants })
        × (g.used ≡ false → record { bits = g.bits; waiting = g.lists; wants = g.wants } ≡ unused) };
}

/// The list of the tasks that wait for a notification, after those of the groups.
const FOR_NOTIFICATIONS: ListId = ListId { number: 16 };

/// The list of the tasks that wait for bits of a group.
fn list_id(group: GroupId) -> ListId
    ensures number { result.number ≡ group }
    ensures known { result.number < 16 }
{
    ListId {
        number: group.number as u16,
    }
}

impl Groups {
    /// No bit is set, and nobody waits.
    pub fn new() -> Self
        ensures clear { result.bits ≡ replicate 16 0 }
        ensures nobody { result.waiting ≡ replicate 17 [] }
        ensures nothing { result.wants ≡ replicate 32 no_condition }
        ensures stands { (s : State) → IsTable s → ((group : ℕ) → bits_at s group ≡ 0)
            → ((task : ℕ) → event_wait (status_at s task) ≡ None) → StandsFor result s }
    {
        Groups {
            bits: [0; 16],
            lists: TaskLists::new(),
            wants: [NO_CONDITION; 32],
            used: false,
        }
    }

    /// A copy. It takes no memory.
    pub fn copy(&self) -> Self
        ensures { result ≡ self.now }
    {
        Groups {
            bits: self.bits,
            lists: self.lists.copy(),
            wants: self.wants,
            used: self.used,
        }
    }

    /// Becomes a copy of the other, in place. It takes no memory.
    pub fn set_from(&mut self, other: &Self)
        ensures { self.new ≡ other.now }
    {
        if !self.used && !other.used {
            return;
        }
        self.bits = other.bits;
        self.lists.set_from(&other.lists);
        self.wants = other.wants;
        self.used = other.used;
    }

    /// Whether the other groups have the same bits, and the same tasks wait for bits of them, in the same order and for the
    /// same. What a task that waits for nothing waited for last doesn't count.
    pub fn is_same(&self, other: &Self) -> bool
        // Whatever state these groups represent, the other ones do too.
        ensures { result ≡ true → (s : State) → StandsFor self.now s → StandsFor other.now s }
    {
        if !self.used && !other.used {
            return true;
        }
        if self.bits != other.bits || !self.lists.is_same(&other.lists) {
            return false;
        }
        self.lists.is_clear() || self.has_same_wants(other)
    }

    /// Whether each task that waits for bits waits for those for which it waits, or waited last, in the other.
    fn has_same_wants(&self, other: &Self) -> bool
        ensures { result ≡ true → (task : ℕ) → IsTrue (is_some (place_of self.now.waiting task))
            → wanted_by other.now.wants task ≡ wanted_by self.now.wants task }
    {
        for task in 0..32 {
            if !self.lists.contains(TaskId { number: task }) {
                continue;
            }
            if self.wants[task as usize] != other.wants[task as usize] {
                return false;
            }
        }
        true
    }

    /// The bits of a group (`xEventGroupGetBits`).
    pub fn bits(&self, group: GroupId) -> u32
        ensures bits { result ≡ bits_in self.now group }
        ensures stands { (s : State) → StandsFor self.now s → result ≡ bits_at s group }
    {
        self.bits[group.number as usize]
    }

    /// Whether the bits of a group meet a condition.
    pub fn check(&self, group: GroupId, condition: &Condition) -> bool
        ensures met { result ≡ definitions.is_met (bits_in self.now group) condition.now }
        ensures stands { (s : State) → StandsFor self.now s
            → result ≡ definitions.is_met (bits_at s group) condition.now }
    {
        is_met(self.bits(group), condition)
    }

    /// Clears the mask's bits of a group, and returns the bits before (`xEventGroupClearBits`).
    pub fn clear(&mut self, group: GroupId, mask: u32) -> u32
        ensures before { result ≡ bits_in self.old group }
        ensures cleared { self.new ≡ record self.old {
          bits = slice_set self.old.bits group (definitions.bits_without (bits_in self.old group) mask);
        } }
        ensures answer { (s : State) → StandsFor self.old s → result ≡ bits_at s group }
        ensures stands { (s : State) → StandsFor self.old s → StandsFor self.new
            (with_bits group (definitions.bits_without (bits_at s group) mask) s) }
    {
        let bits = self.bits(group);
        self.bits[group.number as usize] = bits_without(bits, mask);
        self.used = true;
        bits
    }

    /// Returns the bits of a group, as a wait that is over does. If they meet its condition, and it asks to clear
    /// them, they are cleared (`xEventGroupWaitBits`).
    pub fn final_bits(&mut self, group: GroupId, condition: &Condition) -> u32
        ensures before { result ≡ bits_in self.old group }
        ensures cleared { self.new
            ≡ (if definitions.is_met (bits_in self.old group) condition.now
            then record self.old {
              bits = slice_set self.old.bits group
                  (definitions.bits_left (bits_in self.old group) condition.now);
            }
            else self.old) }
        ensures answer { (s : State) → StandsFor self.old s → result ≡ bits_at s group }
        ensures stands { (s : State) → StandsFor self.old s → StandsFor self.new
            (if definitions.is_met (bits_at s group) condition.now
            then with_bits group (definitions.bits_left (bits_at s group) condition.now) s
            else s) }
    {
        let bits = self.bits(group);
        if is_met(bits, condition) {
            self.bits[group.number as usize] = bits_left(bits, condition);
            self.used = true;
        }
        bits
    }

    /// Whether a task waits for bits of a group, or for a notification.
    pub fn is_waiting(&self, task: TaskId) -> bool
        ensures waiting { result ≡ is_some (place_of self.now.waiting task) }
        ensures stands { (s : State) → StandsFor self.now s
            → result ≡ is_some (event_wait (status_at s task)) }
    {
        self.lists.contains(task)
    }

    /// Whether any task waits for bits of a group, or for a notification.
    pub fn has_waiter(&self) -> bool
        ensures stands { (s : State) → StandsFor self.now s
            → result ≡ list_any (λ (t : Task). is_some (event_wait t.status)) s.tasks }
    {
        for number in 0..32 {
            if self.is_waiting(TaskId { number }) {
                return true;
            }
        }
        false
    }

    /// Puts a task that waits at no group (see `is_waiting`) after all tasks that wait for bits of this one,
    /// until its condition is met (`vTaskPlaceOnUnorderedEventList`).
    pub fn place(&mut self, task: TaskId, group: GroupId, condition: Condition)
        requires free { place_of self.old.waiting task ≡ None }
        ensures put { self.new ≡ record self.old {
          waiting = slice_set self.old.waiting group (waiting_in self.old group ++ (task, 0) ∷ []);
          wants = slice_set self.old.wants task condition;
        } }
        // In the definitions it begins to wait for these bits,
        ensures stands { (s : State) → StandsFor self.old s → task < length s.tasks
            → StandsFor self.new
            (definitions.wait_for_bits task group (definitions.want task condition s)) }
        // so that its call goes on to its next phase.
        ensures begins { (s : State) (ticks : Option ℕ) → StandsFor self.old s
            → task < length s.tasks
            → StandsFor self.new (definitions.begin_bits_wait task group condition ticks s) }
    {
        self.wants[task.number as usize] = condition;
        self.lists.push_back(list_id(group), task, 0);
        self.used = true;
    }

    /// Sets the mask's bits of a group (`xEventGroupSetBits`). The tasks that the bits then meet wait no more; once all
    /// are tested, the bits that these asked to clear are cleared.
    pub fn set(&mut self, group: GroupId, mask: u32, met: &mut Met)
        ensures set { self.new ≡ after_set group mask self.old }
        ensures bits { met.new.bits ≡ bit_or (bits_in self.old group) mask }
        ensures tasks { met.new.tasks.items
            ≡ met_of self.old.wants met.new.bits (waiting_in self.old group) }
        ensures left { met.new.left ≡ left_by self.old.wants met.new.bits met.new.tasks.items }
        // In the definitions these are met, by these bits, and this is left.
        ensures met { (s : State) → StandsFor self.old s
            → met.new.tasks.items ≡ definitions.met_by group (definitions.bits_set group mask s) s }
        ensures with_bits { (s : State) → StandsFor self.old s
            → met.new.bits ≡ definitions.bits_set group mask s }
        ensures after { (s : State) → StandsFor self.old s
            → let bits = definitions.bits_set group mask s in
            met.new.left ≡ definitions.left_by (definitions.met_by group bits s) bits s }
        ensures stands { (s : State) → StandsFor self.old s
            → StandsFor self.new (definitions.set group mask s) }
        ensures kept { (s : State) → StandsFor self.old s
            → met.new.left ≡ bits_at (definitions.set group mask s) group }
    {
        let bits = self.bits(group) | mask;
        take_met(&mut self.lists, list_id(group), &self.wants, bits, met);
        self.bits[group.number as usize] = met.left;
        self.used = true;
    }

    /// Whether a task waits for a notification.
    pub fn waits_for_notification(&self, task: TaskId) -> bool
        ensures stands { (s : State) → StandsFor self.now s → result ≡ waits_for_notification (status_at s task) }
    {
        match self.lists.list_of(task) {
            Some(list) => list.number == FOR_NOTIFICATIONS.number,
            None => false,
        }
    }

    /// Puts a task that waits for nothing here (see `is_waiting`) among the tasks that wait for a
    /// notification.
    pub fn place_for_notification(&mut self, task: TaskId)
        requires free { place_of self.old.waiting task ≡ None }
        ensures put { self.new ≡ record self.old {
          waiting = slice_set self.old.waiting for_notifications (waiting_in self.old for_notifications ++ (task, 0) ∷ []);
        } }
        // In the definitions it begins to wait,
        ensures stands { (s : State) → StandsFor self.old s → task < length s.tasks
            → StandsFor self.new (wait_for_notification task s) }
        // so that its call goes on to its next phase.
        ensures begins { (s : State) (ticks : Option ℕ) → StandsFor self.old s → task < length s.tasks
            → StandsFor self.new (begin_notification_wait task ticks s) }
    {
        self.lists.push_back(FOR_NOTIFICATIONS, task, 0);
        self.used = true;
    }

    /// Takes a task out of the list in which it waits for bits or for a notification, if it is in one: it has timed out, is suspended, or
    /// is notified.
    pub fn drop_waiter(&mut self, task: TaskId)
        ensures gone { self.new ≡ record self.old { waiting = map (without task) self.old.waiting } }
        ensures unmoved { place_of self.old.waiting task ≡ None → self.new ≡ self.old }
        // In the definitions it becomes Ready,
        ensures readied { (s : State) → StandsFor self.old s → task < length s.tasks
            → StandsFor self.new (make_ready task s) }
        // or is Suspended.
        ensures suspended { (s : State) → StandsFor self.old s → task < length s.tasks
            → StandsFor self.new (with_status task Suspended s) }
    {
        self.lists.remove(task);
    }
}
