//! The notification of each task.
ghost use Rattle.std.specs.Prelude.{◌≡◌, ◌<◌, ℕ, length, true, slice_set};
ghost use Rattle.model.specs.State.{State, no_notification, notification_at, with_notification};
ghost use Rattle.machine.specs.StandsFor.{Moves, MovesAny, Stands, notification_in};

use crate::hint::mixed;
use crate::machine::Machine;
use model::{Notification, TaskId};
use std::marker::Model;

/// What is kept of a task that was never notified.
const NONE: Notification = Notification {
    value: 0,
    pending: false,
};

/// The notification of each of 32 tasks.
#[derive(Drop)]
pub struct Notifications {
    of_tasks: [Notification; 32],
    /// Whether anything was done with one. If not, nothing is copied or compared.
    used: bool,
}

// Clauses see them in the order of the tasks.
impl Model for Notifications {
    ghost use Rattle.std.specs.Prelude.{◌≡◌, List, false, length, replicate};
    ghost use Rattle.model.specs.declared.notification.Notification.{Notification};
    ghost use Rattle.model.specs.State.{no_notification};

    ghost Value = { List Notification };

    ghost view = { λ n. n.of_tasks };

    ghost invariant = { λ n. (n.used ≡ false → n.of_tasks ≡ replicate 32 no_notification) };
}

impl Notifications {
    /// No task was notified.
    pub(crate) fn new() -> Self
        ensures none { (task : ℕ) → notification_in result task ≡ no_notification }
        ensures full { length result ≡ 32 }
    {
        Notifications {
            of_tasks: [NONE; 32],
            used: false,
        }
    }

    /// A copy. It takes no memory.
    pub(crate) fn copy(&self) -> Self
        ensures { result ≡ self.now }
    {
        Notifications {
            of_tasks: self.of_tasks,
            used: self.used,
        }
    }

    /// Becomes a copy of the other, in place. It takes no memory.
    pub(crate) fn set_from(&mut self, other: &Self)
        ensures { self.new ≡ other.now }
    {
        if self.used || other.used {
            self.of_tasks = other.of_tasks;
            self.used = other.used;
        }
    }

    /// That of a task.
    pub fn of(&self, task: TaskId) -> Notification
        ensures { result ≡ notification_in self.now task }
    {
        self.of_tasks[task.number as usize]
    }

    /// That of a task becomes this one.
    pub(crate) fn set(&mut self, task: TaskId, notification: Notification)
        ensures set { self.new ≡ slice_set self.old task notification }
        ensures known { task < 32 }
    {
        self.of_tasks[task.number as usize] = notification;
        self.used = true;
    }

    /// Whether the two are the same.
    pub(crate) fn is_same(&self, other: &Self) -> bool
        ensures { result ≡ true → self.now ≡ other.now }
    {
        if self.used || other.used {
            self.of_tasks == other.of_tasks
        } else {
            true
        }
    }

    /// A number that is the same for equal ones, and usually differs for others if they differ in so many first tasks. Nothing rests
    /// on it.
    pub(crate) fn hint(&self, tasks: usize) -> u64 {
        if !self.used {
            return 0;
        }
        let mut hash = 0;
        for notification in self.of_tasks.iter().take(tasks) {
            hash = mixed(
                hash,
                notification.value as u64 * 2 + notification.pending as u64,
            );
        }
        hash
    }
}

impl Machine {
    /// A task's notification.
    pub fn notification(&self, task: TaskId) -> Notification
        ensures kernel { result ≡ notification_in self.now.notifications task }
        ensures state { (s : State) → Stands self.now s → result ≡ notification_at s task }
    {
        self.notifications.of(task)
    }

    /// A task's notification becomes this one.
    pub fn set_notification(&mut self, task: TaskId, notification: Notification)
        ensures does { Moves self.old self.new (with_notification task notification) }
        ensures any { MovesAny self.old self.new (with_notification task notification) }
        ensures rest { self.new ≡ record self.old { notifications = slice_set self.old.notifications task notification } }
    {
        self.notifications.set(task, notification);
    }
}
