//! The tasks that are woken while the scheduler is held.
ghost use Rattle.std.specs.Prelude.{◌≡◌, ◌↔◌, true, false, [], ◌∷◌, ◌++◌, drop, slice_get, IfSome, IsTrue};
ghost use Rattle.task_lists.specs.Tasks.{is_among, without_task};

use lists::ListId;
use model::TaskId;
use std::marker::Model;
use task_lists::TaskLists;

/// The tasks that were woken while the scheduler was held, the first woken first: FreeRTOS's `xPendingReadyList`.
#[derive(Drop)]
pub(crate) struct PendingReadyList {
    lists: TaskLists<1, 33>,
}

// Clauses see the tasks in order.
impl Model for PendingReadyList {
    ghost use Rattle.std.specs.Prelude.{ℕ, List};
    ghost use Rattle.lists.specs.Lists.{entries_of, IsSound};
    ghost use Rattle.task_lists.specs.Tasks.{tasks_in};

    ghost Value = { List ℕ };

    ghost view = { λ p. tasks_in (entries_of p.lists 0) };

    ghost invariant = { λ p. IsSound 1 32 p.lists };
}

impl PendingReadyList {
    pub(crate) fn new() -> Self
        ensures empty { result ≡ [] }
    {
        PendingReadyList {
            lists: TaskLists::new(),
        }
    }

    /// A copy.
    #[inline(always)]
    pub(crate) fn copy(&self) -> Self
        ensures { result ≡ self.now }
    {
        PendingReadyList {
            lists: self.lists.copy(),
        }
    }

    /// Becomes a copy of the other, in place.
    pub(crate) fn set_from(&mut self, other: &Self)
        ensures { self.new ≡ other.now }
    {
        if self.is_empty() && other.is_empty() {
            return;
        }
        self.lists.set_from(&other.lists);
    }

    /// Whether the same tasks are pending in the other, in the same order.
    pub(crate) fn is_same(&self, other: &Self) -> bool
        ensures { result ≡ true → self.now ≡ other.now }
    {
        if self.is_empty() && other.is_empty() {
            return true;
        }
        self.lists.is_same(&other.lists)
    }

    /// Whether nobody is pending.
    pub(crate) fn is_empty(&self) -> bool
        ensures empty { IsTrue result ↔ (self.now ≡ []) }
    {
        self.lists.is_empty(ListId { number: 0 })
    }

    /// Whether a task is pending.
    pub(crate) fn contains(&self, task: TaskId) -> bool
        ensures contains { result ≡ is_among task self.now }
    {
        self.lists.contains(task)
    }

    /// Puts a task last.
    pub(crate) fn push_back(&mut self, task: TaskId)
        requires free { is_among task self.old ≡ false }
        ensures put { self.new ≡ self.old ++ task ∷ [] }
    {
        self.lists.push_back(ListId { number: 0 }, task, 0);
    }

    /// Takes the first task out, if there is one.
    #[inline]
    pub(crate) fn pop_front(&mut self) -> Option<TaskId>
        ensures first { result ≡ slice_get self.old 0 }
        ensures rest { self.new ≡ drop 1 self.old }
        ensures once { IfSome result (λ task. is_among task self.new ≡ false) }
    {
        self.lists.pop_front(ListId { number: 0 })
    }

    /// Takes a task out, if it is pending.
    pub(crate) fn remove(&mut self, task: TaskId)
        ensures removed { self.new ≡ without_task task self.old }
    {
        self.lists.remove(task);
    }
}
