//! The Ready tasks: a list for each priority.
ghost use Rattle.std.specs.Prelude.{◌≡◌, ℕ, ◌<◌, ◌==◌, not, List, [], ◌∷◌, ◌++◌, map, Option, option_map, replicate, slice_set, None, Some, true, IsTrue, ◌↔◌};
ghost use Rattle.std.specs.List.{list_any};
ghost use Rattle.std.specs.Option.{is_some};
ghost use Rattle.lists.specs.Lists.{entries_of, first_of, place_of, rotated, second_of, without, IsSound};
ghost use Rattle.sched.specs.ReadyLists.{ready_list_of, is_below, IsHighest};

use lists::ListId;
use model::TaskId;
use std::marker::Model;
use task_lists::TaskLists;

/// A list of tasks for each priority. Bit `p` of `occupied` says that the list of priority `p` is not
/// empty.
#[derive(Drop)]
pub(crate) struct ReadyLists {
    lists: TaskLists<32, 64>,
    occupied: u32,
}

// Clauses see the lists, each task with its priority as the value.
impl Model for ReadyLists {
    ghost use Rattle.std.specs.Prelude.{ℕ, List};
    ghost use Rattle.sched.specs.ReadyLists.{AreReadyLists};

    ghost Value = { List (List (ℕ × ℕ)) };

    ghost view = { λ r. r.lists };

    ghost invariant = { λ r. AreReadyLists r.lists r.occupied };
}

impl ReadyLists {
    pub(crate) fn new() -> Self
        ensures empty { result ≡ replicate 32 [] }
        ensures sound { IsSound 32 32 result }
    {
        ReadyLists {
            lists: TaskLists::new(),
            occupied: 0,
        }
    }

    /// A copy.
    #[inline(always)]
    pub(crate) fn copy(&self) -> Self
        ensures { result ≡ self.now }
    {
        ReadyLists {
            lists: self.lists.copy(),
            occupied: self.occupied,
        }
    }

    /// Becomes a copy of the other, in place.
    pub(crate) fn set_from(&mut self, other: &Self)
        ensures { self.new ≡ other.now }
    {
        self.lists.set_from(&other.lists);
        self.occupied = other.occupied;
    }

    /// Whether the other has the same tasks in the same order.
    pub(crate) fn is_same(&self, other: &Self) -> bool
        ensures { result ≡ true → self.now ≡ other.now }
    {
        self.occupied == other.occupied && self.lists.is_same(&other.lists)
    }

    /// The highest list that is not empty.
    pub(crate) fn highest(&self) -> Option<ListId>
        ensures highest { IsHighest self.now (option_map (λ list. list.number) result) }
    {
        if self.occupied == 0 {
            return None;
        }
        Some(ListId {
            number: 31 - self.occupied.leading_zeros() as u16,
        })
    }

    /// Whether a list is the highest that is not empty.
    pub(crate) fn is_highest(&self, list: ListId) -> bool
        requires { list.number < 32 }
        ensures highest { IsTrue result ↔ IsHighest self.now (Some list.number) }
    {
        self.occupied >> list.number == 1
    }

    /// Whether a list above this one is not empty.
    pub(crate) fn has_above(&self, list: ListId) -> bool
        requires { list.number < 32 }
        ensures above { (top : Option ℕ) × IsHighest self.now top × (result ≡ is_below list.number top) }
    {
        self.occupied >> list.number > 1
    }

    /// Whether any list has a task.
    pub(crate) fn has_any(&self) -> bool
        ensures any { result ≡ is_some (first_of (ready_list_of self.now)) }
    {
        self.highest().is_some()
    }

    /// The first task of the highest list that is not empty.
    pub(crate) fn first(&self) -> Option<TaskId>
        ensures first { result ≡ first_of (ready_list_of self.now) }
    {
        let list = self.highest()?;
        Some(self.lists.front(list))
    }

    /// Whether a task is the first of a list.
    pub(crate) fn is_first(&self, list: ListId, task: TaskId) -> bool
        requires { list.number < 32 }
        ensures first { IsTrue result ↔ (first_of (entries_of self.now list.number) ≡ Some task) }
    {
        self.lists.is_first(list, task)
    }

    /// Whether a task is in a list.
    pub(crate) fn contains(&self, task: TaskId) -> bool
        ensures contains { result ≡ is_some (place_of self.now task) }
        ensures sound { IsSound 32 32 self.now }
    {
        self.lists.contains(task)
    }

    /// Whether a list has another task than this one.
    pub(crate) fn has_other(&self, list: ListId, task: TaskId) -> bool
        requires { list.number < 32 }
        ensures other { result
            ≡ list_any (λ e. not (e.0 == task)) (entries_of self.now list.number) }
    {
        match self.lists.first(list) {
            None => false,
            Some(first) => first != task || self.lists.next(first).is_some(),
        }
    }

    /// Puts a task last into the list of its priority.
    pub(crate) fn push_back(&mut self, list: ListId, task: TaskId)
        requires list { list.number < 32 }
        requires free { place_of self.old task ≡ None }
        ensures put { self.new ≡ slice_set self.old list.number
            (entries_of self.old list.number ++ (task, list.number) ∷ []) }
        ensures sound { IsSound 32 32 self.new }
    {
        self.lists.push_back(list, task, list.number as u32);
        self.occupied |= 1 << list.number;
    }

    /// Puts the first task of a list last. Returns the second, which is the first from then on, if there is one.
    pub(crate) fn rotate(&mut self, list: ListId) -> Option<TaskId>
        requires { list.number < 32 }
        ensures rotated { self.new ≡ slice_set self.old list.number
            (rotated (entries_of self.old list.number)) }
        ensures second { result ≡ second_of (entries_of self.old list.number) }
        ensures sound { IsSound 32 32 self.new }
    {
        self.lists.rotate(list)
    }

    /// Takes a task out of its list, if it is in one.
    pub(crate) fn remove(&mut self, task: TaskId)
        ensures removed { self.new ≡ map (without task) self.old }
        ensures sound { IsSound 32 32 self.new }
    {
        if let Some(list) = self.lists.list_of(task) {
            self.lists.remove(task);
            if self.lists.is_empty(list) {
                self.occupied &= !(1 << list.number);
            }
        }
    }
}
