//! Lists of tasks, by their typed numbers.
ghost use Rattle.std.specs.Prelude.{◌≡◌, ◌≢◌, Some, ℕ, ◌+◌, ◌<◌, ◌≤◌, ◌↔◌, List, [], ◌∷◌, ◌++◌, drop, replicate, slice_set, map, option_map, true, IsTrue, IsNone};
ghost use Rattle.std.specs.Option.{ForSome, is_some};
ghost use Rattle.lists.specs.Lists.{entries_of, first_of, has_node, insert_sorted, next_of, place_of, rotated, second_of, value_of, without, IsSorted, IsSound};

use lists::{ListId, NodeId, Table};
use model::TaskId;
use std::marker::Model;

/// `L` lists of tasks; `L` is 4096 at most. A task is in one list at most, and there once, with a value. In every call
/// the list is one below `L`. `M` is 32 more than `L`: the table has that many links.
///
/// These are the lists of FreeRTOS's kernel, whose entries are of a task and `xItemValue`.
#[derive(Drop)]
pub struct TaskLists<const L: usize, const M: usize> {
    table: Table<L, 32, M>,
}

// Clauses see for each list its tasks in order, each with its value.
impl<const L: usize, const M: usize> Model for TaskLists<L, M> {
    ghost use Rattle.std.specs.Prelude.{ℕ, List};

    ghost Value = { List (List (ℕ × ℕ)) };

    ghost view = { λ t. t.table };
}

/// The node of a task.
#[inline]
fn node_of(task: TaskId) -> NodeId
    ensures node { result.number ≡ task }
    ensures known { result.number < 32 }
{
    NodeId {
        number: task.number as u16,
    }
}

/// The task of a node.
#[inline]
fn task_of(node: Option<NodeId>) -> Option<TaskId>
    requires { ForSome (option_map (λ node. node.number) node) (λ node. node < 32) }
    ensures task { result ≡ option_map (λ node. node.number) node }
{
    match node {
        None => None,
        Some(node) => Some(TaskId {
            number: node.number as u8,
        }),
    }
}

impl<const L: usize, const M: usize> TaskLists<L, M> {
    /// `L` empty lists; `L` is 4096 at most, and `M` is 32 more.
    #[inline]
    pub fn new() -> Self
        requires lists { L ≤ 4096 }
        requires links { M ≡ 32 + L }
        ensures empty { result ≡ replicate L [] }
        ensures sound { IsSound L 32 result }
    {
        TaskLists {
            table: Table::new(),
        }
    }

    /// A copy. It takes no memory.
    #[inline(always)]
    pub fn copy(&self) -> Self
        ensures { result ≡ self.now }
    {
        TaskLists {
            table: self.table.copy(),
        }
    }

    /// Becomes a copy of the other, in place. It takes no memory.
    #[inline]
    pub fn set_from(&mut self, other: &Self)
        ensures { self.new ≡ other.now }
    {
        self.table.set_from(&other.table);
    }

    /// Whether the lists of the other have the same tasks in the same order, each with the same value.
    #[inline]
    pub fn is_same(&self, other: &Self) -> bool
        ensures { result ≡ true → self.now ≡ other.now }
    {
        self.table.is_same(&other.table)
    }

    /// The first task of a list; `None` if the list is empty.
    #[inline]
    pub fn first(&self, list: ListId) -> Option<TaskId>
        requires { list.number < L }
        ensures first { result ≡ first_of (entries_of self.now list.number) }
        ensures sound { IsSound L 32 self.now }
    {
        task_of(self.table.first(list))
    }

    /// Whether a task is the first of a list.
    #[inline]
    pub fn is_first(&self, list: ListId, task: TaskId) -> bool
        requires { list.number < L }
        ensures first { IsTrue result ↔ (first_of (entries_of self.now list.number) ≡ Some task) }
        ensures sound { IsSound L 32 self.now }
    {
        self.table.is_first(list, node_of(task))
    }

    /// The first task of a list that isn't empty.
    #[inline]
    pub fn front(&self, list: ListId) -> TaskId
        requires list { list.number < L }
        requires some { entries_of self.now list.number ≢ [] }
        ensures first { Some result ≡ first_of (entries_of self.now list.number) }
        ensures sound { IsSound L 32 self.now }
    {
        TaskId {
            number: self.table.front(list).number as u8,
        }
    }

    /// The task after this one in its list; `None` after the last, and for a task in no list.
    #[inline]
    pub fn next(&self, task: TaskId) -> Option<TaskId>
        // Of a task in a list, it is the one after it there.
        ensures next { (list : ℕ) → IsTrue (has_node task (entries_of self.now list))
            → result ≡ next_of task (entries_of self.now list) }
        ensures outside { place_of self.now task ≡ None → IsNone result }
        ensures sound { IsSound L 32 self.now }
    {
        task_of(self.table.next(node_of(task)))
    }

    /// As `next`, for a task that is in a list. Of a task in no list, any.
    #[inline]
    pub fn next_in_list(&self, task: TaskId) -> Option<TaskId>
        ensures next { (list : ℕ) → IsTrue (has_node task (entries_of self.now list))
            → result ≡ next_of task (entries_of self.now list) }
        ensures sound { IsSound L 32 self.now }
    {
        task_of(self.table.next_in_list(node_of(task)))
    }

    /// The list that a task is in; `None` if it is in no list.
    #[inline]
    pub fn list_of(&self, task: TaskId) -> Option<ListId>
        ensures list { option_map (λ list. list.number) result ≡ place_of self.now task }
        ensures sound { IsSound L 32 self.now }
    {
        self.table.place(node_of(task))
    }

    /// The value with which a task was put into its list, 0 to 4294967295. Of a task in no list, any number.
    #[inline]
    pub fn value(&self, task: TaskId) -> u32
        // Of a task in a list, it is the value there.
        ensures value { (list : ℕ) → IsTrue (has_node task (entries_of self.now list))
            → result ≡ value_of task (entries_of self.now list) }
        ensures sound { IsSound L 32 self.now }
    {
        self.table.value(node_of(task))
    }

    /// Whether a list has no task.
    #[inline]
    pub fn is_empty(&self, list: ListId) -> bool
        requires { list.number < L }
        ensures empty { IsTrue result ↔ (entries_of self.now list.number ≡ []) }
    {
        self.table.is_empty(list)
    }

    /// Whether no task is in a list. It may return `false` for such lists too.
    #[inline]
    pub fn is_clear(&self) -> bool
        ensures { result ≡ true → (task : ℕ) → place_of self.now task ≡ None }
    {
        self.table.is_clear()
    }

    /// Whether a task is in a list.
    #[inline]
    pub fn contains(&self, task: TaskId) -> bool
        ensures contains { result ≡ is_some (place_of self.now task) }
        ensures sound { IsSound L 32 self.now }
    {
        self.list_of(task).is_some()
    }

    /// Puts a task that is in no list (see `contains`) last into a list, with a value of 0 to 4294967295.
    #[inline]
    pub fn push_back(&mut self, list: ListId, task: TaskId, value: u32)
        requires list { list.number < L }
        requires free { place_of self.old task ≡ None }
        ensures put { self.new ≡ slice_set self.old list.number
            (entries_of self.old list.number ++ (task, value) ∷ []) }
        ensures sound { IsSound L 32 self.new }
    {
        self.table.push_back(list, node_of(task), value);
    }

    /// Puts a task that is in no list (see `contains`) into a list, with a value of 0 to 4294967295: before the first
    /// one of a greater value, or last if there is none.
    #[inline]
    pub fn insert_sorted(&mut self, list: ListId, task: TaskId, value: u32)
        requires list { list.number < L }
        requires free { place_of self.old task ≡ None }
        ensures put { self.new ≡ slice_set self.old list.number
            (insert_sorted (task, value) (entries_of self.old list.number)) }
        ensures sound { IsSound L 32 self.new }
    {
        self.table.insert_sorted(list, node_of(task), value);
    }

    /// As `insert_sorted`, into a list in which no value is smaller than one before it. It takes constant time if no value is
    /// greater.
    #[inline]
    pub fn insert_sorted_from_back(&mut self, list: ListId, task: TaskId, value: u32)
        requires list { list.number < L }
        requires free { place_of self.old task ≡ None }
        requires sorted { IsSorted (entries_of self.old list.number) }
        ensures put { self.new ≡ slice_set self.old list.number
            (insert_sorted (task, value) (entries_of self.old list.number)) }
        ensures sound { IsSound L 32 self.new }
    {
        self.table
            .insert_sorted_from_back(list, node_of(task), value);
    }

    /// Takes the first task out of a list, and returns it; `None` if the list is empty. The other entries keep their order.
    #[inline]
    pub fn pop_front(&mut self, list: ListId) -> Option<TaskId>
        requires { list.number < L }
        ensures first { result ≡ first_of (entries_of self.old list.number) }
        ensures rest { self.new ≡ slice_set self.old list.number
            (drop 1 (entries_of self.old list.number)) }
        ensures sound { IsSound L 32 self.new }
    {
        task_of(self.table.pop_front(list))
    }

    /// Puts the first task of a list last, with the value that it has. Returns the second task, which is the first from
    /// then on; `None` if there is no second, and the list stays as it is.
    #[inline]
    pub fn rotate(&mut self, list: ListId) -> Option<TaskId>
        requires { list.number < L }
        ensures rotated { self.new ≡ slice_set self.old list.number
            (rotated (entries_of self.old list.number)) }
        ensures second { result ≡ second_of (entries_of self.old list.number) }
        ensures sound { IsSound L 32 self.new }
    {
        task_of(self.table.rotate(list))
    }

    /// Takes a task out of its list. One that is in no list stays so. The other entries keep their order.
    #[inline]
    pub fn remove(&mut self, task: TaskId)
        ensures removed { self.new ≡ map (without task) self.old }
        ensures sound { IsSound L 32 self.new }
    {
        self.table.remove(node_of(task));
    }
}
