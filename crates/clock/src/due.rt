//! The sleepers whose wake time has come.
ghost use Rattle.std.specs.Prelude.{◌≡◌, ◌≢◌, ℕ, ◌<◌, ◌≤◌, ◌++◌, []};
ghost use Rattle.lists.specs.Lists.{entries_of, Each, IsSorted, IsSound};
ghost use Rattle.clock.specs.Timeline.{all_until, first_at};

use arrayvec::ArrayVec;
use lists::ListId;
use model::TaskId;
use task_lists::TaskLists;

/// The tasks whose wake time has come, 32 at most, in the order in which they began to sleep.
pub type Due = ArrayVec<TaskId, 32>;

/// The first task of a list, if its value is this one.
pub(crate) fn first_due(lists: &TaskLists<2, 34>, list: ListId, tick: u32) -> Option<TaskId>
    requires { list.number < 2 }
    ensures due { result ≡ first_at tick (entries_of lists.now list.number) }
    ensures sound { IsSound 2 32 lists.now }
{
    let task = lists.first(list)?;
    if lists.value(task) == tick {
        Some(task)
    } else {
        None
    }
}

/// Takes the entries of this value, which come first, out of a list, into an empty list of those that are due.
pub(crate) fn take_due(lists: &mut TaskLists<2, 34>, list: ListId, tick: u32, due: &mut Due)
    requires list { list.number < 2 }
    requires sound { IsSound 2 32 lists.old }
    requires sorted { IsSorted (entries_of lists.old list.number) }
    requires ahead { Each (λ e. tick ≤ e.1) (entries_of lists.old list.number) }
    requires empty { due.old.items ≡ [] }
    // What is taken and what is left are the list as it was.
    ensures due { entries_of lists.old list.number
        ≡ all_until tick due.new.items ++ entries_of lists.new list.number }
    ensures later { Each (λ e. tick < e.1) (entries_of lists.new list.number) }
    ensures others { (k : ℕ) → k ≢ list.number → entries_of lists.new k ≡ entries_of lists.old k }
    ensures sound { IsSound 2 32 lists.new }
{
    while let Some(task) = first_due(lists, list, tick) {
        lists.remove(task);
        due.push(task);
    }
}
