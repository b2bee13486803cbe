//! The tasks that a group's bits meet.
ghost use Rattle.std.specs.Prelude.{◌≡◌, ◌<◌, [], slice_set};
ghost use Rattle.lists.specs.Lists.{entries_of, IsSound};
ghost use Rattle.model.specs.State.{State};
ghost use Rattle.model.specs.Groups.{wake_all};
ghost use Rattle.groups.specs.EventGroups.{EventGroups, left_by, met_of, unmet_of};
ghost use Rattle.groups.specs.StandsFor.{StandsFor};

use crate::bits::{bits_left, is_met};
use arrayvec::ArrayVec;
use lists::ListId;
use model::{Condition, TaskId};
use task_lists::TaskLists;

/// The tasks whose conditions the bits have met, and the bits that these tasks leave.
#[derive(Drop)]
pub struct Met {
    /// The tasks, 32 at most, in the order in which they began to wait.
    pub tasks: ArrayVec<TaskId, 32>,
    /// The bits that met them all, with which they are woken.
    pub bits: u32,
    /// What is left of the bits when all of them have cleared what they asked to clear.
    pub left: u32,
}

impl Met {
    /// No tasks, no bits.
    pub fn none() -> Met
        ensures tasks { result.tasks.items ≡ [] }
        ensures bits { result.bits ≡ 0 }
        ensures left { result.left ≡ 0 }
    {
        Met {
            tasks: ArrayVec::new(),
            bits: 0,
            left: 0,
        }
    }
}

/// Takes the tasks out of a list that these bits meet, and reports them in `met`, whatever that has. Each is tested against all of the
/// bits, whatever one before it clears.
pub(crate) fn take_met(
    lists: &mut TaskLists<17, 49>,
    list: ListId,
    wants: &[Condition; 32],
    bits: u32,
    met: &mut Met,
)
    requires list { list.number < 16 }
    requires sound { IsSound 17 32 lists.old }
    ensures tasks { met.new.tasks.items ≡ met_of wants.now bits (entries_of lists.old list.number) }
    ensures bits { met.new.bits ≡ bits }
    ensures left { met.new.left ≡ left_by wants.now bits met.new.tasks.items }
    ensures unmet { lists.new ≡ slice_set lists.old list.number
        (unmet_of wants.now bits (entries_of lists.old list.number)) }
    // In the definitions they are woken with the bits, one after another.
    ensures woken { (v : EventGroups) (s : State) → v.waiting ≡ lists.old → StandsFor v s
        → StandsFor (record v { waiting = lists.new })
        (wake_all met.new.tasks.items bits s) }
    ensures sound { IsSound 17 32 lists.new }
{
    met.tasks.clear();
    met.bits = bits;
    met.left = bits;
    let mut at = lists.first(list);
    while let Some(task) = at {
        at = lists.next_in_list(task);
        let condition = &wants[task.number as usize];
        if is_met(bits, condition) {
            lists.remove(task);
            met.tasks.push(task);
            met.left = bits_left(met.left, condition);
        }
    }
}
