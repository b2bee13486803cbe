//! Who holds the mutexes.
ghost use Rattle.std.specs.Prelude.{◌≡◌, ◌<◌, length, replicate, slice_set, true, Some, None};
ghost use Rattle.objects.specs.Mutexes.{count_held, holder_in, named_by};
ghost use Rattle.objects.specs.Places.{object_places};

use crate::OBJECTS;
use lists::are_same_bytes;
use model::TaskId;
use std::marker::Model;

/// The byte that is kept if there is no holder.
const NOBODY: u8 = 255;

/// The holder of each object, and how many each task holds, which is kept and never searched for. An object that is
/// free, or is no mutex, has no holder.
#[derive(Drop)]
pub(crate) struct Mutexes {
    // Their numbers, since bytes are compared several at a time.
    holders: [u8; OBJECTS],
    held: [u8; 32],
}

// Clauses see the holders.
impl Model for Mutexes {
    ghost use Rattle.std.specs.Prelude.{ℕ, Option, List, map};
    ghost use Rattle.objects.specs.Mutexes.{AreMutexes, named_by};

    ghost Value = { List (Option ℕ) };

    ghost view = { λ m. map named_by m.holders };

    ghost invariant = { λ m. AreMutexes (map named_by m.holders) m.held };
}

/// The byte that is kept of a holder, or of none.
fn byte_of(holder: Option<TaskId>) -> u8
    ensures { named_by result ≡ holder }
{
    match holder {
        Some(task) => task.number,
        None => NOBODY,
    }
}

impl Mutexes {
    /// Nobody holds anything.
    pub(crate) fn new() -> Self
        ensures free { result ≡ replicate object_places None }
    {
        Mutexes {
            holders: [NOBODY; OBJECTS],
            held: [0; 32],
        }
    }

    /// A copy.
    pub(crate) fn copy(&self) -> Self
        ensures { result ≡ self.now }
    {
        Mutexes {
            holders: self.holders,
            held: self.held,
        }
    }

    /// Becomes a copy of the other, in place.
    pub(crate) fn set_from(&mut self, other: &Self)
        ensures { self.new ≡ other.now }
    {
        self.holders = other.holders;
        self.held = other.held;
    }

    /// Whether each object has the same holder as in the other.
    pub(crate) fn is_same(&self, other: &Self) -> bool
        ensures { result ≡ true → self.now ≡ other.now }
    {
        are_same_bytes(&self.holders, &other.holders)
    }

    /// The holder of an object; `None` if it has none.
    pub(crate) fn holder(&self, object: usize) -> Option<TaskId>
        requires { object < object_places }
        ensures holder { result ≡ holder_in self.now object }
    {
        TaskId::new(self.holders[object])
    }

    /// How many mutexes a task holds (`uxMutexesHeld`).
    pub(crate) fn held_by(&self, task: TaskId) -> u8
        ensures held { result ≡ count_held task self.now }
        ensures many { length self.now ≡ object_places }
    {
        self.held[task.number as usize]
    }

    /// Makes a task the holder of a free mutex. With no task it stays free.
    pub(crate) fn lock(&mut self, object: usize, task: Option<TaskId>)
        requires known { object < object_places }
        requires free { holder_in self.old object ≡ None }
        ensures locked { self.new ≡ slice_set self.old object task }
        ensures many { length self.new ≡ object_places }
    {
        self.holders[object] = byte_of(task);
        // Through a reference, since the borrow checker takes a value that was passed on for moved.
        if let Some(task) = &task {
            self.held[task.number as usize] += 1;
        }
    }

    /// Frees a mutex that this task holds.
    pub(crate) fn unlock(&mut self, object: usize, task: TaskId)
        requires known { object < object_places }
        requires held { holder_in self.old object ≡ Some task }
        ensures free { self.new ≡ slice_set self.old object None }
        ensures many { length self.new ≡ object_places }
    {
        self.holders[object] = NOBODY;
        self.held[task.number as usize] -= 1;
    }
}
