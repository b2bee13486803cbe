//! The counts of semaphores.
ghost use Rattle.std.specs.Prelude.{◌≡◌, ℕ, ◌+◌, ◌-◌, ◌<◌, ◌≤◌, nat_lt, length, map, slice_index_or, slice_set, true};
ghost use Rattle.model.specs.State.{no_object};
ghost use Rattle.model.specs.Step.{object_at_reset};
ghost use Rattle.objects.specs.Places.{object_places};
ghost use Rattle.objects.specs.Semaphores.{AreSemaphores, count_in, max_count_in};

use crate::OBJECTS;
use lists::are_same;
use model::ObjectKind;
use std::marker::Model;

/// The greatest count and the count of each object; both are 0 of one that is no semaphore.
#[derive(Drop)]
pub(crate) struct Semaphores {
    max_counts: [u16; OBJECTS],
    counts: [u16; OBJECTS],
}

impl Model for Semaphores {
    ghost use Rattle.objects.specs.Semaphores.{AreSemaphores, Counts};

    ghost Value = { Counts };

    ghost view = { λ s. record { max_counts = s.max_counts; counts = s.counts } };

    ghost invariant = { λ s. AreSemaphores (record { max_counts = s.max_counts; counts = s.counts }) };
}

/// The greatest count of an object, and its count at reset.
fn counts_of(object: ObjectKind) -> (u16, u16)
    ensures greatest { result.0 ≡ (object_at_reset object).max_count }
    ensures initial { result.1 ≡ (object_at_reset object).count }
{
    match object {
        ObjectKind::Semaphore(max_count, initial_count) => (max_count, initial_count),
        ObjectKind::Queue(_) | ObjectKind::Mutex => (0, 0),
    }
}

impl Semaphores {
    /// The counts of these objects at reset, 33 at most.
    pub(crate) fn new(objects: &[ObjectKind]) -> Self
        requires { length objects.now ≤ object_places }
        ensures max_counts { (object : ℕ) → max_count_in result object
            ≡ (slice_index_or (map object_at_reset objects.now) object no_object).max_count }
        ensures counts { (object : ℕ) → count_in result object
            ≡ (slice_index_or (map object_at_reset objects.now) object no_object).count }
        ensures sound { AreSemaphores result }
    {
        let mut max_counts = [0; OBJECTS];
        let mut counts = [0; OBJECTS];
        for (index, object) in objects.iter().enumerate() {
            let (max_count, initial_count) = counts_of(*object);
            max_counts[index] = max_count;
            counts[index] = initial_count;
        }
        Semaphores { max_counts, counts }
    }

    /// A copy.
    pub(crate) fn copy(&self) -> Self
        ensures { result ≡ self.now }
    {
        Semaphores {
            max_counts: self.max_counts,
            counts: self.counts,
        }
    }

    /// Becomes a copy of the other, in place.
    pub(crate) fn set_from(&mut self, other: &Self)
        ensures { self.new ≡ other.now }
    {
        self.max_counts = other.max_counts;
        self.counts = other.counts;
    }

    /// Whether each object has the same counts as in the other.
    pub(crate) fn is_same(&self, other: &Self) -> bool
        ensures { result ≡ true → self.now ≡ other.now }
    {
        are_same(&self.counts, &other.counts) && are_same(&self.max_counts, &other.max_counts)
    }

    /// The count of an object.
    pub(crate) fn count(&self, object: usize) -> u16
        requires { object < object_places }
        ensures { result ≡ count_in self.now object }
    {
        self.counts[object]
    }

    /// Whether one can be taken from a count.
    pub(crate) fn can_take(&self, object: usize) -> bool
        requires { object < object_places }
        ensures { result ≡ nat_lt 0 (count_in self.now object) }
    {
        self.counts[object] > 0
    }

    /// Whether a count is below its greatest.
    pub(crate) fn can_give(&self, object: usize) -> bool
        requires { object < object_places }
        ensures { result ≡ nat_lt (count_in self.now object) (max_count_in self.now object) }
    {
        self.counts[object] < self.max_counts[object]
    }

    /// Takes one from a count that isn't 0 (see `can_take`).
    pub(crate) fn take(&mut self, object: usize)
        requires known { object < object_places }
        requires possible { 0 < count_in self.old object }
        ensures taken { self.new ≡ record self.old {
          counts = slice_set self.old.counts object (count_in self.old object - 1);
        } }
        ensures sound { AreSemaphores self.new }
    {
        self.counts[object] -= 1;
    }

    /// Adds one to a count below its greatest (see `can_give`).
    pub(crate) fn give(&mut self, object: usize)
        requires known { object < object_places }
        requires possible { count_in self.old object < max_count_in self.old object }
        ensures given { self.new ≡ record self.old {
          counts = slice_set self.old.counts object (count_in self.old object + 1);
        } }
        ensures sound { AreSemaphores self.new }
    {
        self.counts[object] += 1;
    }
}
