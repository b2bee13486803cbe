//! The items of the queues: a pool, and a ring in it for each queue.
ghost use Rattle.std.specs.Prelude.{◌≡◌, ℕ, ◌+◌, ◌-◌, ◌<◌, ◌≤◌, List, [], ◌∷◌, ◌++◌, All, length, map, drop, slice_index_or, slice_set, slice_get, true, IfOk};
ghost use Rattle.std.specs.List.{AllByRecursion};
ghost use Rattle.model.specs.Scripts.{IsObjectKind};
ghost use Rattle.model.specs.State.{no_object};
ghost use Rattle.model.specs.Step.{object_at_reset};
ghost use Rattle.objects.specs.Items.{holding, object_in, IsSound};
ghost use Rattle.objects.specs.Places.{object_places};
ghost use Rattle.objects.specs.Rings.{wrap};

use crate::OBJECTS;
use lists::{are_same, first_nonzero};
use model::{Memory, ObjectKind};
use std::alloc::Global;
use std::marker::Model;

/// How many items the pool has room for: 256 of each object.
const ITEMS: usize = 256 * OBJECTS;

/// The last object's place, whose region ends the pool's front.
const LAST: usize = OBJECTS - 1;

/// For each queue the place at which its region of the pool begins, how long that is, the place in it of the first item, and how many
/// items there are. They are copied as one run of bytes.
#[derive(Clone, Copy)]
struct Regions {
    bases: [u16; OBJECTS],
    lengths: [u16; OBJECTS],
    heads: [u16; OBJECTS],
    counts: [u16; OBJECTS],
}

/// The items of all queues, in one pool.
#[derive(Drop)]
pub(crate) struct Items {
    pool: [u32; ITEMS],
    regions: Regions,
}

// Clauses see the objects of the definitions.
impl Model for Items {
    ghost use Rattle.std.specs.Prelude.{List};
    ghost use Rattle.model.specs.State.{Object};
    ghost use Rattle.objects.specs.Rings.{objects_of, IsItems};

    ghost Value = { List Object };

    ghost view = { λ s. objects_of (record { pool = s.pool; bases = s.regions.bases; lengths = s.regions.lengths; heads = s.regions.heads; counts = s.regions.counts }) };

    ghost invariant = { λ s. IsItems (record { pool = s.pool; bases = s.regions.bases; lengths = s.regions.lengths; heads = s.regions.heads; counts = s.regions.counts }) };
}

/// The items of all queues as they once were: of the pool only the regions of the queues.
#[derive(Drop)]
pub(crate) struct ItemsSnapshot {
    pool: Vec<u32>,
    regions: Regions,
}

// Clauses see the objects of the definitions, as they were.
impl Model for ItemsSnapshot {
    ghost use Rattle.std.specs.Prelude.{List};
    ghost use Rattle.model.specs.State.{Object};
    ghost use Rattle.objects.specs.Rings.{objects_of, IsFront};

    ghost Value = { List Object };

    ghost view = { λ s. objects_of (record { pool = s.pool.items; bases = s.regions.bases; lengths = s.regions.lengths; heads = s.regions.heads; counts = s.regions.counts }) };

    ghost invariant = { λ s. IsFront (record { pool = s.pool.items; bases = s.regions.bases; lengths = s.regions.lengths; heads = s.regions.heads; counts = s.regions.counts }) };
}

/// A place in a region of a size, counted on around it.
fn wrapped(size: u16, at: u16) -> u16
    requires { at < size + size }
    ensures wrapped { result ≡ wrap size at }
{
    if at < size { at } else { at - size }
}

/// The length of a queue; 0 if the object is none.
fn length_of(object: ObjectKind) -> u16
    ensures { result ≡ (object_at_reset object).size }
{
    match object {
        ObjectKind::Queue(length) => length,
        ObjectKind::Semaphore(_, _) | ObjectKind::Mutex => 0,
    }
}

/// The lengths of the queues among these objects, and 0 in the places after them.
fn lengths_of(objects: &[ObjectKind]) -> [u16; OBJECTS]
    requires few { length objects.now ≤ object_places }
    requires kinds { AllByRecursion IsObjectKind objects.now }
    ensures lengths { (object : ℕ) → slice_index_or result object 0
        ≡ (slice_index_or (map object_at_reset objects.now) object no_object).size }
    ensures small { All (λ length. length ≤ 256) result }
    ensures full { length result ≡ object_places }
{
    let mut lengths = [0; OBJECTS];
    for (index, object) in objects.iter().enumerate() {
        lengths[index] = length_of(*object);
    }
    lengths
}

impl Items {
    /// The queues among these objects, 33 at most, all empty. Any other object has length 0.
    pub(crate) fn new(objects: &[ObjectKind]) -> Self
        requires few { length objects.now ≤ object_places }
        requires kinds { AllByRecursion IsObjectKind objects.now }
        ensures empty { (queue : ℕ) → object_in result queue ≡ record no_object {
          size = (slice_index_or (map object_at_reset objects.now) queue no_object).size;
        } }
        ensures sound { IsSound result }
    {
        Items::of_lengths(&lengths_of(objects))
    }

    /// Empty queues of these lengths, each 256 at most. There are 33 lengths at most, and the queues past them have
    /// length 0.
    fn of_lengths(lengths: &[u16]) -> Self
        requires few { length lengths.now ≤ object_places }
        requires small { All (λ length. length ≤ 256) lengths.now }
        ensures empty { (queue : ℕ) → queue < object_places
            → object_in result queue ≡ record no_object { size = slice_index_or lengths.now queue 0 } }
        ensures sound { IsSound result }
    {
        let mut sizes = [0; OBJECTS];
        sizes[..lengths.len()].copy_from_slice(lengths);
        let mut bases = [0; OBJECTS];
        let mut used = 0;
        for queue in 0..OBJECTS {
            bases[queue] = used;
            used += sizes[queue];
        }
        Items {
            pool: [0; ITEMS],
            regions: Regions {
                bases,
                lengths: sizes,
                heads: [0; OBJECTS],
                counts: [0; OBJECTS],
            },
        }
    }

    /// The number of items in a queue.
    pub(crate) fn len(&self, queue: usize) -> usize
        requires { queue < object_places }
        ensures len { result ≡ length (object_in self.now queue).items }
        ensures sound { IsSound self.now }
    {
        self.regions.counts[queue] as usize
    }

    /// The number of items that a queue still has room for.
    pub(crate) fn room(&self, queue: usize) -> usize
        requires { queue < object_places }
        ensures room { result + length (object_in self.now queue).items ≡ (object_in self.now queue).size }
        ensures sound { IsSound self.now }
    {
        (self.regions.lengths[queue] - self.regions.counts[queue]) as usize
    }

    /// The item that leaves a queue first; `None` if it is empty.
    pub(crate) fn first(&self, queue: usize) -> Option<u32>
        requires { queue < object_places }
        ensures first { result ≡ slice_get (object_in self.now queue).items 0 }
        ensures sound { IsSound self.now }
    {
        if self.regions.counts[queue] == 0 {
            None
        } else {
            Some(self.pool[self.regions.bases[queue] as usize + self.regions.heads[queue] as usize])
        }
    }

    /// Puts an item after those of a queue that has room (see `room`).
    pub(crate) fn push_back(&mut self, queue: usize, item: u32)
        requires known { queue < object_places }
        requires room { length (object_in self.old queue).items < (object_in self.old queue).size }
        ensures items { self.new ≡ slice_set self.old queue
            (holding (object_in self.old queue) ((object_in self.old queue).items ++ item ∷ [])) }
        ensures sound { IsSound self.new }
    {
        let at = wrapped(
            self.regions.lengths[queue],
            self.regions.heads[queue] + self.regions.counts[queue],
        );
        self.pool[self.regions.bases[queue] as usize + at as usize] = item;
        self.regions.counts[queue] += 1;
    }

    /// Puts an item before those of a queue that has room (see `room`).
    pub(crate) fn push_front(&mut self, queue: usize, item: u32)
        requires known { queue < object_places }
        requires room { length (object_in self.old queue).items < (object_in self.old queue).size }
        ensures items { self.new ≡ slice_set self.old queue
            (holding (object_in self.old queue) (item ∷ (object_in self.old queue).items)) }
        ensures sound { IsSound self.new }
    {
        let size = self.regions.lengths[queue];
        let head = wrapped(size, self.regions.heads[queue] + size - 1);
        self.pool[self.regions.bases[queue] as usize + head as usize] = item;
        self.regions.heads[queue] = head;
        self.regions.counts[queue] += 1;
    }

    /// Takes the first item out of a queue; `None` if it is empty.
    #[inline(always)]
    pub(crate) fn pop_front(&mut self, queue: usize) -> Option<u32>
        requires { queue < object_places }
        ensures first { result ≡ slice_get (object_in self.old queue).items 0 }
        ensures items { self.new ≡ slice_set self.old queue
            (holding (object_in self.old queue) (drop 1 (object_in self.old queue).items)) }
        ensures sound { IsSound self.new }
    {
        if self.regions.counts[queue] == 0 {
            return None;
        }
        let head = self.regions.heads[queue];
        let item = self.pool[self.regions.bases[queue] as usize + head as usize];
        self.regions.heads[queue] = wrapped(self.regions.lengths[queue], head + 1);
        self.regions.counts[queue] -= 1;
        Some(item)
    }

    /// Makes an item the only one of a queue that can hold one.
    pub(crate) fn replace(&mut self, queue: usize, item: u32)
        requires known { queue < object_places }
        requires long { 0 < (object_in self.old queue).size }
        ensures items { self.new ≡ slice_set self.old queue
            (holding (object_in self.old queue) (item ∷ [])) }
        ensures sound { IsSound self.new }
    {
        self.pool[self.regions.bases[queue] as usize + self.regions.heads[queue] as usize] = item;
        self.regions.counts[queue] = 1;
    }

    /// Makes the queues those of another storage. What is in the pool after the last region is not copied.
    pub(crate) fn set_from(&mut self, other: &Items)
        ensures same { self.new ≡ other.now }
        ensures sound { IsSound self.new }
    {
        let used = other.regions.bases[LAST] as usize + other.regions.lengths[LAST] as usize;
        self.pool[..used].copy_from_slice(&other.pool[..used]);
        self.regions = other.regions;
    }

    /// The queues as they are now, with no more of the pool than the regions of the queues.
    pub(crate) fn snapshot(&self, alloc: Global) -> Result<ItemsSnapshot, Memory>
        ensures { IfOk result (λ snapshot. snapshot ≡ self.now) }
    {
        let used = self.regions.bases[LAST] as usize + self.regions.lengths[LAST] as usize;
        let mut pool = Vec::new(alloc);
        pool.reserve_exact(used)?;
        pool.extend_from_slice(&self.pool[..used])?;
        Ok(ItemsSnapshot {
            pool,
            regions: self.regions,
        })
    }

    /// Makes a snapshot that of the queues as they are now, in the memory that it has. `false` if the regions of its queues have
    /// another size.
    pub(crate) fn save(&self, snapshot: &mut ItemsSnapshot) -> bool
        ensures { result ≡ true → snapshot.new ≡ self.now }
    {
        let end = self.regions.bases[LAST] as usize + self.regions.lengths[LAST] as usize;
        if snapshot.pool.len() != end {
            return false;
        }
        snapshot.pool.copy_from_slice(&self.pool[..end]);
        snapshot.regions = self.regions;
        true
    }

    /// Whether the queues are as in a snapshot: each has as many items, the same and in the same order. Their places in
    /// the pool don't count.
    pub(crate) fn is_at(&self, snapshot: &ItemsSnapshot) -> bool
        ensures { result ≡ true → self.now ≡ snapshot.now }
    {
        // If queues differ, a count usually does.
        if !are_same(&self.regions.counts, &snapshot.regions.counts)
            || !are_same(&self.regions.lengths, &snapshot.regions.lengths)
        {
            return false;
        }
        // Most queues are empty, as they then are in both.
        let mut queue = first_nonzero(&self.regions.counts, 0);
        while queue < OBJECTS {
            if !self.is_queue_at(queue, snapshot) {
                return false;
            }
            queue = first_nonzero(&self.regions.counts, queue + 1);
        }
        true
    }

    /// Whether a queue is as in a snapshot.
    fn is_queue_at(&self, queue: usize, snapshot: &ItemsSnapshot) -> bool
        requires { queue < object_places }
        ensures { result ≡ true → object_in self.now queue ≡ object_in snapshot.now queue }
    {
        let size = self.regions.lengths[queue];
        let count = self.regions.counts[queue];
        if size != snapshot.regions.lengths[queue] || count != snapshot.regions.counts[queue] {
            return false;
        }
        let base = self.regions.bases[queue] as usize;
        let snapshot_base = snapshot.regions.bases[queue] as usize;
        for index in 0..count {
            let at = wrapped(size, self.regions.heads[queue] + index);
            let snapshot_at = wrapped(size, snapshot.regions.heads[queue] + index);
            if self.pool[base + at as usize]
                != snapshot.pool[snapshot_base + snapshot_at as usize]
            {
                return false;
            }
        }
        true
    }

    /// Makes the queues those of a snapshot. It takes no memory.
    pub(crate) fn restore(&mut self, snapshot: &ItemsSnapshot)
        ensures same { self.new ≡ snapshot.now }
        ensures sound { IsSound self.new }
    {
        let used = snapshot.pool.len();
        self.pool[..used].copy_from_slice(snapshot.pool.as_slice());
        self.regions = snapshot.regions;
    }
}
