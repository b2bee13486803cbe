//! The events of a run, or of several, with room for those of one more step.
ghost use Rattle.std.specs.Prelude.{◌≡◌, ◌<◌, ◌≤◌, ◌↔◌, ◌++◌, ◌^◌, [], OnOk, OnErr, length, take, IsTrue, true, false};
ghost use Rattle.machine.specs.Logged.{all_of};

use crate::log::Log;
use model::{Event, Memory};
use std::alloc::Global;
use std::marker::Model;

/// A trail of fewer events than this many takes room little by little.
const FEW: usize = 4096;

/// One of more takes room for this many at once: the system takes notice only of the room that is used, and gives that by large pages
/// if it is asked to. With what the allocator puts before it the piece is of 32 MB, so large pages fit it from its beginning on.
const MANY: usize = 2_097_150;

/// Events in the order in which they were reported. The last ones are those of the present step. Before each step `begin`
/// makes room for its events, so that reporting one takes no memory and doesn't fail.
#[derive(Drop)]
pub struct Trail {
    events: Vec<Event>,
    /// How many events come before this step.
    start: usize,
    /// If there are fewer events than this many, there is room for those of a step.
    roomy_below: usize,
}

// Clauses see the events before this step, those of this step, and the room that is left.
impl Model for Trail {
    ghost use Rattle.std.specs.Prelude.{◌≤◌, ◌-◌, take, drop, length};
    ghost use Rattle.std.specs.Vec.{vec_capacity};
    ghost use Rattle.machine.specs.Logged.{Logged};

    ghost Value = { Logged };

    ghost view = { λ t. record { before = take t.start t.events.items; told = drop t.start t.events.items; room = vec_capacity t.events - length t.events.items } };

    ghost invariant = { λ t. (t.start ≤ length t.events.items) × (t.roomy_below ≤ vec_capacity t.events - 511) };
}

impl Trail {
    /// No events. It takes no memory.
    pub fn new(alloc: Global) -> Trail
        ensures before { result.before ≡ [] }
        ensures told { result.told ≡ [] }
    {
        Trail {
            events: Vec::new(alloc),
            start: 0,
            roomy_below: 0,
        }
    }

    /// How many events it has.
    pub fn len(&self) -> usize
        ensures { result ≡ length (all_of self.now) }
    {
        self.events.len()
    }

    /// The events, in order.
    pub fn events(&self) -> &[Event]
        ensures { result.now ≡ all_of self.now }
    {
        self.events.as_slice()
    }

    /// Whether this step has reported nothing.
    #[inline]
    pub fn is_silent(&self) -> bool
        ensures { IsTrue result ↔ (length self.now.told ≡ 0) }
    {
        self.events.len() == self.start
    }

    /// The next step begins. It has reported nothing yet, and there is room for 512 events of it. At `Err(Memory)` the
    /// growth was refused, and there is less room.
    #[inline]
    pub fn begin(&mut self) -> Result<(), Memory>
        ensures before { self.new.before ≡ all_of self.old }
        ensures told { self.new.told ≡ [] }
        ensures room { OnOk result (512 ≤ self.new.room) }
        ensures refused { OnErr result (self.new.room < 512) }
    {
        self.start = self.events.len();
        if self.start < self.roomy_below {
            return Ok(());
        }
        self.make_room()
    }

    /// Makes room for 512 events more, or for many. At `Err(Memory)` the growth was refused, and there is less room.
    #[cold]
    #[inline(never)]
    fn make_room(&mut self) -> Result<(), Memory>
        ensures before { self.new.before ≡ self.old.before }
        ensures told { self.new.told ≡ self.old.told }
        ensures room { OnOk result (512 ≤ self.new.room) }
        ensures refused { OnErr result (self.new.room < 512) }
    {
        if self.events.len() >= FEW && self.events.capacity() < MANY {
            // If room for this many is refused, there may be room for one step.
            let more = MANY - self.events.len();
            let _refused = self.events.reserve_exact(more).is_err();
        }
        if self.events.reserve(512).is_err() {
            return Err(Memory);
        }
        self.roomy_below = self.events.capacity() - 511;
        Ok(())
    }

    /// Makes room for so many events more of this step, 2^20 at most. Returns whether there is.
    pub fn make_room_for(&mut self, count: usize) -> bool
        requires { count ≤ 2 ^ 20 }
        ensures before { self.new.before ≡ self.old.before }
        ensures told { self.new.told ≡ self.old.told }
        ensures room { result ≡ true → count ≤ self.new.room }
        ensures more { self.old.room ≤ self.new.room }
        ensures refused { result ≡ false → self.old.room < count }
    {
        self.events.reserve(count).is_ok()
    }

    /// This step reports these events too, whatever room there is. At `Err(Memory)` there was less room and the growth was
    /// refused, and it has reported none of them.
    pub fn append(&mut self, events: &[Event]) -> Result<(), Memory>
        ensures before { self.new.before ≡ self.old.before }
        ensures told { OnOk result (self.new.told ≡ self.old.told ++ events.now) }
        ensures refused { OnErr result (self.new.told ≡ self.old.told) }
        ensures memory { OnErr result (self.old.room < length events.now) }
    {
        if self.events.extend_from_slice(events).is_err() {
            return Err(Memory);
        }
        Ok(())
    }

    /// Keeps this many events, those reported first; all, if there are no more.
    pub fn truncate(&mut self, count: usize)
        ensures { all_of self.new ≡ take count (all_of self.old) }
    {
        self.events.truncate(count);
        self.start = self.start.min(self.events.len());
    }

    /// All its events.
    pub fn into_events(self) -> Vec<Event>
        ensures { result.items ≡ all_of self }
    {
        self.events
    }
}

impl Log for Trail {
    ghost logged = { λ trail. trail };

    #[inline]
    fn push(&mut self, event: Event) {
        // Taken apart and made again, since the check proves no push of the whole.
        let Event { step, tick, what } = event;
        self.events.push_reserved(Event { step, tick, what });
    }
}
