//! What is kept of the interrupt sources: the handlers in the order of the file, and then the tick.
ghost use Rattle.std.specs.Prelude.{◌≡◌, ◌<◌, ◌≤◌, ◌+◌, ℕ, false, true, List, length, map, slice_index_or, slice_set};
ghost use Rattle.std.specs.List.{list_any};
ghost use Rattle.model.specs.State.{Source, no_source};
ghost use Rattle.model.specs.Step.{source_at_reset};
ghost use Rattle.machine.specs.Arrivals.{arrival_in, is_due, lowered, soonest};
ghost use Rattle.machine.specs.Sources.{is_pending, source_in};
ghost use Rattle.machine.specs.StandsFor.{AreSources};

use crate::arrivals::{Arrival, Arrivals, DISARMED, DueSources};
use model::{HandlerDefinition, HandlerId};
use std::marker::Model;

/// What is kept of the interrupt sources.
#[derive(Drop)]
pub struct Sources {
    /// How many sources there are.
    number: u8,
    /// Which are pending: injected while a critical section was open, and not handled yet.
    pending: [bool; 17],
    /// Whether any is pending.
    any_pending: bool,
    /// When each can come, and when it comes by itself.
    arrivals: Arrivals,
}

// Clauses see what is kept of each.
impl Model for Sources {
    ghost use Rattle.std.specs.Prelude.{◌≡◌, Bool};
    ghost use Rattle.std.specs.List.{list_any};
    ghost use Rattle.machine.specs.Sources as sources;

    ghost Value = { sources.Sources };

    ghost view = { λ s. record { number = s.number; pending = s.pending; arrivals = s.arrivals } };

    ghost invariant = { λ s. s.any_pending ≡ list_any (λ (pending : Bool). pending) s.pending };
}

impl Sources {
    /// Those of this many handlers, 16 at most, and of the tick. None is pending or raised, and each can come at any time.
    fn of(handlers: usize) -> Self
        requires { handlers ≤ 16 }
        ensures number { result.number ≡ handlers + 1 }
        ensures none { (source : ℕ) → source_in result source ≡ no_source }
        ensures full { (length result.pending ≡ 17) × (length result.arrivals ≡ 17) }
    {
        Sources {
            number: handlers as u8 + 1,
            pending: [false; 17],
            any_pending: false,
            arrivals: Arrivals::new(),
        }
    }

    /// Those at reset of these handlers, 16 at most, and of the tick. Those are armed that the file says are.
    pub(crate) fn new(handlers: &[HandlerDefinition]) -> Self
        requires { length handlers.now ≤ 16 }
        ensures number { result.number ≡ length handlers.now + 1 }
        ensures each { (source : ℕ) → source_in result source
            ≡ slice_index_or (map source_at_reset handlers.now) source no_source }
        ensures full { (length result.pending ≡ 17) × (length result.arrivals ≡ 17) }
    {
        let mut sources = Sources::of(handlers.len());
        for (index, handler) in handlers.iter().enumerate() {
            if !handler.armed() {
                let source = HandlerId {
                    number: index as u8,
                };
                sources.set_arrival(source, DISARMED);
            }
        }
        sources
    }

    /// A copy. It takes no memory.
    pub(crate) fn copy(&self) -> Self
        ensures { result ≡ self.now }
    {
        Sources {
            number: self.number,
            pending: self.pending,
            any_pending: self.any_pending,
            arrivals: self.arrivals.copy(),
        }
    }

    /// Becomes a copy of the other, in place. It takes no memory.
    // Saving, restoring and copying share its body.
    #[inline(never)]
    pub(crate) fn set_from(&mut self, other: &Self)
        ensures { self.new ≡ other.now }
    {
        self.number = other.number;
        self.pending = other.pending;
        self.any_pending = other.any_pending;
        self.arrivals.set_from(&other.arrivals);
    }

    /// Whether any is pending.
    #[inline(always)]
    pub fn any_pending(&self) -> bool
        ensures { result ≡ list_any (λ pending. pending) self.now.pending }
    {
        self.any_pending
    }

    /// Whether this one is pending.
    pub fn is_pending(&self, source: HandlerId) -> bool
        ensures { result ≡ is_pending self.now source }
    {
        self.pending[source.number as usize]
    }

    /// This source becomes pending. One that is so already stays so, once; one that there isn't doesn't become so.
    pub(crate) fn pend(&mut self, source: HandlerId)
        ensures pends { source < self.old.number
            → self.new ≡ record self.old { pending = slice_set self.old.pending source true } }
        ensures past { self.old.number ≤ source → self.new ≡ self.old }
    {
        if source.number < self.number {
            self.pending[source.number as usize] = true;
            self.any_pending = true;
        }
    }

    /// None is pending any more.
    pub(crate) fn clear(&mut self)
        ensures none { (source : ℕ) → is_pending self.new source ≡ false }
        ensures full { length self.new.pending ≡ 17 }
        ensures rest { self.new ≡ record self.old { pending = self.new.pending } }
    {
        self.pending = [false; 17];
        self.any_pending = false;
    }

    /// When this source can come, and when it comes by itself.
    pub fn arrival(&self, source: HandlerId) -> Arrival
        ensures { result ≡ arrival_in self.now.arrivals source }
    {
        self.arrivals.of(source)
    }

    /// That of this source becomes this one, if there is such a source.
    pub(crate) fn set_arrival(&mut self, source: HandlerId, arrival: Arrival)
        ensures set { source < self.old.number
            → self.new ≡ record self.old { arrivals = slice_set self.old.arrivals source arrival } }
        ensures past { self.old.number ≤ source → self.new ≡ self.old }
    {
        if source.number < self.number {
            self.arrivals.set(source, arrival);
        }
    }

    /// The first elapsed tick at which a source comes by itself; `None` if none is raised.
    #[inline(always)]
    pub fn first_raised(&self) -> Option<u64>
        ensures { result ≡ soonest self.now.arrivals }
    {
        self.arrivals.first_raised()
    }

    /// Those that come by themselves at this elapsed tick do so no more. They are the ones that are due now; none was before.
    pub(crate) fn take_due(&mut self, tick: u64, due: &mut DueSources)
        requires none { (source : ℕ) → slice_index_or due.old source false ≡ false }
        ensures due { (source : ℕ) → slice_index_or due.new source false
            ≡ is_due tick (arrival_in self.old.arrivals source) }
        ensures lowered { (source : ℕ) → arrival_in self.new.arrivals source
            ≡ lowered tick (arrival_in self.old.arrivals source) }
        ensures full { length self.new.arrivals ≡ 17 }
        ensures rest { self.new ≡ record self.old { arrivals = self.new.arrivals } }
    {
        self.arrivals.take_due(tick, due)
    }

    /// Whether the two are the same at this elapsed tick: then the other is whatever sources this one is.
    pub(crate) fn is_same(&self, other: &Self, elapsed: u64) -> bool
        ensures { result ≡ true → (xs : List Source) → AreSources elapsed self.now xs → AreSources elapsed other.now xs }
    {
        self.number == other.number
            && self.pending == other.pending
            && self.arrivals.is_same(&other.arrivals, elapsed)
    }

    /// A number that is the same for those that are the same at this elapsed tick, and usually differs for others. Nothing rests on
    /// it.
    pub(crate) fn hint(&self, elapsed: u64) -> u64 {
        self.arrivals.hint(elapsed)
    }
}
