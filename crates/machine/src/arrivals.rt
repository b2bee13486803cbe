//! When interrupt sources can come, and when they come by themselves.
ghost use Rattle.std.specs.Prelude.{◌≡◌, ◌<◌, ◌≤◌, ◌+◌, ◌-◌, ◌^◌, ℕ, false, true, length, slice_index_or, slice_set};
ghost use Rattle.machine.specs.Arrivals.{after_op, arrival_from, arrival_in, at_any_time, is_due, lowered, sooner, soonest};

use crate::hint::{mixed, numbered};
use model::{HandlerId, SourceOp};
use std::marker::Model;

/// What is kept of an interrupt source beside whether it is pending.
#[derive(Clone, Copy)]
pub struct Arrival {
    /// Whether it can come if it is injected.
    pub armed: bool,
    /// From which elapsed tick on it can.
    pub free_from: u64,
    /// At which elapsed tick it comes by itself, if it is raised.
    pub raised: Option<u64>,
}

/// What is kept of a source that can come at any time, and isn't raised.
const AT_ANY_TIME: Arrival = Arrival {
    armed: true,
    free_from: 0,
    raised: None,
};

/// What is kept of a source that can't come if it is injected, and isn't raised.
pub(crate) const DISARMED: Arrival = Arrival {
    armed: false,
    free_from: 0,
    raised: None,
};

/// That of each of 17 sources.
#[derive(Drop)]
pub struct Arrivals {
    of_sources: [Arrival; 17],
    /// The first tick at which one of them comes by itself.
    first_raised: Option<u64>,
    /// With none from this one on was anything done. Only those before it are looked through, copied and compared.
    used: u8,
}

// Clauses see them in the order of the sources.
impl Model for Arrivals {
    ghost use Rattle.std.specs.Prelude.{ℕ, ◌≡◌, ◌≤◌, List};
    ghost use Rattle.machine.specs.declared.arrivals.Arrival.{Arrival};
    ghost use Rattle.machine.specs.Arrivals.{arrival_in, at_any_time, soonest};

    ghost Value = { List Arrival };

    ghost view = { λ a. a.of_sources };

    ghost invariant = { λ a. (a.first_raised ≡ soonest a.of_sources) × (a.used ≤ 17)
        × ((source : ℕ) → a.used ≤ source → arrival_in a.of_sources source ≡ at_any_time) };
}

/// Which sources come by themselves at a tick.
#[derive(Drop)]
pub struct DueSources {
    are_due: [bool; 17],
    /// None from this one on.
    until: u8,
}

// Clauses see of each whether it does.
impl Model for DueSources {
    ghost use Rattle.std.specs.Prelude.{ℕ, ◌≡◌, ◌≤◌, Bool, List, false, slice_index_or};

    ghost Value = { List Bool };

    ghost view = { λ d. d.are_due };

    ghost invariant = { λ d. (d.until ≤ 17)
        × ((source : ℕ) → d.until ≤ source → slice_index_or d.are_due source false ≡ false) };
}

impl DueSources {
    /// None is due.
    pub fn new() -> Self
        ensures { (source : ℕ) → slice_index_or result source false ≡ false }
    {
        DueSources {
            are_due: [false; 17],
            until: 0,
        }
    }

    /// Whether this source does.
    pub fn is_due(&self, source: HandlerId) -> bool
        ensures { result ≡ slice_index_or self.now source false }
    {
        self.are_due[source.number as usize]
    }

    /// None does from this one on.
    pub fn until(&self) -> u8
        ensures few { result ≤ 17 }
        ensures past { (source : ℕ) → result ≤ source → slice_index_or self.now source false ≡ false }
    {
        self.until
    }
}

/// The sooner of two ticks, if there are two.
fn sooner(first: Option<u64>, other: Option<u64>) -> Option<u64>
    ensures { result ≡ sooner first other }
{
    match (first, other) {
        (Some(first), Some(other)) => Some(first.min(other)),
        (None, other) => other,
        (first, None) => first,
    }
}

/// The first tick at which one of these sources comes by itself.
fn soonest(arrivals: &[Arrival]) -> Option<u64>
    ensures { result ≡ soonest arrivals.now }
{
    let mut first = None;
    for arrival in arrivals {
        first = sooner(first, arrival.raised);
    }
    first
}

impl Arrival {
    /// How many ticks are left from this elapsed one on until it can come.
    fn ticks_until_free(self, elapsed: u64) -> u64
        ensures { result ≡ self.free_from - elapsed }
    {
        self.free_from.saturating_sub(elapsed)
    }

    /// Whether the other is the same from this elapsed tick on.
    fn is_same(self, other: Self, elapsed: u64) -> bool
        ensures { result ≡ true → arrival_from elapsed self ≡ arrival_from elapsed other }
    {
        self.armed == other.armed
            && self.ticks_until_free(elapsed) == other.ticks_until_free(elapsed)
            && self.raised == other.raised
    }

    /// The same after this op, if this is the elapsed tick.
    pub(crate) fn after(self, op: SourceOp, now: u64) -> Self
        requires { now ≤ 2 ^ 63 + 2 ^ 32 }
        ensures { result ≡ after_op op now self }
    {
        let Arrival {
            armed,
            free_from,
            raised,
        } = self;
        match op {
            SourceOp::Arm => Arrival {
                armed: true,
                free_from,
                raised,
            },
            SourceOp::Disarm => Arrival {
                armed: false,
                free_from,
                raised,
            },
            SourceOp::Raise(ticks) => Arrival {
                armed,
                free_from,
                raised: Some(now + ticks as u64),
            },
            SourceOp::Cancel => Arrival {
                armed,
                free_from,
                raised: None,
            },
        }
    }

    /// The same, but that it can come again from this elapsed tick on.
    pub(crate) fn free_again(self, free_from: u64) -> Self
        ensures { result ≡ record self { free_from = free_from } }
    {
        Arrival {
            armed: self.armed,
            free_from,
            raised: self.raised,
        }
    }

    /// Whether the source comes by itself at this tick.
    fn is_due(self, tick: u64) -> bool
        ensures { result ≡ is_due tick self }
    {
        self.raised == Some(tick)
    }

    /// The same, but that the source doesn't come by itself at this tick.
    fn lowered(self, tick: u64) -> Self
        ensures { result ≡ lowered tick self }
    {
        if self.is_due(tick) {
            Arrival {
                armed: self.armed,
                free_from: self.free_from,
                raised: None,
            }
        } else {
            self
        }
    }
}

/// The first tick at which one of these sources comes by itself, if none does from this one on.
fn soonest_before(arrivals: &[Arrival; 17], used: u8) -> Option<u64>
    requires few { used ≤ 17 }
    requires past { (source : ℕ) → used ≤ source → arrival_in arrivals.now source ≡ at_any_time }
    ensures { result ≡ soonest arrivals.now }
{
    let all = &arrivals[..];
    soonest(&all[..used as usize])
}

/// That of this source becomes this one. Returns the first tick at which one of the sources comes by itself, which was this one
/// before. With none from `used` on was anything done.
fn put(
    arrivals: &mut [Arrival; 17],
    source: HandlerId,
    arrival: Arrival,
    used: u8,
    first: Option<u64>,
) -> Option<u64>
    requires few { used ≤ 17 }
    requires below { source < used }
    requires past { (source : ℕ) → used ≤ source → arrival_in arrivals.old source ≡ at_any_time }
    requires first { first ≡ soonest arrivals.old }
    ensures put { arrivals.new ≡ slice_set arrivals.old source arrival }
    ensures first { result ≡ soonest arrivals.new }
{
    let before = arrivals[source.number as usize].raised;
    arrivals[source.number as usize] = arrival;
    match before {
        None => sooner(first, arrival.raised),
        Some(_) => soonest_before(arrivals, used),
    }
}

/// Whether these are the same from this elapsed tick on, if those past the used ones are.
fn are_same(arrivals: &[Arrival; 17], others: &[Arrival; 17], used: u8, elapsed: u64) -> bool
    requires few { used ≤ 17 }
    requires past { (source : ℕ) → used ≤ source
        → arrival_in arrivals.now source ≡ arrival_in others.now source }
    ensures same { result ≡ true → (source : ℕ)
        → arrival_from elapsed (arrival_in arrivals.now source) ≡ arrival_from elapsed (arrival_in others.now source) }
    ensures full { length others.now ≡ 17 }
{
    for source in 0..used as usize {
        if !arrivals[source].is_same(others[source], elapsed) {
            return false;
        }
    }
    true
}

/// These become the others, if they are the same from this one on.
fn copy_used(arrivals: &mut [Arrival; 17], others: &[Arrival; 17], used: u8)
    requires few { used ≤ 17 }
    requires past { (source : ℕ) → used ≤ source
        → arrival_in arrivals.old source ≡ arrival_in others.now source }
    ensures { arrivals.new ≡ others.now }
{
    for source in 0..used as usize {
        arrivals[source] = others[source];
    }
}

/// Those of the sources that come by themselves at this tick do so no more, and are due now. Returns the first tick at which another
/// one comes by itself. With none from `used` on was anything done.
fn lower_each(
    arrivals: &mut [Arrival; 17],
    used: u8,
    tick: u64,
    due: &mut [bool; 17],
) -> Option<u64>
    requires few { used ≤ 17 }
    requires past { (source : ℕ) → used ≤ source → arrival_in arrivals.old source ≡ at_any_time }
    requires none { (source : ℕ) → slice_index_or due.old source false ≡ false }
    ensures due { (source : ℕ) → slice_index_or due.new source false ≡ is_due tick (arrival_in arrivals.old source) }
    ensures lowered { (source : ℕ) → arrival_in arrivals.new source ≡ lowered tick (arrival_in arrivals.old source) }
    ensures first { result ≡ soonest arrivals.new }
    ensures full { length arrivals.new ≡ 17 }
{
    let mut first = None;
    for source in 0..used as usize {
        let arrival = arrivals[source];
        let left = arrival.lowered(tick);
        due[source] = arrival.is_due(tick);
        arrivals[source] = left;
        first = sooner(first, left.raised);
    }
    first
}

impl Arrivals {
    /// All can come at any time, and none is raised.
    pub(crate) fn new() -> Self
        ensures any_time { (source : ℕ) → arrival_in result source ≡ at_any_time }
        ensures full { length result ≡ 17 }
    {
        Arrivals {
            of_sources: [AT_ANY_TIME; 17],
            first_raised: None,
            used: 0,
        }
    }

    /// A copy. It takes no memory.
    pub(crate) fn copy(&self) -> Self
        ensures { result ≡ self.now }
    {
        Arrivals {
            of_sources: self.of_sources,
            first_raised: self.first_raised,
            used: self.used,
        }
    }

    /// Becomes a copy of the other, in place. It takes no memory.
    pub(crate) fn set_from(&mut self, other: &Self)
        ensures { self.new ≡ other.now }
    {
        let used = self.used.max(other.used);
        copy_used(&mut self.of_sources, &other.of_sources, used);
        self.first_raised = other.first_raised;
        self.used = other.used;
    }

    /// That of this source.
    pub fn of(&self, source: HandlerId) -> Arrival
        ensures { result ≡ arrival_in self.now source }
    {
        self.of_sources[source.number as usize]
    }

    /// The first tick at which a source comes by itself; `None` if none is raised.
    #[inline(always)]
    pub fn first_raised(&self) -> Option<u64>
        ensures { result ≡ soonest self.now }
    {
        self.first_raised
    }

    /// That of this source becomes this one.
    pub(crate) fn set(&mut self, source: HandlerId, arrival: Arrival)
        ensures set { self.new ≡ slice_set self.old source arrival }
        ensures known { source < 17 }
    {
        self.used = self.used.max(source.number + 1);
        self.first_raised = put(
            &mut self.of_sources,
            source,
            arrival,
            self.used,
            self.first_raised,
        );
    }

    /// Those that come by themselves at this tick do so no more. They are the ones that are due now; none was before.
    pub(crate) fn take_due(&mut self, tick: u64, due: &mut DueSources)
        requires none { (source : ℕ) → slice_index_or due.old source false ≡ false }
        ensures due { (source : ℕ) → slice_index_or due.new source false ≡ is_due tick (arrival_in self.old source) }
        ensures lowered { (source : ℕ) → arrival_in self.new source ≡ lowered tick (arrival_in self.old source) }
        ensures full { length self.new ≡ 17 }
    {
        self.first_raised = lower_each(&mut self.of_sources, self.used, tick, &mut due.are_due);
        due.until = self.used;
    }

    /// Whether the two are the same from this elapsed tick on.
    pub(crate) fn is_same(&self, other: &Self, elapsed: u64) -> bool
        ensures same { result ≡ true → (source : ℕ)
            → arrival_from elapsed (arrival_in self.now source) ≡ arrival_from elapsed (arrival_in other.now source) }
        ensures full { length other.now ≡ 17 }
    {
        let used = self.used.max(other.used);
        are_same(&self.of_sources, &other.of_sources, used, elapsed)
    }

    /// A number that is the same for those that are the same from this elapsed tick on, and usually differs for others. Nothing
    /// rests on it.
    pub(crate) fn hint(&self, elapsed: u64) -> u64 {
        let mut hash = 0;
        for arrival in self.of_sources.iter().take(self.used as usize) {
            let raised = numbered(arrival.raised);
            let free = arrival.ticks_until_free(elapsed);
            hash = mixed(hash, raised ^ free.rotate_left(32) ^ arrival.armed as u64);
        }
        hash
    }
}
