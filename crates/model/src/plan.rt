//! Which handlers are injected before which steps.
ghost use Rattle.std.specs.Prelude.{◌≡◌, ◌↔◌, ◌≤◌, ◌<◌, ℕ, List, [], ◌∷◌, true, false, length, slice_index_or, Err, IfOk};
ghost use Rattle.model.specs.declared.plan.Injection as declared;
ghost use Rattle.model.specs.Points.{AreInOrder, IsPoint, most_of_point, first_step, last_step};
ghost use Rattle.model.specs.Plans.{IsCrowded, IsPlan, most_injected};
ghost use Rattle.model.specs.Run.{injected};

use crate::ids::HandlerId;
use crate::run::Memory;
use std::alloc::Global;
use std::marker::Model;

/// An injection: the handler runs before the step of this number, from 0.
#[derive(Clone, Copy, PartialEq, Eq)]
pub struct Injection {
    pub step: u32,
    pub handler: HandlerId,
}

impl Default for Injection {
    /// What lies in a place of a list that is taken by none.
    fn default() -> Self {
        Injection {
            step: 0,
            handler: NOBODY,
        }
    }
}

// What is in a place of a point that has no injection.
const NOBODY: HandlerId = HandlerId { number: 0 };

/// Why some injections are no point.
#[derive(Clone, Copy)]
pub enum BadPoint {
    /// There is none.
    Empty,
    /// There are more than three (profile).
    TooMany,
    /// A step is less than the one before it.
    Falling,
}

/// An injection point: one to three injections, in the order of their steps (profile).
///
/// A file may have a million points, so the steps and the handlers lie apart from each other, which leaves no gaps between them.
#[derive(Clone, Copy, PartialEq, Eq)]
pub struct Point {
    steps: [u32; 3],
    handlers: [HandlerId; 3],
    count: u8,
}

// A campaign keeps millions of points.
const _: () = prove!(size_of::<Point>() == 16);

impl Model for Point {
    ghost use Rattle.std.specs.Prelude.{List, length, take};
    ghost use Rattle.model.specs.declared.plan.Injection.{Injection};
    ghost use Rattle.model.specs.Packing.{IsPacked, handlers_of, paired, steps_of};

    ghost Value = { List Injection };

    ghost view = { λ p. take p.count (paired p.steps p.handlers) };

    ghost invariant = { λ p. IsPacked p.steps p.handlers p.count (take p.count (paired p.steps p.handlers)) };

    ghost inverse = { λ is. record {
      steps = steps_of is;
      handlers = handlers_of is;
      count = length is;
    } };

    ghost inverse_ok = { λ p h i. record {
      steps = h.steps_are i;
      handlers = h.handlers_are i;
      count = h.count_is i;
    } };
}

impl Point {
    /// The point of these injections: `Empty` comes before `TooMany`, and that before `Falling`.
    pub fn new(injections: &[Injection]) -> Result<Self, BadPoint>
        ensures value { IfOk result (λ point. point ≡ injections.now) }
        ensures empty { (result ≡ Err BadPoint.Empty) ↔ (injections.now ≡ []) }
        ensures many { (result ≡ Err BadPoint.TooMany) ↔ (most_of_point < length injections.now) }
        ensures falling { (result ≡ Err BadPoint.Falling)
            ↔ ((1 ≤ length injections.now) × (length injections.now ≤ most_of_point) × (AreInOrder injections.now → ⊥)) }
    {
        let (steps, handlers) = match injections {
            [] => return Err(BadPoint::Empty),
            [a] => ([a.step, 0, 0], [a.handler, NOBODY, NOBODY]),
            [a, b] => ([a.step, b.step, 0], [a.handler, b.handler, NOBODY]),
            [a, b, c] => ([a.step, b.step, c.step], [a.handler, b.handler, c.handler]),
            _ => return Err(BadPoint::TooMany),
        };
        if falls(injections) {
            return Err(BadPoint::Falling);
        }
        Ok(Point {
            steps,
            handlers,
            count: injections.len() as u8,
        })
    }

    /// The point of one injection.
    pub fn one(step: u32, handler: HandlerId) -> Self
        ensures { result ≡ record { step = step; handler = handler } ∷ [] }
    {
        Point {
            steps: [step, 0, 0],
            handlers: [handler, NOBODY, NOBODY],
            count: 1,
        }
    }

    // The injection in the place of this number.
    fn at(&self, place: usize) -> Injection
        requires { place < 3 }
        ensures { place < length self.now → result ≡ slice_index_or self.now place result }
    {
        Injection {
            step: self.steps[place],
            handler: self.handlers[place],
        }
    }

    /// The injections, in order.
    pub fn injections(&self) -> Injections
        ensures { result ≡ self.now }
    {
        Injections {
            places: [self.at(0), self.at(1), self.at(2)],
            count: self.count,
        }
    }

    /// The first injection.
    pub fn first(&self) -> Injection
        ensures { (others : List declared.Injection) × (self.now ≡ result ∷ others) }
    {
        self.well_formed();
        self.at(0)
    }

    /// The step of the first injection.
    pub fn first_step(&self) -> u32
        ensures { result ≡ first_step self.now }
    {
        self.first().step
    }

    /// The step of the last injection.
    pub fn last_step(&self) -> u32
        ensures { result ≡ last_step self.now }
    {
        self.at(self.count as usize - 1).step
    }

    /// Does nothing: its contract says what holds of every point.
    pub fn well_formed(&self)
        ensures { IsPoint self.now }
    {
        let _ = &self.count;
    }
}

/// The injections of a point, one after the other.
#[derive(Drop)]
pub struct Injections {
    places: [Injection; 3],
    count: u8,
}

impl Model for Injections {
    ghost use Rattle.std.specs.Prelude.{◌≤◌, List, take};
    ghost use Rattle.model.specs.declared.plan.Injection.{Injection};

    ghost Value = { List Injection };

    ghost view = { λ all. take all.count all.places };

    ghost invariant = { λ all. all.count ≤ 3 };
}

impl Injections {
    /// The injections, in order.
    pub fn as_slice(&self) -> &[Injection]
        ensures { result.now ≡ self.now }
    {
        &self.places[..self.count as usize]
    }
}

/// A handler and steps from 0: it is injected before each step from the first to the last, both included, in a run of its own for each.
/// If the base run doesn't have a step, there is no point for it.
#[derive(Clone, Copy, PartialEq, Eq)]
pub struct PointRange {
    pub handler: HandlerId,
    pub first: u32,
    pub last: u32,
}

/// An entry of the list of points that a file has for its campaign.
#[derive(Clone, Copy, PartialEq, Eq)]
pub enum PointEntry {
    /// This point.
    One(Point),
    /// The points of a handler before each of these steps that the base run has, in order.
    Each(PointRange),
}

/// Why some injections are no plan.
#[derive(Clone, Copy)]
pub enum BadPlan {
    /// A step is less than the one before it.
    Falling,
    /// More than three are at one step (profile).
    Crowded,
}

/// The injections of one run, in the order of their steps, at most three at one step (profile).
#[derive(Drop)]
pub struct Plan {
    injections: Vec<Injection>,
}

impl Model for Plan {
    ghost use Rattle.std.specs.Prelude.{List};
    ghost use Rattle.model.specs.declared.plan.Injection.{Injection};
    ghost use Rattle.model.specs.Plans.{IsPlan};

    ghost Value = { List Injection };

    ghost view = { λ p. p.injections.items };

    ghost invariant = { λ p. IsPlan p.injections.items };
}

// Whether some step is less than the one before it.
fn falls(injections: &[Injection]) -> bool
    ensures { (result ≡ false) ↔ AreInOrder injections.now }
{
    let mut last = 0;
    for injection in injections {
        if injection.step < last {
            return true;
        }
        last = injection.step;
    }
    false
}

// Whether at some step there are more than three: then some injection is at the step of the third after it.
fn is_crowded(injections: &[Injection]) -> bool
    requires { AreInOrder injections.now }
    ensures crowded { result ≡ true → IsCrowded injections.now }
    ensures few { result ≡ false → (n : ℕ) → length (injected injections.now n) ≤ most_injected }
{
    let mut left = injections;
    while let [injection, after @ ..] = left {
        if let Some(fourth) = after.get(2) {
            if fourth.step == injection.step {
                return true;
            }
        }
        left = after;
    }
    false
}

impl Plan {
    /// The plan of these injections; `Falling` comes before `Crowded`.
    pub fn new(injections: Vec<Injection>) -> Result<Self, BadPlan>
        ensures value { IfOk result (λ plan. plan ≡ injections.items) }
        ensures falling { (result ≡ Err BadPlan.Falling) ↔ (AreInOrder injections.items → ⊥) }
        ensures crowded { (result ≡ Err BadPlan.Crowded) ↔ (AreInOrder injections.items × IsCrowded injections.items) }
    {
        if falls(injections.as_slice()) {
            return Err(BadPlan::Falling);
        }
        if is_crowded(injections.as_slice()) {
            return Err(BadPlan::Crowded);
        }
        Ok(Plan { injections })
    }

    /// The plan that injects nothing. It takes no memory.
    pub fn none(alloc: Global) -> Self
        ensures { result ≡ [] }
    {
        Plan {
            injections: Vec::new(alloc),
        }
    }

    /// The plan of a point's injections. At `Err(Memory)` a growth was refused.
    pub fn of(alloc: Global, point: &Point) -> Result<Self, Memory>
        ensures { IfOk result (λ plan. plan ≡ point.now) }
    {
        point.well_formed();
        let given = point.injections();
        let mut injections = Vec::new(alloc);
        if injections.extend_from_slice(given.as_slice()).is_err() {
            return Err(Memory);
        }
        Ok(Plan { injections })
    }

    /// The injections, in order.
    pub fn injections(&self) -> &[Injection]
        ensures { result.now ≡ self.now }
    {
        self.injections.as_slice()
    }

    /// Does nothing: its contract says what holds of every plan.
    pub fn well_formed(&self)
        ensures { IsPlan self.now }
    {
        let _ = &self.injections;
    }
}
