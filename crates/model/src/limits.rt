//! When a run ends at the latest, and how many steps were run.
ghost use Rattle.std.specs.Prelude.{◌≡◌, ◌<◌, ◌+◌, ◌^◌, ◌↔◌, ℕ, IsSome, IfSome};
ghost use Rattle.model.specs.Scripts.{AreLimits};

use std::marker::Model;

/// When a run ends at the latest: elapsed ticks, 1 to 2^48, and steps, 1 to 1,000,000 (profile).
#[derive(Clone, Copy, PartialEq, Eq)]
pub struct Limits {
    pub ticks: u64,
    pub steps: u32,
}

// Clauses see the two numbers.
impl Model for Limits {
    ghost use Rattle.model.specs.Application as application;
    ghost use Rattle.model.specs.Scripts.{AreLimits};

    ghost Value = { application.Limits };

    ghost view = { λ limits. record { ticks = limits.ticks; steps = limits.steps } };

    ghost invariant = { λ limits. AreLimits limits.ticks limits.steps };

    ghost inverse = { λ limits. record { ticks = limits.ticks; steps = limits.steps } };
}

impl Limits {
    /// The most steps of a run, and the most ticks that a file without `tickless` may ask for (profile); also if a file names no
    /// limit.
    pub const MOST: u32 = 1_000_000;

    /// The most ticks of a run (profile).
    pub const MOST_TICKS: u64 = 281_474_976_710_656;

    /// The limits; `None` if the ticks are not 1 to 2^48, or the steps not 1 to 1,000,000.
    pub fn new(ticks: u64, steps: u32) -> Option<Self>
        ensures known { IsSome result ↔ AreLimits ticks steps }
        ensures value { IfSome result (λ limits. limits ≡ record { ticks = ticks; steps = steps }) }
    {
        if ticks >= 1 && ticks <= Self::MOST_TICKS && steps >= 1 && steps <= Self::MOST {
            Some(Limits { ticks, steps })
        } else {
            None
        }
    }

    /// Does nothing: its contract says what holds of all limits.
    pub fn well_formed(&self)
        ensures { AreLimits self.now.ticks self.now.steps }
    {
        let _ = &self.ticks;
    }
}

/// Counts the kernel steps of the calls that it is lent to.
#[derive(Drop)]
pub struct Meter {
    steps: u64,
}

// Clauses see the number of steps.
impl Model for Meter {
    ghost Value = { ℕ };

    ghost view = { λ m. m.steps };
}

impl Meter {
    /// A meter that has counted nothing.
    pub fn new() -> Self
        ensures { result ≡ 0 }
    {
        Meter { steps: 0 }
    }

    /// The steps counted so far.
    pub fn steps(&self) -> u64
        ensures { result ≡ self.now }
    {
        self.steps
    }

    /// Counts a step. The meter is below 2^63.
    pub fn count(&mut self)
        requires { self.old < 2 ^ 63 }
        ensures { self.new ≡ self.old + 1 }
    {
        self.steps += 1;
    }
}
