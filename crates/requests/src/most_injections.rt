//! How many injections placements have.
ghost use Rattle.std.specs.Prelude.{◌≡◌, ◌≤◌, ◌↔◌, IsSome, IfSome};
ghost use Rattle.model.specs.Points.{most_of_point};

use std::marker::Model;

/// How many injections a placement has at most: 0 to 3 (profile).
#[derive(Clone, Copy, PartialEq, Eq)]
pub struct MostInjections {
    count: u32,
}

// Clauses see the number.
impl Model for MostInjections {
    ghost use Rattle.std.specs.Prelude.{ℕ, ◌≤◌};

    ghost Value = { ℕ };

    ghost view = { λ most. most.count };

    ghost invariant = { λ most. most.count ≤ 3 };

    ghost inverse = { λ number. record { count = number } };
}

impl MostInjections {
    /// The greatest number (profile).
    pub const MOST: u32 = 3;

    /// This number; `None` from 4 on.
    pub fn new(count: u32) -> Option<Self>
        ensures known { IsSome result ↔ (count ≤ most_of_point) }
        ensures value { IfSome result (λ most. most ≡ count) }
    {
        if count <= Self::MOST {
            Some(MostInjections { count })
        } else {
            None
        }
    }

    /// The number.
    pub fn count(&self) -> usize
        ensures value { result ≡ self.now }
        ensures few { result ≤ most_of_point }
    {
        self.count as usize
    }
}
