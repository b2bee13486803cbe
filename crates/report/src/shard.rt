//! A part of a campaign's rows.
ghost use Rattle.std.specs.Prelude.{◌≡◌, ◌≤◌, ◌↔◌, IsSome, IfSome};
ghost use Rattle.model.specs.Scripts.{most_points};
ghost use Rattle.report.specs.Shards.{cut_at, first_of, most_shards, next_of, undivided, IsShard};

use std::marker::Model;

/// One of the parts of a campaign's rows, whose lengths differ by one row at most: how many parts there are, and the number of this one,
/// from 1 on. There are at most 1,000,000 parts (profile).
#[derive(Clone, Copy, PartialEq, Eq)]
pub struct Shard {
    number: u32,
    count: u32,
}

// Clauses see the two numbers.
impl Model for Shard {
    ghost use Rattle.report.specs.Shards as shards;
    ghost use Rattle.report.specs.Shards.{IsShard};

    ghost Value = { shards.Shard };

    ghost view = { λ shard. record { number = shard.number; count = shard.count } };

    ghost invariant = { λ shard. IsShard shard.number shard.count };

    ghost inverse = { λ shard. record { number = shard.number; count = shard.count } };
}

// Of this many rows, those up to the end of the part of this number: how many they are.
fn cut_at(count: u32, rows: usize, number: u32) -> usize
    requires count { (1 ≤ count) × (count ≤ most_shards) }
    requires number { number ≤ count }
    requires rows { rows ≤ most_points }
    ensures cut { result ≡ cut_at count rows number }
    ensures within { result ≤ rows }
{
    number as usize * rows / count as usize
}

impl Shard {
    /// The most parts.
    pub const MOST: u32 = 1_000_000;

    /// The part of this number, of this many parts; `None` if there is no such part.
    pub fn new(number: u32, count: u32) -> Option<Shard>
        ensures known { IsSome result ↔ IsShard number count }
        ensures value { IfSome result (λ shard. shard ≡ record { number = number; count = count }) }
    {
        if number >= 1 && number <= count && count <= Self::MOST {
            Some(Shard { number, count })
        } else {
            None
        }
    }

    /// All rows, in one part.
    pub fn whole() -> Shard
        ensures { result ≡ undivided }
    {
        Shard {
            number: 1,
            count: 1,
        }
    }

    /// The number of its first row, if a campaign has this many.
    pub fn first(self, rows: usize) -> usize
        requires { rows ≤ most_points }
        ensures first { result ≡ first_of self rows }
        ensures before { result ≤ next_of self rows }
    {
        cut_at(self.count, rows, self.number - 1)
    }

    /// The number of the first row after it.
    pub fn next(self, rows: usize) -> usize
        requires { rows ≤ most_points }
        ensures next { result ≡ next_of self rows }
        ensures within { result ≤ rows }
    {
        cut_at(self.count, rows, self.number)
    }
}
