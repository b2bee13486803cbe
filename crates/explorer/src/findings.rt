//! What is found of each end.
ghost use Rattle.std.specs.Prelude.{◌≡◌, ◌<◌, ◌+◌, ◌^◌, OnOk, MatchOption, length};
ghost use Rattle.std.specs.List.{AllByRecursion};
ghost use Rattle.model.specs.Placements as definitions;
ghost use Rattle.explorer.specs.Finding.{HasEnd, HaveOthers, IsAddedAt, IsCounted};
ghost use Rattle.explorer.specs.Tallies.{TalliesMore};
ghost use Rattle.explorer.specs.Totals.{placements_in};

use crate::placement::Placement;
use model::{End, Memory};
use std::marker::Model;

/// What is found of an end: how many placements have it, the least of them, and how the run with
/// that one ends.
#[derive(Drop)]
pub struct Found {
    /// How many placements have this end.
    pub number: u128,
    /// The least of them.
    pub least: Placement,
    /// The steps that the run with the least one has.
    pub steps: u32,
    /// The ticks that pass in it.
    pub ticks: u64,
    /// The end.
    pub end: End,
}

// Clauses see the number and the placement.
impl Model for Found {
    ghost use Rattle.model.specs.Placements as definitions;

    ghost Value = { definitions.Found };

    ghost view = { λ f. record { number = f.number; least = record { injections = f.least; steps = f.steps; ticks = f.ticks; end = f.end } } };
}

impl Found {
    // This many more placements have its end; this is the least of them.
    fn add(&mut self, more: Found)
        requires { self.old.number + more.number < 2 ^ 128 }
        ensures { IsCounted self.old self.new more }
    {
        let number = self.number + more.number;
        if more.least.is_less(&self.least) {
            *self = more;
        }
        self.number = number;
    }
}

// The number of what is found of this end, if something is.
fn find_end(found: &[Found], end: End) -> Option<usize>
    ensures { MatchOption result (HaveOthers found.now end) (HasEnd found.now end) }
{
    for (number, one) in found.iter().enumerate() {
        if one.end == end {
            return Some(number);
        }
    }
    None
}

// To what is found under this number come more placements of its end.
fn add_at(found: &mut Vec<Found>, number: usize, more: Found)
    requires within { number < length found.old.items }
    requires room { AllByRecursion (λ f. f.number + more.number < 2 ^ 128) found.old.items }
    ensures { IsAddedAt found.old.items found.new.items number more }
{
    let one = &mut found[number];
    one.add(more);
}

/// This many more placements have this end; this is the least of them.
pub(crate) fn count_end(found: &mut Vec<Found>, more: Found) -> Result<(), Memory>
    requires { AllByRecursion (λ f. f.number + more.number < 2 ^ 128) found.old.items }
    ensures tallies { OnOk result (TalliesMore found.old.items found.new.items more.number more.least) }
    ensures count { OnOk result (placements_in found.new.items ≡ placements_in found.old.items + more.number) }
{
    match find_end(found.as_slice(), more.end) {
        Some(number) => add_at(found, number, more),
        None => found.push(more)?,
    }
    Ok(())
}

/// How many placements are found in all.
pub fn placements_in(found: &[Found]) -> u128
    requires { placements_in found.now < 2 ^ 128 }
    ensures { result ≡ placements_in found.now }
{
    let mut placements = 0;
    for one in found {
        placements += one.number;
    }
    placements
}
