//! A division, a deal and a tally.

use crate::fault::Fault;
use deal::{Counts, Deal, Division, Lane, Next, Tally};
use std::alloc::Global;

/// Ten points in blocks of three.
pub(crate) fn divided(alloc: Global) -> Result<Division, Fault> {
    match Division::even(alloc, 10, 3) {
        Ok(division) => Ok(division),
        Err(_) => Err(Fault::Memory),
    }
}

// What the first of these lanes is given.
fn first_next(lanes: &mut Vec<Lane>) -> Result<Next, Fault> {
    match lanes.first_mut() {
        Some(lane) => Ok(lane.next()),
        None => Err(Fault::Other),
    }
}

/// What the first of two lanes is given at first.
pub(crate) fn dealt(alloc: Global) -> Result<Next, Fault> {
    let division = divided(alloc)?;
    match Deal::new(alloc, division, 2, true) {
        Ok((_deal, mut lanes)) => first_next(&mut lanes),
        Err(_) => Err(Fault::Memory),
    }
}

/// The counts of a tally with three seats, which haven't added anything yet.
pub(crate) fn counted(alloc: Global) -> Result<Counts, Fault> {
    let Ok((tally, seats)) = Tally::make(alloc, 3) else {
        return Err(Fault::Memory);
    };
    match tally.close(seats) {
        Ok(counts) => Ok(counts),
        Err(_) => Err(Fault::Other),
    }
}
