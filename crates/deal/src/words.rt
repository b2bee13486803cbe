//! The words of a tally, each of which is what all seats added to its kind.
ghost use Rattle.std.specs.Prelude.{◌≡◌, ◌+◌, ◌<◌, ◌≤◌, ◌^◌, length, slice_index, slice_set};
ghost use Rattle.deal.specs.Parts.{both_parts, IsSeatOf};
ghost use Rattle.deal.specs.Tallies.{RisesAt};

use crate::part::Part;
use atomic_table::{Join, Play, Seat, Split, Table, TableRule};
use std::alloc::Global;

pub struct Summed;

impl TableRule<(), Part, u64> for Summed {
    ghost use Rattle.deal.specs.Parts.{IsSummed, first_part};

    ghost holds = { IsSummed };

    ghost first = { first_part };
}

pub struct Adds;

impl Play<(), Part> for Adds {
    ghost use Rattle.deal.specs.Parts.{Adding};

    ghost then = { Adding };
}

pub struct Sees;

impl Play<(), Part> for Sees {
    ghost use Rattle.deal.specs.Parts.{Seeing};

    ghost then = { Seeing };
}

// A seat is cut off.
pub struct Parts;

impl Split<Part> for Parts {
    ghost use Rattle.deal.specs.Parts.{less_a_seat, seat_part};

    ghost left = { less_a_seat };

    ghost right = { seat_part };
}

// Two seats are made one.
pub struct Sums;

impl Join<Part> for Sums {
    ghost use Rattle.deal.specs.Parts.{both_parts, no_part};

    ghost both = { both_parts };

    ghost spent = { no_part };
}

pub type Words = Table<(), Part, u64, Summed, Global>;

pub type PartSeat = Seat<(), Part>;

/// Adds to a kind.
pub fn add_to(words: &Words, seat: &mut PartSeat, kind: usize, n: u64)
    requires seat { IsSeatOf words.now.shared.table_id seat.old × (seat.old.me.0.parts ≡ 1) }
    requires kind { kind < 7 }
    requires room { slice_index seat.old.me.0.added kind + n ≤ 2 ^ 40 }
    ensures seat { IsSeatOf words.now.shared.table_id seat.new × (seat.new.me.0.parts ≡ seat.old.me.0.parts)
        × (seat.new.me.0.seats ≡ seat.old.me.0.seats) }
    ensures added { seat.new.me.0.added ≡ slice_set seat.old.me.0.added kind
        (slice_index seat.old.me.0.added kind + n) }
    ensures seen { RisesAt kind n seat.old.me.0.seen seat.new.me.0.seen }
{
    words.shared.fetch_add::<Adds>(seat, kind, n);
}

/// The count of a kind, at least what the seat had seen. If the seat represents all, it is what was
/// added.
pub fn see(words: &Words, seat: &mut PartSeat, kind: usize) -> u64
    requires { IsSeatOf words.now.shared.table_id seat.old × (kind < 7) }
    ensures seat { IsSeatOf words.now.shared.table_id seat.new }
    ensures same { (seat.new.me.0.added ≡ seat.old.me.0.added) × (seat.new.me.0.parts ≡ seat.old.me.0.parts)
        × (seat.new.me.0.seats ≡ seat.old.me.0.seats) }
    ensures seen { (seat.new.me.0.seen ≡ slice_set seat.old.me.0.seen kind result)
        × (slice_index seat.old.me.0.seen kind ≤ result) × (length seat.old.me.0.seen ≡ 7) }
    ensures parts { 0 < seat.old.me.0.parts → seat.old.me.0.parts ≤ seat.old.me.0.seats }
    ensures whole { 0 < seat.old.me.0.parts → seat.old.me.0.parts ≡ seat.old.me.0.seats → result
        ≡ slice_index seat.old.me.0.added kind }
{
    words.shared.load::<Sees>(seat, kind)
}

/// One seat represents the seats of both.
pub fn merge(words: &Words, seat: &mut PartSeat, other: PartSeat)
    requires { IsSeatOf words.now.shared.table_id seat.old × IsSeatOf words.now.shared.table_id other }
    ensures { IsSeatOf words.now.shared.table_id seat.new
        × (seat.new.me.0 ≡ both_parts seat.old.me.0 other.me.0) }
{
    words.shared.join_seat::<Sums>(seat, other);
}
