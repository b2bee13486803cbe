//! Counts that several threads add to, each by a seat of its own.
ghost use Rattle.std.specs.Prelude.{◌≡◌, ◌+◌, ◌<◌, ◌≤◌, ◌^◌, ℕ, length, replicate, slice_index, IfErr, IfOk};
ghost use Rattle.deal.specs.Parts.{IsSeatOf, part, zeros};
ghost use Rattle.deal.specs.Tallies.{Adds, AreCounts, AreEachOf, AreSeatsOf, AtMost, HasAll, HasTaken, IsRest, Reads, fresh_seat, sheet};

use crate::words::{PartSeat, Parts, Words, add_to, merge, see};
use atomic_table::Table;
use model::Memory;
use std::alloc::Global;
use std::marker::Model;

/// How many kinds a tally counts.
pub const KINDS: usize = 7;

/// A count of each kind.
#[derive(Clone, Copy, Debug, PartialEq, Eq)]
pub struct Counts {
    /// By kind.
    pub kinds: [u64; 7],
}

/// The right to add to a tally, for one thread. Contracts see what it added, and the most that it
/// has seen.
#[derive(Drop)]
pub struct TallySeat {
    seat: PartSeat,
    added: [u64; 7],
}

impl Model for TallySeat {
    ghost use Rattle.deal.specs.Tallies.{Tallied};

    ghost Value = { Tallied };

    ghost use Rattle.deal.specs.Parts.{IsSeatOf};
    ghost use Rattle.deal.specs.Tallies.{tallied};
    ghost use Rattle.std.specs.Prelude.{◌≡◌, ◌≤◌, ◌^◌, ℕ, slice_index};

    ghost view = { λ s. tallied s.seat.table_id s.seat.me.0 };

    ghost invariant = { λ s. IsSeatOf s.seat.table_id s.seat × (s.seat.me.0.parts ≡ 1)
        × (s.seat.me.0.added ≡ s.added) × ((k : ℕ) → slice_index s.added k ≤ 2 ^ 40) };
}

impl TallySeat {
    /// How much the seat may still add to a kind, 0 to 6: 2^40 less what it added.
    pub fn room(&self, kind: usize) -> u64
        requires { kind < 7 }
        ensures { result + slice_index self.now.added kind ≡ 2 ^ 40 }
    {
        (1 << 40) - self.added[kind]
    }

    // The seat goes back to its tally.
    fn give_back(self, words: &Words, rest: &mut PartSeat)
        requires { (self.sheet ≡ sheet words.now.shared.table_id rest.old.me.0.seats)
            × IsSeatOf words.now.shared.table_id rest.old }
        ensures seat { IsSeatOf words.now.shared.table_id rest.new }
        ensures taken { HasTaken self rest.old.me.0 rest.new.me.0 }
    {
        merge(words, rest, self.seat);
    }
}

/// A word for each kind, which seats add to. Contracts see which tally it is.
#[derive(Drop)]
pub struct Tally {
    words: Words,
    rest: PartSeat,
    seats: usize,
}

impl Model for Tally {
    ghost use Rattle.deal.specs.Tallies.{Sheet};

    ghost Value = { Sheet };

    ghost use Rattle.deal.specs.Parts.{IsSeatOf, part, zeros};
    ghost use Rattle.deal.specs.Tallies.{sheet, IsRest};
    ghost use Rattle.std.specs.Prelude.{◌≡◌, ◌<◌};

    ghost view = { λ t. sheet t.words.shared.table_id t.seats };

    ghost invariant = { λ t. (0 < t.seats) × IsSeatOf t.words.shared.table_id t.rest × IsRest t.seats t.rest.me.0 };
}

/// Not all seats were there. The tally and those that were come back.
#[derive(Drop)]
pub struct SeatsMissing {
    pub tally: Tally,
    pub seats: Vec<TallySeat>,
}

impl Tally {
    /// A tally of this many seats, 1 to 65,536, with every count at 0. All room is made here.
    pub fn make(alloc: Global, seats: usize) -> Result<(Tally, Vec<TallySeat>), Memory>
        requires { (0 < seats) × (seats ≤ 65536) }
        ensures tally { IfOk result (λ made. made.0.seats ≡ seats) }
        ensures seats { IfOk result (λ made. made.1.items ≡ replicate seats (fresh_seat made.0)) }
        ensures of { IfOk result (λ made. AreSeatsOf made.0 made.1.items) }
    {
        let (words, mut rest) = Table::of_words(alloc, &[0, 0, 0, 0, 0, 0, 0], &(seats as u64))?;
        let list = make_seats(alloc, &words, &mut rest, seats)?;
        let tally = Tally { words, rest, seats };
        Ok((tally, list))
    }

    /// Adds to a kind, 0 to 6. A seat adds up to 2^40 to each kind in all (`TallySeat::room`).
    pub fn add(&self, seat: &mut TallySeat, kind: usize, n: u64)
        requires seat { seat.old.sheet ≡ self.now }
        requires kind { kind < 7 }
        requires room { slice_index seat.old.added kind + n ≤ 2 ^ 40 }
        ensures { Adds kind n seat.old seat.new }
    {
        add_to(&self.words, &mut seat.seat, kind, n);
        seat.added[kind] += n;
    }

    /// The counts, kind by kind: of each at least what the seat had seen.
    pub fn read(&self, seat: &mut TallySeat) -> Counts
        requires { seat.old.sheet ≡ self.now }
        ensures { Reads result.kinds seat.old seat.new }
    {
        see_all(&self.words, &mut seat.seat)
    }

    /// What all seats added. If not all are there, everything comes back. Takes no memory.
    pub fn close(self, mut seats: Vec<TallySeat>) -> Result<Counts, SeatsMissing>
        requires { AreSeatsOf self seats.items }
        ensures ok { IfOk result (λ counts. AreCounts counts.kinds seats.items) }
        ensures missing { IfErr result (λ e. (length seats.items < self.seats) × (e.tally ≡ self)
            × (e.seats.items ≡ seats.items)) }
    {
        if seats.len() < self.seats {
            return Err(SeatsMissing { tally: self, seats });
        }
        let Tally {
            words,
            mut rest,
            ..
        } = self;
        take_seats(&words, &mut rest, seats);
        Ok(see_all(&words, &mut rest))
    }
}

// The seats of a new tally.
fn make_seats(
    alloc: Global,
    words: &Words,
    rest: &mut PartSeat,
    seats: usize,
) -> Result<Vec<TallySeat>, Memory>
    requires { IsSeatOf words.now.shared.table_id rest.old × (rest.old.me.0 ≡ part seats seats zeros zeros) }
    ensures rest { IfOk result (λ _. IsSeatOf words.now.shared.table_id rest.new
        × (rest.new.me.0 ≡ part seats 0 zeros zeros)) }
    ensures seats { IfOk result (λ list. list.items ≡ replicate seats (fresh_seat
        (sheet words.now.shared.table_id seats))) }
{
    let mut list = Vec::with_capacity(alloc, seats)?;
    for _ in 0..seats {
        let seat = words.shared.split_seat::<Parts>(rest);
        list.push(TallySeat {
            seat,
            added: [0; 7],
        })?;
    }
    Ok(list)
}

// The seats go back.
fn take_seats(words: &Words, rest: &mut PartSeat, mut seats: Vec<TallySeat>)
    requires rest { IsSeatOf words.now.shared.table_id rest.old × IsRest rest.old.me.0.seats rest.old.me.0 }
    requires seats { AreEachOf (sheet words.now.shared.table_id rest.old.me.0.seats) seats.items }
    ensures rest { IsSeatOf words.now.shared.table_id rest.new }
    ensures taken { HasAll seats.items rest.old.me.0.seats rest.new.me.0 }
{
    while let Some(seat) = seats.pop() {
        seat.give_back(words, rest);
    }
}

// Each word, one after the other.
fn see_all(words: &Words, seat: &mut PartSeat) -> Counts
    requires { IsSeatOf words.now.shared.table_id seat.old }
    ensures seat { IsSeatOf words.now.shared.table_id seat.new × (seat.new.me.0.added ≡ seat.old.me.0.added)
        × (seat.new.me.0.parts ≡ seat.old.me.0.parts) × (seat.new.me.0.seats ≡ seat.old.me.0.seats) }
    ensures seen { AtMost seat.old.me.0.seen result.kinds
        × ((k : ℕ) → k < 7 → slice_index seat.new.me.0.seen k ≡ slice_index result.kinds k) }
    ensures whole { 0 < seat.old.me.0.parts → seat.old.me.0.seats ≤ seat.old.me.0.parts → (k : ℕ) → k < 7
        → slice_index result.kinds k ≡ slice_index seat.old.me.0.added k }
{
    let mut kinds = [0; 7];
    for kind in 0..KINDS {
        kinds[kind] = see(words, seat, kind);
    }
    Counts { kinds }
}
