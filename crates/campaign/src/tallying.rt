//! Rows that are counted, and added to a tally, and the totals of what was added.
ghost use Rattle.std.specs.Prelude.{◌≡◌, ◌<◌, ◌≤◌, ◌+◌, ◌^◌, ℕ, List, [], ◌∷◌, length, slice_index};
ghost use Rattle.model.specs.Campaign.{Row, totals_of};
ghost use Rattle.model.specs.Scripts.{most_points};
ghost use Rattle.deal.specs.Parts.{zeros};
ghost use Rattle.deal.specs.Tallies.{AddsAt, Sheet, added_in};
ghost use Rattle.campaign.specs.Kinds.{kind_of, kind_in};
ghost use Rattle.campaign.specs.Working.{counted, Gained};

use deal::{Tally, TallySeat};
use model::{End, Totals};

// How many kinds there are.
const KINDS: usize = 7;

// The kind of the points that are not reached.
const NOT_REACHED: usize = 6;

// A seat adds at most this much to a kind.
const MOST_ADDED: u64 = 1 << 40;

// The kind of an end.
fn kind_of(end: End) -> usize
    ensures kind { result ≡ kind_of end }
    ensures small { result < 6 }
{
    match end {
        End::Pass => 0,
        End::Check(_, _) | End::HandlerCheck(_, _) => 1,
        End::Misuse(_, _, _) => 2,
        End::Ticks => 3,
        End::Steps => 4,
        End::Stuck => 5,
    }
}

/// How many rows of each kind a worker made that it hasn't added to its seat yet. All workers of a campaign add to
/// the same few words of memory, which only one processor can write at a time. So each adds many rows at once.
#[derive(Drop)]
pub(crate) struct RowCounts {
    pub(crate) kinds: [u64; KINDS],
}

impl RowCounts {
    /// No rows.
    pub(crate) fn new() -> RowCounts
        ensures { result.kinds ≡ zeros }
    {
        RowCounts { kinds: [0; KINDS] }
    }

    // One more of a kind.
    fn add(&mut self, kind: usize)
        requires kind { kind < 7 }
        requires room { slice_index self.old.kinds kind ≤ 2 ^ 40 }
        ensures { AddsAt kind 1 self.old.kinds self.new.kinds }
    {
        self.kinds[kind] += 1;
    }

    /// Counts a row: to the kind of its end, and if its point is not reached, to that kind too.
    pub(crate) fn count(&mut self, reached: bool, end: End)
        requires room { (kind : ℕ) → kind < 7 → slice_index self.old.kinds kind + 1 ≤ 2 ^ 40 }
        ensures { (row : Row) (tally : Sheet) → row.reached ≡ reached → row.run.end ≡ end
            → Gained (kind_in (row ∷ [])) (counted tally self.old.kinds) (counted tally self.new.kinds) }
    {
        self.add(kind_of(end));
        if !reached {
            self.add(NOT_REACHED);
        }
    }

    /// Adds them to a seat.
    pub(crate) fn add_to(&self, tally: &Tally, seat: &mut TallySeat)
        requires seat { seat.old.sheet ≡ tally.now }
        requires room { (kind : ℕ) → kind < 7
            → slice_index seat.old.added kind + slice_index self.now.kinds kind ≤ 2 ^ 40 }
        ensures { Gained (slice_index self.now.kinds) seat.old seat.new }
    {
        for kind in 0..KINDS {
            tally.add(seat, kind, self.kinds[kind]);
        }
    }
}

// What these seats have added to a kind together.
fn added(seats: &[TallySeat], kind: usize) -> u64
    requires kind { kind < 7 }
    requires few { length seats.now ≤ 64 }
    ensures { result ≡ added_in kind seats.now }
{
    let mut sum: u64 = 0;
    for seat in seats {
        sum += MOST_ADDED - seat.room(kind);
    }
    sum
}

/// What the seats of a campaign had added before it, of each kind.
#[derive(Drop)]
pub(crate) struct AddedBefore {
    pub(crate) kinds: [u64; KINDS],
}

impl AddedBefore {
    /// What these seats, 64 at most, have added by now.
    pub(crate) fn of(seats: &[TallySeat]) -> AddedBefore
        requires { length seats.now ≤ 64 }
        ensures { (kind : ℕ) → kind < 7 → slice_index result.kinds kind ≡ added_in kind seats.now }
    {
        let mut kinds = [0; KINDS];
        for kind in 0..KINDS {
            kinds[kind] = added(seats, kind);
        }
        AddedBefore { kinds }
    }

    // How many more of a kind these seats have added by now.
    fn more(&self, seats: &[TallySeat], kind: usize) -> u32
        requires kind { kind < 7 }
        requires few { length seats.now ≤ 64 }
        ensures { (count : ℕ) → count < 2 ^ 32 → added_in kind seats.now ≡ slice_index self.now.kinds kind + count → result ≡ count }
    {
        let more = added(seats, kind).saturating_sub(self.kinds[kind]);
        u32::try_from(more).unwrap_or(0)
    }

    /// The totals of these rows, this many, that these seats, 64 at most, have counted since. No
    /// row is looked at.
    pub(crate) fn totals(&self, seats: &[TallySeat], rows: u32) -> Totals
        requires few { length seats.now ≤ 64 }
        ensures { (these : List Row) → length these ≡ rows → length these ≤ most_points
            → ((kind : ℕ) → kind < 7 → added_in kind seats.now ≡ slice_index self.now.kinds kind + kind_in these kind)
            → result ≡ totals_of these }
    {
        Totals {
            rows,
            pass: self.more(seats, 0),
            check: self.more(seats, 1),
            misuse: self.more(seats, 2),
            ticks: self.more(seats, 3),
            steps: self.more(seats, 4),
            stuck: self.more(seats, 5),
            not_reached: self.more(seats, NOT_REACHED),
        }
    }
}
