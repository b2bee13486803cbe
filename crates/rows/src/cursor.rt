//! A place between the rows of a report.
ghost use Rattle.std.specs.Prelude.{◌≡◌, ◌≤◌, ◌<◌, ◌+◌, length, slice_index_or};
ghost use Rattle.rows.specs.declared.campaign_report.Rows as declared;
ghost use Rattle.rows.specs.Report.{rows_at, whole, IsPlace, IsSound};
ghost use Rattle.rows.specs.Pieces.{some_of, IsAt};

use crate::campaign_report::Rows;
use crate::rows::Place;

/// A place between the rows of a report: `number` rows are before it. Those after it are the rows
/// of the place of the number `place`, without the first `row` of them, and of the places after
/// that one.
#[derive(Clone, Copy)]
pub(crate) struct Cursor {
    pub(crate) number: usize,
    place: usize,
    row: usize,
}

// The place of this number.
fn place_at(rows: &Rows, number: usize) -> Place
    requires { number < length rows.now.places.items }
    ensures { result ≡ slice_index_or rows.now.places.items number result }
{
    rows.places[number]
}

impl Cursor {
    /// Before the first row.
    pub(crate) fn start() -> Cursor
        ensures number { result.number ≡ 0 }
        ensures at { (rows : declared.Rows) → IsAt rows result }
    {
        Cursor {
            number: 0,
            place: 0,
            row: 0,
        }
    }

    // Leaves the places that have no rows after the cursor, and returns the one that has.
    fn leave_ended(&mut self, rows: &Rows) -> Place
        requires sound { IsSound rows.now }
        requires at { IsAt rows.now self.old }
        requires more { self.old.number < length (whole rows.now) }
        ensures at { IsAt rows.now self.new }
        ensures number { self.new.number ≡ self.old.number }
        ensures within { self.new.place < length rows.now.places.items }
        ensures place { result ≡ slice_index_or rows.now.places.items self.new.place result }
        ensures row { self.new.row < result.count }
    {
        let mut place = place_at(rows, self.place);
        while self.row >= place.count {
            self.row -= place.count;
            self.place += 1;
            place = place_at(rows, self.place);
        }
        place
    }

    /// Goes over the next rows, as many as are in one place, and at most this many. Returns where
    /// they are.
    pub(crate) fn take(&mut self, rows: &Rows, most: usize) -> Place
        requires sound { IsSound rows.now }
        requires at { IsAt rows.now self.old }
        requires more { self.old.number < length (whole rows.now) }
        requires some { 0 < most }
        ensures at { IsAt rows.now self.new }
        ensures number { self.new.number ≡ self.old.number + result.count }
        ensures some { 0 < result.count }
        ensures few { result.count ≤ most }
        ensures place { IsPlace rows.now.parts.items result }
        ensures rows { rows_at rows.now.base rows.now.parts.items result ≡ some_of (whole rows.now) self.old.number result.count }
    {
        let place = self.leave_ended(rows);
        // A part has no more rows than fit, so the sums below do.
        let _ = rows.parts[place.part].kept.len();
        let first = place.first + self.row;
        let count = most.min(place.count - self.row);
        self.row += count;
        self.number += count;
        Place {
            part: place.part,
            first,
            count,
        }
    }
}
