//! The report of a campaign.
ghost use Rattle.std.specs.Prelude.{◌≡◌};
ghost use Rattle.model.specs.Campaign.{totals_of};
ghost use Rattle.rows.specs.Report.{shown_of, whole, IsSound};

use crate::rows::{Part, Place};
use model::{Run, Totals};
use report::View;
use std::marker::Model;
use std::mem::forget;
use std::thread;
use std::thread::Threads;

// Rows that take this many bytes at most stay in memory to the end of the program, which comes
// soon.
const FEW: usize = 1 << 24;

// How many bytes a row that is kept takes, and an event, or some more.
const ROW: usize = 96;

const EVENT: usize = 16;

/// The rows of a campaign, as far as a view shows them: those of each block are in its place, one block after the other. All begin as
/// the base run does. The first has this number.
#[derive(Drop)]
pub struct Rows {
    pub view: View,
    pub first: usize,
    pub base: Run,
    pub parts: Vec<Part>,
    pub places: Vec<Place>,
    pub totals: Totals,
}

/// The rows of a campaign or of a part of it, in the order of its points, and their totals.
#[derive(Drop)]
pub struct Report {
    rows: Rows,
}

impl Rows {
    ghost use Rattle.std.specs.Prelude.{length};

    /// How many rows there are.
    pub(crate) fn count(&self) -> usize
        requires { IsSound self.now }
        ensures { result ≡ length (whole self.now) }
    {
        self.totals.rows as usize
    }

    /// How many events the rows have of their own, which are all that the workers kept.
    pub(crate) fn own_events(&self) -> usize {
        let mut events: usize = 0;
        for part in &self.parts {
            events = events.saturating_add(part.trail.len());
        }
        events
    }

    // How many bytes the rows and their events take, or some more.
    fn bytes(&self) -> usize {
        let rows = self.totals.rows as usize * ROW;
        self.own_events().saturating_mul(EVENT).saturating_add(rows)
    }

    /// Whether most rows go on as others do: a guess, by as many events for each row as the base run has.
    pub(crate) fn are_alike(&self) -> bool
        requires { IsSound self.now }
    {
        let events = self.base.events.len().saturating_mul(self.count());
        self.own_events().saturating_mul(8) < events
    }
}

// Clauses see the view, the number of the first row, and the rows as a whole.
impl Model for Report {
    ghost use Rattle.rows.specs.Report.{shown_of, IsSound, Shown};

    ghost Value = { Shown };

    ghost view = { λ r. shown_of r.rows };

    ghost invariant = { λ r. IsSound r.rows };
}

impl Report {
    /// The report of these rows.
    pub fn new(rows: Rows) -> Report
        requires { IsSound rows }
        ensures { result ≡ shown_of rows }
    {
        Report { rows }
    }

    /// How many rows there are, and how many of them end in which way.
    pub fn totals(&self) -> Totals
        ensures { result ≡ totals_of self.now.rows }
    {
        self.rows.totals
    }

    /// The rows, as they are kept.
    pub(crate) fn rows(&self) -> &Rows
        ensures shown { shown_of result.now ≡ self.now }
        ensures sound { IsSound result.now }
    {
        &self.rows
    }

    /// Gives back the memory of many rows, that of each part in a thread of its own if one can be
    /// started: the system takes long for so much. Few rows stay in memory to the end of the
    /// program: to start a thread takes longer than to give them back.
    pub fn free<R: Threads + Sync>(self, rt: &R) {
        let Report { rows } = self;
        if rows.bytes() <= FEW {
            forget(rows);
            return;
        }
        let Rows {
            view: _,
            first: _,
            base: _base,
            parts,
            places: _places,
            totals: _,
        } = rows;
        // A part that no thread gets is given back here.
        let _freed = thread::map_vec(rt, parts, &|_part: Part| {});
    }
}
