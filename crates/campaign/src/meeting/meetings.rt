//! Whether it pays off for a row to look for visited states long after its last injection.

// This many more rows than those that reach a visited state may go on looking for one before that
// is taken not to pay off.
const PATIENCE: u32 = 32;

// If it doesn't pay off, one row in this many looks on.
const SELDOM: u32 = 128;

// If more rows than these looked on, the earlier ones count half.
const MOST_ROWS: u32 = 1024;

/// How many rows of a worker went on after their first meeting step, and how many of those that
/// looked for visited states there reached one. If fewer than half do, most rows are run to their
/// end without.
#[derive(Drop)]
pub(crate) struct Meetings {
    rows: u32,
    looked: u32,
    met: u32,
}

impl Meetings {
    /// No row went on.
    pub(crate) fn new() -> Meetings {
        Meetings {
            rows: 0,
            looked: 0,
            met: 0,
        }
    }

    /// Whether a row that goes on is to look for visited states, and to leave them.
    pub(crate) fn are_likely(&mut self) -> bool {
        self.rows = self.rows.wrapping_add(1);
        let most = self.met.saturating_mul(2).saturating_add(PATIENCE);
        self.looked <= most || self.rows % SELDOM == 0
    }

    /// Counts a row that looked for visited states, and reached one or didn't.
    pub(crate) fn count(&mut self, has_met: bool) {
        if self.looked >= MOST_ROWS {
            self.looked /= 2;
            self.met /= 2;
        }
        self.looked = self.looked.saturating_add(1);
        self.met = self.met.saturating_add(has_met as u32);
    }
}
