//! Which rows were made last.
ghost use Rattle.std.specs.Prelude.{◌<◌};

use model::Point;

/// The number of the row that was made last of a point, so that a point that comes again is not run again. It is a guess, as
/// points of steps that are 64 apart share a place, and those of the same first injection.
#[derive(Drop)]
pub(crate) struct Recent {
    rows: [usize; 1088],
}

// The place of a point, by its first injection.
fn place(point: &Point) -> usize
    ensures { result < 1088 }
{
    let first = point.first();
    (first.step as usize % 64) * 17 + first.handler.number as usize
}

impl Recent {
    /// No row is made.
    pub(crate) fn new() -> Recent {
        Recent { rows: [0; 1088] }
    }

    /// The number of the row that may be of this point.
    pub(crate) fn row(&self, point: &Point) -> usize {
        self.rows[place(point)]
    }

    /// The row of this number is the last one of this point.
    pub(crate) fn set(&mut self, point: &Point, number: usize) {
        self.rows[place(point)] = number;
    }
}
