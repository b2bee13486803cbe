//! What a report is of.
use model::Point;

/// What the report of a run is of.
#[derive(Clone, Copy)]
pub enum Title {
    /// The base run: nothing is injected.
    Base,
    /// The row of this number, of a campaign that has at most 1,000,000 of them: its point, and whether the base run reaches it.
    Row {
        number: u32,
        point: Point,
        reached: bool,
    },
}
