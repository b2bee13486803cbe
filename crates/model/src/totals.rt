//! How many rows of a campaign end in which way.

/// How many rows a campaign has, how many of them end in each way, and how many of their points are not reached. A row whose
/// point is not reached is counted by its end too, so that the ends add up to the rows.
#[derive(Clone, Copy)]
pub struct Totals {
    /// All rows.
    pub rows: u32,
    /// Those that pass.
    pub pass: u32,
    /// Those in which an `expect` fails.
    pub check: u32,
    /// Those that end with a misuse.
    pub misuse: u32,
    /// Those that end at the limit of ticks.
    pub ticks: u32,
    /// Those that end at the limit of steps.
    pub steps: u32,
    /// Those that are stuck.
    pub stuck: u32,
    /// Those whose point the base run doesn't reach.
    pub not_reached: u32,
}
