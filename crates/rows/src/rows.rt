//! Rows of a campaign, as workers keep them.
use crate::kept_rows::KeptRows;
use crate::link::{Leg, Link};
use machine::Trail;
use model::{End, Point};

/// A row as it is kept: its events begin with this many of the base run's, and go on with those
/// that follow a link.
#[derive(Clone, Copy)]
pub struct KeptRow {
    pub point: Point,
    /// Whether the base run gets beyond the step of the point's first injection, and that can come there.
    pub reached: bool,
    pub shared: usize,
    pub link: Link,
    pub steps: u32,
    pub ticks: u64,
    pub end: End,
}

/// A block whose rows are kept: this many, from the first on.
#[derive(Clone, Copy)]
pub struct KeptBlock {
    pub number: usize,
    pub first: usize,
    pub count: usize,
}

/// Where the rows of a block are: this many of a part, from the first on.
#[derive(Clone, Copy)]
pub struct Place {
    pub part: usize,
    pub first: usize,
    pub count: usize,
}

/// What one worker made.
///
/// Until its first injection a row reports what the base run reports, so those events are kept once for all rows. The events of a
/// row from that injection on are in the trail, up to where it goes on as a row before it does.
#[derive(Drop)]
pub struct Part {
    pub kept: KeptRows,
    pub trail: Trail,
    pub legs: Vec<Leg>,
    pub blocks: Vec<KeptBlock>,
}
