//! Rows of a campaign.
use model::{End, Point, Run};
use std::marker::Model;

/// What is said of the first part of a row but its events.
#[derive(Clone, Copy)]
pub struct RowBeginning {
    /// How many events of the base run come before the row's first injection.
    pub before: usize,
    /// How the row ended, if it did; `None` if it goes on.
    pub end: Option<End>,
}

/// A row of a campaign with all its events: the run with its point's injections if the point is reached, otherwise the base run.
#[derive(Drop)]
pub struct Row {
    pub point: Point,
    /// Whether the base run gets beyond the step of the point's first injection, and that can come there.
    pub reached: bool,
    pub run: Run,
}

// Clauses see the same.
impl Model for Row {
    ghost use Rattle.model.specs.Campaign as definition;

    ghost Value = { definition.Row };

    ghost view = { λ row. record { point = row.point; reached = row.reached; run = row.run } };
}
