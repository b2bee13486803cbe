//! How rows go on: each by a leg of its own, and then as a row before it does, or as the base run.
use model::End;

/// Where events are: those of the base run from this one on, or those of a leg from this place of
/// the trail on, and then those after the leg.
#[derive(Clone, Copy)]
pub enum Link {
    Base { from: usize },
    Leg { number: usize, from: usize },
}

/// The events that a row added to the trail, which end at this place, and where the events are with
/// which it goes on.
#[derive(Clone, Copy)]
pub struct Leg {
    pub to: usize,
    pub next: Link,
}
