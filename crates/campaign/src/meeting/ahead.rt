//! How a row goes on to its end.
use model::End;
use rows::Link;

/// How a row goes on from some step to its end: where its events are, and how it ends.
#[derive(Clone, Copy)]
pub(crate) struct Ahead {
    pub(crate) link: Link,
    pub(crate) steps: u32,
    pub(crate) ticks: u64,
    pub(crate) end: End,
}
