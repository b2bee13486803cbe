//! The result of a run.
use crate::event::{End, Event};
use std::alloc::{AllocError, AllocFailed};
use std::marker::Model;

/// There was no memory for what was asked.
#[derive(Clone, Copy, Debug, PartialEq, Eq)]
pub struct Memory;

impl From<AllocError> for Memory {
    fn from(_: AllocError) -> Memory {
        Memory
    }
}

impl<T: Drop> From<AllocFailed<T>> for Memory {
    fn from(_: AllocFailed<T>) -> Memory {
        Memory
    }
}

/// How a run ended, and when.
#[derive(Clone, Copy)]
pub struct Ending {
    /// The steps done, at most 1,000,000.
    pub steps: u32,
    /// The ticks since reset, at most 2^48.
    pub ticks: u64,
    /// Why it ended.
    pub end: End,
}

/// A run from reset to its end.
#[derive(Drop)]
pub struct Run {
    /// What happened, in order.
    pub events: Vec<Event>,
    /// The steps done, at most 1,000,000.
    pub steps: u32,
    /// The ticks since reset, at most 2^48.
    pub ticks: u64,
    /// Why it ended.
    pub end: End,
}

// Clauses see the same, the events as a list.
impl Model for Run {
    ghost use Rattle.model.specs.Run as definition;

    ghost Value = { definition.Run };

    ghost view = { λ r. record { events = r.events.items; steps = r.steps; ticks = r.ticks; end = r.end } };
}
