//! What is explored.
use crate::choices::Choices;
use model::{App, Limits};
use std::alloc::Global;

/// What is explored: the run of an application under these limits, with these choices of handlers
/// before each of its steps. What is found is kept in this memory.
#[derive(Clone, Copy)]
pub(crate) struct Question<'a> {
    pub(crate) alloc: Global,
    pub(crate) app: &'a App,
    pub(crate) limits: &'a Limits,
    pub(crate) choices: &'a Choices,
}

/// A block of steps: plans that have no injection left go on up to this step at once.
#[derive(Clone, Copy)]
pub(crate) struct StepBlock<'q, 'a> {
    pub(crate) question: &'q Question<'a>,
    pub(crate) until: u32,
}
