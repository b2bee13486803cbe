//! The events of a part's rows.
use crate::rendering::stretches::Stretches;
use crate::rows::{KeptRow, Part};
use model::Run;
use report::BaseEvents;

/// The events of a part's rows, and their text as far as it is rendered: those of the base run, with
/// which each row begins, and those that the part's worker kept.
#[derive(Clone, Copy)]
pub(crate) struct PartEvents<'s, 'a> {
    pub(crate) base: &'s Run,
    pub(crate) base_events: &'s BaseEvents<'a>,
    pub(crate) part: &'s Part,
    pub(crate) stretches: Option<&'s Stretches<'a>>,
}

/// A row as it is kept, and its text under the number 0 if that is known.
#[derive(Clone, Copy)]
pub(crate) struct KnownRow<'s> {
    pub(crate) kept: &'s KeptRow,
    pub(crate) text: Option<&'s [u8]>,
}
