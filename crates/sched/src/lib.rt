//! The scheduler: which tasks are Ready, and which one runs.
//!
//! It keeps a list of its Ready tasks for each priority, and a word with a bit for each list that is
//! not empty. Tasks that are woken while it is held are kept in one more list, and go to the lists of
//! their priorities when the last hold ends. That takes a time for each of them; each other call takes
//! constant time.
#![tactic(auto)]

mod pending;
mod ready_lists;
mod sched;

pub use sched::Sched;
