//! Rows that meet: a row that reaches a state which the base run or another row has reached goes on as that did.
mod ahead;
mod meeting_steps;
mod meetings;
mod runner;
mod spacing;
mod timers;
mod visited_state;
mod visited_states;

pub(crate) use runner::Runner;
pub(crate) use spacing::Spacing;
pub(crate) use timers::{Timers, has_timers};
