//! The kernel: its steps, and whole runs.
#![tactic(auto)]

mod bits;
mod commands;
mod dispatch;
mod end_state;
mod handler_flow;
mod handlers;
mod idle;
mod in_call;
mod kernel;
mod over;
mod quiet;
mod rests;
mod rows;
mod runs;
mod shortcuts;
mod steps;
mod suspended;

pub use end_state::run_to_end_state;
pub use kernel::Kernel;
pub use machine::{Snapshot, StepLog, Trail};
pub use rests::{RestEnding, go_far};
pub use rows::begin_row;
pub use runs::run;
