//! What the ops of a script do, a file for each family.
//!
//! Each function asks that the running task can do the op (`Can`), and that the log has room for the events that it reports
//! at most; it does the deed of the definitions.
#![tactic(auto)]

pub mod calls;
pub mod critical;
pub mod daemon;
pub mod event_groups;
mod holds;
pub mod mutexes;
pub mod notifications;
pub mod queues;
pub mod script;
pub mod sources;
pub mod suspension;
pub mod time;
pub mod values;
