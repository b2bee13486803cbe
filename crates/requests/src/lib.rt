//! What the program is asked to do, and which words of the command line ask for it.
#![tactic(auto)]

mod arguments;
mod at;
mod job;
mod most_injections;
mod named_point;
mod names;
mod options;
mod point_words;
mod processors;
mod shown;
mod words;

pub use at::{At, NamedInjections};
pub use job::Job;
pub use most_injections::MostInjections;
pub use named_point::NamedPoint;
pub use options::{BadOption, Options};
pub use processors::meant;
pub use words::job_named;
