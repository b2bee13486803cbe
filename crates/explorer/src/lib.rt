//! All placements of a few handlers in a run of an application: how many of them end in which way, and the least of each.
#![tactic(auto)]

mod advance;
mod batch;
mod choices;
mod exploring;
mod findings;
mod frontier;
mod layer;
mod order;
mod placement;
mod question;
mod settling;
mod watch;

pub use exploring::explore;
pub use findings::{Found, placements_in};
pub use placement::Placement;
pub use watch::{NoWatch, Watch};
