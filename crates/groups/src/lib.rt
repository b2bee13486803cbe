//! The event groups: bits that tasks set, clear and wait for.
#![tactic(auto)]

mod bits;
mod groups;
mod met;

pub use groups::Groups;
pub use met::Met;
