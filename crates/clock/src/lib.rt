//! The kernel's clock: a tick of 32 bits that wraps, and the tasks that sleep until some time.
//!
//! Contracts speak of time without bound: a tick that is shown is that time modulo 2^32.
#![tactic(auto)]

mod clock;
mod due;

pub use clock::{Clock, Mark};
pub use due::Due;
