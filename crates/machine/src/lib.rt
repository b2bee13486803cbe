//! The state of the kernel, and what every call is made of.
#![tactic(auto)]

mod answering;
mod arrivals;
mod boot;
mod deadlines;
mod front;
mod hint;
mod interrupts;
mod log;
mod loops;
mod machine;
mod notifications;
mod progress;
mod snapshot;
mod sources;
mod switching;
mod trail;
mod variables;

pub use answering::one_if;
pub use arrivals::{Arrival, Arrivals, DueSources};
pub use boot::NO_WAIT_LIST;
pub use deadlines::{place_sleeper, place_sleeper_for};
pub use log::{Log, StepLog};
pub use loops::Loops;
pub use machine::Machine;
pub use notifications::Notifications;
pub use progress::Progress;
pub use snapshot::Snapshot;
pub use sources::Sources;
pub use switching::wake_all;
pub use trail::Trail;
pub use variables::Variables;
