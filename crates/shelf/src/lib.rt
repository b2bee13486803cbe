//! The base run of an application with snapshots of the kernel along it, and rows that begin from it.
#![tactic(auto)]

mod checkpoints;
mod row;
mod shelf;
mod simulation;
mod walk;

pub use row::{Row, RowBeginning};
pub use shelf::Shelf;
pub use simulation::Simulation;
pub use walk::Walk;
