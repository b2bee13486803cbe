//! The objects that tasks share: queues (profile: of numbers of 32 bits), semaphores and mutexes, and the lists of the tasks
//! that wait at them.
#![tactic(auto)]

mod items;
pub mod laws;
mod lock;
mod mutexes;
mod objects;
mod semaphores;
mod waiting_lists;

pub use lock::Lock;
pub use objects::{NotHolder, Objects, ObjectsSnapshot};
pub use waiting_lists::{Taken, Unlocked};

/// How many objects the tables have room for: the 32 that a file may have, and one more, for a queue that is in no file.
const OBJECTS: usize = 33;
