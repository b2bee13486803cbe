//! Objects that tasks share.
ghost use Rattle.std.specs.Prelude.{◌≡◌};
ghost use Rattle.model.specs.Scripts.{fits};

use crate::op::Access;

/// An object of an application.
#[derive(Clone, Copy, PartialEq, Eq)]
pub enum ObjectKind {
    /// A queue that holds this many items at most, 1 to 256 (profile); each is a number of 32 bits (profile).
    Queue(u16),
    /// A semaphore: its greatest count, 1 to 65,535, and the count at reset, not above that (profile). A binary semaphore
    /// counts to 1 and starts at 0.
    Semaphore(u16, u16),
    /// A mutex, which is free at reset.
    Mutex,
}

impl ObjectKind {
    /// The most items of a queue (profile).
    pub const MOST_ITEMS: u16 = 256;

    /// Whether the call may be made on an object of this kind.
    pub fn fits<Item: Copy>(self, access: Access<Item>) -> bool
        ensures { result ≡ fits self access }
    {
        match (self, access) {
            (ObjectKind::Queue(size), Access::Overwrite(_)) => size == 1,
            (ObjectKind::Queue(_), access) => access.is_of_queue(),
            (ObjectKind::Semaphore(_, _), access) => access.is_of_semaphore(),
            (ObjectKind::Mutex, access) => access.is_of_mutex(),
        }
    }
}
