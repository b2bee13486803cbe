//! What an op asks of the object that it names.
ghost use Rattle.std.specs.Prelude.{◌≡◌};
ghost use Rattle.grammar.specs.Finding.{is_of_sort};

use model::ObjectKind;

/// What the object that an op names has to be.
#[derive(Clone, Copy)]
pub enum ObjectSort {
    Queue,
    /// A binary or a counting semaphore.
    Semaphore,
    Mutex,
}

impl ObjectSort {
    /// Whether an object of this kind is one.
    pub fn has(self, kind: ObjectKind) -> bool
        ensures { result ≡ is_of_sort self kind }
    {
        match (self, kind) {
            (ObjectSort::Queue, ObjectKind::Queue(_)) => true,
            (ObjectSort::Semaphore, ObjectKind::Semaphore(_, _)) => true,
            (ObjectSort::Mutex, ObjectKind::Mutex) => true,
            _ => false,
        }
    }
}
