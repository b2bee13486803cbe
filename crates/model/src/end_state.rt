//! The end state of a run: what each task is doing, and who holds which mutex, and what each variable is.
use crate::ids::{ObjectId, TaskId};
use arrayvec::ArrayVec;
use std::marker::Model;

/// What a task is doing, and at which op: the index of the one that it is in, or that it does next.
#[derive(Clone, Copy, PartialEq, Eq)]
pub enum Situation {
    /// It runs.
    Runs { op_index: u16 },
    /// It is Ready, and doesn't run.
    Ready { op_index: u16 },
    /// It was woken through an object that is locked, and isn't Ready yet.
    Awake { op_index: u16 },
    /// It waits until this printed tick, or forever.
    Waits { op_index: u16, until: Option<u32> },
    /// It sleeps until this printed tick.
    Sleeps { op_index: u16, until: u32 },
    /// It is suspended.
    Suspended { op_index: u16 },
    /// Its script is done.
    Ended,
}

impl Default for Situation {
    fn default() -> Self {
        Situation::Ended
    }
}

/// A mutex that is held, and the task that holds it.
#[derive(Clone, Copy, PartialEq, Eq)]
pub struct HeldMutex {
    pub object: ObjectId,
    pub holder: TaskId,
}

impl Default for HeldMutex {
    fn default() -> Self {
        HeldMutex {
            object: ObjectId { number: 0 },
            holder: TaskId { number: 0 },
        }
    }
}

/// The end state of a run.
#[derive(Drop)]
pub struct EndState {
    /// What each task is doing, the daemon last.
    pub situations: ArrayVec<Situation, 32>,
    /// The mutexes that are held, by their numbers.
    pub held: ArrayVec<HeldMutex, 33>,
    /// What each variable is, in the order of the file.
    pub variables: ArrayVec<u32, 32>,
}

// Clauses see the three lists.
impl Model for EndState {
    ghost use Rattle.model.specs.EndStates as definition;

    ghost Value = { definition.EndState };

    ghost view = { λ s. record { situations = s.situations.items; held = s.held.items; variables = s.variables.items } };
}
