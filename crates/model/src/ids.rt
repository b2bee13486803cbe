//! Typed numbers: which task, which handler, which object, which event group, which variable.
ghost use Rattle.std.specs.Prelude.{◌≡◌, ◌<◌, ◌↔◌, IsSome, IfSome};

use std::marker::Model;

/// A task, by its index in the file: 0 to 31.
#[derive(Clone, Copy, Debug, PartialEq, Eq)]
pub struct TaskId {
    pub number: u8,
}

// Clauses see the number.
impl Model for TaskId {
    ghost use Rattle.std.specs.Prelude.{ℕ, ◌<◌};

    ghost Value = { ℕ };

    ghost view = { λ task. task.number };

    ghost invariant = { λ task. task.number < 32 };

    ghost inverse = { λ number. record { number = number } };
}

impl TaskId {
    /// The task of this index; `None` from 32 on.
    pub fn new(number: u8) -> Option<Self>
        ensures known { IsSome result ↔ (number < 32) }
        ensures value { IfSome result (λ task. task ≡ number) }
    {
        if number < 32 {
            Some(TaskId { number })
        } else {
            None
        }
    }
}

impl Default for TaskId {
    fn default() -> Self {
        TaskId { number: 0 }
    }
}

/// An interrupt source: a handler, by its index in the file, or the tick, whose number is how many handlers the file has. 0 to 16.
#[derive(Clone, Copy, PartialEq, Eq)]
pub struct HandlerId {
    pub number: u8,
}

// Clauses see the number.
impl Model for HandlerId {
    ghost use Rattle.std.specs.Prelude.{ℕ, ◌<◌};

    ghost Value = { ℕ };

    ghost view = { λ handler. handler.number };

    ghost invariant = { λ handler. handler.number < 17 };

    ghost inverse = { λ number. record { number = number } };
}

impl HandlerId {
    /// The handler of this index; `None` from 17 on.
    pub fn new(number: u8) -> Option<Self>
        ensures known { IsSome result ↔ (number < 17) }
        ensures value { IfSome result (λ handler. handler ≡ number) }
    {
        if number < 17 {
            Some(HandlerId { number })
        } else {
            None
        }
    }
}

impl Default for HandlerId {
    fn default() -> Self {
        HandlerId { number: 0 }
    }
}

/// An object that tasks share, by its index among all of them: 0 to 32. Queues come first, then binary semaphores, counting
/// ones and mutexes, those of a kind in the order of the file. A file has 32 at most, so that one number is left, for a queue
/// that is in no file.
#[derive(Clone, Copy, PartialEq, Eq)]
pub struct ObjectId {
    pub number: u8,
}

// Clauses see the number.
impl Model for ObjectId {
    ghost use Rattle.std.specs.Prelude.{ℕ, ◌<◌};

    ghost Value = { ℕ };

    ghost view = { λ object. object.number };

    ghost invariant = { λ object. object.number < 33 };

    ghost inverse = { λ number. record { number = number } };
}

impl ObjectId {
    /// The object of this index; `None` from 33 on.
    pub fn new(number: u8) -> Option<Self>
        ensures known { IsSome result ↔ (number < 33) }
        ensures value { IfSome result (λ object. object ≡ number) }
    {
        if number < 33 {
            Some(ObjectId { number })
        } else {
            None
        }
    }
}

/// An event group, by its index in the file: 0 to 15.
#[derive(Clone, Copy, PartialEq, Eq)]
pub struct GroupId {
    pub number: u8,
}

// Clauses see the number.
impl Model for GroupId {
    ghost use Rattle.std.specs.Prelude.{ℕ, ◌<◌};

    ghost Value = { ℕ };

    ghost view = { λ group. group.number };

    ghost invariant = { λ group. group.number < 16 };

    ghost inverse = { λ number. record { number = number } };
}

impl GroupId {
    /// The event group of this index; `None` from 16 on.
    pub fn new(number: u8) -> Option<Self>
        ensures known { IsSome result ↔ (number < 16) }
        ensures value { IfSome result (λ group. group ≡ number) }
    {
        if number < 16 {
            Some(GroupId { number })
        } else {
            None
        }
    }
}

/// A variable, by its index in the file: 0 to 31.
// Without an `impl Model`, so clauses see the record: rattle gives no proof of what moves an enum in an enum that holds a type with a model.
#[derive(Clone, Copy, PartialEq, Eq)]
pub struct VariableId {
    pub number: u8,
}

impl VariableId {
    /// The variable of this index; `None` from 32 on.
    pub fn new(number: u8) -> Option<Self>
        ensures known { IsSome result ↔ (number < 32) }
        ensures value { IfSome result (λ variable. variable.number ≡ number) }
    {
        if number < 32 {
            Some(VariableId { number })
        } else {
            None
        }
    }
}
