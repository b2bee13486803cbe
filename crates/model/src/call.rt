//! A call that may wait, and how far it has come.
use crate::ids::ObjectId;

/// The phases of a call that may wait. Each is one step of the kernel, so that an interrupt may come between any two
/// (profile: FreeRTOS is interrupted between any two instructions outside its critical sections, and the phases are
/// these sections).
#[derive(Clone, Copy, Default, PartialEq, Eq)]
pub enum Phase {
    /// The first step: a call on an object tries, and its deadline counts from here; a `set` sets its bits, and a `wait` looks
    /// at them, as a wait for a notification looks at that.
    #[default]
    Start,
    /// A later try. A wait for bits or for a notification is over then, and returns.
    Try,
    /// The scheduler is held and the queue locked; the task begins to wait, if that is still due.
    Decide,
    /// The task is put into its waiting list.
    Place,
    /// The queue is unlocked.
    Unlock,
    /// The scheduler is held no more.
    Leave,
}

/// For which bits of an event group a task waits (`xEventGroupWaitBits`).
#[derive(Clone, Copy, PartialEq, Eq)]
pub struct Condition {
    /// The bits, 1 to 16,777,215.
    pub mask: u32,
    /// Whether all of them must be set, or any.
    pub all: bool,
    /// Whether they are cleared when it is met (`xClearOnExit`).
    pub clear: bool,
}

/// A list in which tasks wait at an object.
#[derive(Clone, Copy, PartialEq, Eq)]
pub enum WaitList {
    /// For an item, a count or a mutex (`xTasksWaitingToReceive`).
    ToReceive(ObjectId),
    /// For room (`xTasksWaitingToSend`).
    ToSend(ObjectId),
}

/// How far the call that a task is in has come.
#[derive(Clone, Copy, Default, PartialEq, Eq)]
pub struct CallProgress {
    /// The phase that is next.
    pub phase: Phase,
    /// Until when it may wait, in ticks without bound; `None`: forever.
    pub deadline: Option<u64>,
    /// Whether it has begun to wait at an object, until its hold of the scheduler ends.
    pub waits: bool,
    /// Whether its last wait has inherited: the mutex was held by another task, of lower base priority.
    pub inherited: bool,
    /// For which bits of an event group it waits.
    pub wants: Option<Condition>,
    /// The answer that is kept for it: bits of an event group.
    pub kept: Option<u32>,
}
