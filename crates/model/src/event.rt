//! What a run reports: its events, each a line of the report, and how it ends.
use crate::ids::{HandlerId, TaskId};

/// What an event reports.
#[derive(Clone, Copy, PartialEq, Eq)]
pub enum What {
    /// The task's op of this index is complete, with this answer.
    Call(TaskId, u16, u32),
    /// The same, with the answer `none`.
    CallNone(TaskId, u16),
    /// The daemon has done a command, with this answer: it set bits, or (true) cleared them.
    Obeyed(TaskId, bool, u32),
    /// The task reported this mark.
    Mark(TaskId, u32),
    /// The handler did its op of this index, with this answer.
    Isr(HandlerId, u16, u32),
    /// The same, with the answer `none`.
    IsrNone(HandlerId, u16),
    /// The handler reported this mark.
    IsrMark(HandlerId, u32),
    /// The processor went to the task, or to idle.
    Run(Option<TaskId>),
}

impl Default for What {
    fn default() -> Self {
        What::Run(None)
    }
}

/// One thing that happened in a run.
#[derive(Clone, Copy, Default, PartialEq, Eq)]
pub struct Event {
    /// The number of the step, from 0.
    pub step: u32,
    /// The printed tick when it happened: the time modulo 2^32.
    pub tick: u32,
    /// What it was.
    pub what: What,
}

// A run may keep millions of events.
const _: () = prove!(size_of::<Event>() == 16);

/// What a task must not do (profile). FreeRTOS asserts it, or its manual forbids it, and its effect is undefined.
#[derive(Clone, Copy, PartialEq, Eq)]
pub enum Misuse {
    /// While a `suspend_all` is active it does an op that may switch, or wait.
    WhileSuspended,
    /// It takes a `suspend_all` back, and none is active.
    NotSuspended,
    /// It gives a mutex back that it doesn't hold.
    NotHolder,
    /// It reaches the end of its script while a `suspend_all` is active.
    EndedSuspended,
    /// While a critical section is open it does an op that may switch or wait, lets time pass, or suspends the scheduler.
    WhileCritical,
    /// It closes a critical section, and none is open.
    NotCritical,
    /// It reaches the end of its script while a critical section is open.
    EndedCritical,
}

/// How a run ends (profile).
#[derive(Clone, Copy, PartialEq, Eq)]
pub enum End {
    /// Every task is Ended.
    Pass,
    /// An `expect` failed: its task and the index of the op.
    Check(TaskId, u16),
    /// An `expect` of a handler failed: the handler and the index of the op.
    HandlerCheck(HandlerId, u16),
    /// A task's op is a misuse: the task, the index of the op, and which.
    Misuse(TaskId, u16, Misuse),
    /// The limit of elapsed ticks is reached.
    Ticks,
    /// The limit of steps is reached.
    Steps,
    /// Idle runs, and nothing can wake a task.
    Stuck,
}
