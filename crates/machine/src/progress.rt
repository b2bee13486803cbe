//! A task's place in its script.
use crate::loops::Loops;
use model::{CallProgress, Phase};
use std::marker::Model;

/// A task's place in its script, and what it keeps there.
#[derive(Clone, Copy)]
pub struct Progress {
    /// The index of the op that the task is at.
    pub op_index: u16,
    /// How much of a `work` is used up.
    pub used: u32,
    pub loops: Loops,
    /// The last answer.
    pub answer: Option<u32>,
    /// The time from which `delay_until` counts, in ticks without bound.
    pub previous_wake: u64,
    /// The time of its last `stamp`, in ticks without bound; at first that at reset.
    pub stamp: u64,
    /// How far the call of this op has come, if it is one that may wait.
    pub call: CallProgress,
}

// Clauses see the definitions' progress.
impl Model for Progress {
    ghost use Rattle.model.specs.State as state;

    ghost Value = { state.Progress };

    ghost view = { λ p. record { op_index = p.op_index; used = p.used; loops = p.loops; answer = p.answer; previous_wake = p.previous_wake; stamp = p.stamp; call = p.call } };

    ghost inverse = { λ p. record { op_index = p.op_index; used = p.used; loops = p.loops; answer = p.answer; previous_wake = p.previous_wake; stamp = p.stamp; call = p.call } };
}

impl Progress {
    ghost use Rattle.std.specs.Prelude.{◌≡◌, true};
    ghost use Rattle.model.specs.State.{no_progress};

    /// At the first op, with nothing of it done, and counting from this time.
    pub(crate) fn new(start: u64) -> Progress
        ensures { result ≡ record no_progress { previous_wake = start; stamp = start } }
    {
        Progress {
            op_index: 0,
            used: 0,
            loops: Loops::new(),
            answer: None,
            previous_wake: start,
            stamp: start,
            call: CallProgress::default(),
        }
    }

    /// Whether the other is at the same place, and keeps the same.
    pub(crate) fn is_same(&self, other: &Self) -> bool
        ensures { result ≡ true → self.now ≡ other.now }
    {
        if self.op_index != other.op_index
            || self.used != other.used
            || self.answer != other.answer
            || self.previous_wake != other.previous_wake
            || self.stamp != other.stamp
            || self.call != other.call
        {
            return false;
        }
        self.loops.is_same(&other.loops)
    }

    /// Whether nothing is done, and nothing kept, as if there is no task.
    pub(crate) fn is_blank(&self) -> bool
        ensures { result ≡ true → self.now ≡ no_progress }
    {
        // If there is no task, each of these is tested, so they are joined without jumps.
        let call = &self.call;
        let is_marked = call.waits | call.inherited;
        let is_kept = self.answer.is_some() | call.deadline.is_some();
        let is_called = call.wants.is_some() | call.kept.is_some();
        if is_marked | is_kept | is_called
            || self.op_index != 0
            || self.used != 0
            || self.previous_wake != 0
            || self.stamp != 0
            || call.phase != Phase::default()
        {
            return false;
        }
        self.loops.is_empty()
    }
}
