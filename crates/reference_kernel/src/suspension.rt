//! Suspending and resuming tasks and the scheduler.

use super::{ReferenceKernel, Status, count_if};
use model::{App, Phase, TaskId};

impl ReferenceKernel {
    // ---- tasks

    /// Whether suspending the task has an effect.
    fn can_suspend(&self, id: TaskId) -> bool {
        !matches!(self.task(id).status, Status::Suspended(_) | Status::Ended)
    }

    fn count_suspend(&mut self, id: TaskId) {
        let task = self.task(id);
        let waits = matches!(
            task.status,
            Status::Waiting(_) | Status::WaitingForBits(_) | Status::WaitingForNotification(_)
        );
        let decides = task.call.phase == Phase::Decide;
        let has_answer = task.call.kept.is_some();
        count_if(&mut self.tally.suspended_waits, waits);
        count_if(&mut self.tally.suspended_decisions, decides);
        count_if(&mut self.tally.suspended_answers, has_answer);
    }

    /// Suspends the task, whatever its state. If its call was about to decide, it will try again.
    fn suspend(&mut self, id: TaskId) {
        self.count_suspend(id);
        let mut task = self.task(id);
        let cut_off = match task.status {
            Status::Asleep {
                wake_time,
                is_periodic,
                ..
            } if is_periodic => Some(wake_time),
            _ => None,
        };
        if task.call.phase == Phase::Decide {
            task.call.phase = Phase::Try;
        }
        task.status = Status::Suspended(cut_off);
        self.set(id, task);
    }

    fn count_resume(&mut self, id: TaskId, is_early: bool) {
        let is_in_call = self.task(id).call.phase != Phase::Start;
        let is_locked = self.is_locked();
        count_if(&mut self.tally.resumed_calls, is_in_call);
        count_if(&mut self.tally.locked_resumes, is_locked);
        count_if(&mut self.tally.cut_off_sleeps, is_early);
    }

    /// Makes a suspended task Ready, however often it was suspended. If the sleep of a `delay_until` was cut off and would not be
    /// over yet, the next one counts from now. Returns whether the task was suspended.
    pub(super) fn resume(&mut self, id: TaskId) -> bool {
        let mut task = self.task(id);
        let Status::Suspended(cut_off) = task.status else {
            return false;
        };
        let is_early = cut_off.is_some_and(|wake_time| wake_time > self.time);
        if is_early {
            task.previous_wake = self.time;
            self.set(id, task);
        }
        self.count_resume(id, is_early);
        self.make_ready(id);
        true
    }

    /// `suspend`. A task that suspends itself with its last op has reached its end, and isn't suspended.
    pub(super) fn call_suspend(&mut self, app: &App, id: TaskId, other: TaskId) {
        let does = self.can_suspend(other);
        self.answer(app, id, Some(does as u32));
        if self.can_suspend(other) {
            self.suspend(other);
        }
        self.preempt();
    }

    /// `resume`.
    pub(super) fn call_resume(&mut self, app: &App, id: TaskId, other: TaskId) {
        let does = self.resume(other);
        self.answer(app, id, Some(does as u32));
        self.preempt();
    }

    /// Whether the running task is about to decide whether it waits, while a task of higher priority is suspended.
    pub fn has_suspended_above_decision(&self) -> bool {
        let Some(current) = self.current else {
            return false;
        };
        let current = self.task(current);
        for number in 0..32 {
            let other = self.task(TaskId { number });
            if matches!(other.status, Status::Suspended(_)) && other.priority > current.priority {
                return current.call.phase == Phase::Decide;
            }
        }
        false
    }

    // ---- the scheduler

    /// Whether a `suspend_all` is active.
    pub fn is_scheduler_suspended(&self) -> bool {
        self.suspensions > 0
    }

    /// A tick comes while a call or a task holds the scheduler.
    pub(super) fn hold_tick(&mut self) {
        let is_suspended = self.is_scheduler_suspended();
        self.held_ticks = self.held_ticks.wrapping_add(1);
        count_if(&mut self.tally.held_ticks, is_suspended);
        count_if(&mut self.tally.ticks_in_calls, !is_suspended);
    }

    /// The held ticks come, one by one.
    fn release(&mut self) {
        for _ in 0..self.held_ticks {
            self.advance();
        }
        self.held_ticks = 0;
    }

    /// A call releases the scheduler.
    pub(super) fn end_hold(&mut self) {
        self.is_held = false;
        self.release();
    }

    /// `suspend_all`.
    pub(super) fn suspend_all(&mut self, app: &App, id: TaskId) {
        self.suspensions = self.suspensions.wrapping_add(1);
        self.answer(app, id, Some(0));
    }

    /// `resume_all`. After the last one, the held ticks come one by one. Then a task of higher priority runs, if there is one.
    /// Tasks of equal priority don't take turns.
    pub(super) fn resume_all(&mut self, app: &App, id: TaskId) {
        self.suspensions = self.suspensions.wrapping_sub(1);
        if self.suspensions > 0 {
            self.answer(app, id, Some(0));
            return;
        }
        self.release();
        self.answer(app, id, Some(0));
        self.preempt();
    }
}
