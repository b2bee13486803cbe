//! Time: the tick, the tasks that wake by themselves, sleeps and stamps.

use super::{ReferenceKernel, Status, Task, count_if};
use model::{App, TaskId};

impl ReferenceKernel {
    /// The printed tick.
    pub(super) fn tick_now(&self) -> u32 {
        (self.time % 4_294_967_296) as u32
    }

    /// When a task wakes by itself, and its ticket; `None` if it doesn't.
    pub(super) fn alarm(&self, task: TaskId) -> Option<(u64, u64)> {
        match self.task(task).status {
            Status::Asleep {
                wake_time,
                ticket,
                ..
            } => Some((wake_time, ticket)),
            Status::Waiting(wait) | Status::Awake(wait) => Some((wait.deadline?, wait.ticket)),
            Status::WaitingForBits(wait) => Some((wait.deadline?, wait.ticket)),
            Status::WaitingForNotification(wait) => Some((wait.deadline?, wait.ticket)),
            Status::Ready(_) | Status::Suspended(_) | Status::Ended => None,
        }
    }

    /// The task that is due now and whose sleep or wait began first.
    fn first_due(&self) -> Option<TaskId> {
        let mut best = None;
        for number in 0..32 {
            let Some((wake_time, ticket)) = self.alarm(TaskId { number }) else {
                continue;
            };
            if wake_time != self.time {
                continue;
            }
            if best.is_none_or(|(_, other)| ticket < other) {
                best = Some((number, ticket));
            }
        }
        let (number, _) = best?;
        TaskId::new(number)
    }

    fn count_timeout(&mut self, task: TaskId) {
        let status = self.task(task).status;
        let is_timeout = matches!(status, Status::Waiting(_));
        let is_bit_timeout = matches!(status, Status::WaitingForBits(_));
        count_if(&mut self.tally.timeouts, is_timeout);
        let is_notice_timeout = matches!(status, Status::WaitingForNotification(_));
        count_if(&mut self.tally.bit_timeouts, is_bit_timeout);
        count_if(&mut self.tally.notice_timeouts, is_notice_timeout);
    }

    /// Wakes all due tasks.
    pub(super) fn wake_due(&mut self) {
        for _ in 0..32 {
            let Some(task) = self.first_due() else {
                return;
            };
            self.count_timeout(task);
            self.make_ready(task);
        }
    }

    /// Whether any task wakes by itself.
    pub(super) fn will_any_wake(&self) -> bool {
        for number in 0..32 {
            if self.alarm(TaskId { number }).is_some() {
                return true;
            }
        }
        false
    }

    /// Advances time by a tick, and wakes all due tasks.
    pub(super) fn advance(&mut self) {
        self.time = self.time.wrapping_add(1);
        self.wake_due();
    }

    /// The tick interrupt. Time advances, or the tick is held. Then the base interrupts of this tick come. At the end there is one
    /// switch, if it is allowed.
    pub(super) fn tick(&mut self, app: &App) {
        self.elapsed = self.elapsed.wrapping_add(1);
        if self.is_held || self.is_scheduler_suspended() {
            self.hold_tick();
        } else {
            self.advance();
        }
        self.end_tick(app);
    }

    /// The base interrupts of this tick come, and then there is one switch, if it is allowed.
    pub(super) fn end_tick(&mut self, app: &App) {
        self.interrupt(app);
        if self.may_switch() {
            self.slice();
        }
    }

    /// The task sleeps until this time, if it is Ready.
    fn sleep(&mut self, id: TaskId, wake_time: u64, is_periodic: bool) {
        if self.is_ready(id) {
            let ticket = self.take_ticket();
            let status = Status::Asleep {
                wake_time,
                ticket,
                is_periodic,
            };
            self.set(
                id,
                Task {
                    status,
                    ..self.task(id)
                },
            );
        }
    }

    pub(super) fn work(&mut self, app: &App, id: TaskId, units: u32) {
        let task = self.task(id);
        let used = task.used.wrapping_add(1);
        if used == units {
            self.complete(app, id, task);
        } else {
            self.set(id, Task { used, ..task });
        }
        self.tick(app);
    }

    pub(super) fn delay(&mut self, app: &App, id: TaskId, ticks: u32) {
        self.answer(app, id, Some(0));
        if ticks == 0 {
            self.yield_now();
        } else {
            self.sleep(id, self.time.wrapping_add(ticks as u64), false);
        }
    }

    pub(super) fn delay_until(&mut self, app: &App, id: TaskId, ticks: u32) {
        let wake_time = self.task(id).previous_wake.wrapping_add(ticks as u64);
        let sleeps = wake_time > self.time;
        self.answer(app, id, Some(sleeps as u32));
        self.set(
            id,
            Task {
                previous_wake: wake_time,
                ..self.task(id)
            },
        );
        if sleeps {
            self.sleep(id, wake_time, true);
        }
    }

    pub(super) fn stamp(&mut self, app: &App, id: TaskId) {
        let task = Task {
            stamp: self.time,
            ..self.task(id)
        };
        count_if(&mut self.tally.stamps, true);
        self.complete(app, id, task);
    }

    pub(super) fn since(&mut self, app: &App, id: TaskId) {
        let passed = self.time.saturating_sub(self.task(id).stamp);
        count_if(&mut self.tally.measures, passed > 0);
        count_if(&mut self.tally.long_measures, passed > 4_294_967_295);
        self.answer(app, id, Some(passed.min(4_294_967_295) as u32));
    }
}
