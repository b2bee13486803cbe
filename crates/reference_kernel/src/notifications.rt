//! Notifications: each task has a value, and a notification is pending or not.

use super::{ReferenceKernel, Status, Task, count_if};
use model::{
    App, NotificationClear, NotificationMasks, NotificationWait, NotifyAction, Phase, TaskId, Value,
};

/// The notification of a task.
#[derive(Clone, Copy, Default)]
pub(super) struct Notice {
    value: u32,
    is_pending: bool,
}

/// A wait for a notification that is in progress.
#[derive(Clone, Copy)]
pub(super) struct NoticeWait {
    pub(super) deadline: Option<u64>,
    pub(super) ticket: u64,
}

/// The value that a notify sends, if it sends one.
fn value_of(action: NotifyAction<Value>) -> Option<Value> {
    match action {
        NotifyAction::SetBits(value) | NotifyAction::Overwrite(value) | NotifyAction::Keep(value) =>
            Some(value),
        NotifyAction::Nothing | NotifyAction::Increment => None,
    }
}

/// Whether a notify sends the last answer, and that is `none`.
pub(super) fn lacks_notice(action: NotifyAction<Value>, last: Option<u32>) -> bool {
    value_of(action) == Some(Value::Answer) && last.is_none()
}

impl ReferenceKernel {
    fn notice(&self, id: TaskId) -> Notice {
        self.notices[id.number as usize]
    }

    fn set_notice(&mut self, id: TaskId, notice: Notice) {
        self.notices[id.number as usize] = notice;
    }

    // ---- notify

    /// Counts a notify of this task, by the state of the task.
    fn count_notify(&mut self, id: TaskId, action: NotifyAction<Value>) {
        let task = self.task(id);
        let notice = self.notice(id);
        let is_kept = notice.is_pending && matches!(action, NotifyAction::Keep(_));
        let is_lost = notice.is_pending && matches!(action, NotifyAction::Overwrite(_));
        let is_counted = notice.value > 0 && matches!(action, NotifyAction::Increment);
        let waits = matches!(task.status, Status::WaitingForNotification(_));
        let is_in_window = waits && task.call.phase == Phase::Leave;
        let is_suspended = matches!(task.status, Status::Suspended(_));
        count_if(&mut self.tally.notifies, true);
        count_if(&mut self.tally.notified_wakes, waits);
        count_if(&mut self.tally.window_notifies, is_in_window);
        count_if(&mut self.tally.suspended_notifies, is_suspended);
        count_if(&mut self.tally.kept_values, is_kept);
        count_if(&mut self.tally.lost_values, is_lost);
        count_if(&mut self.tally.added_counts, is_counted);
    }

    /// A task is notified: its value changes, and a notification is pending. If it waits for one, it becomes Ready. Returns 0 if
    /// a pending value was kept instead, and 1 otherwise.
    pub(super) fn notify(
        &mut self,
        id: TaskId,
        action: NotifyAction<Value>,
        last: Option<u32>,
    ) -> u32 {
        self.count_notify(id, action);
        let old = self.notice(id);
        let brought = match value_of(action) {
            Some(value) => self.shown(value, last),
            None => 0,
        };
        let is_refused = old.is_pending && matches!(action, NotifyAction::Keep(_));
        let value = match action {
            NotifyAction::Nothing => old.value,
            NotifyAction::SetBits(_) => old.value | brought,
            NotifyAction::Increment => old.value.wrapping_add(1),
            NotifyAction::Overwrite(_) => brought,
            NotifyAction::Keep(_) if old.is_pending => old.value,
            NotifyAction::Keep(_) => brought,
        };
        self.set_notice(
            id,
            Notice {
                value,
                is_pending: true,
            },
        );
        if matches!(self.task(id).status, Status::WaitingForNotification(_)) {
            self.make_ready(id);
        }
        !is_refused as u32
    }

    /// `notify` of a task, which may be the caller itself.
    pub(super) fn call_notify(
        &mut self,
        app: &App,
        id: TaskId,
        other: TaskId,
        action: NotifyAction<Value>,
    ) {
        let answer = self.notify(other, action, self.task(id).answer);
        self.answer(app, id, Some(answer));
        self.preempt();
    }

    // ---- take and wait

    /// The end of `notify_take`: it returns the value, and takes one or all of it.
    fn end_take(&mut self, app: &App, id: TaskId, clears: bool) {
        let value = self.notice(id).value;
        let left = if clears || value == 0 {
            0
        } else {
            value.wrapping_sub(1)
        };
        count_if(&mut self.tally.taken_counts, value > 0);
        count_if(&mut self.tally.left_counts, left > 0);
        self.set_notice(
            id,
            Notice {
                value: left,
                is_pending: false,
            },
        );
        self.answer(app, id, Some(value));
    }

    /// The end of `notify_wait`. If a notification is pending, it returns the value, and then clears bits of it. Otherwise it
    /// returns `none`.
    fn end_wait_for_pending(&mut self, app: &App, id: TaskId, masks: NotificationMasks) {
        let notice = self.notice(id);
        if !notice.is_pending {
            self.answer(app, id, None);
            return;
        }
        let value = notice.value & !masks.exit;
        count_if(&mut self.tally.exit_clears, value != notice.value);
        self.set_notice(
            id,
            Notice {
                value,
                is_pending: false,
            },
        );
        self.answer(app, id, Some(notice.value));
    }

    /// The last phase of either.
    fn end_notice_wait(&mut self, app: &App, id: TaskId, wait: NotificationWait) {
        match wait {
            NotificationWait::Take(clears) => self.end_take(app, id, clears),
            NotificationWait::Wait(masks) => self.end_wait_for_pending(app, id, masks),
        }
    }

    /// What `notify_wait` clears at its start, if no notification is pending.
    fn enter(&mut self, id: TaskId, wait: NotificationWait) {
        let notice = self.notice(id);
        let NotificationWait::Wait(masks) = wait else {
            return;
        };
        if notice.is_pending {
            return;
        }
        let value = notice.value & !masks.entry;
        count_if(&mut self.tally.entry_clears, value != notice.value);
        self.set_notice(id, Notice { value, ..notice });
    }

    /// Whether the task already has what it waits for.
    fn has_notice(&self, id: TaskId, wait: NotificationWait) -> bool {
        let notice = self.notice(id);
        match wait {
            NotificationWait::Take(_) => notice.value > 0,
            NotificationWait::Wait(_) => notice.is_pending,
        }
    }

    /// The scheduler is held, and the task begins to wait for a notification.
    fn begin_notice_wait(&mut self, id: TaskId, ticks: Option<u32>) {
        self.is_held = true;
        self.set_phase(id, Phase::Leave);
        let wait = NoticeWait {
            deadline: self.deadline_after(ticks),
            ticket: self.take_ticket(),
        };
        let status = Status::WaitingForNotification(wait);
        self.set(
            id,
            Task {
                status,
                ..self.task(id)
            },
        );
    }

    /// `notify_take` or `notify_wait` does its next phase.
    pub(super) fn await_notice(
        &mut self,
        app: &App,
        id: TaskId,
        wait: NotificationWait,
        ticks: Option<u32>,
    ) {
        match self.task(id).call.phase {
            Phase::Start => {
                self.enter(id, wait);
                if self.has_notice(id, wait) || ticks == Some(0) {
                    self.end_notice_wait(app, id, wait);
                } else {
                    self.begin_notice_wait(id, ticks);
                }
            }
            Phase::Leave => {
                self.end_hold();
                self.set_phase(id, Phase::Try);
                self.choose();
            }
            _ => self.end_notice_wait(app, id, wait),
        }
    }

    // ---- clear

    /// `notify_clear` and `notify_value_clear`. They return what was there before.
    pub(super) fn clear_notice(&mut self, app: &App, id: TaskId, what: NotificationClear) {
        let old = self.notice(id);
        let (answer, new) = match what {
            NotificationClear::Pending => {
                let is_pending = false;
                (old.is_pending as u32, Notice { is_pending, ..old })
            }
            NotificationClear::Bits(bits) => {
                let value = old.value & !bits;
                (old.value, Notice { value, ..old })
            }
        };
        let is_cleared = old.is_pending && !new.is_pending;
        count_if(&mut self.tally.cleared_notices, is_cleared);
        self.set_notice(id, new);
        self.answer(app, id, Some(answer));
    }
}
