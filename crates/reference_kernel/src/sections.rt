//! Critical sections, and the interrupts that are pending meanwhile.

use super::{ReferenceKernel, count_if};
use model::{App, HandlerId, Injection, TaskId};

impl ReferenceKernel {
    /// Whether a critical section is open.
    pub fn is_critical(&self) -> bool {
        self.sections > 0
    }

    /// `enter_critical`.
    pub(super) fn enter_critical(&mut self, app: &App, id: TaskId) {
        let is_inner = self.is_critical();
        count_if(&mut self.tally.sections, true);
        count_if(&mut self.tally.inner_sections, is_inner);
        self.sections = self.sections.wrapping_add(1);
        self.complete(app, id, self.task(id));
    }

    /// `exit_critical`.
    pub(super) fn exit_critical(&mut self, app: &App, id: TaskId) {
        self.sections = self.sections.wrapping_sub(1);
        self.complete(app, id, self.task(id));
    }

    /// An interrupt is injected while a critical section is open. If it can come, it becomes pending, at most once.
    fn pend(&mut self, app: &App, source: HandlerId) {
        if !self.may_inject(source) {
            return;
        }
        self.note_coming(app, source);
        let is_again = self.pending[source.number as usize];
        let is_tick = app.is_tick(source);
        count_if(&mut self.tally.pending_handlers, !is_tick);
        count_if(&mut self.tally.pending_ticks, is_tick);
        count_if(&mut self.tally.pending_again, is_again);
        self.pending[source.number as usize] = true;
    }

    fn count_served(&mut self) {
        let mut served = 0_u32;
        for is_pending in self.pending {
            served = served.wrapping_add(is_pending as u32);
        }
        let is_suspended = self.is_scheduler_suspended();
        count_if(&mut self.tally.served_together, served > 1);
        count_if(&mut self.tally.served_in_holds, served > 0 && is_suspended);
    }

    /// All pending interrupts come: the handlers in the order of the file, and then the tick.
    fn serve_pending(&mut self, app: &App) {
        self.count_served();
        let pending = self.pending;
        self.pending = [false; 17];
        for number in 0..17_u8 {
            if pending[number as usize] {
                let source = HandlerId { number };
                let is_armed = self.is_armed(source);
                count_if(&mut self.tally.disarmed_pending, !is_armed);
                self.serve(app, source);
            }
        }
    }

    /// The interrupts before a step. If a critical section is open, the injected interrupts become pending. Otherwise the pending
    /// interrupts come first, and then the injected ones.
    pub(super) fn come_before_step(&mut self, app: &App, injections: &[Injection]) {
        if self.is_critical() {
            for injection in injections {
                self.pend(app, injection.handler);
            }
        } else {
            self.serve_pending(app);
            for injection in injections {
                self.inject(app, injection.handler);
            }
        }
    }

    /// Whether an interrupt is pending.
    pub fn is_any_pending(&self) -> bool {
        self.pending.contains(&true)
    }
}
