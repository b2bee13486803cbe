//! Interrupts that can come, and devices. A device's handler comes some time after it is raised.

use super::{ReferenceKernel, count_if};
use model::{App, HandlerId, SourceOp, TaskId};

/// The state of an interrupt source, except for whether it is pending.
#[derive(Clone, Copy)]
pub(super) struct Source {
    /// Whether it can come if it is injected.
    is_armed: bool,
    /// The elapsed tick from which it can come.
    free_from: u64,
    /// The elapsed tick at which it comes by itself, if it is raised.
    raised: Option<u64>,
}

impl Default for Source {
    fn default() -> Self {
        Source {
            is_armed: true,
            free_from: 0,
            raised: None,
        }
    }
}

impl ReferenceKernel {
    fn source(&self, source: HandlerId) -> Source {
        self.sources[source.number as usize]
    }

    fn set_source(&mut self, source: HandlerId, now: Source) {
        self.sources[source.number as usize] = now;
    }

    /// Some handlers are disarmed at reset; the tick is always armed.
    pub(super) fn reset_sources(&mut self, app: &App) {
        for (source, handler) in self.sources.iter_mut().zip(app.handlers()) {
            source.is_armed = handler.armed();
        }
    }

    pub(super) fn is_armed(&self, source: HandlerId) -> bool {
        self.source(source).is_armed
    }

    /// Whether an interrupt that is injected now can come.
    pub fn can_come(&self, source: HandlerId) -> bool {
        self.is_armed(source) && self.source(source).free_from <= self.elapsed
    }

    /// Whether an injected interrupt can come. If it can't, that is counted.
    pub(super) fn may_inject(&mut self, source: HandlerId) -> bool {
        let can_come = self.can_come(source);
        let is_armed = self.is_armed(source);
        count_if(&mut self.tally.disarmed_injections, !is_armed);
        count_if(&mut self.tally.early_injections, is_armed && !can_come);
        can_come
    }

    /// An injected interrupt comes, if it can.
    pub(super) fn inject(&mut self, app: &App, source: HandlerId) {
        if self.may_inject(source) {
            self.serve(app, source);
        }
    }

    /// The interrupt comes at this tick. It can't be injected again until `apart` ticks have passed.
    pub(super) fn note_coming(&mut self, app: &App, source: HandlerId) {
        let apart = match app.handlers().get(source.number as usize) {
            None => 0,
            Some(handler) => handler.apart(),
        };
        let free_from = self.elapsed.saturating_add(apart as u64);
        self.set_source(
            source,
            Source {
                free_from,
                ..self.source(source)
            },
        );
    }

    /// A handler comes.
    pub(super) fn come(&mut self, app: &App, handler: HandlerId) {
        self.note_coming(app, handler);
        self.handle(app, handler);
    }

    // ---- devices

    /// The handlers that come by themselves at this tick because they were raised for it. They are no longer raised.
    pub(super) fn lower_due(&mut self, app: &App) -> [bool; 17] {
        let mut due = [false; 17];
        let mut count = 0_u32;
        for number in 0..17_u8 {
            let source = HandlerId { number };
            if self.source(source).raised == Some(self.elapsed) {
                due[number as usize] = true;
                count = count.wrapping_add(1);
                self.set_raised(source, None);
            }
        }
        let is_any_before = app
            .interrupts()
            .iter()
            .any(|interrupt| interrupt.tick as u64 == self.elapsed);
        count_if(&mut self.tally.raised_together, count > 1);
        count_if(
            &mut self.tally.raised_behind_others,
            count > 0 && is_any_before,
        );
        due
    }

    /// These handlers come, in the order of the file, whether or not they are armed.
    pub(super) fn come_raised(&mut self, app: &App, due: [bool; 17]) {
        for number in 0..17_u8 {
            if due[number as usize] {
                let handler = HandlerId { number };
                let is_armed = self.is_armed(handler);
                let is_suspended = self.is_scheduler_suspended();
                count_if(&mut self.tally.raised_comings, true);
                count_if(&mut self.tally.disarmed_raised, !is_armed);
                count_if(&mut self.tally.raised_in_holds, is_suspended);
                self.come(app, handler);
            }
        }
    }

    /// Whether any handler is raised.
    pub(super) fn is_any_raised(&self) -> bool {
        self.sources.iter().any(|source| source.raised.is_some())
    }

    /// The number of ticks until the first raised handler comes; `u64::MAX` if none is raised.
    pub(super) fn ticks_to_raised(&self) -> u64 {
        let mut least = u64::MAX;
        for source in self.sources.iter() {
            if let Some(tick) = source.raised {
                least = least.min(tick.saturating_sub(self.elapsed));
            }
        }
        least
    }

    // ---- ops

    fn set_armed(&mut self, handler: HandlerId, is_armed: bool) {
        self.set_source(
            handler,
            Source {
                is_armed,
                ..self.source(handler)
            },
        );
    }

    fn set_raised(&mut self, handler: HandlerId, raised: Option<u64>) {
        self.set_source(
            handler,
            Source {
                raised,
                ..self.source(handler)
            },
        );
    }

    /// Arms, disarms, raises or cancels a handler.
    fn do_to_source(&mut self, handler: HandlerId, what: SourceOp) {
        let is_raised = self.source(handler).raised.is_some();
        match what {
            SourceOp::Arm => self.set_armed(handler, true),
            SourceOp::Disarm => self.set_armed(handler, false),
            SourceOp::Raise(ticks) => {
                count_if(&mut self.tally.raised_again, is_raised);
                self.set_raised(handler, Some(self.elapsed.saturating_add(ticks as u64)));
            }
            SourceOp::Cancel => {
                count_if(&mut self.tally.cancelled, is_raised);
                self.set_raised(handler, None);
            }
        }
    }

    /// The op of a handler.
    pub(super) fn act_by_handler(&mut self, handler: HandlerId, what: SourceOp) {
        count_if(&mut self.tally.controlled_by_handlers, true);
        self.do_to_source(handler, what);
    }

    /// The op of a task.
    pub(super) fn act_on_source(
        &mut self,
        app: &App,
        id: TaskId,
        handler: HandlerId,
        what: SourceOp,
    ) {
        let is_held = self.is_critical() || self.is_scheduler_suspended();
        count_if(&mut self.tally.controlled_in_holds, is_held);
        self.do_to_source(handler, what);
        self.complete(app, id, self.task(id));
    }
}
