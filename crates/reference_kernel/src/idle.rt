//! Idle: each step is one tick, or in a tickless application all ticks up to the next event.

use super::{ReferenceKernel, count_if};
use model::{App, Limits, TaskId};

impl ReferenceKernel {
    /// The number of ticks until the first task wakes by itself; `u64::MAX` if no task does.
    fn ticks_to_wake(&self) -> u64 {
        let mut least = u64::MAX;
        for number in 0..32 {
            if let Some((wake_time, _)) = self.alarm(TaskId { number }) {
                least = least.min(wake_time.saturating_sub(self.time));
            }
        }
        least
    }

    /// The number of ticks until the next base interrupt; `u64::MAX` if none is left.
    fn ticks_to_interrupt(&self, app: &App) -> u64 {
        let mut least = u64::MAX;
        for interrupt in app.interrupts() {
            let tick = interrupt.tick as u64;
            if tick > self.elapsed {
                least = least.min(tick.saturating_sub(self.elapsed));
            }
        }
        least
    }

    fn count_jump(&mut self, app: &App, limits: &Limits, ticks: u64) {
        let last = (self.tick_now() as u64).saturating_add(ticks);
        let has_wrapped = last >= 4_294_967_296;
        let is_to_zero = last == 4_294_967_296;
        let is_to_interrupt = ticks == self.ticks_to_interrupt(app);
        let is_to_wake = ticks == self.ticks_to_wake();
        let is_to_raised = ticks == self.ticks_to_raised();
        let is_to_limit = self.elapsed.saturating_add(ticks) == limits.ticks;
        count_if(&mut self.tally.jumps, ticks > 1);
        count_if(&mut self.tally.wrapping_jumps, ticks > 1 && has_wrapped);
        count_if(&mut self.tally.jumps_to_zero, ticks > 1 && is_to_zero);
        count_if(
            &mut self.tally.jumps_to_interrupt,
            ticks > 1 && is_to_interrupt,
        );
        count_if(&mut self.tally.jumps_to_wake, ticks > 1 && is_to_wake);
        count_if(&mut self.tally.jumps_to_limit, ticks > 1 && is_to_limit);
        count_if(&mut self.tally.jumps_to_raised, ticks > 1 && is_to_raised);
    }

    /// Advances by all ticks up to the next event, but not past the limit, and by at least one. The scheduler isn't suspended.
    fn jump(&mut self, app: &App, limits: &Limits) {
        let most = limits.ticks.saturating_sub(self.elapsed);
        let ticks = most
            .min(self.ticks_to_wake())
            .min(self.ticks_to_interrupt(app))
            .min(self.ticks_to_raised())
            .max(1);
        self.count_jump(app, limits, ticks);
        self.time = self.time.wrapping_add(ticks);
        self.elapsed = self.elapsed.wrapping_add(ticks);
        self.wake_due();
        self.end_tick(app);
    }

    /// What idle does in a step.
    pub(super) fn idle(&mut self, app: &App, limits: &Limits) {
        if app.tickless() {
            self.jump(app, limits);
        } else {
            self.tick(app);
        }
    }
}
