//! How much the runs cover of what they must.

use crate::planner::Injections;
use model::{App, End};
use reference_kernel::ReferenceKernel;

/// For each event that the runs must cover, the number of runs in which it occurs.
#[derive(Debug, Default, Drop)]
pub(crate) struct Seen {
    /// The tick wrapped.
    pub(crate) wraps: usize,
    /// A call or a handler woke a waiting task.
    pub(crate) wakes: usize,
    /// A wait ended at its deadline.
    pub(crate) timeouts: usize,
    /// A task whose call had locked the queue was Awake.
    pub(crate) own_awakenings: usize,
    /// Another task was Awake.
    pub(crate) other_awakenings: usize,
    /// Tasks of both waiting lists were Awake when their queue was unlocked.
    pub(crate) mixed_unlocks: usize,
    /// A handler gave a semaphore that was locked.
    pub(crate) locked_gives: usize,
    /// A waiting task raised the holder of a mutex.
    pub(crate) raises: usize,
    /// A raised holder gave back one of several mutexes.
    pub(crate) kept_raises: usize,
    /// A holder's priority fell after a wait timed out.
    pub(crate) falls: usize,
    /// It fell only to the priority of another waiting task.
    pub(crate) partial_falls: usize,
    /// A set met two waiting tasks or more.
    pub(crate) crowded_sets: usize,
    /// A set met at least one task that asked to clear.
    pub(crate) clearing_sets: usize,
    /// A wait for bits ended at its deadline.
    pub(crate) bit_timeouts: usize,
    /// A waiting task was suspended.
    pub(crate) suspended_waits: usize,
    /// A task was suspended when its call was about to decide.
    pub(crate) suspended_decisions: usize,
    /// A task was suspended while bits were kept for it.
    pub(crate) suspended_answers: usize,
    /// A task was resumed in the middle of a call.
    pub(crate) resumed_calls: usize,
    /// A task was resumed while an object was locked.
    pub(crate) locked_resumes: usize,
    /// A task was resumed before the end of a sleep by `delay_until`.
    pub(crate) cut_off_sleeps: usize,
    /// A tick came while the scheduler was suspended.
    pub(crate) held_ticks: usize,
    /// A tick was injected; one came while a call held the scheduler; one was injected while a section was open.
    pub(crate) injected_ticks: usize,
    pub(crate) ticks_in_calls: usize,
    pub(crate) pending_ticks: usize,
    /// A base interrupt came at a tick while the scheduler was suspended.
    pub(crate) held_interrupts: usize,
    /// A task became Ready while the scheduler was suspended.
    pub(crate) held_wakes: usize,
    /// The run ended with a misuse, of each kind.
    pub(crate) while_suspended: usize,
    pub(crate) not_suspended: usize,
    pub(crate) not_holder: usize,
    pub(crate) ended_suspended: usize,
    pub(crate) while_critical: usize,
    pub(crate) not_critical: usize,
    pub(crate) ended_critical: usize,
    /// A task opened a critical section; opened one inside another.
    pub(crate) sections: usize,
    pub(crate) inner_sections: usize,
    /// A handler was injected while a section was open; it was already pending.
    pub(crate) pending_handlers: usize,
    pub(crate) pending_again: usize,
    /// Two or more pending handlers came before a step; at least one came while the scheduler was suspended.
    pub(crate) served_together: usize,
    pub(crate) served_in_holds: usize,
    /// The run ended while a handler was pending.
    pub(crate) ends_while_pending: usize,
    /// A command reached the daemon.
    pub(crate) commands: usize,
    /// A command found no room.
    pub(crate) refused_commands: usize,
    /// A command came while the daemon's own call had locked the queue.
    pub(crate) window_commands: usize,
    /// The daemon set bits.
    pub(crate) sets_by_daemon: usize,
    /// The daemon cleared bits.
    pub(crate) clears_by_daemon: usize,
    /// The run passed while the daemon ran.
    pub(crate) passes_beside_daemon: usize,
    /// Idle let several ticks pass in a step.
    pub(crate) jumps: usize,
    /// Such a jump crossed the wrap of the tick.
    pub(crate) wrapping_jumps: usize,
    /// Such a jump ended at a base interrupt.
    pub(crate) jumps_to_interrupt: usize,
    /// Such a jump ended when a task woke.
    pub(crate) jumps_to_wake: usize,
    /// Such a jump ended at the limit.
    pub(crate) jumps_to_limit: usize,
    /// Such a jump ended at tick 0.
    pub(crate) jumps_to_zero: usize,
    /// The condition of an `if` held.
    pub(crate) taken_branches: usize,
    /// The condition of an `if` did not hold.
    pub(crate) skipped_branches: usize,
    /// A first branch reached its `else`.
    pub(crate) skipped_others: usize,
    /// A `break` left a loop.
    pub(crate) breaks: usize,
    /// A `break` left a loop that runs forever.
    pub(crate) breaks_for_ever: usize,
    /// A `break` left a loop inside another.
    pub(crate) inner_breaks: usize,
    /// A loop that runs forever began its next turn.
    pub(crate) turns_for_ever: usize,
    /// A script reached its end by an `if`, an `else` or a `break`.
    pub(crate) ending_jumps: usize,
    /// The condition of a handler's `expect` held.
    pub(crate) passed_checks: usize,
    /// The condition of a handler's `expect` did not hold.
    pub(crate) failed_checks: usize,
    /// A check failed after another check had failed in the same step.
    pub(crate) later_failures: usize,
    /// The condition of a handler's `if` held.
    pub(crate) taken_by_handlers: usize,
    /// The condition of a handler's `if` did not hold.
    pub(crate) skipped_by_handlers: usize,
    /// A task noted the time.
    pub(crate) stamps: usize,
    /// Some ticks had passed since then.
    pub(crate) measures: usize,
    /// More ticks had passed than an answer can hold.
    pub(crate) long_measures: usize,
    /// The run passed although an endless task had not reached its end.
    pub(crate) passes_beside_endless: usize,
    /// There were only endless tasks, and all of them were Ended.
    pub(crate) endless_alone_ended: usize,
    /// A task stored a variable.
    pub(crate) stores: usize,
    /// A handler stored a variable.
    pub(crate) stores_by_handlers: usize,
    /// A task calculated.
    pub(crate) results: usize,
    /// A task loaded, stored or calculated in a critical section, or while the scheduler was suspended.
    pub(crate) values_in_holds: usize,
    /// An op of a task had no value to work with.
    pub(crate) valueless_ops: usize,
    /// An op of a handler had no value to work with.
    pub(crate) valueless_by_handlers: usize,
    /// A task would have divided by a variable that was 0.
    pub(crate) zero_divisors: usize,
    /// A condition of a task named a variable.
    pub(crate) named_conditions: usize,
    /// A condition of a handler named a variable.
    pub(crate) named_by_handlers: usize,
    /// A task sent its last answer to a queue.
    pub(crate) sent_answers: usize,
    /// It had received that answer from a queue.
    pub(crate) passed_on: usize,
    /// A handler sent its last answer.
    pub(crate) answers_sent_by_handlers: usize,
    /// A task was notified.
    pub(crate) notifies: usize,
    /// A task was notified that waited for it.
    pub(crate) notified_wakes: usize,
    /// A task was notified that waited for it but hadn't left the processor yet.
    pub(crate) window_notifies: usize,
    /// A suspended task was notified.
    pub(crate) suspended_notifies: usize,
    /// A value was kept while a notification was pending.
    pub(crate) kept_values: usize,
    /// A value was overwritten while a notification was pending.
    pub(crate) lost_values: usize,
    /// A count was added to another.
    pub(crate) added_counts: usize,
    /// A take returned a count.
    pub(crate) taken_counts: usize,
    /// A take left part of a count.
    pub(crate) left_counts: usize,
    /// A wait for a notification ended at its deadline.
    pub(crate) notice_timeouts: usize,
    /// A `notify_wait` cleared bits at its start.
    pub(crate) entry_clears: usize,
    /// A `notify_wait` cleared bits at its end.
    pub(crate) exit_clears: usize,
    /// A pending notification was cleared.
    pub(crate) cleared_notices: usize,
    /// An injected handler couldn't come because it was disarmed.
    pub(crate) disarmed_injections: usize,
    /// An injected handler couldn't come because it had come too recently.
    pub(crate) early_injections: usize,
    /// A pending handler came although it had been disarmed meanwhile.
    pub(crate) disarmed_pending: usize,
    /// A base interrupt came although its handler was disarmed.
    pub(crate) disarmed_interrupts: usize,
    /// A raised handler came although it was disarmed.
    pub(crate) disarmed_raised: usize,
    /// A handler was raised while it already was.
    pub(crate) raised_again: usize,
    /// A raised handler was cancelled.
    pub(crate) cancelled: usize,
    /// A raised handler came.
    pub(crate) raised_comings: usize,
    /// Two or more raised handlers came at one tick.
    pub(crate) raised_together: usize,
    /// A raised handler came after a base interrupt of its tick.
    pub(crate) raised_behind_others: usize,
    /// A raised handler came while the scheduler was suspended.
    pub(crate) raised_in_holds: usize,
    /// A task armed, disarmed, raised or cancelled a handler in a critical section, or while the scheduler was suspended.
    pub(crate) controlled_in_holds: usize,
    /// A handler armed, disarmed, raised or cancelled a handler.
    pub(crate) controlled_by_handlers: usize,
    /// A jump ended at a raised handler.
    pub(crate) jumps_to_raised: usize,
    pub(crate) injections: Injections,
}

impl Seen {
    /// Counts a run of the reference kernel.
    pub(crate) fn count(
        &mut self,
        reference: &ReferenceKernel,
        app: &App,
        has_wrapped: bool,
        injections: &Injections,
    ) {
        let tally = reference.tally;
        add(&mut self.wraps, has_wrapped as usize);
        see(&mut self.wakes, tally.wakes);
        see(&mut self.timeouts, tally.timeouts);
        see(&mut self.own_awakenings, tally.own_awakenings);
        see(&mut self.other_awakenings, tally.other_awakenings);
        see(&mut self.mixed_unlocks, tally.mixed_unlocks);
        see(&mut self.locked_gives, tally.locked_gives);
        see(&mut self.raises, tally.raises);
        see(&mut self.kept_raises, tally.kept_raises);
        see(&mut self.falls, tally.falls);
        see(&mut self.partial_falls, tally.partial_falls);
        self.count_groups(reference);
        self.count_suspensions(reference);
        self.count_misuses(reference);
        self.count_sections(reference);
        self.count_commands(reference, app);
        self.count_jumps(reference);
        self.count_branches(reference);
        self.count_looks(reference);
        self.count_measures(reference);
        self.count_values(reference);
        self.count_notifications(reference);
        self.count_devices(reference);
        self.count_endless(reference, app);
        self.count_injections(injections);
    }

    fn count_groups(&mut self, reference: &ReferenceKernel) {
        let tally = reference.tally;
        see(&mut self.crowded_sets, tally.crowded_sets);
        see(&mut self.clearing_sets, tally.clearing_sets);
        see(&mut self.bit_timeouts, tally.bit_timeouts);
        see(&mut self.suspended_answers, tally.suspended_answers);
    }

    fn count_suspensions(&mut self, reference: &ReferenceKernel) {
        let tally = reference.tally;
        see(&mut self.suspended_waits, tally.suspended_waits);
        see(&mut self.suspended_decisions, tally.suspended_decisions);
        see(&mut self.resumed_calls, tally.resumed_calls);
        see(&mut self.locked_resumes, tally.locked_resumes);
        see(&mut self.cut_off_sleeps, tally.cut_off_sleeps);
        see(&mut self.held_ticks, tally.held_ticks);
        see(&mut self.injected_ticks, tally.injected_ticks);
        see(&mut self.ticks_in_calls, tally.ticks_in_calls);
        see(&mut self.pending_ticks, tally.pending_ticks);
        see(&mut self.held_interrupts, tally.held_interrupts);
        see(&mut self.held_wakes, tally.held_wakes);
    }

    fn count_misuses(&mut self, reference: &ReferenceKernel) {
        let tally = reference.tally;
        see(&mut self.while_suspended, tally.while_suspended);
        see(&mut self.not_suspended, tally.not_suspended);
        see(&mut self.not_holder, tally.not_holder);
        see(&mut self.ended_suspended, tally.ended_suspended);
        see(&mut self.while_critical, tally.while_critical);
        see(&mut self.not_critical, tally.not_critical);
        see(&mut self.ended_critical, tally.ended_critical);
    }

    fn count_sections(&mut self, reference: &ReferenceKernel) {
        let tally = reference.tally;
        let is_any_pending = reference.is_any_pending();
        see(&mut self.sections, tally.sections);
        see(&mut self.inner_sections, tally.inner_sections);
        see(&mut self.pending_handlers, tally.pending_handlers);
        see(&mut self.pending_again, tally.pending_again);
        see(&mut self.served_together, tally.served_together);
        see(&mut self.served_in_holds, tally.served_in_holds);
        add(&mut self.ends_while_pending, is_any_pending as usize);
    }

    fn count_commands(&mut self, reference: &ReferenceKernel, app: &App) {
        let tally = reference.tally;
        see(&mut self.commands, tally.commands);
        see(&mut self.refused_commands, tally.refused_commands);
        see(&mut self.window_commands, tally.window_commands);
        see(&mut self.sets_by_daemon, tally.sets_by_daemon);
        see(&mut self.clears_by_daemon, tally.clears_by_daemon);
        let passes = reference.end(app, &app.limits()) == Some(End::Pass);
        let passes_beside = passes && reference.is_daemon_running(app);
        add(&mut self.passes_beside_daemon, passes_beside as usize);
    }

    fn count_jumps(&mut self, reference: &ReferenceKernel) {
        let tally = reference.tally;
        see(&mut self.jumps, tally.jumps);
        see(&mut self.wrapping_jumps, tally.wrapping_jumps);
        see(&mut self.jumps_to_interrupt, tally.jumps_to_interrupt);
        see(&mut self.jumps_to_wake, tally.jumps_to_wake);
        see(&mut self.jumps_to_limit, tally.jumps_to_limit);
        see(&mut self.jumps_to_zero, tally.jumps_to_zero);
    }

    fn count_branches(&mut self, reference: &ReferenceKernel) {
        let tally = reference.tally;
        see(&mut self.taken_branches, tally.taken_branches);
        see(&mut self.skipped_branches, tally.skipped_branches);
        see(&mut self.skipped_others, tally.skipped_others);
        see(&mut self.breaks, tally.breaks);
        see(&mut self.breaks_for_ever, tally.breaks_for_ever);
        see(&mut self.inner_breaks, tally.inner_breaks);
        see(&mut self.turns_for_ever, tally.turns_for_ever);
        see(&mut self.ending_jumps, tally.ending_jumps);
    }

    fn count_looks(&mut self, reference: &ReferenceKernel) {
        let tally = reference.tally;
        see(&mut self.passed_checks, tally.passed_checks);
        see(&mut self.failed_checks, tally.failed_checks);
        see(&mut self.later_failures, tally.later_failures);
        see(&mut self.taken_by_handlers, tally.taken_by_handlers);
        see(&mut self.skipped_by_handlers, tally.skipped_by_handlers);
    }

    fn count_measures(&mut self, reference: &ReferenceKernel) {
        let tally = reference.tally;
        see(&mut self.stamps, tally.stamps);
        see(&mut self.measures, tally.measures);
        see(&mut self.long_measures, tally.long_measures);
    }

    fn count_endless(&mut self, reference: &ReferenceKernel, app: &App) {
        let passes = reference.end(app, &app.limits()) == Some(End::Pass);
        let passes_beside = passes && reference.is_any_endless_left(app);
        let is_alone = !app.is_any_awaited() && !reference.is_any_endless_left(app);
        add(&mut self.passes_beside_endless, passes_beside as usize);
        add(&mut self.endless_alone_ended, is_alone as usize);
    }

    fn count_values(&mut self, reference: &ReferenceKernel) {
        let tally = reference.tally;
        see(&mut self.stores, tally.stores);
        see(&mut self.stores_by_handlers, tally.stores_by_handlers);
        see(&mut self.results, tally.results);
        see(&mut self.values_in_holds, tally.values_in_holds);
        see(&mut self.valueless_ops, tally.valueless_ops);
        see(&mut self.valueless_by_handlers, tally.valueless_by_handlers);
        see(&mut self.zero_divisors, tally.zero_divisors);
        see(&mut self.named_conditions, tally.named_conditions);
        see(&mut self.named_by_handlers, tally.named_by_handlers);
        see(&mut self.sent_answers, tally.sent_answers);
        see(&mut self.passed_on, tally.passed_on);
        see(
            &mut self.answers_sent_by_handlers,
            tally.answers_sent_by_handlers,
        );
    }

    fn count_notifications(&mut self, reference: &ReferenceKernel) {
        let tally = reference.tally;
        see(&mut self.notifies, tally.notifies);
        see(&mut self.notified_wakes, tally.notified_wakes);
        see(&mut self.window_notifies, tally.window_notifies);
        see(&mut self.suspended_notifies, tally.suspended_notifies);
        see(&mut self.kept_values, tally.kept_values);
        see(&mut self.lost_values, tally.lost_values);
        see(&mut self.added_counts, tally.added_counts);
        see(&mut self.taken_counts, tally.taken_counts);
        see(&mut self.left_counts, tally.left_counts);
        see(&mut self.notice_timeouts, tally.notice_timeouts);
        see(&mut self.entry_clears, tally.entry_clears);
        see(&mut self.exit_clears, tally.exit_clears);
        see(&mut self.cleared_notices, tally.cleared_notices);
    }

    fn count_devices(&mut self, reference: &ReferenceKernel) {
        let tally = reference.tally;
        see(&mut self.disarmed_injections, tally.disarmed_injections);
        see(&mut self.early_injections, tally.early_injections);
        see(&mut self.disarmed_pending, tally.disarmed_pending);
        see(&mut self.disarmed_interrupts, tally.disarmed_interrupts);
        see(&mut self.disarmed_raised, tally.disarmed_raised);
        see(&mut self.raised_again, tally.raised_again);
        see(&mut self.cancelled, tally.cancelled);
        see(&mut self.raised_comings, tally.raised_comings);
        see(&mut self.raised_together, tally.raised_together);
        see(&mut self.raised_behind_others, tally.raised_behind_others);
        see(&mut self.raised_in_holds, tally.raised_in_holds);
        see(&mut self.controlled_in_holds, tally.controlled_in_holds);
        see(
            &mut self.controlled_by_handlers,
            tally.controlled_by_handlers,
        );
        see(&mut self.jumps_to_raised, tally.jumps_to_raised);
    }

    fn count_injections(&mut self, injections: &Injections) {
        add(&mut self.injections.all, injections.all);
        add(&mut self.injections.inside_calls, injections.inside_calls);
        add(&mut self.injections.locked, injections.locked);
        add(&mut self.injections.suspended, injections.suspended);
        add(&mut self.injections.critical, injections.critical);
        add(&mut self.injections.beside_daemon, injections.beside_daemon);
        add(&mut self.injections.in_its_window, injections.in_its_window);
        add(&mut self.injections.late, injections.late);
    }
}

/// Counts a run in which something happened this many times.
fn see(count: &mut usize, times: u32) {
    add(count, (times > 0) as usize);
}

fn add(count: &mut usize, more: usize) {
    *count = count.saturating_add(more);
}
