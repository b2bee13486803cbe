//! What the test runs must cover.

/// How often each event that the test runs must cover occurred.
#[derive(Clone, Copy, Default)]
pub struct Tally {
    /// A wait ended by a call or by a handler.
    pub wakes: u32,
    /// A wait ended at its deadline.
    pub timeouts: u32,
    /// A task became Awake: its own call had locked the queue; another task's call had.
    pub own_awakenings: u32,
    pub other_awakenings: u32,
    /// A queue was unlocked while tasks that waited for an item and tasks that waited for room were Awake.
    pub mixed_unlocks: u32,
    /// A handler gave a semaphore that was locked.
    pub locked_gives: u32,
    /// A wait for a mutex raised its holder.
    pub raises: u32,
    /// A raised holder gave back a mutex and kept its priority, since it held another.
    pub kept_raises: u32,
    /// A call for a mutex failed and its holder's priority fell: to any lower one; not to its base, since another task still
    /// waited.
    pub falls: u32,
    pub partial_falls: u32,
    /// A set met two waiting tasks or more; at least one that asked to clear.
    pub crowded_sets: u32,
    pub clearing_sets: u32,
    /// A wait for bits ended at its deadline.
    pub bit_timeouts: u32,
    /// A task was suspended: while it waited for an object or for bits; when its call was about to decide; while bits were kept for
    /// it.
    pub suspended_waits: u32,
    pub suspended_decisions: u32,
    pub suspended_answers: u32,
    /// A task was resumed in the middle of a call; while an object was locked.
    pub resumed_calls: u32,
    pub locked_resumes: u32,
    /// A task was resumed before the end of a sleep by `delay_until`.
    pub cut_off_sleeps: u32,
    /// While the scheduler was suspended: ticks came; base interrupts came at such ticks; tasks became Ready.
    pub held_ticks: u32,
    /// A tick was injected; one came while a call held the scheduler; one was injected while a section was open.
    pub injected_ticks: u32,
    pub ticks_in_calls: u32,
    pub pending_ticks: u32,
    pub held_interrupts: u32,
    pub held_wakes: u32,
    /// Each kind of misuse.
    pub while_suspended: u32,
    pub not_suspended: u32,
    pub not_holder: u32,
    pub ended_suspended: u32,
    pub while_critical: u32,
    pub not_critical: u32,
    pub ended_critical: u32,
    /// A task opened a critical section; opened one inside another.
    pub sections: u32,
    pub inner_sections: u32,
    /// A handler was injected while a section was open; it was already pending.
    pub pending_handlers: u32,
    pub pending_again: u32,
    /// Two or more pending handlers came before a step; at least one came while the scheduler was suspended.
    pub served_together: u32,
    pub served_in_holds: u32,
    /// A command reached the daemon; found no room; came while the daemon's own call had locked the queue.
    pub commands: u32,
    pub refused_commands: u32,
    pub window_commands: u32,
    /// The daemon set bits for a handler; cleared bits.
    pub sets_by_daemon: u32,
    pub clears_by_daemon: u32,
    /// Idle let several ticks pass in a step; across the wrap of the tick.
    pub jumps: u32,
    pub wrapping_jumps: u32,
    /// Such a jump ended at a base interrupt; when a task woke; at the limit; at tick 0.
    pub jumps_to_interrupt: u32,
    pub jumps_to_wake: u32,
    pub jumps_to_limit: u32,
    pub jumps_to_zero: u32,
    /// The condition of an `if` held; did not hold.
    pub taken_branches: u32,
    pub skipped_branches: u32,
    /// A first branch reached its `else`.
    pub skipped_others: u32,
    /// A `break` left a loop; a loop that runs forever; a loop inside another.
    pub breaks: u32,
    pub breaks_for_ever: u32,
    pub inner_breaks: u32,
    /// A loop that runs forever began its next turn.
    pub turns_for_ever: u32,
    /// A script reached its end by an `if`, an `else` or a `break`.
    pub ending_jumps: u32,
    /// The condition of a handler's `expect` held; did not hold.
    pub passed_checks: u32,
    pub failed_checks: u32,
    /// A check of a handler or a task failed after another check had failed in the same step.
    pub later_failures: u32,
    /// The condition of a handler's `if` held; did not hold.
    pub taken_by_handlers: u32,
    pub skipped_by_handlers: u32,
    /// A task noted the time; some ticks had passed since; more ticks had passed than an answer can hold.
    pub stamps: u32,
    pub measures: u32,
    pub long_measures: u32,
    /// A task stored a variable; a handler did.
    pub stores: u32,
    pub stores_by_handlers: u32,
    /// A task calculated; a task loaded, stored or calculated in a critical section or while the scheduler was suspended.
    pub results: u32,
    pub values_in_holds: u32,
    /// An op of a task had no value to work with; an op of a handler had none; a task would have divided by 0.
    pub valueless_ops: u32,
    pub valueless_by_handlers: u32,
    pub zero_divisors: u32,
    /// A condition of a task named a variable; a condition of a handler did.
    pub named_conditions: u32,
    pub named_by_handlers: u32,
    /// A task sent its last answer to a queue; it had received that from a queue; a handler sent its last answer.
    pub sent_answers: u32,
    pub passed_on: u32,
    pub answers_sent_by_handlers: u32,
    /// A task was notified; it waited for that; it hadn't left the processor yet; it was suspended.
    pub notifies: u32,
    pub notified_wakes: u32,
    pub window_notifies: u32,
    pub suspended_notifies: u32,
    /// While a notification was pending, a value was kept; was overwritten; a count was added to another.
    pub kept_values: u32,
    pub lost_values: u32,
    pub added_counts: u32,
    /// A take returned a count; left part of it. A wait for a notification ended at its deadline.
    pub taken_counts: u32,
    pub left_counts: u32,
    pub notice_timeouts: u32,
    /// A `notify_wait` cleared bits at its start; at its end. A pending notification was cleared.
    pub entry_clears: u32,
    pub exit_clears: u32,
    pub cleared_notices: u32,
    /// An injected handler couldn't come: it was disarmed; it had come too recently.
    pub disarmed_injections: u32,
    pub early_injections: u32,
    /// A disarmed handler came nevertheless: it was pending; it was a base interrupt; it was raised.
    pub disarmed_pending: u32,
    pub disarmed_interrupts: u32,
    pub disarmed_raised: u32,
    /// A handler was raised while it already was; a raised handler was cancelled.
    pub raised_again: u32,
    pub cancelled: u32,
    /// A raised handler came; two or more came at one tick; one came after a base interrupt of its tick; one came while the
    /// scheduler was suspended.
    pub raised_comings: u32,
    pub raised_together: u32,
    pub raised_behind_others: u32,
    pub raised_in_holds: u32,
    /// A handler was armed, disarmed, raised or cancelled in a critical section or while the scheduler was suspended; by a handler.
    pub controlled_in_holds: u32,
    pub controlled_by_handlers: u32,
    /// Idle let several ticks pass in a step, up to a raised handler.
    pub jumps_to_raised: u32,
}

/// Increments a count if the condition holds.
pub(super) fn count_if(count: &mut u32, is_so: bool) {
    *count = count.saturating_add(is_so as u32);
}
