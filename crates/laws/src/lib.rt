//! Laws of the kernel: what follows from its definitions, in plain terms. Each law is the contract of a function that does
//! nothing, so it is proved.
#![tactic(auto)]

mod arming;
mod branches;
mod campaigns;
mod comings;
mod endless;
mod examples;
mod looking;
mod notifications;
mod placements;
mod raising;
mod runs;
mod sections;
mod stamps;
mod states;
mod values;

pub use arming::{
    disarmed_handlers_change_no_run, disarmed_handlers_reach_nothing,
    what_is_never_disarmed_can_come,
};
pub use branches::{
    branches_are_quiet, breaks_end_the_innermost_loop, loops_for_ever_go_on, one_branch_is_done,
};
pub use campaigns::{ends_add_up, unreached_row_is_the_base_run};
pub use comings::comings_are_apart;
pub use endless::{
    endless_tasks_alone_never_pass, endless_tasks_are_not_awaited, passing_runs_end_what_is_awaited,
};
pub use examples::{
    end_states_of_examples, examples_run, examples_with_a_daemon_run,
    examples_with_armed_and_raised_handlers_run, examples_with_branches_run,
    examples_with_endless_tasks_run, examples_with_handlers_run,
    examples_with_handlers_that_look_run, examples_with_holds_run, examples_with_mutexes_run,
    examples_with_notifications_run, examples_with_sections_run, examples_with_stamps_run,
    examples_with_values_run, rows_of_one_receive, rows_of_two_injections, tickless_examples_run,
};
pub use looking::{
    failed_checks_end_the_handler, first_failed_check_counts, handlers_do_one_branch,
    passed_checks_change_nothing,
};
pub use notifications::{
    increments_add_up, notifies_are_not_lost, notifies_wake_no_one_else, one_of_two_values_is_lost,
    pending_notifications_stay,
};
pub use placements::{
    order_counts_within_a_step, placements_are_ordered, placements_of_two_steps,
    steps_have_all_placements,
};
pub use raising::{
    injections_leave_handlers_raised, last_raise_counts, periodic_handlers_come_again,
    periodic_handlers_keep_time, raised_handlers_come_later,
};
pub use runs::{late_points_do_nothing, row_is_one, run_is_one};
pub use sections::{
    injections_in_a_section_wait, no_handler_comes_inside, pending_handlers_change_nothing,
    pending_handlers_come_at_the_exit, pending_handlers_come_once,
};
pub use stamps::{stamps_measure_time, stamps_stay, stamps_take_no_time};
pub use states::{
    choice_in_words, idle_runs_alone, idle_sleeps_past_nothing,
    idle_sleeps_until_something_happens, injected_ticks_are_ticks_of_work,
    no_one_outranks_after_a_tick, no_switch_while_held, priorities_are_at_least_those_of_the_file,
    running_task_is_ready, sleepers_wake_later, states_are_sound, steps_keep_states_sound,
    tickets_differ, ticks_pass_up_to_the_limit, time_is_start_and_elapsed,
};
pub use values::{
    arithmetic_is_modular, last_answers_stay_in_a_call, loads_find_what_was_stored,
    ops_without_a_value_change_nothing, variables_keep_their_value,
};
