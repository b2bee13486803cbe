//! Runs of the kernel compared with runs of the reference kernel, on many small applications.

use crate::file::{file_of, plan_text};
use crate::planner::Planner;
use crate::seen::Seen;
use model::{App, HandlerDefinition, Meter, Plan, TaskDefinition};
use random_apps::Dice;
use reference_kernel::ReferenceKernel;
use script::FromDocument;
use std::alloc::Global;
use std::process::Abort;

/// Fails the test, and shows the application as a file.
fn fail(rt: &impl Abort, alloc: Global, seed: u32, app: &App, plan: &Plan, what: &str) {
    let file = file_of(alloc, app).expect(rt, "memory");
    let injected = plan_text(alloc, app, plan).expect(rt, "memory");
    panic!(rt;
        "seed {seed}: other {what} than the reference kernel, with injections{injected} on this file\n{file}"
    );
}

/// Runs the reference kernel while the plan is made, and then the kernel with this plan. Compares what they report.
fn compare(
    rt: &impl Abort,
    alloc: Global,
    seed: u32,
    app: &App,
    mut planner: Planner,
    seen: &mut Seen,
) {
    let limits = app.limits();
    let mut reference = ReferenceKernel::boot(alloc, app);
    let end = planner
        .run(&mut reference, app, &limits)
        .expect(rt, "memory");
    let made = planner.made;
    let plan = Plan::new(planner.injections).ok().expect(rt, "a plan");
    let mut meter = Meter::new();
    let (run, end_state) = kernel::run_to_end_state(alloc, app, &plan, limits, &mut meter).expect(
        rt, "memory",
    );
    if run.events.as_slice() != reference.events.as_slice() {
        fail(rt, alloc, seed, app, &plan, "events");
    }
    if (run.end, run.steps, run.ticks) != (end, reference.steps, reference.elapsed) {
        fail(rt, alloc, seed, app, &plan, "end, steps or ticks");
    }
    if end_state.variables.as_slice() != reference.variables(app) {
        fail(rt, alloc, seed, app, &plan, "variables at the end");
    }
    if meter.steps() != run.steps as u64 {
        fail(rt, alloc, seed, app, &plan, "metered steps");
    }
    let has_wrapped = run.ticks > (u32::MAX - app.start()) as u64;
    seen.count(&reference, app, has_wrapped, &made);
}

/// Which applications are compared, and in how many of the runs handlers are injected.
#[derive(Clone, Copy)]
enum Sort {
    /// Of all sorts, with base interrupts only.
    Any,
    /// In two of three, tasks crowd around objects. Handlers are injected in each run.
    Crowd,
    /// Tasks contend for mutexes. Handlers are injected in every other run.
    Contest,
    /// Tasks wait for bits. Handlers are injected in every other run.
    Gathering,
    /// Tasks are suspended. Handlers are injected in three of four runs.
    Suspension,
    /// Tasks and handlers act on the last answer. Handlers are injected in every other run.
    Decision,
    /// Tasks open critical sections. Handlers are injected in three of four runs.
    Section,
    /// Tasks notify each other. Handlers are injected in three of four runs.
    Signal,
    /// Tasks and handlers calculate. Handlers are injected in three of four runs.
    Calculation,
    /// Tasks crowd around objects, wait for bits or for notifications, are suspended, or open critical sections. Ticks and handlers
    /// are injected in each run.
    Tick,
    /// Tasks and handlers arm, disarm and raise handlers. Handlers are injected in each run, and ticks in every other one.
    Device,
}

impl Sort {
    fn dice(self, seed: u32) -> Dice {
        match self {
            Sort::Crowd if seed % 3 != 0 => Dice::crowding(seed),
            Sort::Any | Sort::Crowd => Dice::new(seed),
            Sort::Contest => Dice::contending(seed),
            Sort::Gathering => Dice::gathering(seed),
            Sort::Suspension => Dice::suspending(seed),
            Sort::Decision => Dice::deciding(seed),
            Sort::Section => Dice::masking(seed),
            Sort::Signal => Dice::signalling(seed),
            Sort::Calculation => Dice::calculating(seed),
            Sort::Device => Dice::raising(seed),
            Sort::Tick => match seed % 5 {
                0 => Dice::crowding(seed),
                1 => Dice::gathering(seed),
                2 => Dice::signalling(seed),
                3 => Dice::suspending(seed),
                _ => Dice::masking(seed),
            },
        }
    }

    fn has_injections(self, seed: u32) -> bool {
        match self {
            Sort::Any => false,
            Sort::Crowd | Sort::Tick | Sort::Device => true,
            Sort::Contest | Sort::Gathering | Sort::Decision => seed % 2 != 0,
            Sort::Suspension | Sort::Section | Sort::Signal | Sort::Calculation => seed % 4 != 0,
        }
    }

    fn planner(self, alloc: Global, seed: u32) -> Planner {
        let has_ticks = match self {
            Sort::Tick => true,
            Sort::Device => seed % 2 == 0,
            _ => false,
        };
        if has_ticks {
            Planner::of_ticks(alloc, u32::MAX - seed)
        } else if self.has_injections(seed) {
            Planner::new(alloc, u32::MAX - seed)
        } else {
            Planner::idle(alloc)
        }
    }
}

/// Compares both on 20,000 applications.
fn seen_in(rt: &impl Abort, alloc: Global, sort: Sort) -> Seen {
    let mut seen = Seen::default();
    for seed in 0..20_000 {
        let app = sort.dice(seed).app(alloc).expect(rt, "memory");
        compare(rt, alloc, seed, &app, sort.planner(alloc, seed), &mut seen);
    }
    seen
}

/// Fails the test if the runs cover too little of what they must.
fn has_enough(rt: &impl Abort, seen: &Seen, is_so: bool) {
    assert!(rt; is_so, "{seen:?}");
}

#[test]
fn the_reference_kernel_agrees(rt: HostRuntime) {
    let seen = seen_in(&rt, rt.alloc(), Sort::Any);
    let has_all = seen.wraps > 9_500 && seen.wakes > 2_750 && seen.timeouts > 3_000;
    has_enough(&rt, &seen, has_all && seen.bit_timeouts > 2_300);
    has_enough(
        &rt,
        &seen,
        seen.suspended_waits > 800 && seen.held_ticks > 2_700,
    );
    let has_commands = seen.commands > 3_320 && seen.refused_commands > 640;
    has_enough(&rt, &seen, has_commands);
    let has_done = seen.sets_by_daemon > 2_550 && seen.clears_by_daemon > 1_100;
    has_enough(&rt, &seen, has_done && seen.passes_beside_daemon > 200);
    let has_jumps = seen.jumps > 5_070 && seen.wrapping_jumps > 3_040;
    has_enough(&rt, &seen, has_jumps && seen.jumps_to_zero > 520);
    let has_ends = seen.jumps_to_interrupt > 2_770 && seen.jumps_to_wake > 3_330;
    has_enough(&rt, &seen, has_ends && seen.jumps_to_limit > 1_540);
    let has_branches = seen.taken_branches > 470 && seen.skipped_branches > 710;
    has_enough(
        &rt,
        &seen,
        has_branches && seen.passes_beside_endless > 1_320,
    );
    let has_checks = seen.passed_checks > 530 && seen.failed_checks > 135;
    has_enough(&rt, &seen, has_checks && seen.taken_by_handlers > 550);
    let has_times = seen.stamps > 3_350 && seen.measures > 1_600;
    has_enough(&rt, &seen, has_times && seen.skipped_by_handlers > 1_020);
}

#[test]
fn the_reference_kernel_agrees_where_handlers_are_injected(rt: HostRuntime) {
    let seen = seen_in(&rt, rt.alloc(), Sort::Crowd);
    let made = seen.injections;
    has_enough(&rt, &seen, made.all > 47_500 && made.late > 4_750);
    let has_inside = made.inside_calls > made.all / 3 && made.locked > made.all / 6;
    has_enough(&rt, &seen, has_inside);
    let has_awakenings = seen.own_awakenings > 2_400 && seen.other_awakenings > 475;
    has_enough(&rt, &seen, has_awakenings && seen.mixed_unlocks > 45);
    has_enough(&rt, &seen, seen.locked_gives > 1_050);
    let has_commands = seen.commands > 5_270 && seen.refused_commands > 2_460;
    has_enough(&rt, &seen, has_commands && seen.window_commands > 1_890);
    let has_done = seen.sets_by_daemon > 4_110 && seen.clears_by_daemon > 1_850;
    has_enough(&rt, &seen, has_done && seen.passes_beside_daemon > 180);
    let has_beside = made.beside_daemon > made.all / 3 && made.in_its_window > 23_500;
    has_enough(&rt, &seen, has_beside);
    let has_jumps = seen.jumps > 6_760 && seen.wrapping_jumps > 4_400;
    has_enough(&rt, &seen, has_jumps && seen.jumps_to_zero > 940);
    let has_ends = seen.jumps_to_interrupt > 3_460 && seen.jumps_to_wake > 5_510;
    has_enough(&rt, &seen, has_ends && seen.jumps_to_limit > 2_280);
}

#[test]
fn the_reference_kernel_agrees_where_tasks_contend_for_mutexes(rt: HostRuntime) {
    let seen = seen_in(&rt, rt.alloc(), Sort::Contest);
    has_enough(&rt, &seen, seen.raises > 4_750 && seen.kept_raises > 475);
    has_enough(&rt, &seen, seen.falls > 1_150 && seen.partial_falls > 180);
    has_enough(&rt, &seen, seen.not_holder > 2_375);
    let has_commands = seen.commands > 3_450 && seen.refused_commands > 1_000;
    has_enough(&rt, &seen, has_commands && seen.window_commands > 800);
    let has_done = seen.sets_by_daemon > 2_650 && seen.clears_by_daemon > 1_000;
    has_enough(&rt, &seen, has_done && seen.passes_beside_daemon > 210);
    let has_jumps = seen.jumps > 5_600 && seen.wrapping_jumps > 1_880;
    has_enough(&rt, &seen, has_jumps && seen.jumps_to_zero > 450);
    let has_ends = seen.jumps_to_interrupt > 2_100 && seen.jumps_to_wake > 4_360;
    has_enough(&rt, &seen, has_ends && seen.jumps_to_limit > 1_640);
}

#[test]
fn the_reference_kernel_agrees_where_tasks_wait_for_bits(rt: HostRuntime) {
    let seen = seen_in(&rt, rt.alloc(), Sort::Gathering);
    has_enough(
        &rt,
        &seen,
        seen.crowded_sets > 900 && seen.clearing_sets > 3_000,
    );
    has_enough(
        &rt,
        &seen,
        seen.bit_timeouts > 8_500 && seen.suspended_answers > 200,
    );
    let has_commands = seen.commands > 7_060 && seen.refused_commands > 4_460;
    has_enough(&rt, &seen, has_commands && seen.window_commands > 1_350);
    let has_done = seen.sets_by_daemon > 6_390 && seen.clears_by_daemon > 3_530;
    has_enough(&rt, &seen, has_done && seen.passes_beside_daemon > 320);
    let has_jumps = seen.jumps > 7_440 && seen.wrapping_jumps > 4_600;
    has_enough(&rt, &seen, has_jumps && seen.jumps_to_zero > 1_050);
    let has_ends = seen.jumps_to_interrupt > 4_070 && seen.jumps_to_wake > 5_700;
    has_enough(&rt, &seen, has_ends && seen.jumps_to_limit > 2_430);
}

#[test]
fn the_reference_kernel_agrees_where_tasks_are_suspended(rt: HostRuntime) {
    let seen = seen_in(&rt, rt.alloc(), Sort::Suspension);
    let has_tasks = seen.suspended_waits > 700 && seen.suspended_decisions > 110;
    has_enough(&rt, &seen, has_tasks && seen.cut_off_sleeps > 550);
    has_enough(
        &rt,
        &seen,
        seen.resumed_calls > 600 && seen.locked_resumes > 70,
    );
    has_enough(
        &rt,
        &seen,
        seen.held_ticks > 7_000 && seen.held_interrupts > 3_800,
    );
    has_enough(
        &rt,
        &seen,
        seen.held_wakes > 1_100 && seen.injections.suspended > 20_000,
    );
    let has_early_misuses = seen.while_suspended > 600 && seen.not_suspended > 600;
    has_enough(&rt, &seen, has_early_misuses && seen.ended_suspended > 900);
    let has_commands = seen.commands > 6_700 && seen.refused_commands > 3_530;
    has_enough(&rt, &seen, has_commands && seen.window_commands > 1_800);
    let has_done = seen.sets_by_daemon > 5_600 && seen.clears_by_daemon > 2_610;
    has_enough(&rt, &seen, has_done && seen.passes_beside_daemon > 250);
    let has_jumps = seen.jumps > 5_940 && seen.wrapping_jumps > 3_560;
    has_enough(&rt, &seen, has_jumps && seen.jumps_to_zero > 700);
    let has_ends = seen.jumps_to_interrupt > 3_360 && seen.jumps_to_wake > 4_220;
    has_enough(&rt, &seen, has_ends && seen.jumps_to_limit > 1_290);
}

#[test]
fn the_reference_kernel_agrees_where_tasks_and_handlers_go_by_answers(rt: HostRuntime) {
    let seen = seen_in(&rt, rt.alloc(), Sort::Decision);
    let has_branches = seen.taken_branches > 9_100 && seen.skipped_branches > 12_900;
    has_enough(&rt, &seen, has_branches && seen.skipped_others > 1_740);
    let has_breaks = seen.breaks > 2_940 && seen.breaks_for_ever > 1_050;
    has_enough(&rt, &seen, has_breaks && seen.inner_breaks > 400);
    let has_ends = seen.turns_for_ever > 2_970 && seen.ending_jumps > 9_310;
    has_enough(&rt, &seen, has_ends);
    let has_endless = seen.passes_beside_endless > 750 && seen.endless_alone_ended > 325;
    has_enough(&rt, &seen, has_endless);
    let has_checks = seen.passed_checks > 4_000 && seen.failed_checks > 1_540;
    has_enough(&rt, &seen, has_checks && seen.later_failures > 240);
    let has_branches = seen.taken_by_handlers > 4_260 && seen.skipped_by_handlers > 7_460;
    has_enough(&rt, &seen, has_branches);
    let has_times = seen.stamps > 8_770 && seen.measures > 4_150;
    has_enough(&rt, &seen, has_times && seen.long_measures > 12);
}

#[test]
fn the_reference_kernel_agrees_where_tasks_open_critical_sections(rt: HostRuntime) {
    let seen = seen_in(&rt, rt.alloc(), Sort::Section);
    has_enough(
        &rt,
        &seen,
        seen.sections > 17_500 && seen.inner_sections > 9_540,
    );
    let has_pending = seen.pending_handlers > 7_030 && seen.pending_again > 4_370;
    has_enough(&rt, &seen, has_pending && seen.injections.critical > 43_800);
    let has_served = seen.served_together > 4_010 && seen.served_in_holds > 80;
    has_enough(&rt, &seen, has_served && seen.ends_while_pending > 2_580);
    let has_misuses = seen.while_critical > 1_790 && seen.not_critical > 2_590;
    has_enough(&rt, &seen, has_misuses && seen.ended_critical > 3_270);
}

#[test]
fn the_reference_kernel_agrees_where_ticks_are_injected(rt: HostRuntime) {
    let seen = seen_in(&rt, rt.alloc(), Sort::Tick);
    let has_ticks = seen.injected_ticks > 10_000 && seen.ticks_in_calls > 1_000;
    has_enough(&rt, &seen, has_ticks && seen.pending_ticks > 1_000);
    let has_held = seen.held_ticks > 1_000 && seen.held_wakes > 100;
    has_enough(&rt, &seen, has_held && seen.timeouts > 1_000);
}

#[test]
fn the_reference_kernel_agrees_where_tasks_and_handlers_calculate(rt: HostRuntime) {
    let seen = seen_in(&rt, rt.alloc(), Sort::Calculation);
    let has_stores = seen.stores > 9_000 && seen.stores_by_handlers > 3_000;
    has_enough(&rt, &seen, has_stores && seen.results > 8_500);
    let has_none = seen.valueless_ops > 3_800 && seen.valueless_by_handlers > 800;
    has_enough(&rt, &seen, has_none && seen.zero_divisors > 1_600);
    let has_named = seen.named_conditions > 1_800 && seen.named_by_handlers > 3_500;
    has_enough(&rt, &seen, has_named && seen.values_in_holds > 7_000);
    let has_sent = seen.sent_answers > 2_300 && seen.answers_sent_by_handlers > 550;
    has_enough(&rt, &seen, has_sent && seen.passed_on > 400);
}

#[test]
fn the_reference_kernel_agrees_where_tasks_wait_for_notifications(rt: HostRuntime) {
    let seen = seen_in(&rt, rt.alloc(), Sort::Signal);
    let has_wakes = seen.notifies > 18_600 && seen.notified_wakes > 13_400;
    has_enough(&rt, &seen, has_wakes && seen.window_notifies > 2_400);
    let has_timeouts = seen.notice_timeouts > 10_800 && seen.suspended_notifies > 10_500;
    has_enough(&rt, &seen, has_timeouts && seen.suspended_waits > 4_400);
    let has_values = seen.kept_values > 10_300 && seen.lost_values > 10_400;
    has_enough(&rt, &seen, has_values && seen.valueless_ops > 150);
    let has_counts = seen.added_counts > 14_600 && seen.taken_counts > 14_400;
    has_enough(&rt, &seen, has_counts && seen.left_counts > 7_600);
    let has_clears = seen.entry_clears > 4_000 && seen.exit_clears > 11_600;
    has_enough(&rt, &seen, has_clears && seen.cleared_notices > 4_200);
}

#[test]
fn the_reference_kernel_agrees_where_tasks_raise_handlers(rt: HostRuntime) {
    let seen = seen_in(&rt, rt.alloc(), Sort::Device);
    let has_barred = seen.disarmed_injections > 9_400 && seen.early_injections > 5_700;
    has_enough(&rt, &seen, has_barred && seen.disarmed_pending > 150);
    let has_disarmed = seen.disarmed_interrupts > 4_900 && seen.disarmed_raised > 8_200;
    has_enough(&rt, &seen, has_disarmed && seen.raised_comings > 12_400);
    let has_raised = seen.raised_together > 3_400 && seen.raised_behind_others > 3_750;
    has_enough(&rt, &seen, has_raised && seen.raised_in_holds > 5_400);
    let has_changed = seen.raised_again > 16_000 && seen.cancelled > 8_300;
    has_enough(&rt, &seen, has_changed && seen.jumps_to_raised > 3_300);
    let has_ops = seen.controlled_in_holds > 13_400 && seen.controlled_by_handlers > 14_400;
    has_enough(&rt, &seen, has_ops);
}

/// The application that a file describes.
pub(crate) fn loaded(rt: &impl Abort, alloc: Global, file: &str) -> App {
    let document = toml::table_from_str(alloc, file)
        .ok()
        .expect(rt, "a document");
    App::from_document(alloc, &document)
        .ok()
        .expect(rt, "an application")
}

fn is_same_handler(one: &HandlerDefinition, other: &HandlerDefinition) -> bool {
    one.name() == other.name()
        && one.ops() == other.ops()
        && one.armed() == other.armed()
        && one.apart() == other.apart()
}

fn is_same_task(one: &TaskDefinition, other: &TaskDefinition) -> bool {
    one.name() == other.name()
        && one.priority() == other.priority()
        && one.is_endless() == other.is_endless()
        && one.ops() == other.ops()
}

/// Whether two applications have the same handlers and interrupts.
fn has_same_handlers(one: &App, other: &App) -> bool {
    for (one, other) in one.handlers().iter().zip(other.handlers()) {
        if !is_same_handler(one, other) {
            return false;
        }
    }
    one.handlers().len() == other.handlers().len() && one.interrupts() == other.interrupts()
}

/// Whether they have the same tasks.
fn has_same_tasks(one: &App, other: &App) -> bool {
    for (one, other) in one.tasks().iter().zip(other.tasks()) {
        if !is_same_task(one, other) {
            return false;
        }
    }
    one.tasks().len() == other.tasks().len()
}

/// Whether they are the same except for handlers and tasks.
fn has_same_rest(one: &App, other: &App) -> bool {
    one.start() == other.start()
        && one.tickless() == other.tickless()
        && one.limits() == other.limits()
        && one.objects() == other.objects()
        && one.group_count() == other.group_count()
        && one.variables() == other.variables()
        && one.daemon() == other.daemon()
}

/// Loads the file that shows an application, and compares the result with the application.
fn load_again(rt: &impl Abort, alloc: Global, app: &App) {
    let file = file_of(alloc, app).expect(rt, "memory");
    let back = loaded(rt, alloc, file.as_str());
    assert!(rt; has_same_rest(&back, app), "{file}");
    assert!(rt; has_same_handlers(&back, app), "{file}");
    assert!(rt; has_same_tasks(&back, app), "{file}");
}

#[test]
fn an_application_that_is_shown_as_a_file_is_loaded_as_it_was(rt: HostRuntime) {
    for seed in 0..200 {
        let app = Dice::new(seed).app(rt.alloc()).expect(&rt, "memory");
        load_again(&rt, rt.alloc(), &app);
        let app = Dice::deciding(seed).app(rt.alloc()).expect(&rt, "memory");
        load_again(&rt, rt.alloc(), &app);
        let app = Dice::masking(seed).app(rt.alloc()).expect(&rt, "memory");
        load_again(&rt, rt.alloc(), &app);
        let app = Dice::signalling(seed).app(rt.alloc()).expect(&rt, "memory");
        load_again(&rt, rt.alloc(), &app);
        let app = Dice::calculating(seed)
            .app(rt.alloc())
            .expect(&rt, "memory");
        load_again(&rt, rt.alloc(), &app);
        let app = Dice::raising(seed).app(rt.alloc()).expect(&rt, "memory");
        load_again(&rt, rt.alloc(), &app);
    }
}
