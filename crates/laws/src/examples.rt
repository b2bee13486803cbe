//! Worked examples.
ghost use Rattle.std.specs.List.{AllByRecursion};
ghost use Rattle.laws.specs.Examples.{examples, Runs};
ghost use Rattle.laws.specs.MutexExamples.{mutex_examples};
ghost use Rattle.laws.specs.HandlerExamples.{injected_examples, RunsWith, rows, rows_of_two, RowIs};
ghost use Rattle.laws.specs.HoldExamples.{hold_examples};
ghost use Rattle.laws.specs.DaemonExamples.{daemon_examples, daemon_rows};
ghost use Rattle.laws.specs.TicklessExamples.{tickless_examples};
ghost use Rattle.laws.specs.BranchExamples.{branch_examples};
ghost use Rattle.laws.specs.EndlessExamples.{endless_examples};
ghost use Rattle.laws.specs.LookingExamples.{looking_examples};
ghost use Rattle.laws.specs.SectionExamples.{section_examples};
ghost use Rattle.laws.specs.SourceExamples.{armed_rows, source_examples};
ghost use Rattle.laws.specs.ValueExamples.{value_examples};
ghost use Rattle.laws.specs.StampExamples.{stamp_examples};
ghost use Rattle.laws.specs.NotificationExamples.{notification_examples};
ghost use Rattle.laws.specs.EndStateExamples.{StandsSo, end_states};

/// Each application of the table of worked examples runs as the table says: round robin, a `delay 0` that yields, a `delay 1`
/// that sleeps, and two tasks that sleep until one time past the wrap of the tick. Also a receive that times out, a peek that
/// passes a wake on, a send that wakes a higher reader, and two writers on a full queue.
pub fn examples_run()
    ensures { AllByRecursion Runs examples }
{}

/// Each application of the table of examples with semaphores and mutexes runs as the table says. A holder inherits the priority
/// of a waiting task. It falls to that of the next waiter if the best one times out, and keeps it until it has given back its
/// last mutex. A task that locks a mutex that it already holds times out. An unlock by a task that isn't the holder ends the run.
/// A semaphore at its maximum count isn't given.
pub fn examples_with_mutexes_run()
    ensures { AllByRecursion Runs mutex_examples }
{}

/// Each application of the table of examples with handlers runs as the table says: wakes through a locked queue, which take
/// effect at its unlock, for fewer and for more items than waiters; room that is taken again. Also a base interrupt that wakes a
/// task which finds nothing, one that keeps a run going, and the results of a handler's ops.
pub fn examples_with_handlers_run()
    ensures { AllByRecursion RunsWith injected_examples }
{}

/// Each application of the table of examples with event groups, suspended tasks and a held scheduler runs as the table says: one
/// set that wakes two waiting tasks; a sleep that is cut short, and a `delay_until` after one. Also a receive that is resumed and
/// keeps its deadline, and an interrupt while the scheduler is held. Three misuses end the run: a call that may wait while the
/// scheduler is held, a release when it isn't held, and a script that ends while it is held.
pub fn examples_with_holds_run()
    ensures { AllByRecursion RunsWith hold_examples }
{}

/// The rows of one handler injected at each phase of one receive, and after it.
pub fn rows_of_one_receive()
    ensures { AllByRecursion RowIs rows }
{}

/// One handler twice in one receive. If the second injection is past the end of the base run, the handler comes. If it is at the
/// row's own end, it does nothing. If the first injection is at the base run's end, the row is the base run.
pub fn rows_of_two_injections()
    ensures { AllByRecursion RowIs rows_of_two }
{}

/// Each application of the table of examples with a daemon runs as the table says. A handler defers setting bits, and its second
/// command finds no room. Two commands arrive in the daemon's own window. A run passes while a command is still pending.
pub fn examples_with_a_daemon_run()
    ensures rows { AllByRecursion RowIs daemon_rows }
    ensures runs { AllByRecursion RunsWith daemon_examples }
{}

/// Each application of the table of tickless examples runs as the table says: the longest sleep, and one past the wrap of the
/// tick, each in one step. Idle sleeps until a base interrupt, until the limit, and until a time at which an interrupt comes and
/// two tasks wake. A handler wakes a task before idle would sleep, and after another one idle continues to sleep.
pub fn tickless_examples_run()
    ensures { AllByRecursion RunsWith tickless_examples }
{}

/// Each application of the table of examples with branches runs as the table says: each condition, on a number and on `none`; a
/// task that tries three times and leaves its loop when it has an item. Also a `break` out of the inner of two loops, an endless
/// loop, and an `if`, an `else` and a `break` that end the script. Also eight blocks open at once, branches while the scheduler
/// is held, and a script that ends while it is held.
pub fn examples_with_branches_run()
    ensures { AllByRecursion RunsWith branch_examples }
{}

/// Each application of the table of examples with endless tasks runs as the table says. One passes although the endless task
/// hasn't ended, and one fails because of an item that the endless task receives. One is stuck because the other task can't end.
/// If all tasks are endless, the run never passes.
pub fn examples_with_endless_tasks_run()
    ensures { AllByRecursion RunsWith endless_examples }
{}

/// Each application of the table of examples with handlers that check their last answer runs as the table says. One expects room,
/// is injected before each step of a run, and once finds none. One has the last answer `none` at first. One fails twice before a
/// step, one fails before a step that is a misuse, and one makes room if there is none. One has nested branches.
pub fn examples_with_handlers_that_look_run()
    ensures { AllByRecursion RunsWith looking_examples }
{}

/// Each application of the table of examples with stamps runs as the table says. One task measures time since reset, past the
/// wrap of the tick, and while the scheduler is held. One measures the largest possible time, and one misses its deadline.
pub fn examples_with_stamps_run()
    ensures { AllByRecursion RunsWith stamp_examples }
{}

/// Each application of the table of examples with critical sections runs as the table says. A handler that is injected inside a
/// section comes after the outer exit, even while the scheduler is suspended. It may come before the step of idle, and it never
/// comes if the run has ended by then. Pending handlers come once, in the order of the file. Inside a section, letting time pass,
/// resuming the scheduler and reaching the end of the script are misuses, and so is one exit too many. If a misuse that isn't
/// about sections also applies, that one counts.
pub fn examples_with_sections_run()
    ensures { AllByRecursion RunsWith section_examples }
{}

/// Each application of the table of examples with variables and values runs as the table says: a counter update that is lost
/// between a task's load and its store, and none in a critical section. Also each operation, modulo 2^32 and rounded down, and
/// ops of tasks and of handlers that have no value to work with. Also a value that is received and passed on, even by a send that
/// waits, and conditions that name a variable.
pub fn examples_with_values_run()
    ensures { AllByRecursion RunsWith value_examples }
{}

/// Each application of the table of examples with notifications runs as the table says: a handler that notifies before each step
/// of a take, between its start and the switch, and after its deadline. Also two counts that are taken at once, and one by one;
/// values that are kept and overwritten; the bits that a wait clears at its start and at its end. Also which tasks are woken and
/// which aren't, and calls that are misuses or have no value to work with.
pub fn examples_with_notifications_run()
    ensures { AllByRecursion RunsWith notification_examples }
{}

/// The state after the steps of each example is what the table says. A receive has tried, waits and isn't in its list yet, waits
/// in its list, was woken by a handler through the locked queue, or continues once the queue is unlocked. Two tasks wait for each
/// other's mutex, without a limit and until a tick. Tasks are suspended, asleep, Ready or Ended. A daemon has no command. A task
/// begins to wait for a notification. Variables were stored by a task and by a handler, and one wasn't stored by an op without a
/// value.
pub fn end_states_of_examples()
    ensures { AllByRecursion StandsSo end_states }
{}

/// Each application of the table of examples with handlers that are armed, disarmed, raised or cancelled runs as the table says.
/// A disarmed handler can't come unless it is already pending or comes as a base interrupt. A handler can't come too soon after
/// its last coming, which may have been a base interrupt. A handler that raises itself comes again and again. A cancelled handler
/// doesn't come unless it is already due. A handler that is raised anew comes only at the later tick. An injection leaves it
/// raised. Idle sleeps until the tick at which one comes.
pub fn examples_with_armed_and_raised_handlers_run()
    ensures rows { AllByRecursion RowIs armed_rows }
    ensures runs { AllByRecursion RunsWith source_examples }
{}
