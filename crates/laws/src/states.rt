//! Laws of the states that a run reaches.
ghost use Rattle.std.specs.Prelude.{◌≡◌, ◌<◌, ◌≤◌, ◌+◌, ◌++◌, ◌⊎◌, ℕ, filter_map, map, max, length, true, false, List, [], ◌∷◌, Some, None, IfSome};
ghost use Rattle.std.specs.List.{AllByRecursion, Contains};
ghost use Rattle.std.specs.Option.{is_some};
ghost use Rattle.model.specs.declared.call.Phase.{Phase};
ghost use Rattle.model.specs.declared.plan.Injection.{Injection};
ghost use Rattle.model.specs.Application.{Application, Interrupt, Limits, definition_of, interrupts_at};
ghost use Rattle.model.specs.Scripts.{IsWellFormed};
ghost use Rattle.model.specs.State.{State, Source, Task, source_at, status_at, task_at, ticket_of, wake_time_of};
ghost use Rattle.model.specs.Switching.{choice, holds_ticks, is_critical, is_held, is_ready, is_outranked};
ghost use Rattle.model.specs.Time.{increment_tick};
ghost use Rattle.model.specs.Ops.{use_up};
ghost use Rattle.model.specs.Waiting.{end_hold};
ghost use Rattle.model.specs.Handlers.{can_come, idle, inject, is_raised_for, pending_of, tick_interrupt};
ghost use Rattle.model.specs.Step.{before_step, step};
ghost use Rattle.model.specs.Run.{state_after};
ghost use Rattle.model.specs.Invariant.{IsNonePending, IsState};
ghost use Rattle.laws.specs.Choice.{IsChoice};
ghost use Rattle.laws.specs.Ticks.{ticks_among, with_steps, WorksOn};

/// The choice is a Ready task: none has a higher priority, and none of equal priority has an earlier ticket. It is idle only if
/// no task is Ready.
pub fn choice_in_words()
    ensures { (s : State) → IsChoice s (choice s) }
{}

/// Every state that a run of a well-formed application reaches, whatever handlers a plan injects, satisfies the conditions that
/// the code's numbers need.
pub fn states_are_sound()
    ensures { (app : Application) → IsWellFormed app → (limits : Limits) (plan : List Injection) (n : ℕ)
        → IsState app (state_after app limits plan n) }
{}

/// A step from any such state preserves these conditions, whatever handlers come before it, even if they are chosen during the
/// run. It adds at most one active `suspend_all`, or opens one critical section.
pub fn steps_keep_states_sound()
    ensures sound { (app : Application) → IsWellFormed app → (limits : Limits) (handlers : List ℕ) (s : State)
        → IsState app s → IsState app (step app limits handlers s) }
    ensures suspended { (app : Application) (limits : Limits) (handlers : List ℕ) (s : State)
        → s.suspensions ≤ s.steps → (step app limits handlers s).suspensions ≤ (step app limits handlers s).steps }
    ensures held { (app : Application) (limits : Limits) (handlers : List ℕ) (s : State)
        → s.suspensions + s.sections ≤ s.steps
        → (step app limits handlers s).suspensions + (step app limits handlers s).sections ≤ (step app limits handlers s).steps }
{}

/// Between two steps the running task is Ready if the scheduler isn't held.
pub fn running_task_is_ready()
    ensures { (app : Application) (limits : Limits) (plan : List Injection) (n : ℕ)
        → is_held (state_after app limits plan n) ≡ false
        → IfSome (state_after app limits plan n).current (λ task. is_ready (state_after app limits plan n) task ≡ true) }
{}

/// Idle runs only if no task is Ready.
pub fn idle_runs_alone()
    ensures { (app : Application) → IsWellFormed app → (limits : Limits) (plan : List Injection) (n task : ℕ)
        → (state_after app limits plan n).current ≡ None
        → is_ready (state_after app limits plan n) task ≡ false }
{}

/// If the scheduler isn't held after a tick, or after all the ticks of a step of idle, no Ready task has a higher priority than
/// the running one, and idle doesn't run while a task is Ready.
pub fn no_one_outranks_after_a_tick()
    ensures tick { (app : Application) (s : State) → is_held s ≡ false
        → is_outranked (tick_interrupt app s) ≡ false }
    ensures idle { (app : Application) (limits : Limits) (s : State) → is_held s ≡ false
        → is_outranked (idle app limits s) ≡ false }
{}

/// A task's wake time is later than now, both for a sleeping task and for the deadline of a wait.
pub fn sleepers_wake_later()
    ensures { (app : Application) (limits : Limits) (plan : List Injection) (n task : ℕ)
        → IfSome (wake_time_of (status_at (state_after app limits plan n) task))
        (λ wake_time. (state_after app limits plan n).time < wake_time) }
{}

/// In addition to injected and pending ticks, a step lets at most one tick pass if the application isn't tickless, or if a task
/// runs after those ticks. If idle sleeps in the step, it doesn't sleep past the limit.
pub fn ticks_pass_up_to_the_limit()
    ensures one { (app : Application) (limits : Limits) (sources : List ℕ) (s : State) → app.tickless ≡ false
        → (step app limits sources s).elapsed ≤ s.elapsed + ticks_among app (pending_of s ++ sources) + 1 }
    ensures task { (app : Application) (limits : Limits) (sources : List ℕ) (s : State)
        → is_some (before_step app sources s).current ≡ true
        → (step app limits sources s).elapsed ≤ s.elapsed + ticks_among app (pending_of s ++ sources) + 1 }
    ensures limit { (app : Application) (limits : Limits) (sources : List ℕ) (s : State)
        → s.elapsed < limits.ticks
        → (step app limits sources s).elapsed ≤ limits.ticks + ticks_among app (pending_of s ++ sources) }
{}

/// A tick that is injected before a step of `work` counts as a tick of that work. It leads to the same state as a step of the
/// work with one more tick left. Only the number of steps differs.
pub fn injected_ticks_are_ticks_of_work()
    // One tick of the work is already used up in the state into which the tick is injected, but not in the other state.
    ensures { (app : Application) (limits : Limits) (s : State) (task ticks : ℕ) → WorksOn app s task ticks
        → can_come s (length app.handlers) ≡ true → is_critical s ≡ false → IsNonePending s
        → with_steps (s.steps + 1) (before_step app (length app.handlers ∷ []) (use_up app task ticks s)) ≡ step app limits [] s }
{}

/// Idle sleeps past nothing. However many ticks pass in its step, they don't pass a task's wake time, the tick of a future base
/// interrupt, or the tick for which a handler is raised.
pub fn idle_sleeps_past_nothing()
    ensures wakes { (app : Application) (limits : Limits) (s : State) (task : ℕ) → IfSome (wake_time_of (status_at s task))
        (λ wake_time. s.time < wake_time → (idle app limits s).time ≤ wake_time) }
    ensures interrupts { (app : Application) (limits : Limits) (s : State)
        → AllByRecursion (λ (i : Interrupt). s.elapsed < i.tick → (idle app limits s).elapsed ≤ i.tick) app.interrupts }
    ensures raised { (app : Application) (limits : Limits) (s : State) (handler : ℕ) → IfSome (source_at s handler).raised
        (λ tick. s.elapsed < tick → (idle app limits s).elapsed ≤ tick) }
{}

/// In a tickless application idle sleeps until something happens. Its step ends at a task's wake time, at the tick of a base
/// interrupt, at the tick for which a handler is raised, or at the limit. If a tick that was injected into the step has already
/// reached the limit, the step ends one tick later.
pub fn idle_sleeps_until_something_happens()
    ensures { (app : Application) (limits : Limits) (s : State) → app.tickless ≡ true
        → ((task : ℕ) → IfSome (wake_time_of (status_at s task)) (λ wake_time. s.time < wake_time))
        → ((handler : ℕ) → IfSome (source_at s handler).raised (λ tick. s.elapsed < tick))
        → Contains (filter_map (λ (t : Task). wake_time_of t.status) s.tasks) (idle app limits s).time
        ⊎ (Contains (map (λ (i : Interrupt). i.tick) app.interrupts) (idle app limits s).elapsed
        ⊎ (Contains (filter_map (λ (x : Source). x.raised) s.sources) (idle app limits s).elapsed
        ⊎ ((idle app limits s).elapsed ≡ max limits.ticks (s.elapsed + 1)))) }
{}

/// The time plus the held ticks equals the start plus the elapsed ticks.
pub fn time_is_start_and_elapsed()
    ensures { (app : Application) → IsWellFormed app → (limits : Limits) (plan : List Injection) (n : ℕ)
        → (state_after app limits plan n).time + (state_after app limits plan n).held_ticks
        ≡ app.start + (state_after app limits plan n).elapsed }
{}

/// No two tasks have the same ticket, so the choice is never a tie.
pub fn tickets_differ()
    ensures { (app : Application) (limits : Limits) (plan : List Injection) (n a b ticket : ℕ)
        → ticket_of (status_at (state_after app limits plan n) a) ≡ Some ticket
        → ticket_of (status_at (state_after app limits plan n) b) ≡ Some ticket
        → a ≡ b }
{}

/// A task's base priority is the one from the file. Its priority, which may be inherited, is never below that.
pub fn priorities_are_at_least_those_of_the_file()
    ensures base { (app : Application) (limits : Limits) (plan : List Injection) (n task : ℕ) → IfSome (definition_of app task)
        (λ d. (task_at (state_after app limits plan n) task).base_priority ≡ d.priority) }
    ensures least { (app : Application) → IsWellFormed app → (limits : Limits) (plan : List Injection) (n task : ℕ)
        → (task_at (state_after app limits plan n) task).base_priority ≤ (task_at (state_after app limits plan n) task).priority }
{}

/// While the scheduler is held, an interrupt before a step (a handler or the tick) doesn't switch tasks: the same task runs.
pub fn no_switch_while_held()
    ensures { (app : Application) (source : ℕ) (s : State) → is_held s ≡ true
        → (inject app source s).current ≡ s.current }
{}

/// A tick is held if it comes while a call or a `suspend_all` holds the scheduler: it counts as elapsed, but the time doesn't
/// change, so no task wakes. When a call releases the scheduler, the held ticks are added to the time, and none is held any more.
pub fn held_ticks_wait_for_the_release()
    ensures held { (s : State) → holds_ticks s ≡ true
        → ((increment_tick s).elapsed ≡ s.elapsed + 1) × ((increment_tick s).time ≡ s.time)
        × ((increment_tick s).tasks ≡ s.tasks) }
    // So a tick that is injected then wakes no task, if no base interrupt comes with it and no handler is raised for it.
    ensures injected { (app : Application) (s : State) → holds_ticks s ≡ true → interrupts_at app (s.elapsed + 1) ≡ []
        → ((handler : ℕ) → is_raised_for (s.elapsed + 1) (source_at s handler) ≡ false)
        → (inject app (length app.handlers) s).tasks ≡ s.tasks }
    ensures released { (task : ℕ) (phase : Phase) (s : State)
        → ((end_hold task phase s).elapsed ≡ s.elapsed) × ((end_hold task phase s).time ≡ s.time + s.held_ticks)
        × ((end_hold task phase s).held_ticks ≡ 0) }
{}
