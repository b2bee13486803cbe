//! Laws of handlers that are raised.
ghost use Rattle.std.specs.Prelude.{◌≡◌, ◌≢◌, ◌<◌, ◌≤◌, ◌+◌, ◌*◌, ℕ, false, List, length, IfSome};
ghost use Rattle.model.specs.declared.plan.Injection.{Injection};
ghost use Rattle.model.specs.declared.source.SourceOp.TheVariants.{Cancel, Raise};
ghost use Rattle.model.specs.Application.{Application, Limits, ops_of};
ghost use Rattle.model.specs.Handlers.{inject, interrupt, is_raised_for, is_tick, pend};
ghost use Rattle.model.specs.Ops.{do_to_source};
ghost use Rattle.model.specs.Run.{injected, state_after};
ghost use Rattle.model.specs.Scripts.{IsWellFormed};
ghost use Rattle.model.specs.State.{State, source_at};
ghost use Rattle.laws.specs.Raising.{HasNoBase, IsDueNext, IsLeftAlone, IsPeriodic, IsRaisedFor, LeaveRaised, after_ticks};

/// A handler that raises itself again after n ticks comes every n ticks. At the tick for which it is raised, it comes and is
/// raised for n ticks later. Until then it stays raised, whatever other handlers and base interrupts come.
pub fn periodic_handlers_come_again()
    ensures comes { (app : Application) (handler period : ℕ) (s : State) → IsPeriodic app handler period
        → IsRaisedFor s handler s.elapsed → IsRaisedFor (interrupt app s) handler (s.elapsed + period) }
    ensures waits { (app : Application) (handler period tick : ℕ) (s : State) → IsPeriodic app handler period
        → IsRaisedFor s handler tick → tick ≢ s.elapsed → HasNoBase app handler s.elapsed
        → IsRaisedFor (interrupt app s) handler tick }
    // So while ticks pass, it is due at the first such tick and every n ticks after that. Just before each of them, it is raised
    // for the next tick.
    ensures ticks { (app : Application) (handler period wait turns : ℕ) (s : State) → IsPeriodic app handler period → 1 ≤ period
        → ((tick : ℕ) → HasNoBase app handler tick) → IsRaisedFor s handler (s.elapsed + wait + 1)
        → ((after_ticks app (wait + turns * period) s).elapsed ≡ s.elapsed + wait + turns * period)
        × IsRaisedFor (after_ticks app (wait + turns * period) s) handler
        ((after_ticks app (wait + turns * period) s).elapsed + 1) }
{}

/// Such a handler also keeps time in a run. In each state it is raised for the next of these ticks: the first one, and those that
/// are a multiple of the period later. This holds over steps in which it isn't injected and no task raises or cancels it, if it
/// isn't pending at first.
pub fn periodic_handlers_keep_time()
    ensures { (app : Application) (limits : Limits) (plan : List Injection) (handler first period m n : ℕ)
        → IsPeriodic app handler period → 1 ≤ period → ((tick : ℕ) → HasNoBase app handler tick)
        → (source_at (state_after app limits plan m) handler).pending ≡ false
        → IsRaisedFor (state_after app limits plan m) handler first → (state_after app limits plan m).elapsed < first
        → ((k : ℕ) → m ≤ k → k < m + n → IsLeftAlone app handler (injected plan k) (state_after app limits plan k))
        → IsDueNext (state_after app limits plan (m + n)) handler first period }
{}

/// Between two steps a raised handler is raised for a later tick.
pub fn raised_handlers_come_later()
    ensures { (app : Application) → IsWellFormed app → (limits : Limits) (plan : List Injection) (n handler : ℕ)
        → IfSome (source_at (state_after app limits plan n) handler).raised
        (λ tick. (state_after app limits plan n).elapsed < tick) }
{}

/// After a `cancel` a handler isn't raised for any tick. After a `raise` it is raised for the new tick, whatever it was raised
/// for before.
pub fn last_raise_counts()
    ensures cancelled { (handler tick : ℕ) (s : State)
        → is_raised_for tick (source_at (do_to_source handler Cancel s) handler) ≡ false }
    ensures raised { (handler ticks : ℕ) (s : State) → handler < length s.sources
        → IsRaisedFor (do_to_source handler (Raise ticks) s) handler (s.elapsed + ticks) }
{}

/// An injection of a handler doesn't change the tick for which it is raised, whether the handler comes or becomes pending, if
/// none of its own ops raises or cancels it.
pub fn injections_leave_handlers_raised()
    ensures comes { (app : Application) (handler : ℕ) (s : State) → is_tick app handler ≡ false
        → LeaveRaised handler (ops_of app handler)
        → (source_at (inject app handler s) handler).raised ≡ (source_at s handler).raised }
    ensures pends { (app : Application) (handler : ℕ) (s : State)
        → (source_at (pend app handler s) handler).raised ≡ (source_at s handler).raised }
{}
