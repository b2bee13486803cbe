//! Laws of handlers that no op arms, and of handlers that no op disarms.
ghost use Rattle.std.specs.Prelude.{◌≡◌, ℕ, true, false, Bool, List, [], length};
ghost use Rattle.model.specs.declared.plan.Injection.{Injection};
ghost use Rattle.model.specs.Application.{Application, Limits};
ghost use Rattle.model.specs.Handlers.{can_come};
ghost use Rattle.model.specs.Points.{first_handler};
ghost use Rattle.model.specs.Run.{IsRow, IsRun, Run, state_after};
ghost use Rattle.model.specs.Scripts.{IsWellFormed};
ghost use Rattle.laws.specs.Arming.{IsAlwaysArmed, IsNeverArmed, without};

/// If a handler is disarmed at reset and no op of the file arms it, it can't come in any state of a run. A point whose first
/// injection is of this handler isn't reached, and its row is the base run.
pub fn disarmed_handlers_reach_nothing()
    ensures never { (app : Application) (handler : ℕ) → IsNeverArmed app handler → (limits : Limits) (plan : List Injection) (n : ℕ)
        → can_come (state_after app limits plan n) handler ≡ false }
    ensures row { (app : Application) (limits : Limits) (point : List Injection) (reached : Bool) (row : Run)
        → IsNeverArmed app (first_handler point) → IsRow app limits point reached row
        → (reached ≡ false) × IsRun app [] limits row }
{}

/// Injections of such a handler do nothing, at any position in a plan: the run is the same without them.
pub fn disarmed_handlers_change_no_run()
    ensures without { (app : Application) (handler : ℕ) → IsNeverArmed app handler → (limits : Limits) (plan : List Injection) (run : Run)
        → IsRun app plan limits run → IsRun app (without handler plan) limits run }
    ensures with_them { (app : Application) (handler : ℕ) → IsNeverArmed app handler → (limits : Limits) (plan : List Injection)
        (run : Run) → IsRun app (without handler plan) limits run → IsRun app plan limits run }
{}

/// The tick can come in any state of a run. So can a handler that is armed at reset and that no op of the file disarms, if its
/// comings needn't be apart.
pub fn what_is_never_disarmed_can_come()
    ensures tick { (app : Application) → IsWellFormed app → (limits : Limits) (plan : List Injection) (n : ℕ)
        → can_come (state_after app limits plan n) (length app.handlers) ≡ true }
    ensures handler { (app : Application) (handler : ℕ) → IsAlwaysArmed app handler → (limits : Limits) (plan : List Injection) (n : ℕ)
        → can_come (state_after app limits plan n) handler ≡ true }
{}
