//! Laws of whole runs.
ghost use Rattle.std.specs.Prelude.{◌≡◌, ◌≤◌, [], List, Bool};
ghost use Rattle.std.specs.List.{AllByRecursion};
ghost use Rattle.model.specs.declared.plan.Injection.{Injection};
ghost use Rattle.model.specs.Application.{Application, Limits};
ghost use Rattle.model.specs.Run.{Run, IsRun, IsRow};

/// An application has exactly one run with a given plan under given limits.
pub fn run_is_one()
    ensures { (app : Application) (plan : List Injection) (limits : Limits) (a b : Run) → IsRun app plan limits a
        → IsRun app plan limits b → a ≡ b }
{}

/// A point has exactly one row, and is either reached or not.
pub fn row_is_one()
    ensures { (app : Application) (limits : Limits) (point : List Injection) (here there : Bool) (a b : Run)
        → IsRow app limits point here a → IsRow app limits point there b
        → (here ≡ there) × (a ≡ b) }
{}

/// Handlers injected at or after the end of the base run never run: the run with them is the base run.
pub fn late_points_do_nothing()
    ensures { (app : Application) (plan : List Injection) (limits : Limits) (run : Run) → IsRun app [] limits run
        → AllByRecursion (λ (p : Injection). run.steps ≤ p.step) plan → IsRun app plan limits run }
{}
