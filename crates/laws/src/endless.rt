//! Laws of endless tasks.
ghost use Rattle.std.specs.Prelude.{◌≡◌, ℕ, true, false, List, length, Some, None, IfSome};
ghost use Rattle.std.specs.List.{AllByRecursion};
ghost use Rattle.model.specs.declared.event.End.TheVariants.{Pass};
ghost use Rattle.model.specs.declared.plan.Injection.{Injection};
ghost use Rattle.model.specs.Application.{Application, Definition, Limits, definition_of, is_any_awaited, is_endless};
ghost use Rattle.model.specs.State.{State, Task, status_at, with_task};
ghost use Rattle.model.specs.Step.{is_ended};
ghost use Rattle.model.specs.Run.{IsRun, Run, are_all_ended, end_of, state_after};

/// In a run that passes, each task that isn't endless has ended.
pub fn passing_runs_end_what_is_awaited()
    ensures { (app : Application) (plan : List Injection) (limits : Limits) (run : Run) → IsRun app plan limits run → run.end ≡ Pass
        → (task : ℕ) → IfSome (definition_of app task)
        (λ d. d.endless ≡ false → is_ended (status_at (state_after app limits plan run.steps) task) ≡ true) }
{}

/// If all tasks of an application are endless, none of its runs passes.
pub fn endless_tasks_alone_never_pass()
    ensures { (app : Application) (plan : List Injection) (limits : Limits) (run : Run) → IsRun app plan limits run
        → AllByRecursion (λ (d : Definition). d.endless ≡ true) app.tasks → run.end ≡ Pass → ⊥ }
{}

/// No run waits for an endless task: its status doesn't affect whether the run passes or continues. If all other tasks are Ended,
/// and there is at least one, the run passes.
pub fn endless_tasks_are_not_awaited()
    ensures spared { (app : Application) (s : State) (task : ℕ) (now : Task) → is_endless app task ≡ true
        → are_all_ended app (with_task task now s) ≡ are_all_ended app s }
    ensures passes { (app : Application) (limits : Limits) (s : State) → s.stopped ≡ None → is_any_awaited app ≡ true
        → ((task : ℕ) → IfSome (definition_of app task) (λ d. d.endless ≡ false → is_ended (status_at s task) ≡ true))
        → length s.tasks ≡ length app.tasks → end_of app limits s ≡ Some Pass }
{}
