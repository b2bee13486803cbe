//! Laws of tasks that measure time.
ghost use Rattle.std.specs.Prelude.{◌≡◌, ◌<◌, ◌-◌, ℕ, List, length, min, Some, None, IfSome};
ghost use Rattle.model.specs.declared.op.Op.TheVariants.{Since, Stamp};
ghost use Rattle.model.specs.Application.{Application, Limits, definition_of, op_at};
ghost use Rattle.model.specs.State.{State, progress_at};
ghost use Rattle.model.specs.Step.{act, before_step, misuse, reset, step};
ghost use Rattle.laws.specs.Branches.{IsQuiet};

/// A task's stamp is the time at reset, until a `stamp` of the task records a new one. `since` returns the number of ticks since
/// the recorded time, or the largest possible result if there are more.
pub fn stamps_measure_time()
    ensures first { (app : Application) (task : ℕ) → IfSome (definition_of app task)
        (λ d. (progress_at (reset app) task).stamp ≡ app.start) }
    ensures noted { (app : Application) (task : ℕ) (s : State) → task < length s.tasks
        → (progress_at (act app task Stamp s) task).stamp ≡ s.time }
    ensures passed { (app : Application) (task : ℕ) (s t : State) → task < length t.tasks → (progress_at t task).stamp ≡ s.time
        → (progress_at (act app task Since t) task).answer ≡ Some (min (t.time - s.time) 4294967295) }
{}

/// `stamp` and `since` take no tick and switch to no other task. `stamp` writes no line and leaves the last answer unchanged.
/// Both are allowed while the scheduler is suspended.
pub fn stamps_take_no_time()
    ensures stamp { (app : Application) (task : ℕ) (s : State) → task < length s.tasks → IsQuiet task s (act app task Stamp s) }
    ensures since { (app : Application) (task : ℕ) (s : State) → ((act app task Since s).time ≡ s.time)
        × ((act app task Since s).elapsed ≡ s.elapsed) × ((act app task Since s).current ≡ s.current) }
    ensures allowed { (s : State) (task : ℕ) → (misuse s task Stamp ≡ None) × (misuse s task Since ≡ None) }
{}

/// In a step only the task's own `stamp` changes its stamp. Handlers before the step and other tasks don't change it.
pub fn stamps_stay()
    ensures { (app : Application) (limits : Limits) (handlers : List ℕ) (task : ℕ) (s : State)
        → ((before_step app handlers s).current ≡ Some task
        → op_at app task (progress_at (before_step app handlers s) task).op_index ≡ Some Stamp → ⊥)
        → (progress_at (step app limits handlers s) task).stamp ≡ (progress_at s task).stamp }
{}
