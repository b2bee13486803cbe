//! Laws of variables and values.
ghost use Rattle.std.specs.Prelude.{◌≡◌, ◌<◌, ◌≤◌, ◌+◌, ◌*◌, ℕ, true, List, ◌∷◌, length, Option, Some, None, IfSome};
ghost use Rattle.std.specs.Prelude.{option_and_then};
ghost use Rattle.model.specs.declared.event.End.{End};
ghost use Rattle.model.specs.declared.event.End.TheVariants.{Check, HandlerCheck};
ghost use Rattle.model.specs.declared.event.Misuse.{Misuse};
ghost use Rattle.model.specs.declared.op.IsrOp.{IsrOp};
ghost use Rattle.model.specs.declared.op.Op.{Op};
ghost use Rattle.model.specs.declared.op.Op.TheVariants as op;
ghost use Rattle.model.specs.declared.value.Arithmetic.TheVariants.{Add, Sub, Div, Mod};
ghost use Rattle.model.specs.declared.value.Value.{Value};
ghost use Rattle.model.specs.declared.value.ValueOp.TheVariants.{Load, Store};
ghost use Rattle.model.specs.declared.ids.VariableId.{VariableId};
ghost use Rattle.model.specs.declared.op.Access.{Access};
ghost use Rattle.model.specs.declared.plan.Injection.{Injection};
ghost use Rattle.model.specs.Application.{Application, Limits, op_at};
ghost use Rattle.model.specs.Handlers.{is_failed, isr_each};
ghost use Rattle.model.specs.Ops.{fail};
ghost use Rattle.model.specs.State.{State, progress_at};
ghost use Rattle.model.specs.Run.{injected, state_after};
ghost use Rattle.model.specs.Step.{act, act_current, before_step, lacks_value, misuse, misused, step};
ghost use Rattle.model.specs.Switching.{is_ready};
ghost use Rattle.model.specs.Values.{computed, value_of, variable_in};
ghost use Rattle.laws.specs.Values.{NoHandlerStores, NoTaskStores};

/// An op that has no value to work with isn't executed, and neither are the handler's ops after it. Its only effect is that the
/// run ends with this check. If a check has already failed, it has no effect. A task's op that is a misuse counts only as a
/// misuse.
pub fn ops_without_a_value_change_nothing()
    ensures task { (app : Application) (limits : Limits) (task : ℕ) (op : Op) (s : State) → is_ready s task ≡ true
        → op_at app task (progress_at s task).op_index ≡ Some op → misuse s task op ≡ None → lacks_value s task op ≡ true
        → act_current app limits (Some task) s ≡ fail (Check task (progress_at s task).op_index) s }
    ensures handler { (app : Application) (handler op_index : ℕ) (op : IsrOp) (answer : Option ℕ) (ops : List IsrOp) (s : State)
        → is_failed s op answer ≡ true
        → isr_each app handler op_index 0 answer (op ∷ ops) s ≡ fail (HandlerCheck handler op_index) s }
    ensures alone { (app : Application) (limits : Limits) (task : ℕ) (op : Op) (kind : Misuse) (s : State)
        → op_at app task (progress_at s task).op_index ≡ Some op → misuse s task op ≡ Some kind
        → act_current app limits (Some task) s ≡ misused task (progress_at s task).op_index kind s }
    ensures ends { (check : End) (s : State) → s.stopped ≡ None → (fail check s).stopped ≡ Some check }
    ensures first { (check end : End) (s : State) → s.stopped ≡ Some end → fail check s ≡ s }
{}

/// A store returns the value that it stores. A load of the variable right after it returns the same value, in the same task or in
/// another.
pub fn loads_find_what_was_stored()
    ensures store { (app : Application) (task : ℕ) (x : VariableId) (value : Value) (s : State) → task < length s.tasks
        → (progress_at (act app task (op.Value (Store x value)) s) task).answer ≡ value_of s.variables (progress_at s task).answer value }
    ensures load { (app : Application) (task other n : ℕ) (x : VariableId) (value : Value) (s : State) → other < length s.tasks
        → x.number < length s.variables → value_of s.variables (progress_at s task).answer value ≡ Some n
        → (progress_at (act app other (op.Value (Load x)) (act app task (op.Value (Store x value)) s)) other).answer ≡ Some n }
{}

/// Arithmetic is modulo 2^32: a sum is below that, and adding a number and then subtracting it restores the old value. A quotient
/// is rounded down: the quotient times the divisor, plus the remainder, is the dividend, and the remainder is below the divisor.
pub fn arithmetic_is_modular()
    ensures sum { (a b : ℕ) → IfSome (computed Add a b) (λ n. n < 4294967296) }
    ensures back { (a b : ℕ) → a < 4294967296 → b < 4294967296
        → option_and_then (λ sum. computed Sub sum b) (computed Add a b) ≡ Some a }
    ensures quotient { (a b quotient rest : ℕ) → computed Div a b ≡ Some quotient → computed Mod a b ≡ Some rest
        → (a ≡ quotient * b + rest) × (rest < b) }
{}

/// A variable keeps its value in a step if neither the running task's op nor any handler of the application stores to it. So it
/// keeps its value over any number of such steps of a run, whatever is injected.
pub fn variables_keep_their_value()
    ensures step { (app : Application) (limits : Limits) (handlers : List ℕ) (x : ℕ) (s : State) → NoHandlerStores app x
        → NoTaskStores app x (before_step app handlers s)
        → variable_in (step app limits handlers s).variables x ≡ variable_in s.variables x }
    ensures run { (app : Application) (limits : Limits) (plan : List Injection) (x first n : ℕ) → NoHandlerStores app x
        → ((m : ℕ) → first ≤ m → m < first + n → NoTaskStores app x (before_step app (injected plan m) (state_after app limits plan m)))
        → variable_in (state_after app limits plan (first + n)).variables x ≡ variable_in (state_after app limits plan first).variables x }
{}

/// A step in which a task doesn't run leaves its last answer unchanged. A step of the task that is a phase of a call that may
/// wait leaves it unchanged too, unless it completes the call. So if the call's item is the last answer, the item is the one from
/// when the call began.
pub fn last_answers_stay_in_a_call()
    ensures phase { (app : Application) (task object : ℕ) (access : Access Value) (ticks : Option ℕ) (s : State) → task < length s.tasks
        → (progress_at (act app task (op.Await object access ticks) s) task).op_index ≡ (progress_at s task).op_index
        → (progress_at (act app task (op.Await object access ticks) s) task).answer ≡ (progress_at s task).answer }
    ensures step { (app : Application) (limits : Limits) (handlers : List ℕ) (task object : ℕ) (access : Access Value)
        (ticks : Option ℕ) (s : State) → task < length s.tasks → (before_step app handlers s).current ≡ Some task
        → op_at app task (progress_at (before_step app handlers s) task).op_index ≡ Some (op.Await object access ticks)
        → (progress_at (step app limits handlers s) task).op_index ≡ (progress_at (before_step app handlers s) task).op_index
        → (progress_at (step app limits handlers s) task).answer ≡ (progress_at s task).answer }
    ensures others { (app : Application) (limits : Limits) (handlers : List ℕ) (task : ℕ) (s : State)
        → ((before_step app handlers s).current ≡ Some task → ⊥)
        → (progress_at (step app limits handlers s) task).answer ≡ (progress_at s task).answer }
{}
