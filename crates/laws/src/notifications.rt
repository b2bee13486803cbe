//! Laws of notifications.
ghost use Rattle.std.specs.Prelude.{◌≡◌, ◌<◌, ◌≤◌, ◌+◌, ℕ, Bool, true, false, List, length, Option, Some, if◌then◌else◌};
ghost use Rattle.model.specs.declared.notification.NotifyAction.{NotifyAction};
ghost use Rattle.model.specs.declared.notification.NotifyAction.TheVariants.{Increment, Overwrite, Keep};
ghost use Rattle.model.specs.declared.notification.NotificationWait.TheVariants.{Take};
ghost use Rattle.model.specs.declared.op.IsrOp.TheVariants as isr_op;
ghost use Rattle.model.specs.declared.op.Op.TheVariants as op;
ghost use Rattle.model.specs.declared.plan.Injection.{Injection};
ghost use Rattle.model.specs.declared.value.Value.{Value};
ghost use Rattle.model.specs.Application.{Application, Limits};
ghost use Rattle.model.specs.Handlers.{isr};
ghost use Rattle.model.specs.Notifications.{end_notification_wait, notified, notify, notify_answer, notify_with_number};
ghost use Rattle.model.specs.Run.{injected, state_after};
ghost use Rattle.model.specs.State.{State, Suspended, notification_at, progress_at, status_at, task_at, waits_for_notification};
ghost use Rattle.model.specs.Step.{act, before_step, notify_by_number, step};
ghost use Rattle.model.specs.Switching.{is_ready};
ghost use Rattle.laws.specs.Notifications.{TakesNone};

/// A notify by a handler or a task is never lost, whatever the notified task is doing. Its action is applied to the task's
/// notification, which is then pending. If the task is waiting for a notification, it becomes Ready.
pub fn notifies_are_not_lost()
    ensures handler { (app : Application) (handler op_index task : ℕ) (action : NotifyAction Value) (answer : Option ℕ) (s : State)
        → notification_at (isr app handler op_index (isr_op.Notify task action) answer s) task
        ≡ notified (notify_with_number s.variables answer action) (notification_at s task) }
    ensures task { (app : Application) (task other : ℕ) (action : NotifyAction Value) (s : State)
        → notification_at (act app task (op.Notify other action) s) other
        ≡ notified (notify_by_number s task action) (notification_at s other) }
    ensures woken { (app : Application) (handler op_index task : ℕ) (action : NotifyAction Value) (answer : Option ℕ) (s : State)
        → waits_for_notification (status_at s task) ≡ true
        → is_ready (isr app handler op_index (isr_op.Notify task action) answer s) task ≡ true }
    ensures woken_by_task { (app : Application) (task other : ℕ) (action : NotifyAction Value) (s : State) → is_ready s task ≡ true
        → waits_for_notification (status_at s other) ≡ true → is_ready (act app task (op.Notify other action) s) other ≡ true }
{}

/// A pending notification stays pending until an op of its own task takes it: a clear, or the phase that ends its wait. So it is
/// still pending after any number of steps of a run in which no op takes it, whatever is injected. This includes the steps from
/// the start of a wait to its end.
pub fn pending_notifications_stay()
    ensures step { (app : Application) (limits : Limits) (handlers : List ℕ) (task : ℕ) (s : State)
        → TakesNone app task (before_step app handlers s) → (notification_at s task).pending ≡ true
        → (notification_at (step app limits handlers s) task).pending ≡ true }
    ensures run { (app : Application) (limits : Limits) (plan : List Injection) (task first n : ℕ)
        → ((m : ℕ) → first ≤ m → m < first + n → TakesNone app task (before_step app (injected plan m) (state_after app limits plan m)))
        → (notification_at (state_after app limits plan first) task).pending ≡ true
        → (notification_at (state_after app limits plan (first + n)) task).pending ≡ true }
{}

/// Two increments before a take cause one wake and the count 2: the second wakes no task. The take then returns 2, and leaves 1
/// or 0.
pub fn increments_add_up()
    ensures wake { (task : ℕ) (first second : NotifyAction ℕ) (s : State)
        → (notify task second (notify task first s)).tasks ≡ (notify task first s).tasks }
    ensures count { (app : Application) (task : ℕ) (clears : Bool) (s : State) → task < length s.tasks
        → (notification_at s task).value ≡ 0
        → (progress_at (end_notification_wait app task (Take clears) (notify task Increment (notify task Increment s))) task).answer
        ≡ Some 2 }
    ensures left { (app : Application) (task : ℕ) (clears : Bool) (s : State) → (notification_at s task).value ≡ 0
        → (notification_at (end_notification_wait app task (Take clears) (notify task Increment (notify task Increment s))) task).value
        ≡ (if clears then 0 else 1) }
{}

/// If two values arrive before the first is read, `overwrite` loses the first and `keep` the second. A `keep` right after another
/// notify leaves the notification unchanged and returns 0.
pub fn one_of_two_values_is_lost()
    ensures overwrite { (task first second : ℕ) (s : State)
        → notification_at (notify task (Overwrite second) (notify task (Overwrite first) s)) task
        ≡ record { value = second; pending = true } }
    ensures keep { (task first second : ℕ) (s : State) → (notification_at s task).pending ≡ false
        → notification_at (notify task (Keep second) (notify task (Keep first) s)) task ≡ record { value = first; pending = true } }
    ensures kept { (task value : ℕ) (action : NotifyAction ℕ) (s : State)
        → notification_at (notify task (Keep value) (notify task action s)) task ≡ notification_at (notify task action s) task }
    ensures refused { (task value : ℕ) (action : NotifyAction ℕ) (s : State)
        → notify_answer (Keep value) (notification_at (notify task action s) task) ≡ Some 0 }
{}

/// A notify wakes no task that isn't waiting for it, and doesn't move a task after others of its priority. It changes no other
/// task, and the notified task itself only if that is waiting for a notification. So a Suspended task stays Suspended.
pub fn notifies_wake_no_one_else()
    ensures others { (task other : ℕ) (action : NotifyAction ℕ) (s : State) → (other ≡ task → ⊥)
        → (task_at (notify task action s) other ≡ task_at s other)
        × (notification_at (notify task action s) other ≡ notification_at s other) }
    ensures not_waiting { (task : ℕ) (action : NotifyAction ℕ) (s : State) → waits_for_notification (status_at s task) ≡ false
        → (notify task action s).tasks ≡ s.tasks }
    ensures suspended { (task : ℕ) (action : NotifyAction ℕ) (s : State) → status_at s task ≡ Suspended
        → status_at (notify task action s) task ≡ Suspended }
{}
