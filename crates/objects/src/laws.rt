//! What leaves the objects as they are. These functions do nothing: their contracts say it.
ghost use Rattle.std.specs.Prelude.{◌≡◌, ℕ, ◌<◌, length, List, Bool, Option, Some, None, IfSome};
ghost use Rattle.lists.specs.Lists.{place_of};
ghost use Rattle.model.specs.declared.call.Phase.TheVariants.{Place, Unlock};
ghost use Rattle.model.specs.declared.call.WaitList.{WaitList};
ghost use Rattle.model.specs.declared.call.WaitList.TheVariants.{ToReceive, ToSend};
ghost use Rattle.model.specs.declared.event.End.{End};
ghost use Rattle.model.specs.declared.event.Event.{Event};
ghost use Rattle.model.specs.declared.op.Access.{Access};
ghost use Rattle.model.specs.State.{Progress, State, status_at, task_at, with_progress};
ghost use Rattle.model.specs.Invariant.{wait_of};
ghost use Rattle.model.specs.Objects.{list_for};
ghost use Rattle.model.specs.Calls.{lock};
ghost use Rattle.model.specs.Mutexes.{after_timeout, disinherit, inherit, set_priority};
ghost use Rattle.model.specs.Waiting.{awaken, wait_in, wake_best};
ghost use Rattle.objects.specs.WaitersStand.{AtLocked, Decider, StandLocked, one_more};
ghost use Rattle.objects.specs.Objects.{Counts, CountsNobody, Objects, StandsFor};

/// A wake through the locked object leaves the lists as they are, and is counted.
pub(crate) fn wakes_count()
    ensures receivers { (v : List (List (ℕ × ℕ))) (decider : Option Decider)
        (object receivers senders : ℕ) (s : State)
        → StandLocked v decider object receivers senders s
        → StandLocked v decider object (one_more receivers) senders (wake_best (ToReceive object) s) }
    ensures senders { (v : List (List (ℕ × ℕ))) (decider : Option Decider)
        (object receivers senders : ℕ) (s : State)
        → StandLocked v decider object receivers senders s
        → StandLocked v decider object receivers (one_more senders) (wake_best (ToSend object) s) }
{}

/// A task that begins to wait leaves the objects as they are until it is placed.
pub fn decides()
    // A task that doesn't wait is in no list, and neither is one that isn't placed yet.
    ensures free { (v : Objects) (s : State) (task : ℕ) → StandsFor v None s
        → wait_of (status_at s task) ≡ None → place_of v.waiting task ≡ None }
    ensures still_free { (v : Objects) (s : State) (decider : Decider)
        → StandsFor v (Some decider) s → place_of v.waiting decider.task ≡ None }
    // A task that doesn't wait begins to wait before any wake is counted, and is still to be placed then.
    ensures begins { (v : Objects) (s : State) (task : ℕ) (list : WaitList) → StandsFor v None s
        → task < length s.tasks → wait_of (status_at s task) ≡ None → CountsNobody v
        → StandsFor v (Some (record { task = task; list = list; priority = (task_at s task).priority }))
        (wait_in task list s) }
    // Its object is locked by then, and the holder of a mutex has inherited: with that, the definition's decision is that it
    // waits,
    ensures decides { (v : Objects) (s : State) (task object : ℕ) (access : Access ℕ)
        → StandsFor v None (record s { locked = Some object })
        → task < length s.tasks → wait_of (status_at s task) ≡ None → CountsNobody v → StandsFor v
        (Some (record { task = task; list = list_for object access; priority = (task_at s task).priority }))
        (lock task object Place (wait_in task (list_for object access) s)) }
    // or that it doesn't.
    ensures declines { (v : Objects) (s : State) (task object : ℕ)
        → StandsFor v None (record s { locked = Some object })
        → StandsFor v None (lock task object Unlock s) }
    // A task goes on with its call, or in its script.
    ensures stays { (v : Objects) (decider : Option Decider) (s : State) (task : ℕ) (progress : Progress)
        → StandsFor v decider s → StandsFor v decider (with_progress task progress s) }
    // A task that is woken through the locked object stays in its list, if only the wake is counted.
    ensures awakened { (v : Objects) (decider : Option Decider) (s : State) (task : ℕ)
        → StandsFor v decider s → IfSome v.lock (Counts (awaken task s))
        → StandsFor v decider (awaken task s) }
    // Time, steps and events are nothing to the objects, nor is whether the scheduler is held.
    ensures unseen { (v : Objects) (decider : Option Decider) (s : State) (time elapsed steps : ℕ)
        (held : Bool) (stopped : Option End) (log : List Event) → StandsFor v decider s
        → StandsFor v decider (record s {
          time = time;
          elapsed = elapsed;
          call_hold = held;
          steps = steps;
          stopped = stopped;
          log = log;
        }) }
{}

/// A change of a priority leaves the objects as they are: a task is in its list with the priority that it had when its
/// wait began.
pub fn ranks()
    ensures ranked { (v : Objects) (decider : Option Decider) (s : State) (task priority : ℕ)
        → StandsFor v decider s → StandsFor v decider (set_priority task priority s) }
    ensures ranked_awake { (decider : Option Decider) (s : State) (task priority : ℕ)
        → AtLocked decider s → AtLocked decider (set_priority task priority s) }
    // So does each of the definition's changes: when a task begins to wait,
    ensures inherited { (v : Objects) (decider : Option Decider) (s : State) (task object : ℕ)
        → StandsFor v decider s → StandsFor v decider (inherit task object s) }
    ensures inherited_awake { (decider : Option Decider) (s : State) (task object : ℕ)
        → AtLocked decider s → AtLocked decider (inherit task object s) }
    // when its wait was unsuccessful,
    ensures timed_out { (v : Objects) (decider : Option Decider) (s : State) (task object : ℕ)
        → StandsFor v decider s → StandsFor v decider (after_timeout task object s) }
    ensures timed_out_awake { (decider : Option Decider) (s : State) (task object : ℕ)
        → AtLocked decider s → AtLocked decider (after_timeout task object s) }
    // and when it has given a mutex back.
    ensures disinherited { (v : Objects) (decider : Option Decider) (s : State) (task : ℕ)
        → StandsFor v decider s → StandsFor v decider (disinherit task s) }
    ensures disinherited_awake { (decider : Option Decider) (s : State) (task : ℕ)
        → AtLocked decider s → AtLocked decider (disinherit task s) }
{}
