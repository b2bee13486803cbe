//! The scheduler: the Ready tasks, and the running one.
ghost use Rattle.std.specs.Prelude.{◌≡◌, ◌≢◌, ℕ, ◌+◌, ◌<◌, ◌-◌, ◌||◌, true, [], None, false, length, drop, replicate, slice_get, IfSome};
ghost use Rattle.std.specs.List.{AllByRecursion, list_any};
ghost use Rattle.std.specs.Option.{is_some};
ghost use Rattle.model.specs.State.{Task, State, Suspended, status_at, with_status};
ghost use Rattle.model.specs.Mutexes as mutexes;
ghost use Rattle.model.specs.Switching as switching;
ghost use Rattle.model.specs.Suspension as suspension;
ghost use Rattle.model.specs.Suspension.{can_resume};
ghost use Rattle.lists.specs.Lists.{first_of};
ghost use Rattle.sched.specs.Schedule.{IsCalm, priority_in, is_ready, is_outranked, is_sharing, is_steady, is_suspended, block, choose, hold, line_up_pending, lined_up, make_ready, pend_ready, preempt, resume, resume_all, set_priority, slice, suspend, suspend_all, to_back, unhold, wake, yield_now};
ghost use Rattle.sched.specs.StandsFor.{StandsFor, StandsBefore, DoesFree};

use crate::pending::PendingReadyList;
use crate::ready_lists::ReadyLists;
use lists::{ListId, are_same_bytes};
use model::TaskId;
use std::marker::Model;

/// The Ready tasks, the running task, and the priorities of all tasks: FreeRTOS's ready lists, one for each priority.
///
/// A task that is woken while the scheduler is held is Ready, but goes to its ready list only when the last hold ends;
/// until then it is pending.
///
/// Idle is no task here: it runs if no task is Ready, and is below every priority (profile).
#[derive(Drop)]
pub struct Sched {
    ready: ReadyLists,
    pending: PendingReadyList,
    current: Option<TaskId>,
    /// Of each task its priority now, and the one that the file gives it.
    priorities: [u8; 32],
    base_priorities: [u8; 32],
    /// How often it is held, and how many of these holds are those of tasks, by a `suspend_all` or a critical section.
    depth: u32,
    suspensions: u32,
    /// Of each task whether it is suspended.
    suspended: [bool; 32],
}

// Clauses see the Ready tasks in one list, each before those that it would run before.
impl Model for Sched {
    ghost use Rattle.sched.specs.Schedule.{Schedule};
    ghost use Rattle.sched.specs.ReadyLists.{schedule_of, IsSched};

    ghost Value = { Schedule };

    ghost view = { λ s. schedule_of s.ready s.pending s.current s.priorities s.base_priorities s.depth s.suspensions s.suspended };

    ghost invariant = { λ s. IsSched s.ready s.pending s.priorities s.base_priorities s.depth };
}

impl Sched {
    /// No task is Ready or suspended, idle runs, and the scheduler isn't held. Place `i` of `priorities` is the priority of task `i`, 0 to 31,
    /// and its base priority too; a larger number is a higher priority.
    pub fn new(priorities: [u8; 32]) -> Self
        requires { AllByRecursion (λ priority. priority < 32) priorities }
        ensures new { result ≡ record {
          ready = [];
          pending = [];
          current = None;
          priorities = priorities;
          base_priorities = priorities;
          depth = 0;
          suspensions = 0;
          suspended = replicate 32 false;
        } }
    {
        Sched {
            ready: ReadyLists::new(),
            pending: PendingReadyList::new(),
            current: None,
            priorities,
            base_priorities: priorities,
            depth: 0,
            suspensions: 0,
            suspended: [false; 32],
        }
    }

    /// A copy. It takes no memory.
    pub fn copy(&self) -> Self
        ensures { result ≡ self.now }
    {
        Sched {
            ready: self.ready.copy(),
            pending: self.pending.copy(),
            current: self.current,
            priorities: self.priorities,
            base_priorities: self.base_priorities,
            depth: self.depth,
            suspensions: self.suspensions,
            suspended: self.suspended,
        }
    }

    /// Becomes a copy of the other, in place. It takes no memory.
    // Saving, restoring and copying share its body.
    #[inline(never)]
    pub fn set_from(&mut self, other: &Self)
        ensures { self.new ≡ other.now }
    {
        self.ready.set_from(&other.ready);
        self.pending.set_from(&other.pending);
        self.current = other.current;
        self.priorities = other.priorities;
        self.base_priorities = other.base_priorities;
        self.depth = other.depth;
        self.suspensions = other.suspensions;
        self.suspended = other.suspended;
    }

    /// Whether the same task runs in the other, the same tasks are Ready, pending and suspended, in the same order and with the
    /// same priorities, and it is held as often, and by as many `suspend_all`.
    pub fn is_same(&self, other: &Self) -> bool
        ensures { result ≡ true → self.now ≡ other.now }
    {
        if self.current != other.current
            || self.depth != other.depth
            || self.suspensions != other.suspensions
            || self.suspended != other.suspended
            || !are_same_bytes(&self.priorities, &other.priorities)
            || !are_same_bytes(&self.base_priorities, &other.base_priorities)
        {
            return false;
        }
        self.ready.is_same(&other.ready) && self.pending.is_same(&other.pending)
    }

    /// The running task; `None` if idle runs.
    pub fn current(&self) -> Option<TaskId>
        ensures current { result ≡ self.now.current }
    {
        self.current
    }

    /// Whether any task is Ready.
    pub fn has_ready(&self) -> bool
        ensures ready { result ≡ is_some (first_of (lined_up self.now)) }
    {
        self.ready.has_any() || !self.pending.is_empty()
    }

    /// The priority of a task now, 0 to 31, which may be inherited.
    pub fn priority(&self, task: TaskId) -> u8
        ensures priority { result ≡ priority_in self.now.priorities task }
        ensures known { result < 32 }
    {
        self.priorities[task.number as usize]
    }

    /// The base priority of a task, 0 to 31: the one that the file gives it.
    pub fn base_priority(&self, task: TaskId) -> u8
        ensures base { result ≡ priority_in self.now.base_priorities task }
        ensures known { result < 32 }
    {
        self.base_priorities[task.number as usize]
    }

    /// Gives a task this priority, 0 to 31, while the scheduler isn't held. If that is a change, and the task is in a
    /// ready list, it moves after its new equals.
    pub fn set_priority(&mut self, task: TaskId, priority: u8)
        requires priority { priority < 32 }
        requires calm { self.old.depth ≡ 0 }
        ensures schedule { self.new ≡ set_priority task priority self.old }
        ensures stands { (s : State) → StandsFor self.old s → task < length s.tasks
            → StandsFor self.new (mutexes.set_priority task priority s) }
        ensures depth { self.new.depth ≡ self.old.depth }
        ensures suspensions { self.new.suspensions ≡ self.old.suspensions }
        ensures current { self.new.current ≡ self.old.current }
        ensures ready { (other : ℕ) → is_ready self.new other ≡ is_ready self.old other }
    {
        if self.priority(task) == priority {
            return;
        }
        self.priorities[task.number as usize] = priority;
        self.to_back(task);
    }

    /// Whether a task is Ready.
    pub fn is_ready(&self, task: TaskId) -> bool
        ensures ready { result ≡ is_ready self.now task }
    {
        self.ready.contains(task) || self.pending.contains(task)
    }

    /// How often the scheduler is held.
    pub fn depth(&self) -> u32
        ensures depth { result ≡ self.now.depth }
        ensures calm { IsCalm self.now }
    {
        self.depth
    }

    /// How many `suspend_all` are active and critical sections open. Each of them holds the scheduler once.
    #[inline(always)]
    pub fn suspensions(&self) -> u32
        ensures suspensions { result ≡ self.now.suspensions }
    {
        self.suspensions
    }

    /// A call holds the scheduler once more, less than 4294967295 times in all (`vTaskSuspendAll`). While it is held the
    /// caller lets nothing switch.
    pub fn hold(&mut self)
        requires { self.old.depth < 4294967295 }
        ensures schedule { self.new ≡ hold self.old }
        ensures calm { IsCalm self.old }
        // In the definitions a call holds it, if none did.
        ensures stands { (s : State) → StandsFor self.old s → s.call_hold ≡ false
            → StandsFor self.new (record s { call_hold = true }) }
    {
        self.depth += 1;
    }

    /// Takes back a call's hold, which there is, and with the last hold of all moves the pending tasks to their ready
    /// lists (`xTaskResumeAll`). It switches nothing by itself.
    #[inline(always)]
    pub fn unhold(&mut self)
        requires { 0 < self.old.depth }
        ensures schedule { self.new ≡ unhold self.old }
        ensures depth { self.new.depth ≡ self.old.depth - 1 }
        ensures current { self.new.current ≡ self.old.current }
        ensures stands { (s : State) → StandsFor self.old s → s.call_hold ≡ true
            → StandsFor self.new (record s { call_hold = false }) }
    {
        if self.depth == 1 {
            self.line_up_pending();
        }
        self.depth -= 1;
    }

    /// One more `suspend_all` is active, or one more critical section is open, and holds the scheduler once more
    /// (`vTaskSuspendAll`, `taskENTER_CRITICAL`). Either count is below 4294967295 before.
    #[inline(always)]
    pub fn suspend_all(&mut self)
        requires depth { self.old.depth < 4294967295 }
        requires few { self.old.suspensions < 4294967295 }
        ensures schedule { self.new ≡ suspend_all self.old }
        ensures stands { (s : State) → StandsFor self.old s
            → StandsFor self.new (record s { suspensions = s.suspensions + 1 }) }
        ensures section { (s : State) → StandsFor self.old s
            → StandsFor self.new (record s { sections = s.sections + 1 }) }
    {
        self.hold();
        self.suspensions += 1;
    }

    /// One `suspend_all` fewer is active, or one critical section fewer is open; there is one, and its hold ends as a call's
    /// does (`xTaskResumeAll`, `taskEXIT_CRITICAL`).
    #[inline(always)]
    pub fn resume_all(&mut self)
        requires held { 0 < self.old.depth }
        requires some { 0 < self.old.suspensions }
        ensures schedule { self.new ≡ resume_all self.old }
        ensures depth { self.new.depth ≡ self.old.depth - 1 }
        ensures suspensions { self.new.suspensions ≡ self.old.suspensions - 1 }
        ensures stands { (s : State) → StandsFor self.old s → 0 < s.suspensions
            → StandsFor self.new (record s { suspensions = s.suspensions - 1 }) }
        ensures section { (s : State) → StandsFor self.old s → 0 < s.sections
            → StandsFor self.new (record s { sections = s.sections - 1 }) }
    {
        self.unhold();
        self.suspensions -= 1;
    }

    /// Makes a task Ready that isn't (see `is_ready`), after the others of its priority, while the scheduler isn't
    /// held.
    pub fn make_ready(&mut self, task: TaskId)
        requires free { is_ready self.old task ≡ false }
        requires calm { self.old.depth ≡ 0 }
        ensures schedule { self.new ≡ make_ready task self.old }
        // In the definitions, if it isn't suspended, it takes the next ticket.
        ensures stands { (s : State) → StandsFor self.old s → task < length s.tasks
            → can_resume (status_at s task) ≡ false → StandsFor self.new (switching.make_ready task s) }
        ensures current { self.new.current ≡ self.old.current }
    {
        self.put_last(task);
    }

    /// Makes a task Ready that isn't, while the scheduler is held: it is the last of those that are pending.
    pub fn pend_ready(&mut self, task: TaskId)
        requires free { is_ready self.old task ≡ false }
        requires held { 0 < self.old.depth }
        ensures schedule { self.new ≡ pend_ready task self.old }
        ensures current { self.new.current ≡ self.old.current }
        // In the definitions, if it isn't suspended, it is Ready at once, with the next ticket.
        ensures stands { (s : State) → StandsFor self.old s → task < length s.tasks
            → can_resume (status_at s task) ≡ false → StandsFor self.new (switching.make_ready task s) }
        // Another that is still to be placed stays so.
        ensures placing { (s : State) (decider : ℕ) → StandsBefore decider self.old s → decider ≢ task
            → task < length s.tasks → can_resume (status_at s task) ≡ false
            → StandsBefore decider self.new (switching.make_ready task s) }
    {
        self.pending.push_back(task);
    }

    /// Makes a task Ready that isn't: after the others of its priority, or pending if the scheduler is held.
    pub fn wake(&mut self, task: TaskId)
        requires free { is_ready self.old task ≡ false }
        ensures schedule { self.new ≡ wake task self.old }
        ensures current { self.new.current ≡ self.old.current }
        ensures stands { (s : State) → StandsFor self.old s → task < length s.tasks
            → can_resume (status_at s task) ≡ false → StandsFor self.new (switching.make_ready task s) }
        ensures placing { (s : State) (decider : ℕ) → StandsBefore decider self.old s → decider ≢ task
            → task < length s.tasks → can_resume (status_at s task) ≡ false
            → StandsBefore decider self.new (switching.make_ready task s) }
    {
        if self.depth == 0 {
            self.make_ready(task);
        } else {
            self.pend_ready(task);
        }
    }

    /// Takes a task from the Ready tasks. It stays the running one, if it is, until the next choice.
    pub fn block(&mut self, task: TaskId)
        ensures schedule { self.new ≡ block task self.old }
        // A task that waits already is then as the definitions have it.
        ensures placed { (s : State) → StandsBefore task self.old s → StandsFor self.new s }
    {
        self.ready.remove(task);
        self.pending.remove(task);
    }

    /// Suspends a task: it leaves the Ready tasks, if it is one, and is Ready again only when it is resumed (`vTaskSuspend`). It
    /// stays the running one, if it is, until the next choice. One that is suspended already stays so.
    pub fn suspend(&mut self, task: TaskId)
        ensures schedule { self.new ≡ suspend task self.old }
        ensures current { self.new.current ≡ self.old.current }
        ensures stands { (s : State) → StandsFor self.old s → task < length s.tasks
            → StandsFor self.new (with_status task Suspended s) }
    {
        self.suspended[task.number as usize] = true;
        self.block(task);
    }

    /// Whether a task is suspended.
    pub fn is_suspended(&self, task: TaskId) -> bool
        ensures suspended { result ≡ is_suspended self.now task }
    {
        self.suspended[task.number as usize]
    }

    /// Whether any task is suspended.
    pub fn has_suspended(&self) -> bool
        ensures stands { (s : State) → StandsFor self.now s
            → result ≡ list_any (λ (t : Task). can_resume t.status) s.tasks }
    {
        for number in 0..32 {
            if self.is_suspended(TaskId { number }) {
                return true;
            }
        }
        false
    }

    /// Ends a task's suspension, however often it was suspended, and returns whether it was: then it is Ready, as `wake`
    /// makes it (`vTaskResume`, `xTaskResumeFromISR`). One that isn't suspended is left as it is.
    pub fn resume(&mut self, task: TaskId) -> bool
        // As in each schedule that represents some state.
        requires free { is_suspended self.old task ≡ true → is_ready self.old task ≡ false }
        ensures answer { result ≡ is_suspended self.old task }
        ensures schedule { self.new ≡ resume task self.old }
        ensures current { self.new.current ≡ self.old.current }
        ensures stands { (s : State) → StandsFor self.old s → task < length s.tasks
            → StandsFor self.new (suspension.resume task s) }
        // Another that is still to be placed stays so.
        ensures placing { (s : State) (decider : ℕ) → StandsBefore decider self.old s → decider ≢ task
            → task < length s.tasks → StandsBefore decider self.new (suspension.resume task s) }
    {
        if !self.suspended[task.number as usize] {
            return false;
        }
        self.suspended[task.number as usize] = false;
        self.wake(task);
        true
    }

    /// Lets the choice run: of the tasks in the ready lists the one of highest priority, and of these the first; otherwise idle.
    pub fn choose(&mut self) -> Option<TaskId>
        ensures schedule { self.new ≡ choose self.old }
        ensures stands { DoesFree self.old self.new switching.choose }
        ensures current { result ≡ self.new.current }
    {
        self.current = self.ready.first();
        self.current
    }

    /// Moves the running task after the others of its priority, if it is in a ready list, and lets the choice
    /// run (`taskYIELD`).
    #[inline(never)]
    pub fn yield_now(&mut self)
        ensures schedule { self.new ≡ yield_now self.old }
        ensures stands { DoesFree self.old self.new switching.yield_now }
    {
        if let Some(running) = self.current {
            self.to_back(running);
        }
        self.choose();
    }

    /// Yields if a task in a ready list has a higher priority than the running one, or if idle runs and a
    /// ready list has a task. Returns whether it did. One of equal priority changes nothing (profile).
    #[inline(always)]
    pub fn preempt(&mut self) -> bool
        ensures outranked { result ≡ is_outranked self.old }
        ensures schedule { self.new ≡ preempt self.old }
        ensures stands { DoesFree self.old self.new switching.preempt }
    {
        let outranked = self.is_outranked();
        if outranked {
            self.yield_now();
        }
        outranked
    }

    /// As `preempt`, but also yields if another task in a ready list has the running one's priority: its turn
    /// has come, at the end of a tick (`configUSE_TIME_SLICING`). Returns whether it did.
    #[inline(always)]
    pub fn slice(&mut self) -> bool
        ensures ended { result ≡ (is_outranked self.old || is_sharing self.old) }
        ensures schedule { self.new ≡ slice self.old }
        ensures stands { DoesFree self.old self.new switching.slice }
    {
        if let Some(task) = self.current {
            let list = self.list_of(task);
            // Usually the running task is the first of the highest list, whose second then runs.
            if self.ready.is_highest(list) && self.ready.is_first(list, task) {
                if let Some(next) = self.ready.rotate(list) {
                    self.current = Some(next);
                    return true;
                }
                return false;
            }
        }
        let ended = self.is_outranked() || self.is_sharing();
        if ended {
            self.yield_now();
        }
        ended
    }

    /// Whether the end of a tick switches nothing, as `slice` then would: no task in a ready list is above the running one, or
    /// another of its priority.
    pub fn is_steady(&self) -> bool
        ensures steady { result ≡ is_steady self.now }
        ensures calm { IsCalm self.now }
    {
        !self.is_outranked() && !self.is_sharing()
    }

    /// Puts a task that isn't Ready last into its ready list.
    #[inline(always)]
    fn put_last(&mut self, task: TaskId)
        requires free { is_ready self.old task ≡ false }
        ensures schedule { self.new ≡ make_ready task self.old }
        ensures calm { IsCalm self.old }
    {
        let list = self.list_of(task);
        self.ready.push_back(list, task);
    }

    /// Moves the pending tasks to their ready lists, in the order in which they were woken.
    fn line_up_pending(&mut self)
        ensures schedule { self.new ≡ line_up_pending self.old }
    {
        while let Some(task) = self.take_pending() {
            self.put_last(task);
        }
    }

    /// Takes the first of the pending tasks, if there is one: it isn't Ready any more.
    #[inline]
    fn take_pending(&mut self) -> Option<TaskId>
        ensures first { result ≡ slice_get self.old.pending 0 }
        ensures rest { self.new ≡ record self.old { pending = drop 1 self.old.pending } }
        ensures free { IfSome result (λ task. is_ready self.new task ≡ false) }
    {
        self.pending.pop_front()
    }

    /// Moves a task after the others of its priority, if it is in a ready list (profile: FreeRTOS moves its list's index
    /// instead).
    fn to_back(&mut self, task: TaskId)
        ensures schedule { self.new ≡ to_back task self.old }
    {
        let list = self.list_of(task);
        if self.ready.is_first(list, task) {
            self.ready.rotate(list);
        } else if self.ready.contains(task) {
            self.ready.remove(task);
            self.ready.push_back(list, task);
        }
    }

    /// Whether a task in a ready list is above the running one.
    fn is_outranked(&self) -> bool
        ensures outranked { result ≡ is_outranked self.now }
        ensures calm { IsCalm self.now }
    {
        match self.current {
            None => self.ready.highest().is_some(),
            Some(task) => self.ready.has_above(self.list_of(task)),
        }
    }

    /// Whether another task in a ready list has the running one's priority.
    fn is_sharing(&self) -> bool
        ensures sharing { result ≡ is_sharing self.now }
    {
        match self.current {
            None => false,
            Some(task) => self.ready.has_other(self.list_of(task), task),
        }
    }

    /// The list of a task's priority.
    fn list_of(&self, task: TaskId) -> ListId
        ensures list { result.number ≡ priority_in self.now.priorities task }
        ensures known { result.number < 32 }
    {
        ListId {
            number: self.priority(task) as u16,
        }
    }
}
