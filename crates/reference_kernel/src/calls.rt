//! Calls on objects: which tasks wait, which are woken, and the phases of a call that waits.

use super::{Call, ReferenceKernel, Status, Task, Wait, count_if};
use model::{Access, App, Phase, TaskId, Value};

/// What a task waits for at an object: an item, a count or a mutex; or room.
#[derive(Clone, Copy, PartialEq, Eq)]
pub(super) enum Side {
    Receivers,
    Senders,
}

/// The value that a call puts into a queue, if any.
pub(super) fn item_of(access: Access<Value>) -> Option<Value> {
    match access {
        Access::Send(item) | Access::SendFront(item) | Access::Overwrite(item) => Some(item),
        Access::Receive | Access::Peek | Access::Take | Access::Give | Access::Lock => None,
    }
}

/// What a failed call returns.
fn failure(access: Access<u32>) -> Option<u32> {
    match access {
        Access::Receive | Access::Peek => None,
        Access::Send(_)
        | Access::SendFront(_)
        | Access::Overwrite(_)
        | Access::Take
        | Access::Give
        | Access::Lock => Some(0),
    }
}

/// The side at which a call waits.
fn own_side(access: Access<u32>) -> Side {
    match access {
        Access::Send(_) | Access::SendFront(_) | Access::Overwrite(_) => Side::Senders,
        Access::Receive | Access::Peek | Access::Take | Access::Give | Access::Lock => {
            Side::Receivers
        }
    }
}

/// The side at which a call wakes a waiting task, if it wakes one. `caller` is `None` for a handler. A task's peek leaves the item
/// to the next waiter. A handler's peek wakes nobody.
fn woken_side(caller: Option<TaskId>, access: Access<u32>) -> Option<Side> {
    match access {
        Access::Send(_) | Access::SendFront(_) | Access::Overwrite(_) | Access::Give => {
            Some(Side::Receivers)
        }
        Access::Receive => Some(Side::Senders),
        Access::Peek if caller.is_some() => Some(Side::Receivers),
        Access::Peek | Access::Take | Access::Lock => None,
    }
}

impl ReferenceKernel {
    /// The wait that a task is in, or from which it was woken and is now Awake.
    pub(super) fn wait_of(&self, task: TaskId, is_awake: bool) -> Option<Wait> {
        match self.task(task).status {
            Status::Waiting(wait) if !is_awake => Some(wait),
            Status::Awake(wait) if is_awake => Some(wait),
            _ => None,
        }
    }

    /// The best waiter at this side of an object, or the best task that is Awake from such a wait. That is the task with the
    /// highest priority when its wait began. Among equals it is the first that came.
    pub(super) fn best_of(&self, object: u8, side: Side, is_awake: bool) -> Option<TaskId> {
        let mut best = None;
        for number in 0..32 {
            let Some(wait) = self.wait_of(TaskId { number }, is_awake) else {
                continue;
            };
            if (wait.object, wait.side) != (object, side) {
                continue;
            }
            let key = (wait.priority, wait.ticket);
            if best.is_none_or(|(_, other)| Self::is_before(key, other)) {
                best = Some((number, key));
            }
        }
        let (number, _) = best?;
        TaskId::new(number)
    }

    /// Whether some tasks wait for an item of the locked object, and others for room.
    pub fn has_both_at_lock(&self) -> bool {
        self.locked.is_some_and(|object| {
            self.best_of(object, Side::Receivers, false).is_some()
                && self.best_of(object, Side::Senders, false).is_some()
        })
    }

    /// Wakes the best waiter at this side of an object, if there is one. It becomes Ready, or Awake if the object is locked.
    pub(super) fn wake_best(&mut self, object: u8, side: Side) {
        let Some(id) = self.best_of(object, side, false) else {
            return;
        };
        count_if(&mut self.tally.wakes, true);
        if self.locked == Some(object) {
            self.awaken(id);
        } else {
            self.make_ready(id);
        }
    }

    fn awaken(&mut self, id: TaskId) {
        let task = self.task(id);
        let Status::Waiting(wait) = task.status else {
            return;
        };
        let status = Status::Awake(wait);
        self.set(id, Task { status, ..task });
        let is_own = self.current == Some(id);
        let count = if is_own {
            &mut self.tally.own_awakenings
        } else {
            &mut self.tally.other_awakenings
        };
        count_if(count, true);
    }

    /// Carries out a possible call, and wakes at most one task. `caller` is `None` for a handler. Returns what the call returns.
    pub(super) fn fulfil(
        &mut self,
        caller: Option<TaskId>,
        object: u8,
        access: Access<u32>,
    ) -> Option<u32> {
        let done = self.objects.get_mut(object as usize)?.act(caller, access);
        if let Some(side) = woken_side(caller, access) {
            self.wake_best(object, side);
        }
        match done {
            Ok(answer) => answer,
            Err(_) => {
                self.is_out_of_memory = true;
                None
            }
        }
    }

    /// Tries a call once. `caller` is `None` for a handler. Returns what the call returns.
    pub(super) fn attempt(
        &mut self,
        caller: Option<TaskId>,
        object: u8,
        access: Access<u32>,
    ) -> Option<u32> {
        if self.is_possible(object, access) {
            self.fulfil(caller, object, access)
        } else {
            failure(access)
        }
    }

    /// A call that doesn't wait.
    pub(super) fn act_at_once(&mut self, app: &App, id: TaskId, object: u8, access: Access<u32>) {
        let answer = self.attempt(Some(id), object, access);
        self.answer(app, id, answer);
        self.preempt();
    }

    pub(super) fn set_call(&mut self, id: TaskId, call: Call) {
        self.set(
            id,
            Task {
                call,
                ..self.task(id)
            },
        );
    }

    pub(super) fn set_phase(&mut self, id: TaskId, phase: Phase) {
        let call = self.task(id).call;
        self.set_call(id, Call { phase, ..call });
    }

    fn is_expired(&self, id: TaskId) -> bool {
        let deadline = self.task(id).call.deadline;
        deadline.is_some_and(|deadline| deadline <= self.time)
    }

    /// The deadline of a call that starts now and waits for this many ticks; `None` if it waits forever.
    pub(super) fn deadline_after(&self, ticks: Option<u32>) -> Option<u64> {
        match ticks {
            None => None,
            Some(ticks) => Some(self.time.wrapping_add(ticks as u64)),
        }
    }

    fn start(&mut self, id: TaskId, ticks: Option<u32>) {
        let deadline = self.deadline_after(ticks);
        let call = self.task(id).call;
        self.set_call(id, Call { deadline, ..call });
    }

    fn try_again(&mut self, app: &App, id: TaskId, object: u8, access: Access<u32>) {
        if self.is_possible(object, access) {
            self.act_at_once(app, id, object, access);
        } else if self.is_expired(id) {
            self.let_holder_fall(id, object);
            self.answer(app, id, failure(access));
        } else {
            self.set_phase(id, Phase::Decide);
        }
    }

    fn decide(&mut self, id: TaskId, object: u8, access: Access<u32>) {
        self.is_held = true;
        self.locked = Some(object);
        if self.is_possible(object, access) || self.is_expired(id) {
            self.set_phase(id, Phase::Unlock);
        } else {
            self.raise_holder(id, object);
            self.wait(id, object, own_side(access));
            self.set_phase(id, Phase::Place);
        }
    }

    fn wait(&mut self, id: TaskId, object: u8, side: Side) {
        let task = self.task(id);
        let wait = Wait {
            object,
            side,
            priority: task.priority,
            deadline: task.call.deadline,
            ticket: self.take_ticket(),
        };
        let call = Call {
            has_waited: true,
            ..task.call
        };
        let status = Status::Waiting(wait);
        self.set(
            id,
            Task {
                call,
                status,
                ..task
            },
        );
    }

    /// Makes all tasks Ready that are Awake at this side of an object. Returns whether there are any.
    fn make_awake_ready(&mut self, object: u8, side: Side) -> bool {
        let mut is_any = false;
        for _ in 0..32 {
            let Some(task) = self.best_of(object, side, true) else {
                break;
            };
            self.make_ready(task);
            is_any = true;
        }
        is_any
    }

    /// Unlocks the locked object, and makes its Awake tasks Ready: first those that didn't wait for room.
    fn unlock(&mut self, id: TaskId) {
        if let Some(object) = self.locked {
            self.locked = None;
            let has_receivers = self.make_awake_ready(object, Side::Receivers);
            let has_senders = self.make_awake_ready(object, Side::Senders);
            count_if(&mut self.tally.mixed_unlocks, has_receivers && has_senders);
        }
        self.set_phase(id, Phase::Leave);
    }

    fn leave(&mut self, id: TaskId) {
        let call = self.task(id).call;
        self.end_hold();
        self.set_call(
            id,
            Call {
                phase: Phase::Try,
                has_waited: false,
                ..call
            },
        );
        if call.has_waited {
            self.choose();
        } else {
            self.preempt();
        }
    }

    /// A call that may wait does its next phase.
    pub(super) fn go_on_waiting(
        &mut self,
        app: &App,
        id: TaskId,
        object: u8,
        access: Access<u32>,
        ticks: Option<u32>,
    ) {
        match self.task(id).call.phase {
            Phase::Start => {
                self.start(id, ticks);
                self.try_again(app, id, object, access);
            }
            Phase::Try => self.try_again(app, id, object, access),
            Phase::Decide => self.decide(id, object, access),
            Phase::Place => self.set_phase(id, Phase::Unlock),
            Phase::Unlock => self.unlock(id),
            Phase::Leave => self.leave(id),
        }
    }
}
