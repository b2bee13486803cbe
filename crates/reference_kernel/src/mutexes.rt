//! Mutexes: their holders, and the priorities that holders inherit.

use super::calls::Side;
use super::shared::Object;
use super::{Call, ReferenceKernel, Task, count_if};
use model::{App, TaskId};

impl Object {
    /// The holder; `None` if the mutex is free or the object isn't a mutex.
    fn holder(&self) -> Option<TaskId> {
        match self {
            Object::Mutex(holder) => *holder,
            Object::Queue(_) | Object::Semaphore(_) => None,
        }
    }
}

impl ReferenceKernel {
    pub(super) fn holder_of(&self, object: u8) -> Option<TaskId> {
        self.objects.get(object as usize)?.holder()
    }

    fn mutexes_held(&self, task: TaskId) -> usize {
        self.objects
            .iter()
            .filter(|object| object.holder() == Some(task))
            .count()
    }

    /// Sets the task's priority. If that is a change, a Ready task moves after its new equals.
    fn set_priority(&mut self, id: TaskId, priority: u8) {
        let task = self.task(id);
        if task.priority != priority {
            self.set(id, Task { priority, ..task });
            self.to_back(id);
        }
    }

    /// The task is about to wait for an object. If that is a mutex and its holder has a lower priority, the holder gets the task's
    /// priority. The raise isn't propagated further.
    pub(super) fn raise_holder(&mut self, id: TaskId, object: u8) {
        let Some(holder) = self.holder_of(object) else {
            return;
        };
        let waiter = self.task(id);
        let old = self.task(holder);
        let has_inherited = holder != id && old.base_priority < waiter.priority;
        let call = waiter.call;
        self.set_call(
            id,
            Call {
                has_inherited,
                ..call
            },
        );
        if old.priority < waiter.priority {
            self.set_priority(holder, waiter.priority);
            count_if(&mut self.tally.raises, true);
        }
    }

    /// The priority of the best waiter for a mutex, as it was when its wait began; 0 if no task waits.
    fn best_priority(&self, mutex: u8) -> u8 {
        let Some(best) = self.best_of(mutex, Side::Receivers, false) else {
            return 0;
        };
        self.wait_of(best, false).map_or(0, |wait| wait.priority)
    }

    /// The task's call fails. If it was for a mutex and its last wait inherited, the holder's priority may fall. It falls if the
    /// holder holds no other mutex: to its base priority, or to that of the best remaining waiter if that is higher.
    pub(super) fn let_holder_fall(&mut self, id: TaskId, object: u8) {
        let Some(holder) = self.holder_of(object) else {
            return;
        };
        if !self.task(id).call.has_inherited || self.mutexes_held(holder) != 1 {
            return;
        }
        let old = self.task(holder);
        let priority = old.base_priority.max(self.best_priority(object));
        self.set_priority(holder, priority);
        let falls = priority < old.priority;
        let falls_partly = falls && priority > old.base_priority;
        count_if(&mut self.tally.falls, falls);
        count_if(&mut self.tally.partial_falls, falls_partly);
    }

    /// `unlock`: the task gives back a mutex that it holds. When it gives back its last one, it returns to its base priority.
    pub(super) fn give_back(&mut self, app: &App, id: TaskId, mutex: u8) {
        if let Some(object) = self.objects.get_mut(mutex as usize) {
            *object = Object::Mutex(None);
        }
        let task = self.task(id);
        if self.mutexes_held(id) == 0 {
            self.set_priority(id, task.base_priority);
        } else {
            let is_raised = task.priority > task.base_priority;
            count_if(&mut self.tally.kept_raises, is_raised);
        }
        self.wake_best(mutex, Side::Receivers);
        self.answer(app, id, Some(1));
        self.preempt();
    }
}
