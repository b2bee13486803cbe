//! Which task runs: the Ready tasks, the choice among them, and when the choice is made.

use super::{ReferenceKernel, Status, Task, count_if};
use model::{App, TaskId, What};

impl ReferenceKernel {
    /// All tasks of the application become Ready, in the order of the file.
    pub(super) fn make_all_ready(&mut self, app: &App) {
        for number in 0..32 {
            let task = TaskId { number };
            if let Some(definition) = app.tasks().get(number as usize) {
                self.tasks[number as usize].base_priority = definition.priority();
                self.tasks[number as usize].priority = definition.priority();
            }
            if app.op_count(task) > 0 {
                self.make_ready(task);
            }
        }
    }

    /// The task becomes Ready, after all others of its priority.
    pub(super) fn make_ready(&mut self, task: TaskId) {
        let is_suspended = self.is_scheduler_suspended();
        count_if(&mut self.tally.held_wakes, is_suspended);
        let status = Status::Ready(self.take_ticket());
        self.set(
            task,
            Task {
                status,
                ..self.task(task)
            },
        );
    }

    pub(super) fn is_ready(&self, task: TaskId) -> bool {
        matches!(self.task(task).status, Status::Ready(_))
    }

    /// Whether one of two Ready tasks, by priority and ticket, comes before the other.
    pub(super) fn is_before(one: (u8, u64), other: (u8, u64)) -> bool {
        one.0 > other.0 || (one.0 == other.0 && one.1 < other.1)
    }

    /// The first of the Ready tasks of the highest priority, or idle.
    pub(super) fn choice(&self) -> Option<TaskId> {
        let mut best = None;
        for number in 0..32 {
            let task = self.task(TaskId { number });
            let Status::Ready(ticket) = task.status else {
                continue;
            };
            let key = (task.priority, ticket);
            if best.is_none_or(|(_, other)| Self::is_before(key, other)) {
                best = Some((number, key));
            }
        }
        let (number, _) = best?;
        TaskId::new(number)
    }

    /// Whether anything may switch: neither a call nor a task holds the scheduler, and no critical section is open.
    pub(super) fn may_switch(&self) -> bool {
        !self.is_held && !self.is_scheduler_suspended() && !self.is_critical()
    }

    /// The choice runs.
    pub(super) fn choose(&mut self) {
        let choice = self.choice();
        if choice != self.current {
            self.current = choice;
            self.write(What::Run(choice));
        }
    }

    /// Whether a Ready task other than the running one has at least this priority.
    fn is_any_ready_from(&self, priority: u8) -> bool {
        for number in 0..32 {
            let other = TaskId { number };
            if self.is_ready(other)
                && Some(other) != self.current
                && self.task(other).priority >= priority
            {
                return true;
            }
        }
        false
    }

    /// The priority of the running task, counted from 1. Idle is below all tasks.
    fn rank(&self) -> u8 {
        match self.current {
            None => 0,
            Some(task) => self.task(task).priority.saturating_add(1),
        }
    }

    /// Moves the task after the others of its priority, if it is Ready.
    pub(super) fn to_back(&mut self, id: TaskId) {
        if self.is_ready(id) {
            self.make_ready(id);
        }
    }

    /// Moves the running task after the others of its priority, and the choice runs.
    pub(super) fn yield_now(&mut self) {
        if let Some(task) = self.current {
            self.to_back(task);
        }
        self.choose();
    }

    /// A task of higher priority runs, if there is one.
    pub(super) fn preempt(&mut self) {
        if self.is_any_ready_from(self.rank()) {
            self.yield_now();
        }
    }

    /// The end of a tick: equals take turns too.
    pub(super) fn slice(&mut self) {
        if self.is_any_ready_from(self.rank().saturating_sub(1)) {
            self.yield_now();
        }
    }
}
