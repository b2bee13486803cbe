//! The objects that tasks share, and what a call does to one.

use super::ReferenceKernel;
use model::{Access, App, ObjectKind, TaskId};
use std::alloc::{AllocError, Global};
use std::collections::VecDeque;

/// An object as it is now.
#[derive(Drop)]
pub(super) enum Object {
    Queue(Queue),
    Semaphore(Semaphore),
    /// A mutex, with its holder.
    Mutex(Option<TaskId>),
}

#[derive(Drop)]
pub(super) struct Queue {
    length: usize,
    items: VecDeque<u32>,
}

#[derive(Clone, Copy)]
pub(super) struct Semaphore {
    max_count: u16,
    count: u16,
}

impl Queue {
    fn is_possible(&self, access: Access<u32>) -> bool {
        match access {
            Access::Send(_) | Access::SendFront(_) => self.items.len() < self.length,
            Access::Overwrite(_) => true,
            Access::Receive | Access::Peek => !self.items.is_empty(),
            Access::Take | Access::Give | Access::Lock => false,
        }
    }

    fn act(&mut self, access: Access<u32>) -> Result<Option<u32>, AllocError> {
        match access {
            Access::Receive => return Ok(self.items.pop_front()),
            Access::Peek => return Ok(self.items.front().copied()),
            Access::Send(item) => self.items.push_back(item)?,
            Access::SendFront(item) => self.items.push_front(item)?,
            Access::Overwrite(item) => {
                self.items.clear();
                self.items.push_back(item)?;
            }
            Access::Take | Access::Give | Access::Lock => {}
        }
        Ok(Some(1))
    }
}

impl Semaphore {
    fn is_possible(&self, access: Access<u32>) -> bool {
        match access {
            Access::Take => self.count > 0,
            Access::Give => self.count < self.max_count,
            _ => false,
        }
    }

    fn act(&mut self, access: Access<u32>) {
        self.count = match access {
            Access::Take => self.count.wrapping_sub(1),
            Access::Give => self.count.wrapping_add(1),
            _ => self.count,
        };
    }
}

impl Object {
    fn new(alloc: Global, kind: ObjectKind) -> Self {
        match kind {
            ObjectKind::Queue(length) => Object::Queue(Queue {
                length: length as usize,
                items: VecDeque::new(alloc),
            }),
            ObjectKind::Semaphore(max_count, initial_count) => Object::Semaphore(Semaphore {
                max_count,
                count: initial_count,
            }),
            ObjectKind::Mutex => Object::Mutex(None),
        }
    }

    pub(super) fn is_possible(&self, access: Access<u32>) -> bool {
        match self {
            Object::Queue(queue) => queue.is_possible(access),
            Object::Semaphore(semaphore) => semaphore.is_possible(access),
            Object::Mutex(holder) => holder.is_none(),
        }
    }

    /// Carries out a possible call. `caller` is `None` for a handler. Returns what the call returns.
    pub(super) fn act(
        &mut self,
        caller: Option<TaskId>,
        access: Access<u32>,
    ) -> Result<Option<u32>, AllocError> {
        match self {
            Object::Queue(queue) => queue.act(access),
            Object::Semaphore(semaphore) => {
                semaphore.act(access);
                Ok(Some(1))
            }
            Object::Mutex(holder) => {
                *holder = caller;
                Ok(Some(1))
            }
        }
    }
}

/// A number of items as the result of a call.
fn number_of(items: usize) -> u32 {
    u32::try_from(items).unwrap_or(u32::MAX)
}

impl ReferenceKernel {
    pub(super) fn make_objects(&mut self, alloc: Global, app: &App) {
        for kind in app.objects() {
            let object = Object::new(alloc, *kind);
            self.is_out_of_memory |= self.objects.push(object).is_err();
        }
    }

    /// The number of items in a queue, and the room that is left.
    pub(super) fn fill(&self, object: u8) -> (u32, u32) {
        let Some(Object::Queue(queue)) = self.objects.get(object as usize) else {
            return (0, 0);
        };
        let items = queue.items.len();
        let room = queue.length.saturating_sub(items);
        (number_of(items), number_of(room))
    }

    pub(super) fn is_possible(&self, object: u8, access: Access<u32>) -> bool {
        self.objects
            .get(object as usize)
            .is_some_and(|object| object.is_possible(access))
    }
}
