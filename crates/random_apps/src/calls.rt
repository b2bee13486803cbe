//! Calls of tasks on objects.
ghost use Rattle.std.specs.Prelude.{◌≡◌, true, Some, IfSome};
ghost use Rattle.std.specs.List.{slice_get};
ghost use Rattle.model.specs.declared.object.ObjectKind.TheVariants as of_kind;
ghost use Rattle.model.specs.Scripts.{InRange, fits, is_wait, may_interrupt, may_wait};
ghost use Rattle.random_apps.specs.Known.{IsKnown};

use super::{Dice, Role, Theme};
use model::{Access, ObjectId, ObjectKind, Op, Value};

impl Dice {
    /// A call on a queue of this length that may wait, and that a handler may make too.
    pub(super) fn queue_access(&mut self, length: u16) -> Access<Value>
        ensures fits { fits (of_kind.Queue length) result ≡ true }
        ensures waits { may_wait result ≡ true }
        ensures interrupts { may_interrupt result ≡ true }
    {
        let _ = length;
        let face = match self.role {
            Role::Any => self.roll(7),
            Role::Sends => self.roll(3),
            Role::Receives => 3 + self.roll(3),
        };
        match face {
            0..=1 => Access::Send(self.value(9)),
            2 => Access::SendFront(self.value(9)),
            3..=4 => Access::Receive,
            _ => Access::Peek,
        }
    }

    /// A call on this queue, which has this length.
    fn queue_call(&mut self, objects: &[ObjectKind], queue: ObjectId, length: u16) -> Op
        requires { slice_get objects.now queue ≡ Some (of_kind.Queue length) }
        ensures range { InRange result }
        ensures known { IsKnown objects.now result }
    {
        let _ = objects;
        let first = if self.theme == Theme::Crowd { 2 } else { 0 };
        match first + self.roll(9 - first) {
            0 => Op::MessagesWaiting(queue),
            1 => Op::SpacesAvailable(queue),
            2 if length == 1 => Op::Do(queue, Access::Overwrite(self.value(9))),
            _ => Op::Await(queue, self.queue_access(length), self.wait()),
        }
    }

    /// Whether the next call on a semaphore gives it.
    fn gives(&mut self) -> bool {
        match self.role {
            Role::Any => self.roll(3) == 0,
            Role::Sends => true,
            Role::Receives => false,
        }
    }

    /// Whether the next call on this mutex gives it back: usually if the script has locked it and not given it back yet.
    fn gives_back(&mut self, mutex: ObjectId) -> bool {
        let is_held = self.held.get(mutex.number as usize).copied();
        let is_slip = self.roll(24) == 0;
        is_held == Some(!is_slip)
    }

    fn set_held(&mut self, mutex: ObjectId, is_held: bool) {
        if let Some(cell) = self.held.get_mut(mutex.number as usize) {
            *cell = is_held;
        }
    }

    /// How long the next call for this mutex waits. A short wait may time out, so usually nothing is given back after it.
    fn wait_for(&mut self, mutex: ObjectId) -> Option<u32>
        ensures { is_wait result ≡ true }
    {
        let ticks = self.wait();
        let is_short = ticks.is_some_and(|ticks| ticks < 8);
        let is_held = !is_short || self.roll(3) == 0;
        self.set_held(mutex, is_held);
        ticks
    }

    /// A call on this object.
    fn call_on(&mut self, objects: &[ObjectKind], object: ObjectId, kind: ObjectKind) -> Op
        requires { slice_get objects.now object ≡ Some kind }
        ensures range { InRange result }
        ensures known { IsKnown objects.now result }
    {
        match kind {
            ObjectKind::Queue(length) => self.queue_call(objects, object, length),
            ObjectKind::Semaphore(_, _) => {
                if self.gives() {
                    Op::Do(object, Access::Give)
                } else {
                    Op::Await(object, Access::Take, self.wait())
                }
            }
            ObjectKind::Mutex => {
                if self.gives_back(object) {
                    self.set_held(object, false);
                    Op::GiveMutex(object)
                } else {
                    Op::Await(object, Access::Lock, self.wait_for(object))
                }
            }
        }
    }

    /// The number of an object of the file, if there is one.
    pub(super) fn object_number(&mut self) -> Option<ObjectId> {
        let number = (self.roll(4) as u8).checked_rem(self.file_objects)?;
        ObjectId::new(number)
    }

    /// A call on some object, if there is one.
    pub(super) fn call(&mut self, objects: &[ObjectKind]) -> Option<Op>
        ensures range { IfSome result (λ op. InRange op) }
        ensures known { IfSome result (λ op. IsKnown objects.now op) }
    {
        let object = self.object_number()?;
        let kind = objects.get(object.number as usize).copied()?;
        Some(self.call_on(objects, object, kind))
    }
}
