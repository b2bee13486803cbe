//! Notifications: ops that notify tasks, wait for a notification, and clear one.
ghost use Rattle.model.specs.Scripts.{InRange};
ghost use Rattle.random_apps.specs.Known.{IsKnown, IsKnownIsr};

use super::{Dice, Role, Theme};
use model::{
    IsrOp, NotificationClear, NotificationMasks, NotificationWait, NotifyAction, ObjectKind, Op,
    Value,
};

impl Dice {
    /// Some of three bits, or none, so that masks and values often overlap.
    fn notification_bits(&mut self) -> u32 {
        self.roll(8)
    }

    /// The value that a notify sends: a number of three bits, or sometimes the last answer.
    fn notified_value(&mut self) -> Value {
        if self.theme == Theme::Signal && self.has_answer && self.roll(4) == 0 {
            return Value::Answer;
        }
        Value::Number(self.notification_bits())
    }

    /// What a notify does to the value: often it increments it.
    fn action(&mut self) -> NotifyAction<Value> {
        match self.roll(12) {
            0..=4 => NotifyAction::Increment,
            5 => NotifyAction::Nothing,
            6..=7 => NotifyAction::SetBits(self.notified_value()),
            8..=9 => NotifyAction::Overwrite(self.notified_value()),
            _ => NotifyAction::Keep(self.notified_value()),
        }
    }

    /// The masks of a wait: some of three bits each, or sometimes all bits at its end.
    fn masks(&mut self) -> NotificationMasks {
        let entry = self.notification_bits();
        let exit = if self.roll(4) == 0 {
            u32::MAX
        } else {
            self.notification_bits()
        };
        NotificationMasks { entry, exit }
    }

    /// What a task waits for: half of the time a count, otherwise any notification.
    fn notification_wait(&mut self) -> NotificationWait {
        match self.roll(4) {
            0 => NotificationWait::Take(true),
            1 => NotificationWait::Take(false),
            _ => NotificationWait::Wait(self.masks()),
        }
    }

    /// An op that clears something of the task's own notification.
    pub(super) fn notification_clear(&mut self, objects: &[ObjectKind]) -> Op
        ensures range { InRange result }
        ensures known { IsKnown objects.now result }
    {
        let _ = objects;
        if self.roll(2) == 0 {
            return Op::ClearNotification(NotificationClear::Pending);
        }
        Op::ClearNotification(NotificationClear::Bits(self.notification_bits()))
    }

    /// An op that notifies some task, perhaps the caller itself.
    #[tactic(auto, using(crate::proofs::Known::knows_task))]
    fn notify(&mut self, objects: &[ObjectKind]) -> Op
        ensures range { InRange result }
        ensures known { IsKnown objects.now result }
    {
        let _ = objects;
        Op::Notify(self.some_task(), self.action())
    }

    /// An op on notifications: it notifies a task, clears something or waits.
    pub(super) fn notification_op(&mut self, objects: &[ObjectKind]) -> Op
        ensures range { InRange result }
        ensures known { IsKnown objects.now result }
    {
        let face = match self.role {
            Role::Any => self.roll(16),
            Role::Sends => self.roll(10),
            Role::Receives => 6 + self.roll(10),
        };
        match face {
            0..=6 => self.notify(objects),
            7 => self.notification_clear(objects),
            _ => {
                self.has_answer = true;
                Op::AwaitNotification(self.notification_wait(), self.wait())
            }
        }
    }

    /// An op of a task that usually notifies others, or waits for notifications. Such tasks suspend each other too.
    pub(super) fn signalling_op(&mut self, objects: &[ObjectKind]) -> Op
        ensures range { InRange result }
        ensures known { IsKnown objects.now result }
    {
        match self.roll(16) {
            0..=9 => self.notification_op(objects),
            10..=11 => self.suspension_op(objects),
            12 => self.any_op(objects),
            13 => Op::Work(1 + self.roll(2)),
            14 => Op::Yield,
            _ => Op::Delay(self.ticks(4)),
        }
    }

    /// Whether the next op of a handler is a notify: usually if tasks wait for notifications, and never otherwise.
    pub(super) fn notifies(&mut self) -> bool {
        self.theme == Theme::Signal && self.roll(3) > 0
    }

    /// An op of a handler that notifies some task.
    #[tactic(auto, using(crate::proofs::Known::knows_task))]
    pub(super) fn isr_notify(&mut self, objects: &[ObjectKind]) -> IsrOp
        ensures { IsKnownIsr objects.now result }
    {
        let _ = objects;
        let op = IsrOp::Notify(self.some_task(), self.action());
        self.has_answer = true;
        op
    }
}
