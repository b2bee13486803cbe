//! Ops of tasks, by the theme of the application.
ghost use Rattle.std.specs.Prelude.{◌<◌, ◌≡◌, true};
ghost use Rattle.model.specs.Scripts.{InRange, is_mask};
ghost use Rattle.random_apps.specs.Known.{IsKnown};

use super::{Dice, Role, Theme};
use model::{Condition, GroupId, ObjectKind, Op, TaskId};

impl Dice {
    /// An op that reads the time. It may also measure time in applications of all sorts, and in those that act on the last answer,
    /// open critical sections or calculate.
    pub(super) fn clock_op(&mut self, objects: &[ObjectKind]) -> Op
        ensures range { InRange result }
        ensures known { IsKnown objects.now result }
    {
        let _ = objects;
        if !matches!(
            self.theme,
            Theme::Any | Theme::Decision | Theme::Section | Theme::Calculation
        ) {
            return Op::Time;
        }
        match self.roll(5) {
            0..=1 => Op::Stamp,
            2..=3 => Op::Since,
            _ => Op::Time,
        }
    }

    /// An op that is about no object, no event group and no task.
    #[tactic(auto, using(crate::proofs::Known::known_expect))]
    fn plain_op(&mut self, objects: &[ObjectKind]) -> Op
        ensures range { InRange result }
        ensures known { IsKnown objects.now result }
    {
        match self.roll(29) {
            0..=4 => Op::Work(1 + self.roll(3)),
            5..=8 => Op::Delay(self.ticks(4)),
            9..=12 => Op::DelayUntil(self.period(4)),
            13..=15 => Op::Yield,
            16..=18 => self.clock_op(objects),
            19 => Op::Mark(self.value(10)),
            20..=21 => self.repeat(objects, 12),
            22 => self.block_op(objects),
            23..=26 => Op::End,
            _ => Op::Expect(self.answer_condition()),
        }
    }

    /// One of two event groups, usually the first.
    pub(super) fn group(&mut self) -> GroupId
        ensures { result < 2 }
    {
        if self.roll(4) == 0 {
            GroupId { number: 1 }
        } else {
            GroupId { number: 0 }
        }
    }

    /// Some of three bits, so that tasks often wait for the same ones.
    pub(super) fn mask(&mut self) -> u32
        ensures { is_mask result ≡ true }
    {
        1 + self.roll(7)
    }

    /// The bits that a task waits for.
    fn condition(&mut self) -> Condition
        ensures { is_mask result.mask ≡ true }
    {
        Condition {
            mask: self.mask(),
            all: self.roll(3) == 0,
            clear: self.roll(2) == 0,
        }
    }

    /// An op on an event group: it sets, clears, reads or waits for bits.
    #[tactic(auto, using(crate::proofs::Known::knows_group))]
    fn group_op(&mut self, objects: &[ObjectKind]) -> Op
        ensures range { InRange result }
        ensures known { IsKnown objects.now result }
    {
        let _ = objects;
        let group = self.group();
        let face = match self.role {
            Role::Any => self.roll(16),
            Role::Sends => self.roll(10),
            Role::Receives => 6 + self.roll(10),
        };
        match face {
            0..=5 => Op::SetBits(group, self.mask()),
            6 => Op::ClearBits(group, self.mask()),
            7 => Op::GetBits(group),
            _ => Op::WaitBits(group, self.condition(), self.wait()),
        }
    }

    /// One of the four tasks.
    pub(super) fn some_task(&mut self) -> TaskId
        ensures { result < 4 }
    {
        TaskId {
            number: self.roll(4) as u8,
        }
    }

    /// Suspends some task, perhaps the caller itself, or resumes one. That is usually the other task that the caller last
    /// suspended.
    #[tactic(auto, using(crate::proofs::Known::knows_task))]
    pub(super) fn suspension_op(&mut self, objects: &[ObjectKind]) -> Op
        ensures range { InRange result }
        ensures known { IsKnown objects.now result }
    {
        let _ = objects;
        if let Some(task) = self.suspended {
            if self.roll(4) > 0 {
                self.suspended = None;
                return Op::Resume(TaskId {
                    number: task.number % 4,
                });
            }
        }
        let task = self.some_task();
        if self.roll(4) == 0 {
            return Op::Resume(task);
        }
        if task.number != self.present {
            self.suspended = Some(task);
        }
        Op::Suspend(task)
    }

    /// Suspends the scheduler; rarely resumes it although it isn't suspended.
    pub(super) fn begin_suspension(&mut self, objects: &[ObjectKind]) -> Op
        ensures range { InRange result }
        ensures known { IsKnown objects.now result }
    {
        let _ = objects;
        if self.roll(32) == 0 {
            return Op::ResumeAll;
        }
        self.suspensions = 1;
        Op::SuspendAll
    }

    /// Suspends the scheduler once more, at most twice in all, or resumes it.
    fn change_suspension(&mut self, objects: &[ObjectKind]) -> Op
        ensures range { InRange result }
        ensures known { IsKnown objects.now result }
    {
        let _ = objects;
        if self.suspensions < 2 && self.roll(4) == 0 {
            self.suspensions = 2;
            return Op::SuspendAll;
        }
        self.suspensions = self.suspensions.saturating_sub(1);
        Op::ResumeAll
    }

    /// An op that is allowed while the scheduler is suspended.
    #[tactic(auto, using(crate::proofs::Known::knows_group))]
    fn suspended_op(&mut self, objects: &[ObjectKind]) -> Op
        ensures range { InRange result }
        ensures known { IsKnown objects.now result }
    {
        if self.calculates() {
            return self.task_value_op(objects);
        }
        if self.raises() {
            return self.task_source_op(objects);
        }
        if self.theme == Theme::Signal && self.roll(4) == 0 {
            return self.notification_clear(objects);
        }
        match self.roll(16) {
            0..=6 => Op::Work(1 + self.roll(4)),
            7 => self.clock_op(objects),
            8 => Op::Mark(self.value(10)),
            9 => Op::GetBits(self.group()),
            10 => Op::ClearBits(self.group(), self.mask()),
            11 => self.block_op(objects),
            12 if self.theme == Theme::Section => self.begin_section(objects),
            _ => self.change_suspension(objects),
        }
    }

    /// An op of any kind. If there is no object to call on, it is an op that is about none.
    pub(super) fn any_op(&mut self, objects: &[ObjectKind]) -> Op
        ensures range { InRange result }
        ensures known { IsKnown objects.now result }
    {
        match self.roll(24) {
            2 if self.theme == Theme::Any && self.roll(2) == 0 => self.notification_op(objects),
            0..=2 => self.group_op(objects),
            3..=4 => self.suspension_op(objects),
            5 => self.begin_suspension(objects),
            6..=14 => match self.call(objects) {
                Some(op) => op,
                None => self.plain_op(objects),
            },
            _ => self.plain_op(objects),
        }
    }

    /// An op of a task that usually waits for bits, or sets them.
    fn gathering_op(&mut self, objects: &[ObjectKind]) -> Op
        ensures range { InRange result }
        ensures known { IsKnown objects.now result }
    {
        match self.roll(12) {
            0..=7 => self.group_op(objects),
            8 => self.suspension_op(objects),
            9 => Op::Work(1 + self.roll(2)),
            10 => Op::Yield,
            _ => Op::Delay(self.ticks(4)),
        }
    }

    /// For a late task, usually an op that suspends or resumes a task. For any other, usually an op during which it can be
    /// suspended.
    fn suspending_op(&mut self, objects: &[ObjectKind]) -> Op
        ensures range { InRange result }
        ensures known { IsKnown objects.now result }
    {
        let face = if self.is_late {
            self.roll(16)
        } else {
            9 + self.roll(17)
        };
        match face {
            0..=9 => self.suspension_op(objects),
            10..=11 => Op::Delay(self.ticks(3)),
            12..=14 => self.begin_suspension(objects),
            15..=20 => match self.call(objects) {
                Some(op) => op,
                None => Op::Yield,
            },
            21 => self.group_op(objects),
            22 => Op::Work(1 + self.roll(3)),
            _ => Op::DelayUntil(self.period(9)),
        }
    }

    /// An op of a task that does little but call on objects.
    fn busy_op(&mut self, objects: &[ObjectKind]) -> Op
        ensures range { InRange result }
        ensures known { IsKnown objects.now result }
    {
        if self.roll(3) != 1 {
            if let Some(op) = self.call(objects) {
                return op;
            }
        }
        if self.theme == Theme::Contest && self.roll(4) > 0 {
            return Op::Work(1 + self.roll(4));
        }
        Op::Delay(self.ticks(4))
    }

    pub(super) fn op(&mut self, objects: &[ObjectKind]) -> Op
        ensures range { InRange result }
        ensures known { IsKnown objects.now result }
    {
        if self.sections > 0 && self.roll(48) > 0 {
            return self.critical_op(objects);
        }
        if self.suspensions > 0 && self.roll(48) > 0 {
            return self.suspended_op(objects);
        }
        match self.theme {
            Theme::Any => self.any_op(objects),
            Theme::Crowd | Theme::Contest => self.busy_op(objects),
            Theme::Gathering => self.gathering_op(objects),
            Theme::Suspension => self.suspending_op(objects),
            Theme::Decision => self.deciding_op(objects),
            Theme::Section => self.masking_op(objects),
            Theme::Signal => self.signalling_op(objects),
            Theme::Calculation => self.calculating_op(objects),
            Theme::Device => self.raising_op(objects),
        }
    }
}
