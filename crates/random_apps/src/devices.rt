//! Which interrupts can come, and devices that respond later.
ghost use Rattle.std.specs.Prelude.{◌<◌, ◌≤◌, ◌≡◌, true};
ghost use Rattle.model.specs.Scripts.{InRange, is_near, most_apart};
ghost use Rattle.random_apps.specs.Known.{IsKnown, IsKnownIsr};

use super::{Dice, Theme};
use model::{HandlerId, IsrOp, ObjectKind, Op, SourceOp};

impl Dice {
    /// Whether the next op is on a handler: half of the time if tasks raise handlers, and never otherwise.
    pub(super) fn raises(&mut self) -> bool {
        self.theme == Theme::Device && self.roll(2) == 0
    }

    /// Whether a handler is armed at reset, and how many ticks apart it comes at least. If tasks raise handlers, some are disarmed.
    /// Some come a few ticks apart, or about as many as are allowed.
    pub(super) fn arrival(&mut self) -> (bool, u32)
        ensures { result.1 ≤ most_apart }
    {
        if self.theme != Theme::Device {
            return (true, 0);
        }
        let armed = self.roll(4) > 0;
        let apart = match self.roll(8) {
            0..=3 => 0,
            4..=6 => 1 + self.roll(5),
            _ => 1_000_000 - self.roll(2),
        };
        (armed, apart)
    }

    /// One of three handlers.
    fn some_handler(&mut self) -> HandlerId
        ensures { result < 3 }
    {
        HandlerId {
            number: self.roll(3) as u8,
        }
    }

    /// In how many ticks a raised handler comes: a few. If tasks sleep for long, it may also come near a base interrupt, or after
    /// about as many ticks as are allowed.
    fn ticks_to_raised(&mut self) -> u32
        ensures first { 1 ≤ result }
        ensures last { result ≤ most_apart }
    {
        if !self.sleeps_long || self.roll(2) == 0 {
            return 1 + self.roll(6);
        }
        match self.roll(4) {
            0 => 1_000_000 - self.roll(2),
            _ => 100_000 * (1 + self.roll(4)) + self.roll(3),
        }
    }

    /// What is done to a handler: usually it is raised.
    fn source_op(&mut self) -> SourceOp
        ensures { is_near result ≡ true }
    {
        match self.roll(12) {
            0..=2 => SourceOp::Arm,
            3..=4 => SourceOp::Disarm,
            5..=10 => SourceOp::Raise(self.ticks_to_raised()),
            _ => SourceOp::Cancel,
        }
    }

    /// An op of a task on a handler.
    #[tactic(auto, using(crate::proofs::Known::known_source))]
    pub(super) fn task_source_op(&mut self, objects: &[ObjectKind]) -> Op
        ensures range { InRange result }
        ensures known { IsKnown objects.now result }
    {
        let _ = objects;
        Op::Source(self.some_handler(), self.source_op())
    }

    /// An op of a handler on a handler, perhaps on itself.
    #[tactic(auto, using(crate::proofs::Known::known_isr_source))]
    pub(super) fn isr_source_op(&mut self, objects: &[ObjectKind]) -> IsrOp
        ensures { IsKnownIsr objects.now result }
    {
        let _ = objects;
        IsrOp::Source(self.some_handler(), self.source_op())
    }

    /// An op of a task that raises handlers, or one of any kind.
    pub(super) fn raising_op(&mut self, objects: &[ObjectKind]) -> Op
        ensures range { InRange result }
        ensures known { IsKnown objects.now result }
    {
        match self.roll(24) {
            0..=11 => self.task_source_op(objects),
            12 => self.begin_suspension(objects),
            13 => self.begin_section(objects),
            14..=17 => match self.call(objects) {
                Some(op) => op,
                None => Op::Yield,
            },
            _ => self.any_op(objects),
        }
    }
}
