//! Critical sections: scripts that open and close them.
ghost use Rattle.model.specs.Scripts.{InRange};
ghost use Rattle.random_apps.specs.Known.{IsKnown};

use super::{Dice, Theme};
use model::{ObjectId, ObjectKind, Op};

impl Dice {
    /// Opens a critical section; rarely closes one although none is open.
    pub(super) fn begin_section(&mut self, objects: &[ObjectKind]) -> Op
        ensures range { InRange result }
        ensures known { IsKnown objects.now result }
    {
        let _ = objects;
        if self.roll(32) == 0 {
            return Op::ExitCritical;
        }
        self.sections = 1;
        Op::EnterCritical
    }

    /// Opens a section inside another, at most two in all, or closes one.
    fn change_section(&mut self, objects: &[ObjectKind]) -> Op
        ensures range { InRange result }
        ensures known { IsKnown objects.now result }
    {
        let _ = objects;
        if self.sections < 2 && self.roll(4) == 0 {
            self.sections = 2;
            return Op::EnterCritical;
        }
        self.sections = self.sections.saturating_sub(1);
        Op::ExitCritical
    }

    /// Asks how many items are in a queue, or how much room is left. If the object isn't a queue, the op is a mark.
    fn look_at(&mut self, objects: &[ObjectKind], object: ObjectId) -> Op
        ensures range { InRange result }
        ensures known { IsKnown objects.now result }
    {
        match objects.get(object.number as usize).copied() {
            Some(ObjectKind::Queue(_)) if self.roll(2) == 0 => Op::MessagesWaiting(object),
            Some(ObjectKind::Queue(_)) => Op::SpacesAvailable(object),
            _ => Op::Mark(self.value(10)),
        }
    }

    /// Asks about some object, if there is one.
    fn look(&mut self, objects: &[ObjectKind]) -> Op
        ensures range { InRange result }
        ensures known { IsKnown objects.now result }
    {
        match self.object_number() {
            Some(object) => self.look_at(objects, object),
            None => Op::Mark(self.value(10)),
        }
    }

    /// An op that is allowed while a critical section is open.
    #[tactic(auto, using(crate::proofs::Known::knows_group, crate::proofs::Known::known_expect))]
    pub(super) fn critical_op(&mut self, objects: &[ObjectKind]) -> Op
        ensures range { InRange result }
        ensures known { IsKnown objects.now result }
    {
        if self.calculates() {
            return self.task_value_op(objects);
        }
        if self.raises() {
            return self.task_source_op(objects);
        }
        if self.theme == Theme::Signal && self.roll(4) == 0 {
            return self.notification_clear(objects);
        }
        match self.roll(16) {
            0..=2 => self.look(objects),
            3 => self.clock_op(objects),
            4 => Op::Mark(self.value(10)),
            5 => Op::GetBits(self.group()),
            6 => Op::ClearBits(self.group(), self.mask()),
            7 => self.block_op(objects),
            8 => Op::Expect(self.answer_condition()),
            _ => self.change_section(objects),
        }
    }

    /// An op of a task that opens critical sections, or one of any kind.
    pub(super) fn masking_op(&mut self, objects: &[ObjectKind]) -> Op
        ensures range { InRange result }
        ensures known { IsKnown objects.now result }
    {
        match self.roll(4) {
            0..=1 => self.begin_section(objects),
            _ => self.any_op(objects),
        }
    }
}
