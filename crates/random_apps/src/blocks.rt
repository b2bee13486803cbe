//! Branches and loops: scripts that act on the last answer.
ghost use Rattle.std.specs.Prelude.{◌≤◌, length};
ghost use Rattle.model.specs.Scripts.{InRange};
ghost use Rattle.random_apps.specs.Known.{AreKnown, IsKnown, IsKnownAnswer, IsKnownCondition, IsKnownValue};

use super::{Dice, Theme};
use model::{AnswerCondition, ObjectKind, Op, ScriptBuilder, Value};

impl Dice {
    /// An answer that a script may ask for: `none`, a variable if tasks calculate, or usually a small number.
    #[tactic(auto, using(crate::proofs::Known::known_none, crate::proofs::Known::known_some))]
    fn some_answer(&mut self) -> Option<Value>
        ensures { IsKnownAnswer result }
    {
        let number = match self.roll(6) {
            0..=1 => return None,
            2..=4 => self.roll(3),
            _ => u32::MAX - self.roll(8),
        };
        Some(self.operand(number))
    }

    /// A bound for the last answer: usually a small number, otherwise one near the printed ticks.
    pub(super) fn bound(&mut self) -> u32 {
        if self.roll(4) == 0 {
            u32::MAX - self.roll(8)
        } else {
            self.roll(4)
        }
    }

    /// Such a bound, or a variable if tasks calculate.
    fn bounding_value(&mut self) -> Value
        ensures { IsKnownValue result }
    {
        let number = self.bound();
        self.operand(number)
    }

    /// A condition on the last answer.
    #[tactic(auto, using(crate::proofs::Known::known_is, crate::proofs::Known::known_is_not, crate::proofs::Known::known_below, crate::proofs::Known::known_above))]
    pub(super) fn answer_condition(&mut self) -> AnswerCondition
        ensures { IsKnownCondition result }
    {
        match self.roll(8) {
            0..=1 => AnswerCondition::Is(self.some_answer()),
            2..=3 => AnswerCondition::IsNot(self.some_answer()),
            4..=5 => AnswerCondition::Below(self.bounding_value()),
            _ => AnswerCondition::Above(self.bounding_value()),
        }
    }

    /// A loop of a few turns. One loop in `rarity` runs forever.
    pub(super) fn repeat(&mut self, objects: &[ObjectKind], rarity: u32) -> Op
        ensures range { InRange result }
        ensures known { IsKnown objects.now result }
    {
        let _ = objects;
        if self.roll(1.max(rarity)) == 0 {
            return Op::Repeat(None);
        }
        Op::Repeat(Some(1 + self.roll(3) as u16))
    }

    /// An op that opens or ends a branch or a loop, or leaves one.
    #[tactic(auto, using(crate::proofs::Known::known_if))]
    pub(super) fn block_op(&mut self, objects: &[ObjectKind]) -> Op
        ensures range { InRange result }
        ensures known { IsKnown objects.now result }
    {
        match self.roll(16) {
            0..=4 => Op::If(self.answer_condition()),
            5..=6 => Op::Else,
            7..=10 => Op::End,
            11..=13 => Op::Break,
            _ => self.repeat(objects, 3),
        }
    }

    /// An op of a task that acts on the last answer.
    #[tactic(auto, using(crate::proofs::Known::known_expect))]
    pub(super) fn deciding_op(&mut self, objects: &[ObjectKind]) -> Op
        ensures range { InRange result }
        ensures known { IsKnown objects.now result }
    {
        match self.roll(26) {
            0..=11 => self.block_op(objects),
            12..=14 => self.clock_op(objects),
            15 => Op::Mark(self.value(10)),
            16 => Op::Expect(self.answer_condition()),
            17..=18 => Op::Delay(self.ticks(4)),
            19 => Op::Work(1 + self.roll(2)),
            20 => self.begin_suspension(objects),
            _ => match self.call(objects) {
                Some(op) => op,
                None => Op::Yield,
            },
        }
    }

    /// The number of ops that a script may have before its end.
    pub(super) fn op_count(&mut self) -> u32
        ensures { result ≤ 24 }
    {
        match self.theme {
            Theme::Decision => 4 + self.roll(21),
            Theme::Section | Theme::Calculation | Theme::Signal | Theme::Device => 4
                + self.roll(13),
            _ => self.roll(9),
        }
    }

    /// Which of the four tasks are endless: in most applications none, in some a few or all of them.
    pub(super) fn some_endless(&mut self) -> [bool; 4] {
        match self.roll(8) {
            0..=4 => [false; 4],
            5..=6 => [
                self.roll(2) == 0,
                self.roll(2) == 0,
                self.roll(2) == 0,
                self.roll(2) == 0,
            ],
            _ => [true; 4],
        }
    }

    /// Whether the present task is endless.
    pub(super) fn is_endless(&self) -> bool {
        self.endless.get(self.present as usize).copied() == Some(true)
    }
}

/// Ends the open branches and loops.
pub(super) fn close(script: &mut ScriptBuilder, objects: &[ObjectKind])
    requires few { length script.old ≤ 32 }
    requires known { AreKnown objects.now script.old }
    ensures { AreKnown objects.now script.new }
{
    let _ = objects;
    for _ in 0..8_u8 {
        let _ = script.push(Op::End);
    }
}
