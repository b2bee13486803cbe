//! Values: variables, and ops that load them, store them and calculate.
ghost use Rattle.std.specs.Prelude.{◌<◌, ◌≤◌, ◌≡◌, true, IfSome, length};
ghost use Rattle.model.specs.declared.value.Arithmetic.TheVariants as arithmetic;
ghost use Rattle.model.specs.declared.value.ValueOp.TheVariants as of_op;
ghost use Rattle.model.specs.Scripts.{InRange, is_defined};
ghost use Rattle.random_apps.specs.Known.{AreKnownValues, IsKnown, IsKnownIsr, IsKnownValue};

use super::{Dice, Theme};
use model::{Arithmetic, IsrOp, ObjectKind, Op, Value, ValueOp, VariableId};
use std::alloc::Global;

impl Dice {
    // ---- variables

    /// The number of variables: four, or half of the time up to 32 if tasks calculate.
    fn variable_count(&mut self) -> u32
        ensures some { 4 ≤ result }
        ensures few { result ≤ 32 }
    {
        if !self.calculates() {
            return 4;
        }
        if self.roll(4) == 0 {
            return 32;
        }
        4 + self.roll(4)
    }

    /// The initial value of a variable. It is often 0, so that a division by it fails.
    fn initial_value(&mut self) -> u32 {
        if self.calculates() { self.bound() } else { 0 }
    }

    /// The initial values of the variables.
    pub(super) fn variables(&mut self, alloc: Global) -> Option<Vec<u32>>
        ensures some { IfSome result (λ variables. 4 ≤ length variables.items) }
        ensures few { IfSome result (λ variables. length variables.items ≤ 32) }
    {
        let mut variables = Vec::new(alloc);
        let count = self.variable_count();
        for _ in 0..count {
            variables.push(self.initial_value()).ok()?;
        }
        Some(variables)
    }

    /// One of four variables, usually the first.
    fn variable(&mut self) -> VariableId
        ensures { result.number < 4 }
    {
        if self.roll(2) == 0 {
            return VariableId { number: 0 };
        }
        VariableId {
            number: self.roll(4) as u8,
        }
    }

    // ---- values

    /// A number below this one. If tasks calculate, half of the time it is the last answer instead, but seldom before any op that
    /// gives one.
    #[tactic(auto, using(crate::proofs::Known::known_number, crate::proofs::Known::known_answer))]
    pub(super) fn value(&mut self, sides: u32) -> Value
        requires { 0 < sides }
        ensures { IsKnownValue result }
    {
        if self.calculates() && (self.has_answer || self.roll(8) == 0) {
            return Value::Answer;
        }
        Value::Number(self.roll(sides))
    }

    /// This number. If tasks calculate, half of the time it is a variable instead.
    #[tactic(auto, using(crate::proofs::Known::known_number, crate::proofs::Known::known_variable))]
    pub(super) fn operand(&mut self, number: u32) -> Value
        ensures { IsKnownValue result }
    {
        if self.calculates() {
            return Value::Variable(self.variable());
        }
        Value::Number(number)
    }

    /// A divisor: a variable, or a number other than 0.
    #[tactic(auto, using(crate::proofs::Known::known_number, crate::proofs::Known::known_variable))]
    fn divisor(&mut self) -> Value
        ensures known { IsKnownValue result }
        ensures division { is_defined (of_op.Compute arithmetic.Div result) ≡ true }
        ensures remainder { is_defined (of_op.Compute arithmetic.Mod result) ≡ true }
    {
        if self.roll(2) == 0 {
            return Value::Variable(self.variable());
        }
        Value::Number(1 + self.roll(5))
    }

    // ---- ops

    /// A quotient or a remainder.
    #[tactic(auto, using(crate::proofs::Known::known_result))]
    fn division(&mut self) -> ValueOp
        ensures defined { is_defined result ≡ true }
        ensures known { AreKnownValues result }
    {
        let divisor = self.divisor();
        if self.roll(2) == 0 {
            ValueOp::Compute(Arithmetic::Div, divisor)
        } else {
            ValueOp::Compute(Arithmetic::Mod, divisor)
        }
    }

    /// Another arithmetic op on the last answer and a number or a variable.
    #[tactic(auto, using(crate::proofs::Known::known_result))]
    fn calculation(&mut self) -> ValueOp
        ensures defined { is_defined result ≡ true }
        ensures known { AreKnownValues result }
    {
        let number = self.bound();
        let operand = self.operand(number);
        match self.roll(8) {
            0..=1 => ValueOp::Compute(Arithmetic::Add, operand),
            2..=3 => ValueOp::Compute(Arithmetic::Sub, operand),
            4 => ValueOp::Compute(Arithmetic::Mul, operand),
            5 => ValueOp::Compute(Arithmetic::And, operand),
            6 => ValueOp::Compute(Arithmetic::Or, operand),
            _ => ValueOp::Compute(Arithmetic::Xor, operand),
        }
    }

    /// Loads a variable.
    #[tactic(auto, using(crate::proofs::Known::known_load))]
    fn load(&mut self) -> ValueOp
        ensures defined { is_defined result ≡ true }
        ensures known { AreKnownValues result }
    {
        self.has_answer = true;
        ValueOp::Load(self.variable())
    }

    /// Stores a variable.
    #[tactic(auto, using(crate::proofs::Known::known_store))]
    fn store(&mut self) -> ValueOp
        ensures defined { is_defined result ≡ true }
        ensures known { AreKnownValues result }
    {
        let variable = self.variable();
        ValueOp::Store(variable, self.value(6))
    }

    /// An op on values. Before any op that gives a last answer, it is usually a load.
    fn value_op(&mut self) -> ValueOp
        ensures defined { is_defined result ≡ true }
        ensures known { AreKnownValues result }
    {
        if !self.has_answer && self.roll(16) > 0 {
            return self.load();
        }
        match self.roll(12) {
            0..=3 => self.load(),
            4..=7 => self.store(),
            8..=10 => self.calculation(),
            _ => self.division(),
        }
    }

    /// An op of a task on values.
    #[tactic(auto, using(crate::proofs::Known::known_values))]
    pub(super) fn task_value_op(&mut self, objects: &[ObjectKind]) -> Op
        ensures range { InRange result }
        ensures known { IsKnown objects.now result }
    {
        let _ = objects;
        Op::Value(self.value_op())
    }

    /// An op of a handler on values, or rarely a mark of its last answer.
    #[tactic(auto, using(crate::proofs::Known::known_isr_values))]
    pub(super) fn isr_value_op(&mut self, objects: &[ObjectKind]) -> IsrOp
        ensures { IsKnownIsr objects.now result }
    {
        let _ = objects;
        if self.roll(6) == 0 {
            return IsrOp::Mark(self.value(10));
        }
        IsrOp::Value(self.value_op())
    }

    /// Whether the next choice is about values: half of the time if tasks calculate, and never otherwise.
    pub(super) fn calculates(&mut self) -> bool {
        self.theme == Theme::Calculation && self.roll(2) == 0
    }

    /// A call on some object, if there is one.
    fn answering_call(&mut self, objects: &[ObjectKind]) -> Op
        ensures range { InRange result }
        ensures known { IsKnown objects.now result }
    {
        self.has_answer = true;
        match self.call(objects) {
            Some(op) => op,
            None => Op::Yield,
        }
    }

    /// An op of a task that calculates.
    pub(super) fn calculating_op(&mut self, objects: &[ObjectKind]) -> Op
        ensures range { InRange result }
        ensures known { IsKnown objects.now result }
    {
        match self.roll(24) {
            0..=9 => self.task_value_op(objects),
            10 => self.begin_suspension(objects),
            11 => self.begin_section(objects),
            12 => self.block_op(objects),
            13..=19 => self.answering_call(objects),
            _ => self.any_op(objects),
        }
    }
}
