//! Variables, and ops that work with values.

use super::calls::item_of;
use super::notifications::lacks_notice;
use super::{ReferenceKernel, Task, count_if};
use model::{
    Access, AnswerCondition, App, Arithmetic, IsrOp, Op, Phase, TaskId, Value, ValueOp, VariableId,
};

/// The result of an arithmetic op on two numbers; `None` for a division by 0.
fn result_of(kind: Arithmetic, one: u32, other: u32) -> Option<u32> {
    let a = one as u64;
    let b = other as u64;
    let exact = match kind {
        Arithmetic::Add => a.wrapping_add(b),
        Arithmetic::Sub => a.wrapping_add(4_294_967_296).wrapping_sub(b),
        Arithmetic::Mul => a.wrapping_mul(b),
        Arithmetic::Div => a.checked_div(b)?,
        Arithmetic::Mod => a.checked_rem(b)?,
        Arithmetic::And => a & b,
        Arithmetic::Or => a | b,
        Arithmetic::Xor => a ^ b,
    };
    Some((exact % 4_294_967_296) as u32)
}

/// Whether a value is a variable.
fn is_named(value: Value) -> bool {
    matches!(value, Value::Variable(_))
}

/// Whether a condition names a variable.
fn names_variable(condition: AnswerCondition) -> bool {
    match condition {
        AnswerCondition::Is(wanted) => wanted.is_some_and(is_named),
        AnswerCondition::IsNot(other) => other.is_some_and(is_named),
        AnswerCondition::Below(bound) | AnswerCondition::Above(bound) => is_named(bound),
    }
}

/// Whether a call sends the last answer.
fn sends_answer(access: Access<Value>) -> bool {
    matches!(item_of(access), Some(Value::Answer))
}

/// Whether the op of a task receives an item.
pub(super) fn receives(op: Option<Op>) -> bool {
    matches!(op, Some(Op::Await(_, Access::Receive | Access::Peek, _)))
}

impl ReferenceKernel {
    /// The value of each variable now, in the order of the file.
    pub fn variables(&self, app: &App) -> &[u32] {
        self.variables.get(..app.variables().len()).unwrap_or(&[])
    }

    /// Sets the variables to their initial values.
    pub(super) fn reset_variables(&mut self, app: &App) {
        for (cell, initial) in self.variables.iter_mut().zip(app.variables()) {
            *cell = *initial;
        }
    }

    fn variable(&self, variable: VariableId) -> u32 {
        self.variables
            .get(variable.number as usize)
            .copied()
            .unwrap_or(0)
    }

    /// The number of a value, given this last answer; `None` if the value is the last answer and that is `none`.
    fn number(&self, value: Value, last: Option<u32>) -> Option<u32> {
        match value {
            Value::Number(number) => Some(number),
            Value::Answer => last,
            Value::Variable(variable) => Some(self.variable(variable)),
        }
    }

    /// The number of a value that is marked or sent. It exists then.
    pub(super) fn shown(&self, value: Value, last: Option<u32>) -> u32 {
        self.number(value, last).unwrap_or(0)
    }

    /// The call with the number that it sends.
    pub(super) fn asked(&self, access: Access<Value>, last: Option<u32>) -> Access<u32> {
        match access {
            Access::Send(item) => Access::Send(self.shown(item, last)),
            Access::SendFront(item) => Access::SendFront(self.shown(item, last)),
            Access::Overwrite(item) => Access::Overwrite(self.shown(item, last)),
            Access::Receive => Access::Receive,
            Access::Peek => Access::Peek,
            Access::Take => Access::Take,
            Access::Give => Access::Give,
            Access::Lock => Access::Lock,
        }
    }

    // ---- conditions

    /// Whether the last answer is this value, or is `none`.
    fn is_equal(&self, wanted: Option<Value>, last: Option<u32>) -> bool {
        match wanted {
            None => last.is_none(),
            Some(value) => last == self.number(value, last),
        }
    }

    /// Whether a condition holds, given this last answer.
    pub(super) fn is_so(&self, condition: AnswerCondition, last: Option<u32>) -> bool {
        match condition {
            AnswerCondition::Is(wanted) => self.is_equal(wanted, last),
            AnswerCondition::IsNot(other) => !self.is_equal(other, last),
            AnswerCondition::Below(bound) => {
                let bound = self.number(bound, last);
                last.is_some_and(|number| bound.is_some_and(|bound| number < bound))
            }
            AnswerCondition::Above(bound) => {
                let bound = self.number(bound, last);
                last.is_some_and(|number| bound.is_some_and(|bound| number > bound))
            }
        }
    }

    pub(super) fn count_condition(&mut self, condition: AnswerCondition) {
        let is_named = names_variable(condition);
        count_if(&mut self.tally.named_conditions, is_named);
    }

    pub(super) fn count_isr_condition(&mut self, condition: AnswerCondition) {
        let is_named = names_variable(condition);
        count_if(&mut self.tally.named_by_handlers, is_named);
    }

    // ---- ops on values

    /// The outcome of an op on values, given this last answer; `None` if the op has no value to work with.
    pub(super) fn outcome(&self, op: ValueOp, last: Option<u32>) -> Option<u32> {
        match op {
            ValueOp::Load(variable) => Some(self.variable(variable)),
            ValueOp::Store(_, value) => self.number(value, last),
            ValueOp::Compute(kind, value) => result_of(kind, last?, self.number(value, last)?),
        }
    }

    /// Keeps the outcome of an op on values in the variable, if the op is a `store`.
    pub(super) fn keep(&mut self, op: ValueOp, outcome: Option<u32>) {
        let (ValueOp::Store(variable, _), Some(number)) = (op, outcome) else {
            return;
        };
        if let Some(cell) = self.variables.get_mut(variable.number as usize) {
            *cell = number;
        }
    }

    fn count_values(&mut self, op: ValueOp) {
        let is_held = self.is_scheduler_suspended() || self.is_critical();
        let stores = matches!(op, ValueOp::Store(_, _));
        let computes = matches!(op, ValueOp::Compute(_, _));
        count_if(&mut self.tally.stores, stores);
        count_if(&mut self.tally.results, computes);
        count_if(&mut self.tally.values_in_holds, is_held);
    }

    /// A task loads a variable, stores one, or calculates.
    pub(super) fn work_with_values(&mut self, app: &App, id: TaskId, op: ValueOp) {
        let outcome = self.outcome(op, self.task(id).answer);
        self.count_values(op);
        self.keep(op, outcome);
        self.answer(app, id, outcome);
    }

    /// The same op, done by a handler.
    pub(super) fn isr_values(&mut self, op: ValueOp, last: Option<u32>) -> Option<u32> {
        let outcome = self.outcome(op, last);
        let stores = matches!(op, ValueOp::Store(_, _));
        count_if(&mut self.tally.stores_by_handlers, stores);
        self.keep(op, outcome);
        outcome
    }

    // ---- ops that have no value

    /// Whether a call sends the last answer, and that is `none`.
    fn lacks_item(access: Access<Value>, last: Option<u32>) -> bool {
        sends_answer(access) && last.is_none()
    }

    /// Counts a division that can't be done, unless the reason is a missing last answer.
    fn count_divisor(&mut self, app: &App, id: TaskId) {
        let task = self.task(id);
        let op = app.op(id, task.op_index);
        let computes = matches!(op, Some(Op::Value(ValueOp::Compute(_, _))));
        let is_divided = computes && task.answer.is_some();
        count_if(&mut self.tally.zero_divisors, is_divided);
    }

    /// Whether an op of a task has no value to work with. For a call that waits, this is checked at its start.
    fn lacks_value(&self, task: &Task, op: Op) -> bool {
        match op {
            Op::Await(_, access, _) => {
                task.call.phase == Phase::Start && Self::lacks_item(access, task.answer)
            }
            Op::Do(_, access) => Self::lacks_item(access, task.answer),
            Op::Notify(_, action) => lacks_notice(action, task.answer),
            Op::Mark(value) => self.number(value, task.answer).is_none(),
            Op::Value(op) => self.outcome(op, task.answer).is_none(),
            _ => false,
        }
    }

    /// Whether the next op of a task has no value to work with.
    pub(super) fn is_without_value(&mut self, app: &App, id: TaskId) -> bool {
        let task = self.task(id);
        let Some(op) = app.op(id, task.op_index) else {
            return false;
        };
        let is_missing = self.lacks_value(&task, op);
        count_if(&mut self.tally.valueless_ops, is_missing);
        if is_missing {
            self.count_divisor(app, id);
        }
        is_missing
    }

    /// Whether an op of a handler has no value to work with.
    pub(super) fn is_isr_without_value(&mut self, op: &IsrOp, last: Option<u32>) -> bool {
        let is_missing = match *op {
            IsrOp::Do(_, access) => Self::lacks_item(access, last),
            IsrOp::Notify(_, action) => lacks_notice(action, last),
            IsrOp::Mark(value) => self.number(value, last).is_none(),
            IsrOp::Value(op) => self.outcome(op, last).is_none(),
            _ => false,
        };
        count_if(&mut self.tally.valueless_by_handlers, is_missing);
        is_missing
    }

    // ---- values that are passed on

    /// Counts a call of a task that now sends its last answer to a queue, and whether the task received that answer from a queue.
    pub(super) fn count_passed_on(&mut self, id: TaskId, object: u8, access: Access<Value>) {
        let task = self.task(id);
        let is_sent = sends_answer(access)
            && matches!(task.call.phase, Phase::Start | Phase::Try)
            && self.is_possible(object, self.asked(access, task.answer));
        count_if(&mut self.tally.sent_answers, is_sent);
        count_if(&mut self.tally.passed_on, is_sent && task.has_received);
    }

    /// Counts a call of a handler that now sends its last answer to a queue.
    pub(super) fn count_isr_sent(&mut self, object: u8, access: Access<Value>, last: Option<u32>) {
        let is_sent = sends_answer(access) && self.is_possible(object, self.asked(access, last));
        count_if(&mut self.tally.answers_sent_by_handlers, is_sent);
    }
}
