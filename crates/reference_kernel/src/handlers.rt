//! Interrupt handlers: their ops, and how they come.

use super::{ReferenceKernel, count_if};
use model::{Access, AnswerCondition, App, End, HandlerDefinition, HandlerId, IsrOp, What};

/// The op at which a handler continues when it leaves the branch whose first op is this one: the op after its `else` or its `end`.
/// Nested branches are skipped whole.
fn behind_branch(ops: &[IsrOp], first: u16) -> u16 {
    let mut opened = 0_u16;
    for index in first..HandlerDefinition::MOST_OPS as u16 {
        match ops.get(index as usize) {
            Some(IsrOp::If(_)) => opened = opened.wrapping_add(1),
            Some(IsrOp::Else | IsrOp::EndIf) if opened == 0 => return index.wrapping_add(1),
            Some(IsrOp::EndIf) => opened = opened.wrapping_sub(1),
            _ => {}
        }
    }
    first
}

impl ReferenceKernel {
    /// Tries a call of a handler once. It never waits.
    fn attempt_isr(&mut self, object: u8, access: Access<u32>) -> Option<u32> {
        let answer = self.attempt(None, object, access);
        let is_locked_give = access == Access::Give && self.locked == Some(object);
        let gives = is_locked_give && answer == Some(1);
        count_if(&mut self.tally.locked_gives, gives);
        answer
    }

    /// Does an op of a handler, and reports its answer if it has one. That becomes the handler's last answer; otherwise the
    /// previous one stays.
    fn isr(
        &mut self,
        app: &App,
        handler: HandlerId,
        op_index: u16,
        op: &IsrOp,
        last: Option<u32>,
    ) -> Option<u32> {
        let answer = match *op {
            IsrOp::Mark(value) => {
                let number = self.shown(value, last);
                self.write(What::IsrMark(handler, number));
                return last;
            }
            IsrOp::Source(other, what) => {
                self.act_by_handler(other, what);
                return last;
            }
            IsrOp::Expect(_) | IsrOp::If(_) | IsrOp::Else | IsrOp::EndIf => return last,
            IsrOp::Do(object, access) => {
                self.count_isr_sent(object.number, access, last);
                self.attempt_isr(object.number, self.asked(access, last))
            }
            IsrOp::Command(command) => self.send_command(app, command),
            IsrOp::Resume(task) => Some(self.resume(task) as u32),
            IsrOp::GetBits(group) => Some(self.bits(group)),
            IsrOp::Notify(task, action) => Some(self.notify(task, action, last)),
            IsrOp::Value(op) => self.isr_values(op, last),
        };
        self.write(match answer {
            Some(answer) => What::Isr(handler, op_index, answer),
            None => What::IsrNone(handler, op_index),
        });
        answer
    }

    /// Whether an op is an `expect` that fails, or has no value to work with.
    fn is_failing(&mut self, op: &IsrOp, last: Option<u32>) -> bool {
        let IsrOp::Expect(condition) = *op else {
            return self.is_isr_without_value(op, last);
        };
        let is_passed = self.is_so(condition, last);
        self.count_isr_condition(condition);
        count_if(&mut self.tally.passed_checks, is_passed);
        count_if(&mut self.tally.failed_checks, !is_passed);
        !is_passed
    }

    /// Whether the first branch of an `if` is taken.
    fn is_taken(&mut self, condition: AnswerCondition, last: Option<u32>) -> bool {
        let is_taken = self.is_so(condition, last);
        self.count_isr_condition(condition);
        count_if(&mut self.tally.taken_by_handlers, is_taken);
        count_if(&mut self.tally.skipped_by_handlers, !is_taken);
        is_taken
    }

    /// The index of the op that runs after the one at this index.
    fn next_op(&mut self, ops: &[IsrOp], op_index: u16, op: &IsrOp, last: Option<u32>) -> u16 {
        let behind = op_index.wrapping_add(1);
        match *op {
            IsrOp::If(condition) if self.is_taken(condition, last) => behind,
            IsrOp::If(_) | IsrOp::Else => behind_branch(ops, behind),
            _ => behind,
        }
    }

    /// The handler does its ops one after another, and nothing switches. Ops after a failed `expect` are not done.
    pub(super) fn handle(&mut self, app: &App, handler: HandlerId) {
        let Some(definition) = app.handlers().get(handler.number as usize) else {
            return;
        };
        let ops = definition.ops();
        let mut op_index = 0;
        let mut answer = None;
        for _ in 0..ops.len() {
            let Some(op) = ops.get(op_index as usize) else {
                return;
            };
            if self.is_failing(op, answer) {
                self.fail(End::HandlerCheck(handler, op_index));
                return;
            }
            let next = self.next_op(ops, op_index, op, answer);
            answer = self.isr(app, handler, op_index, op, answer);
            op_index = next;
        }
    }

    /// The base interrupts of this tick come, whether or not they are armed.
    fn come_by_file(&mut self, app: &App) {
        for interrupt in app.interrupts() {
            if interrupt.tick as u64 == self.elapsed {
                let is_suspended = self.is_scheduler_suspended();
                let is_armed = self.is_armed(interrupt.handler);
                count_if(&mut self.tally.held_interrupts, is_suspended);
                count_if(&mut self.tally.disarmed_interrupts, !is_armed);
                self.come(app, interrupt.handler);
            }
        }
    }

    /// The base interrupts of this tick come, and then the handlers that were raised for it before the first of these came.
    pub(super) fn interrupt(&mut self, app: &App) {
        let raised = self.lower_due(app);
        self.come_by_file(app);
        self.come_raised(app, raised);
    }

    /// The interrupt comes before a step. It is the tick, or a handler. After a handler, a task of higher priority runs if there is
    /// one.
    pub(super) fn serve(&mut self, app: &App, source: HandlerId) {
        if app.is_tick(source) {
            count_if(&mut self.tally.injected_ticks, true);
            self.tick(app);
            return;
        }
        self.come(app, source);
        if self.may_switch() {
            self.preempt();
        }
    }

    /// Whether a base interrupt comes at a later tick, or a handler is raised.
    pub(super) fn is_interrupt_to_come(&self, app: &App) -> bool {
        let is_in_file = app
            .interrupts()
            .iter()
            .any(|interrupt| interrupt.tick as u64 > self.elapsed);
        is_in_file || self.is_any_raised()
    }
}
