//! Loops and branches. A search of the script finds the next op.

use super::{ReferenceKernel, Task, count_if};
use model::{AnswerCondition, App, End, Loop, Op, Script, TaskId};

/// The op at which a task continues when it leaves the branch or loop whose first op is this one: the op after its `else` or its
/// `end`. Nested blocks are skipped whole.
fn behind_block(app: &App, id: TaskId, first: u16) -> u16 {
    let mut opened = 0_u16;
    for index in first..Script::MOST_OPS as u16 {
        match app.op(id, index) {
            Some(Op::Repeat(_) | Op::If(_)) => opened = opened.wrapping_add(1),
            Some(Op::Else | Op::End | Op::EndIf) if opened == 0 => return index.wrapping_add(1),
            Some(Op::End | Op::EndIf) => opened = opened.wrapping_sub(1),
            _ => {}
        }
    }
    0
}

impl ReferenceKernel {
    /// Counts a jump that reached the end of the script.
    fn count_end(&mut self, id: TaskId) {
        let is_over = self.is_ended(id);
        count_if(&mut self.tally.ending_jumps, is_over);
    }

    /// Stores the task's new state, and leaves the branch or loop whose first op is this one.
    fn leave_block(&mut self, app: &App, id: TaskId, first: u16, task: Task) {
        let next = behind_block(app, id, first);
        self.go_to(app, id, next, task);
        self.count_end(id);
    }

    // ---- branches

    fn count_branch(&mut self, is_taken: bool) {
        count_if(&mut self.tally.taken_branches, is_taken);
        count_if(&mut self.tally.skipped_branches, !is_taken);
    }

    /// `if`.
    pub(super) fn branch(&mut self, app: &App, id: TaskId, condition: AnswerCondition) {
        let task = self.task(id);
        let is_taken = self.is_so(condition, task.answer);
        self.count_condition(condition);
        self.count_branch(is_taken);
        if is_taken {
            self.complete(app, id, task);
        } else {
            self.leave_block(app, id, task.op_index.wrapping_add(1), task);
        }
    }

    /// `else`: the first branch is over.
    pub(super) fn skip_other_branch(&mut self, app: &App, id: TaskId) {
        let task = self.task(id);
        count_if(&mut self.tally.skipped_others, true);
        self.leave_block(app, id, task.op_index.wrapping_add(1), task);
    }

    /// `expect`.
    pub(super) fn expect(&mut self, app: &App, id: TaskId, condition: AnswerCondition) {
        let task = self.task(id);
        self.count_condition(condition);
        if self.is_so(condition, task.answer) {
            self.complete(app, id, task);
        } else {
            self.fail(End::Check(id, task.op_index));
        }
    }

    // ---- loops

    /// `repeat`.
    pub(super) fn open_loop(&mut self, app: &App, id: TaskId, turns: Option<u16>) {
        let mut task = self.task(id);
        let nesting = task.nesting;
        let start = task.op_index.wrapping_add(1);
        if let Some(cell) = task.loops.get_mut(nesting) {
            *cell = Loop { start, left: turns };
        }
        task.nesting = nesting.wrapping_add(1);
        self.complete(app, id, task);
    }

    /// The innermost loop of a task, which is the last of them.
    fn innermost(task: &Task) -> Loop {
        let outer = task.nesting.wrapping_sub(1);
        task.loops.get(outer).copied().unwrap_or_default()
    }

    /// The `end` of a loop.
    pub(super) fn close_turn(&mut self, app: &App, id: TaskId) {
        let mut task = self.task(id);
        let outer = task.nesting.wrapping_sub(1);
        let innermost = Self::innermost(&task);
        let left = match innermost.left {
            None => None,
            Some(left) => Some(left.wrapping_sub(1)),
        };
        count_if(&mut self.tally.turns_for_ever, left.is_none());
        if left == Some(0) {
            task.nesting = outer;
            self.complete(app, id, task);
            return;
        }
        if let Some(cell) = task.loops.get_mut(outer) {
            cell.left = left;
        }
        self.go_to(app, id, innermost.start, task);
    }

    fn count_break(&mut self, innermost: Loop, nesting: usize) {
        count_if(&mut self.tally.breaks, true);
        count_if(&mut self.tally.breaks_for_ever, innermost.left.is_none());
        count_if(&mut self.tally.inner_breaks, nesting > 1);
    }

    /// `break`.
    pub(super) fn leave_loop(&mut self, app: &App, id: TaskId) {
        let mut task = self.task(id);
        let innermost = Self::innermost(&task);
        self.count_break(innermost, task.nesting);
        task.nesting = task.nesting.wrapping_sub(1);
        self.leave_block(app, id, innermost.start, task);
    }
}
