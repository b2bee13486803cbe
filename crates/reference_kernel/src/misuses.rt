//! What a task must not do.

use super::{ReferenceKernel, Status, count_if};
use model::{App, End, Misuse, Op, TaskId};

/// Whether an op is allowed while the scheduler is suspended: it wakes no task, doesn't wait and doesn't yield.
fn may_be_held(op: Op) -> bool {
    matches!(
        op,
        Op::Work(_)
            | Op::Repeat(_)
            | Op::End
            | Op::If(_)
            | Op::Else
            | Op::EndIf
            | Op::Break
            | Op::Mark(_)
            | Op::Expect(_)
            | Op::Time
            | Op::Stamp
            | Op::Since
            | Op::MessagesWaiting(_)
            | Op::SpacesAvailable(_)
            | Op::GetBits(_)
            | Op::ClearBits(_, _)
            | Op::ClearNotification(_)
            | Op::SuspendAll
            | Op::ResumeAll
            | Op::EnterCritical
            | Op::ExitCritical
            | Op::Value(_)
            | Op::Source(_, _)
    )
}

/// Whether an op is allowed in a critical section. It must be allowed while the scheduler is suspended, let no tick pass, and
/// neither suspend nor resume the scheduler.
fn may_be_critical(op: Op) -> bool {
    may_be_held(op) && !matches!(op, Op::Work(_) | Op::SuspendAll | Op::ResumeAll)
}

impl ReferenceKernel {
    /// Whether an op gives back a mutex that the task doesn't hold.
    fn is_by_other(&self, id: TaskId, op: Op) -> bool {
        match op {
            Op::GiveMutex(mutex) => self.holder_of(mutex.number) != Some(id),
            _ => false,
        }
    }

    /// The misuse by the running task's op, if there is one. If several apply, the first is returned.
    fn misuse(&self, app: &App, id: TaskId) -> Option<Misuse> {
        let op = app.op(id, self.task(id).op_index)?;
        let is_suspended = self.is_scheduler_suspended();
        let is_critical = self.is_critical();
        let may_be_held = may_be_held(op);
        let is_by_other = self.is_by_other(id, op);
        if is_suspended && !may_be_held {
            Some(Misuse::WhileSuspended)
        } else if !is_suspended && op == Op::ResumeAll {
            Some(Misuse::NotSuspended)
        } else if is_by_other {
            Some(Misuse::NotHolder)
        } else if is_critical && !may_be_critical(op) {
            Some(Misuse::WhileCritical)
        } else if !is_critical && op == Op::ExitCritical {
            Some(Misuse::NotCritical)
        } else {
            None
        }
    }

    fn count_misuse(&mut self, misuse: Misuse) {
        let count = match misuse {
            Misuse::WhileSuspended => &mut self.tally.while_suspended,
            Misuse::NotSuspended => &mut self.tally.not_suspended,
            Misuse::NotHolder => &mut self.tally.not_holder,
            Misuse::EndedSuspended => &mut self.tally.ended_suspended,
            Misuse::WhileCritical => &mut self.tally.while_critical,
            Misuse::NotCritical => &mut self.tally.not_critical,
            Misuse::EndedCritical => &mut self.tally.ended_critical,
        };
        count_if(count, true);
    }

    /// Ends the run with a misuse by the op at this index.
    fn stop(&mut self, id: TaskId, op_index: u16, misuse: Misuse) {
        self.stopped = Some(End::Misuse(id, op_index, misuse));
        self.count_misuse(misuse);
    }

    /// A task must not reach its end while the scheduler is suspended or a critical section is open.
    fn stop_at_end(&mut self, id: TaskId, op_index: u16) {
        let task = self.task(id);
        let is_ended = matches!(task.status, Status::Ended);
        if is_ended && self.is_scheduler_suspended() {
            self.stop(id, op_index, Misuse::EndedSuspended);
        } else if is_ended && self.is_critical() {
            self.stop(id, op_index, Misuse::EndedCritical);
        }
    }

    /// The running task does its op, or ends the run with a misuse. If the op has no value to work with, it is a failed check.
    pub(super) fn act_unless_misuse(&mut self, app: &App, id: TaskId, op: Op) {
        let op_index = self.task(id).op_index;
        match self.misuse(app, id) {
            Some(misuse) => self.stop(id, op_index, misuse),
            None if self.is_without_value(app, id) => self.fail(End::Check(id, op_index)),
            None => {
                self.act(app, id, op);
                self.stop_at_end(id, op_index);
            }
        }
    }
}
