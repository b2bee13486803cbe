//! Event groups: bits that tasks set, clear and wait for.

use super::{Call, ReferenceKernel, Status, Task, count_if};
use model::{App, Condition, GroupId, Phase, TaskId};

/// A wait for bits of a group that is in progress.
#[derive(Clone, Copy)]
pub(super) struct BitWait {
    group: GroupId,
    condition: Condition,
    pub(super) deadline: Option<u64>,
    pub(super) ticket: u64,
}

/// Whether these bits meet a condition.
fn is_met(bits: u32, condition: Condition) -> bool {
    let found = bits & condition.mask;
    if condition.all {
        found == condition.mask
    } else {
        found != 0
    }
}

impl ReferenceKernel {
    /// Which bits of a group are set.
    pub(super) fn bits(&self, group: GroupId) -> u32 {
        self.groups[group.number as usize]
    }

    /// Sets exactly these bits of a group.
    pub(super) fn put(&mut self, group: GroupId, bits: u32) {
        self.groups[group.number as usize] = bits;
    }

    /// The waiting task of a group that these bits meet and whose wait began first.
    fn first_met(&self, group: GroupId, bits: u32) -> Option<TaskId> {
        let mut best = None;
        for number in 0..32 {
            let Status::WaitingForBits(wait) = self.task(TaskId { number }).status else {
                continue;
            };
            if wait.group != group || !is_met(bits, wait.condition) {
                continue;
            }
            if best.is_none_or(|(_, other)| wait.ticket < other) {
                best = Some((number, wait.ticket));
            }
        }
        let (number, _) = best?;
        TaskId::new(number)
    }

    /// Makes a task that waits for bits Ready. Its call will return these bits. Returns those of them that the call asked to clear.
    fn wake_with(&mut self, id: TaskId, bits: u32) -> u32 {
        let Status::WaitingForBits(wait) = self.task(id).status else {
            return 0;
        };
        let call = self.task(id).call;
        let kept = Some(bits);
        self.set_call(id, Call { kept, ..call });
        count_if(&mut self.tally.wakes, true);
        self.make_ready(id);
        if wait.condition.clear {
            wait.condition.mask
        } else {
            0
        }
    }

    /// Holds the scheduler, and sets bits of a group. Each task that they meet wakes and sees all of them. Only after that are the
    /// bits cleared that these tasks asked to clear.
    pub(super) fn begin_set(&mut self, id: TaskId, group: GroupId, mask: u32) {
        self.is_held = true;
        let bits = self.bits(group) | mask;
        let mut met: u32 = 0;
        let mut asked = 0;
        for _ in 0..32 {
            let Some(waiter) = self.first_met(group, bits) else {
                break;
            };
            asked |= self.wake_with(waiter, bits);
            met = met.wrapping_add(1);
        }
        self.put(group, bits & !asked);
        count_if(&mut self.tally.crowded_sets, met > 1);
        count_if(&mut self.tally.clearing_sets, asked != 0);
        self.set_phase(id, Phase::Leave);
    }

    /// `set` does its next phase: the first sets the bits, the second ends the hold and returns.
    pub(super) fn set_bits(&mut self, app: &App, id: TaskId, group: GroupId, mask: u32) {
        if self.task(id).call.phase == Phase::Start {
            self.begin_set(id, group, mask);
        } else {
            self.end_hold();
            self.answer(app, id, Some(self.bits(group)));
            self.preempt();
        }
    }

    /// `clear`, which returns the bits that were set before.
    pub(super) fn clear_bits(&mut self, app: &App, id: TaskId, group: GroupId, mask: u32) {
        let bits = self.bits(group);
        self.put(group, bits & !mask);
        self.answer(app, id, Some(bits));
    }

    /// The call returns the present bits. If they meet a condition that clears, the bits of its mask are cleared.
    fn answer_bits(&mut self, app: &App, id: TaskId, group: GroupId, condition: Condition) {
        let bits = self.bits(group);
        if condition.clear && is_met(bits, condition) {
            self.put(group, bits & !condition.mask);
        }
        self.answer(app, id, Some(bits));
    }

    /// Holds the scheduler, and the task begins to wait for bits.
    fn begin_wait(&mut self, id: TaskId, group: GroupId, condition: Condition, ticks: Option<u32>) {
        self.is_held = true;
        self.set_phase(id, Phase::Leave);
        let wait = BitWait {
            group,
            condition,
            deadline: self.deadline_after(ticks),
            ticket: self.take_ticket(),
        };
        let status = Status::WaitingForBits(wait);
        self.set(
            id,
            Task {
                status,
                ..self.task(id)
            },
        );
    }

    /// The last phase of a wait returns the bits that the set kept for it, or otherwise the present bits.
    fn end_wait(&mut self, app: &App, id: TaskId, group: GroupId, condition: Condition) {
        match self.task(id).call.kept {
            Some(bits) => self.answer(app, id, Some(bits)),
            None => self.answer_bits(app, id, group, condition),
        }
    }

    /// `wait` does its next phase.
    pub(super) fn wait_for_bits(
        &mut self,
        app: &App,
        id: TaskId,
        group: GroupId,
        condition: Condition,
        ticks: Option<u32>,
    ) {
        match self.task(id).call.phase {
            Phase::Start if is_met(self.bits(group), condition) || ticks == Some(0) => {
                self.answer_bits(app, id, group, condition);
            }
            Phase::Start => self.begin_wait(id, group, condition, ticks),
            Phase::Leave => {
                self.end_hold();
                self.set_phase(id, Phase::Try);
                self.choose();
            }
            _ => self.end_wait(app, id, group, condition),
        }
    }
}
