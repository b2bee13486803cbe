//! The states that a worker's rows have visited, and where to look for them.
ghost use Rattle.std.specs.Prelude.{◌≡◌, ◌<◌, [], length, IfSome};
ghost use Rattle.campaign.specs.Visited.{IsPutAt, IsRestAt};

use crate::meeting::ahead::Ahead;
use crate::meeting::meeting_steps::may_look;
use crate::meeting::spacing::Room;
use crate::meeting::visited_state::VisitedState;
use kernel::{Kernel, Snapshot};
use std::alloc::Global;

// This many visited states are kept before any is replaced.
const LEAST_ROOM: usize = 64;

// This many visited states are looked at for one that may be replaced.
const TRIES: usize = 4;

// How many places of the table there are.
const SLOTS: usize = 1 << 15;

// How many places of the table are looked at.
const PROBES: usize = 8;

// The number in a place that has no visited state.
const NO_STATE: u32 = u32::MAX;

/// Visited states, and a table of guesses at which of them may be looked for, by the kernel's hint.
/// Any state may be left out, and any guess be wrong: then a row is run further, to the same end.
#[derive(Drop)]
pub(crate) struct VisitedStates {
    pub(crate) visited: Vec<VisitedState>,
    slots: Vec<u32>,
    closest: u32,
    // The number of the state that is looked at next, whether it may be replaced.
    turn: usize,
}

// The place this far after that of a hint.
fn place(hint: u64, probe: usize) -> usize {
    (hint as usize).wrapping_add(probe) % SLOTS
}

impl VisitedStates {
    /// No visited states. This many steps are between two of a row if they are closest together. If
    /// there is no memory for the table none will be found.
    pub(crate) fn new(alloc: Global, closest: u32) -> VisitedStates
        ensures { result.visited.items ≡ [] }
    {
        VisitedStates {
            visited: Vec::new(alloc),
            slots: vec![in alloc; NO_STATE; SLOTS].unwrap_or(Vec::new(alloc)),
            closest,
            turn: 0,
        }
    }

    /// How each row that reaches this kernel, of this hint, goes on, if it is found to be a visited one.
    pub(crate) fn find(&self, kernel: &Kernel, hint: u64) -> Option<Ahead>
        ensures { IfSome result (IsRestAt self.now.visited.items kernel.now) }
    {
        for probe in 0..PROBES {
            let slot = self.slots.get(place(hint, probe))?;
            let state = self.visited.get(*slot as usize)?;
            if state.hint == hint && kernel.is_at(&state.kernel) {
                return Some(state.rest);
            }
        }
        None
    }

    /// Puts a state, if there is memory for it, of a row whose last injection comes before this
    /// step. If there are many, it takes the place of one that is of no use to this row or to rows
    /// that were injected before it, if such a one is found soon. If there are as many as there is
    /// room for, it takes the place of any. If they are a queue it takes the place of the first one,
    /// and only then. The snapshot of the replaced one is then among the spent ones.
    pub(crate) fn put(
        &mut self,
        state: VisitedState,
        step: u32,
        room: Room,
        spent: &mut Vec<Box<Snapshot>>,
    )
        ensures { IsPutAt self.old.visited.items self.new.visited.items state }
    {
        let hint = state.hint;
        let Some(number) = self.spent(step, room) else {
            let number = self.visited.len();
            if self.visited.push(state).is_ok() {
                self.guess(hint, number);
            }
            return;
        };
        let old = std::mem::replace(&mut self.visited[number], state);
        self.forget(old.hint, number);
        self.guess(hint, number);
        // If there is no memory for that, the snapshot is given back.
        let _ = spent.push(old.kernel);
    }

    // Whether this state is of no use to rows whose last injection comes before this step, or
    // earlier.
    fn is_spent(&self, number: usize, step: u32) -> bool {
        let Some(state) = self.visited.get(number) else {
            return false;
        };
        !may_look(self.closest, step, state.step)
    }

    // The number of the state whose turn it is.
    fn take_turn(&mut self) -> usize
        ensures visited { self.new.visited ≡ self.old.visited }
    {
        let turn = self.turn;
        self.turn = if turn.saturating_add(1) < self.visited.len() {
            turn + 1
        } else {
            0
        };
        turn
    }

    // The number of the state that was put first, if there are this many.
    fn first(&mut self, most: usize) -> Option<usize>
        ensures visited { self.new.visited ≡ self.old.visited }
        ensures within { IfSome result (λ number. number < length self.old.visited.items) }
    {
        let count = self.visited.len();
        if count == 0 || count < most {
            return None;
        }
        let number = self.take_turn();
        Some(number.min(count - 1))
    }

    // The number of a state in place of which another may be put. If there are few states there is
    // none, and if there is room for no more it is any.
    fn spent(&mut self, step: u32, room: Room) -> Option<usize>
        ensures visited { self.new.visited ≡ self.old.visited }
        ensures within { IfSome result (λ number. number < length self.old.visited.items) }
    {
        if room.is_queue {
            return self.first(room.most);
        }
        if self.visited.len() < LEAST_ROOM {
            return None;
        }
        for _ in 0..TRIES {
            let number = self.take_turn();
            if self.is_spent(number, step) && number < self.visited.len() {
                return Some(number);
            }
        }
        if self.visited.len() < room.most {
            return None;
        }
        Some(self.turn.min(self.visited.len() - 1))
    }

    // Of the places to which this hint leads, the first that has this number gets another one.
    // Returns whether one had it.
    fn change(&mut self, hint: u64, number: u32, new: u32) -> bool
        ensures { self.new.visited ≡ self.old.visited }
    {
        for probe in 0..PROBES {
            let Some(slot) = self.slots.get_mut(place(hint, probe)) else {
                return false;
            };
            if *slot == number {
                *slot = new;
                return true;
            }
        }
        false
    }

    // The state of this number, which had this hint, is gone.
    fn forget(&mut self, hint: u64, number: usize)
        ensures { self.new.visited ≡ self.old.visited }
    {
        if let Ok(entry) = u32::try_from(number) {
            self.change(hint, entry, NO_STATE);
        }
    }

    // Notes where a state of this hint may be; in place of another one if all places are taken.
    fn guess(&mut self, hint: u64, number: usize)
        ensures { self.new.visited ≡ self.old.visited }
    {
        let Ok(entry) = u32::try_from(number) else {
            return;
        };
        if self.change(hint, NO_STATE, entry) {
            return;
        }
        if let Some(slot) = self.slots.get_mut(place(hint, number % PROBES)) {
            *slot = entry;
        }
    }
}
