//! The open loops of a task.
ghost use Rattle.std.specs.Prelude.{◌≡◌, ◌<◌, ◌∷◌, [], length, drop, true};
ghost use Rattle.machine.specs.Loops.{after_turn, next_turn};

use crate::hint::numbered;
use model::Loop;
use std::marker::Model;

/// What is in a cell that holds no open loop.
const NO_LOOP: Loop = Loop {
    start: 0,
    left: None,
};

/// The open loops of a task: at most four (profile). The cells after them keep nothing of closed loops, so loops are copied as
/// they are.
#[derive(Clone, Copy)]
pub struct Loops {
    cells: [Loop; 4],
    nesting: u8,
}

// Clauses see the open loops, the innermost first.
impl Model for Loops {
    ghost use Rattle.std.specs.Prelude.{List, length};
    ghost use Rattle.model.specs.declared.loops.Loop.{Loop};
    ghost use Rattle.machine.specs.Loops.{cells_of, open_in, AreCells};
    ghost use Rattle.machine.specs.Cells.{same_loops};

    ghost Value = { List Loop };

    ghost view = { λ loops. open_in loops.cells loops.nesting };

    ghost inverse = { λ loops. record { cells = cells_of loops; nesting = length loops } };

    ghost inverse_ok = { λ loops cells i. record { cells = (same_loops loops.cells loops.nesting cells).0 i; nesting = (same_loops loops.cells loops.nesting cells).1 i } };

    ghost invariant = { λ loops. AreCells loops.cells loops.nesting };
}

impl Loops {
    /// No open loop.
    pub(crate) fn new() -> Loops
        ensures { result ≡ [] }
    {
        Loops {
            cells: [NO_LOOP; 4],
            nesting: 0,
        }
    }

    /// Whether the same loops are open in the other.
    #[inline(always)]
    pub(crate) fn is_same(&self, other: &Self) -> bool
        ensures { result ≡ true → self.now ≡ other.now }
    {
        if self.nesting != other.nesting {
            return false;
        }
        for level in 0..self.nesting as usize {
            if self.cells[level] != other.cells[level] {
                return false;
            }
        }
        true
    }

    /// Whether no loop is open.
    #[inline(always)]
    pub(crate) fn is_empty(&self) -> bool
        ensures { result ≡ true → self.now ≡ [] }
    {
        self.nesting == 0
    }

    /// What distinguishes them from most others: how many are open, and how many turns of the innermost one are left.
    pub(crate) fn hint(&self) -> u64 {
        let Some(innermost) = self.nesting.checked_sub(1) else {
            return 0;
        };
        let left = self.cells[innermost as usize].left;
        numbered(left.map(u64::from)).wrapping_add(self.nesting as u64)
    }

    /// Opens one more, the innermost.
    pub(crate) fn open(&mut self, innermost: Loop)
        requires { length self.old < 4 }
        ensures { self.new ≡ innermost ∷ self.old }
    {
        self.cells[self.nesting as usize] = innermost;
        self.nesting += 1;
    }

    /// Ends a turn of the innermost loop, and returns the op at which the next turn begins. After the last turn the
    /// loop is closed, and `None` is returned, as if no loop is open.
    pub(crate) fn end_turn(&mut self) -> Option<u16>
        ensures loops { self.new ≡ after_turn self.old }
        ensures next { result ≡ next_turn self.old }
    {
        if self.nesting == 0 {
            return None;
        }
        let innermost = self.nesting - 1;
        let turn = self.cells[innermost as usize];
        let Some(left) = turn.left else {
            return Some(turn.start);
        };
        if left <= 1 {
            self.leave();
            return None;
        }
        self.cells[innermost as usize].left = Some(left - 1);
        Some(turn.start)
    }

    /// The innermost loop is left, if one is open.
    // A call would cost more than what it does.
    #[inline(always)]
    pub(crate) fn leave(&mut self)
        ensures { self.new ≡ drop 1 self.old }
    {
        if self.nesting > 0 {
            self.nesting -= 1;
            self.cells[self.nesting as usize] = NO_LOOP;
        }
    }
}
