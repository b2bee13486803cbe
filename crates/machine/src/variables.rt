//! The variables that tasks and handlers share.
ghost use Rattle.std.specs.Prelude.{◌≡◌, ◌≤◌, ℕ, List, true, length, slice_set};
ghost use Rattle.model.specs.Ops.{store};
ghost use Rattle.model.specs.Values.{stored};
ghost use Rattle.machine.specs.StandsFor.{Moves, MovesAny};

use crate::hint::mixed;
use crate::machine::Machine;
use arrayvec::ArrayVec;
use model::{ValueOp, VariableId};
use std::marker::Model;

/// What each variable is, in the order of the file; 32 at most.
#[derive(Drop)]
pub struct Variables {
    values: ArrayVec<u32, 32>,
}

// Clauses see the list.
impl Model for Variables {
    ghost use Rattle.std.specs.Prelude.{List, ℕ};

    ghost Value = { List ℕ };

    ghost view = { λ v. v.values.items };
}

impl Variables {
    /// Variables that are these, 32 at most.
    pub(crate) fn new(values: &[u32]) -> Self
        requires { length values.now ≤ 32 }
        ensures { result ≡ values.now }
    {
        let mut variables = Variables {
            values: ArrayVec::new(),
        };
        variables.set(values);
        variables
    }

    // They become these, 32 at most.
    fn set(&mut self, values: &[u32])
        ensures { length values.now ≤ 32 → self.new ≡ values.now }
    {
        self.values.clear();
        let _ = self.values.try_extend_from_slice(values);
    }

    /// What they are.
    #[inline(always)]
    pub fn values(&self) -> &[u32]
        ensures { result.now ≡ self.now }
    {
        self.values.as_slice()
    }

    /// What they are, copied.
    pub fn to_array(&self) -> ArrayVec<u32, 32>
        ensures { result.items ≡ self.now }
    {
        let mut values = ArrayVec::new();
        let _ = values.try_extend_from_slice(self.values.as_slice());
        values
    }

    /// A copy. It takes no memory.
    pub(crate) fn copy(&self) -> Self
        ensures { result ≡ self.now }
    {
        let mut variables = Variables {
            values: ArrayVec::new(),
        };
        variables.set_from(self);
        variables
    }

    /// Becomes a copy of the other, in place. It takes no memory.
    pub(crate) fn set_from(&mut self, other: &Self)
        ensures { self.new ≡ other.now }
    {
        self.set(other.values.as_slice());
    }

    /// This one becomes this number. If there is no such variable nothing changes.
    pub fn store(&mut self, variable: VariableId, value: u32)
        ensures { self.new ≡ slice_set self.old variable.number value }
    {
        if let Some(kept) = self.values.get_mut(variable.number as usize) {
            *kept = value;
        }
    }

    /// Whether the two are the same.
    pub(crate) fn is_same(&self, other: &Self) -> bool
        ensures { result ≡ true → self.now ≡ other.now }
    {
        self.values.as_slice() == other.values.as_slice()
    }

    /// A number that is the same for equal ones, and usually differs for others. Nothing rests on it.
    pub(crate) fn hint(&self) -> u64 {
        let mut hash = 0;
        for value in self.values.as_slice() {
            hash = mixed(hash, *value as u64);
        }
        hash
    }
}

impl Machine {
    /// The result of an op on values is stored, if it says so.
    #[inline]
    pub fn store(&mut self, op: ValueOp, answer: Option<u32>)
        ensures does { Moves self.old self.new (store op answer) }
        ensures any { MovesAny self.old self.new (store op answer) }
        ensures rest { self.new ≡ record self.old { variables = stored op answer self.old.variables } }
    {
        match op {
            ValueOp::Load(_) => {}
            ValueOp::Compute(_, _) => {}
            ValueOp::Store(variable, _) => {
                if let Some(value) = answer {
                    self.variables.store(variable, value);
                }
            }
        }
    }
}
