//! The injections of a placement, and their order.
ghost use Rattle.std.specs.Prelude.{◌≡◌, ◌≤◌, ◌+◌, [], ◌++◌, length};
ghost use Rattle.model.specs.Placements as definitions;

use arrayvec::ArrayVec;
use model::{HandlerId, Injection};
use std::marker::Model;

/// The injections of a placement, in the order in which they come: three at most (profile).
#[derive(Drop)]
pub struct Placement {
    injections: ArrayVec<Injection, 3>,
}

// Clauses see the list of them.
impl Model for Placement {
    ghost use Rattle.std.specs.Prelude.{◌≤◌, List, length};
    ghost use Rattle.model.specs.declared.plan.Injection.{Injection};

    ghost Value = { List Injection };

    ghost view = { λ p. p.injections.items };

    ghost invariant = { λ p. length p.injections.items ≤ 3 };
}

impl Placement {
    /// That of no injection.
    pub fn none() -> Placement
        ensures { result ≡ [] }
    {
        Placement {
            injections: ArrayVec::new(),
        }
    }

    /// The injections, in order.
    pub fn as_slice(&self) -> &[Injection]
        ensures value { result.now ≡ self.now }
        ensures few { length result.now ≤ 3 }
    {
        self.injections.as_slice()
    }

    /// How many there are.
    pub fn len(&self) -> usize
        ensures { result ≡ length self.now }
    {
        self.injections.len()
    }

    // The injections once more.
    fn copied(&self) -> ArrayVec<Injection, 3>
        ensures { result.items ≡ self.now }
    {
        let mut all = ArrayVec::new();
        for injection in self.injections.as_slice() {
            let Injection { step, handler } = *injection;
            all.push(Injection { step, handler });
        }
        all
    }

    /// The same once more.
    pub(crate) fn copy(&self) -> Placement
        ensures { result ≡ self.now }
    {
        Placement {
            injections: self.copied(),
        }
    }

    /// With these handlers, before this step, added at the end.
    pub(crate) fn followed_by(&self, step: u32, handlers: &[HandlerId]) -> Placement
        requires { length self.now + length handlers.now ≤ 3 }
        ensures { result ≡ self.now ++ definitions.before_this step handlers.now }
    {
        let mut all = self.copied();
        for handler in handlers {
            let handler = *handler;
            all.push(Injection { step, handler });
        }
        Placement { injections: all }
    }

    /// Whether it is less than the other: it has fewer injections, or as many, and of the first two that differ its own comes
    /// before an earlier step, or is of a handler that is earlier in the file.
    pub fn is_less(&self, other: &Placement) -> bool
        ensures { result ≡ definitions.is_less self.now other.now }
    {
        if self.len() != other.len() {
            return self.len() < other.len();
        }
        is_below(self.as_slice(), other.as_slice())
    }
}

// Whether the one injection comes before the other.
fn is_sooner(one: &Injection, other: &Injection) -> bool
    ensures { result ≡ definitions.is_sooner one.now other.now }
{
    one.step < other.step || (one.step == other.step && one.handler.number < other.handler.number)
}

// Whether the one injection is the other.
fn is_same(one: &Injection, other: &Injection) -> bool
    ensures { result ≡ definitions.is_same_injection one.now other.now }
{
    one.step == other.step && one.handler.number == other.handler.number
}

// Whether of two lists of as many injections the one is less.
fn is_below(ones: &[Injection], others: &[Injection]) -> bool
    ensures { result ≡ definitions.is_below ones.now others.now }
{
    let [one, more @ ..] = ones else {
        return false;
    };
    let [other, rest @ ..] = others else {
        return false;
    };
    is_sooner(one, other) || (is_same(one, other) && is_below(more, rest))
}
