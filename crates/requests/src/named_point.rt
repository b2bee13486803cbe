//! A point that is asked for.
ghost use Rattle.std.specs.Prelude.{◌≡◌, true};
ghost use Rattle.requests.specs.Asked.{is_rising, pairs_in};

use crate::at::{At, NamedInjections};

/// An injection point whose handlers are names: its injections are in the order of their steps.
#[derive(Clone, Copy, PartialEq, Eq)]
pub struct NamedPoint<'a> {
    pub injections: NamedInjections<'a>,
    pub ghost in_order: { is_rising (pairs_in injections) ≡ true },
}

impl<'a> NamedPoint<'a> {
    ghost use Rattle.std.specs.Prelude.{◌∷◌, []};
    ghost use Rattle.requests.specs.Asked.{names_in};
    ghost use Rattle.requests.specs.Names.{name_at};

    /// The point of one injection.
    pub fn one(step: u32, handler: &'a str) -> NamedPoint<'a>
        ensures { pairs_in result.injections ≡ record { step = step; handler = handler.entry.now } ∷ [] }
    {
        NamedPoint {
            injections: NamedInjections::One(At { step, handler }),
        }
    }

    /// The name of the handler in this place, from 0; empty if there are not that many injections.
    pub fn handler(&self, place: usize) -> &'a str
        ensures { result.now ≡ name_at place (names_in (pairs_in self.now.injections)) }
    {
        match self.injections {
            NamedInjections::One(first) => match place {
                0 => first.handler,
                _ => "",
            },
            NamedInjections::Two(first, second) => match place {
                0 => first.handler,
                1 => second.handler,
                _ => "",
            },
            NamedInjections::Three(first, second, third) => match place {
                0 => first.handler,
                1 => second.handler,
                2 => third.handler,
                _ => "",
            },
        }
    }
}
