//! The list that a node is in, or none.
ghost use Rattle.std.specs.Prelude.{◌≡◌, ◌<◌, Some, None, not, true};
ghost use Rattle.std.specs.Option.{is_some};

use crate::words::word_of;
use std::marker::Model;

/// The number of a list, 0 to 65534, or none. It takes two bytes; an `Option<u16>` takes four.
#[derive(Clone, Copy)]
pub(crate) struct Link {
    // 65535 if there is none.
    number: u16,
}

// Clauses see the number, if there is one.
impl Model for Link {
    ghost use Rattle.std.specs.Prelude.{ℕ, Option};
    ghost use Rattle.lists.specs.Links.{led_to, number_of};

    ghost Value = { Option ℕ };

    ghost view = { λ link. led_to link.number };

    ghost inverse = { λ to. record { number = number_of to } };
}

impl Link {
    /// None.
    #[inline(always)]
    pub(crate) fn none() -> Self
        ensures none { result ≡ None }
    {
        Link { number: u16::MAX }
    }

    /// A link to this number, which is below 65535.
    #[inline(always)]
    pub(crate) fn to(number: u16) -> Self
        requires { number < 65535 }
        ensures to { result ≡ Some number }
    {
        Link { number }
    }

    /// The number that it leads to.
    #[inline(always)]
    pub(crate) fn number(self) -> Option<u16>
        ensures number { result ≡ self }
    {
        if self.number == u16::MAX {
            return None;
        }
        Some(self.number)
    }

    /// Whether it leads anywhere.
    #[inline(always)]
    pub(crate) fn is_some(self) -> bool
        ensures { result ≡ is_some self }
    {
        self.number != u16::MAX
    }

    /// Whether it leads nowhere.
    #[inline(always)]
    pub(crate) fn is_none(self) -> bool
        ensures { result ≡ not (is_some self) }
    {
        self.number == u16::MAX
    }
}

/// Whether none of four links leads anywhere. They are looked at as one number.
#[inline(always)]
pub(crate) fn are_none(first: Link, second: Link, third: Link, fourth: Link) -> bool
    ensures first { result ≡ true → first ≡ None }
    ensures second { result ≡ true → second ≡ None }
    ensures third { result ≡ true → third ≡ None }
    ensures fourth { result ≡ true → fourth ≡ None }
{
    word_of(first.number, second.number, third.number, fourth.number) == u64::MAX
}
