//! A number in decimal digits; all but the last were spelled before.
ghost use Rattle.std.specs.Prelude.{◌≡◌, ◌≤◌, ◌++◌, ◌∷◌, [], take};

use std::marker::Model;

/// The digits of a number: all but the last at the front of 16 bytes, and the last.
///
/// Those at the front stay the same for ten numbers in turn, so they are copied, 16 bytes at once, and not spelled again.
#[derive(Drop)]
pub struct Numeral<'a> {
    pub(crate) front: &'a [u8; 16],
    pub(crate) len: usize,
    pub(crate) last: u8,
}

// Clauses see the digits.
impl<'a> Model for Numeral<'a> {
    ghost use Rattle.std.specs.Prelude.{ℕ, List, [], ◌∷◌, ◌++◌, ◌≤◌, take};

    ghost Value = { List ℕ };

    ghost view = { λ n. take n.len n.front.now ++ n.last ∷ [] };

    ghost invariant = { λ n. n.len ≤ 10 };
}

impl<'a> Numeral<'a> {
    /// The digits: this many at the front of these bytes, at most 10, the last of which is this one.
    #[inline]
    pub fn new(front: &'a [u8; 16], len: usize, last: u8) -> Numeral<'a>
        requires { len ≤ 10 }
        ensures { result ≡ take len front.now ++ last ∷ [] }
    {
        Numeral { front, len, last }
    }
}
