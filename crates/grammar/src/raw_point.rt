//! Entries of points while they are read.
ghost use Rattle.std.specs.Prelude.{◌≤◌};
ghost use Rattle.model.specs.Scripts.{last_point};

use arrayvec::ArrayVec;

/// An injection whose handler is still a name.
#[derive(Clone, Copy)]
pub struct RawInjection<'a> {
    pub step: u32,
    pub handler: &'a [u8],
    pub ghost in_range: { step ≤ last_point },
}

impl Default for RawInjection<'_> {
    /// What lies in a place of a list that is taken by none.
    fn default() -> Self {
        RawInjection {
            step: 0,
            handler: &[],
        }
    }
}

/// A range of steps whose handler is still a name: from the first to the last, both included.
#[derive(Clone, Copy)]
pub struct RawRange<'a> {
    pub handler: &'a [u8],
    pub first: u32,
    pub last: u32,
}

/// An entry of points whose handlers are still names.
#[derive(Drop)]
pub enum RawPoint<'a> {
    /// A point of these injections.
    One(ArrayVec<RawInjection<'a>, 3>),
    /// The points of a handler before each of these steps.
    Each(RawRange<'a>),
}
