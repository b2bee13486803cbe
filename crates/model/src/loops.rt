//! Loops of a script.

/// A loop that is open (profile).
#[derive(Clone, Copy, Default, PartialEq, Eq)]
pub struct Loop {
    /// The index of the op at which its turns begin.
    pub start: u16,
    /// How many turns are left, this one included; `None` is forever.
    pub left: Option<u16>,
}
