//! Plans that go on together.
use crate::placement::Placement;

/// Plans of equally many injections, whose runs are at the same kernel: how many they are, and the
/// least of them.
#[derive(Drop)]
pub(crate) struct Batch {
    pub(crate) count: u128,
    pub(crate) least: Placement,
}
