//! What the rows of a campaign are made of.
use deal::Tally;
use model::{App, Point};
use report::View;
use shelf::Shelf;

/// What all workers of a campaign share: the application, the shelf from which its rows are run,
/// how much of them is kept, their points, and the tally that counts them.
#[derive(Clone, Copy)]
pub(crate) struct Setup<'a> {
    pub(crate) app: &'a App,
    pub(crate) shelf: &'a Shelf,
    pub(crate) view: &'a View,
    pub(crate) points: &'a [Point],
    pub(crate) tally: &'a Tally,
}
