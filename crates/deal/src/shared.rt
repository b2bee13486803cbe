//! What all lanes of a deal share.
ghost use Rattle.std.specs.Prelude.{◌≡◌, ◌<◌, length};
ghost use Rattle.deal.specs.Divisions.{AreStarts};
ghost use Rattle.deal.specs.Sharing.{IsTheBlock};

use crate::count::Count;
use crate::division::Division;
use crate::next::Next;

/// The count of the blocks handed out, the division, and the first point of each block.
#[derive(Drop)]
pub struct Shared {
    pub count: Count,
    pub division: Division,
    pub starts: Vec<usize>,
}

impl Shared {
    /// The number of blocks.
    pub fn blocks(&self) -> u64
        ensures { result ≡ length self.now.division }
    {
        self.division.count() as u64
    }

    /// A block, as a lane returns it.
    pub fn block(&self, number: usize) -> Next
        requires number { number < length self.now.division }
        requires starts { AreStarts self.now.division self.now.starts.items }
        ensures { IsTheBlock self.now.division number result }
    {
        Next::Block {
            number,
            first: self.starts[number],
            length: self.division.length(number),
        }
    }
}
