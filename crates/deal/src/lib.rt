//! Blocks of work that several lanes take, each in a thread of its own, and counts that they all add to.
#![tactic(auto)]

mod count;
mod deal;
mod dealt;
mod division;
mod hand;
mod hands;
mod lane;
mod log;
mod next;
mod part;
mod reach;
mod shared;
mod tally;
mod words;

pub use deal::{Closed, Deal};
pub use division::{BadDivision, Division};
pub use lane::Lane;
pub use next::Next;
pub use tally::{Counts, KINDS, SeatsMissing, Tally, TallySeat};
