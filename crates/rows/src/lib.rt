//! The rows of a campaign: how they are kept, and the text of their report, which threads render side by side.
#![tactic(auto)]

mod campaign_report;
mod cursor;
mod kept_rows;
mod link;
mod placing;
mod rendering;
mod rows;

pub use campaign_report::{Report, Rows};
pub use kept_rows::KeptRows;
pub use link::{Leg, Link};
pub use placing::places_of;
pub use rendering::{write_report, write_report_in_threads};
pub use rows::{KeptBlock, KeptRow, Part, Place};
