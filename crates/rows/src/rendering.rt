//! The text of rows: pieces of them, rendered by one thread or by several side by side.
mod inbox;
mod lanes;
mod part_events;
mod piece;
mod renderer;
mod row_texts;
mod side_by_side;
mod stretches;
mod writing;

pub use writing::{write_report, write_report_in_threads};
