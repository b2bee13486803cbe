//! The text of a run, and of a campaign.
#![tactic(auto)]

mod base_events;
mod end_state;
mod found;
mod label;
mod labels;
mod laws;
mod lines;
mod run;
mod shard;
mod tens;
mod text;
mod title;
mod view;
mod writer;

pub use base_events::{BaseEvents, EventRenderer};
pub use end_state::write_run_and_end_state;
pub use found::{add_found, add_placements_total};
pub use laws::{
    heads_of_rows, lines_of_totals, plain_view, report_of_delay_one, report_of_each_form,
    report_of_each_hold, report_of_each_notification, report_of_two_unlocks, reports_in_views,
    reports_of_campaigns, rows_of_a_shard, shards_join, undivided_rows, verdicts_of_misuses,
};
pub use run::write_run;
pub use shard::Shard;
pub use title::Title;
pub use view::{Ends, View};
pub use writer::ReportWriter;
