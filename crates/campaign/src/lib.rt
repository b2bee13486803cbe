//! Campaigns: the application of a file's bytes, a row for each of its injection points, and their report; and the report of
//! one run.
#![tactic(auto)]

mod all_rows;
mod bytes_to_report;
mod file;
mod gate;
mod meeting;
mod named;
mod one_run;
mod points;
mod recent;
mod setup;
mod tallying;
mod worker;
mod worker_results;

pub use all_rows::{Finished, campaign};
pub use bytes_to_report::{Request, serve, serve_of};
pub use file::{ServeFault, app_in};
pub use gate::{Gate, NoGate};
pub use named::point_named;
pub use one_run::{row_of, serve_run, serve_run_of};
pub use points::{ExpandFault, expand};
pub use requests::{At, BadOption, NamedInjections, NamedPoint, Options};
pub use rows::{Report, write_report, write_report_in_threads};
