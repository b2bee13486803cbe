//! The jobs of the program: from the words of the command line and the bytes of a file to what is written, what is printed as a
//! fault, and the status.
#![tactic(auto)]

mod command_line;
mod end_state;
mod exploring;
mod fault_line;
mod host;
mod run_job;

pub use command_line::{conclude_error, obey};
pub use fault_line::tell;
pub use host::Host;
pub use requests::{Job, MostInjections, job_named};
pub use run_job::{JobFault, act, conclude, open_and_act, refuse, status_of};
