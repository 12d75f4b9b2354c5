//! The command.
#![tactic(auto)]

mod coarse;
mod coarsened;
mod count;
mod drill;
mod expand;
mod expansion;
mod fault;
mod flat;
mod hier;
mod listed;
mod lowered;
mod read;
mod reopened;
mod report;
mod run_all;
mod schedule;
mod scheduled;
mod shortened;
mod source;
mod status;
mod tallied;
mod verdict;
mod watch;

pub use drill::drill_source;
pub use fault::{At, Fault, Reason, Refusal};
pub use run_all::run;
pub use sc_words::{Request, WordsFault, read_words};
pub use status::{Ending, Status};
