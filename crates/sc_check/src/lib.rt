//! The checker of schedules, and the reader of their texts.
#![tactic(auto)]

mod early;
mod finding;
mod laws;
mod places;
mod reader;
mod steps;
mod text_reader;

pub use finding::{Finding, verdict};
pub use laws::{texts_are_read_one_way, written_texts_are_read};
pub use text_reader::{SchedReadFault, read_schedule};
