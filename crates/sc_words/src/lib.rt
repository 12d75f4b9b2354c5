//! The words of the command line: what they ask for.
#![tactic(auto)]

mod request;
mod words;

pub use request::{Request, WordsFault};
pub use words::read_words;
