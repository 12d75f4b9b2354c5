//! What a source means: its plain run, its refusal, its gates and its instances; and what is true of all runs.
#![tactic(auto)]

mod choice;
mod fault;
pub mod laws;
mod want;

pub use choice::Choice;
pub use fault::ElabFault;
pub use want::{Want, gate_wants};
