//! Counts of the instances of a deck: gates by name, their weight, fresh wires, and the greatest number of live qubits.
#![tactic(auto)]

mod counts;
pub mod laws;
mod running;
mod tally;

pub use counts::Counts;
pub use tally::{Tally, TallyFault, tally_deck};
