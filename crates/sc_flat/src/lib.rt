//! The flat text and the flat gate list of a deck, from frames of fixed room.
#![tactic(auto)]

mod expander;
mod frames;
mod number_list;
mod preparing;
mod size;
mod step;
mod walk;
mod wires;

pub use expander::Expander;
pub use preparing::{PrepFault, prepare};
pub use size::Size;
