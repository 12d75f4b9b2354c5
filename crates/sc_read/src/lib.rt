//! The reader of flat texts.
#![tactic(auto)]

mod flat;
mod gate_line;
mod hier;
mod item_line;
pub mod laws;
mod signature;

pub use flat::{FlatFault, FlatText, read_flat};
pub use hier::{HierFault, read_hier};
