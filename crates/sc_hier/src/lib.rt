//! Hierarchical texts of decks.
//!
//! A text is gathered in one buffer of fixed size, so that a short line costs no call of the sink. Nothing here takes memory.
#![tactic(auto)]

mod gate_line;
mod gathered;
mod item;
mod signature;
mod write;

pub use gathered::Gathered;
pub use signature::push_heading;
pub use write::write_hier;
