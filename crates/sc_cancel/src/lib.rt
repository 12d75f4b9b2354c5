//! Cancelling: a gate list without the pairs that undo each other.
#![tactic(auto)]

mod keeping;
pub mod laws;
mod shortening;

pub use shortening::{cancel, show, write_kept};
