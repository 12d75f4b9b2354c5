//! The gate lists that stand in the place of Toffoli and Fredkin gates.
#![tactic(auto)]

pub mod laws;
mod lists;

pub use lists::{fredkin, toffoli};
