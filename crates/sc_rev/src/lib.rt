//! The gates of a classical function.
#![tactic(auto)]

mod bit_body;
mod bit_gate;
mod bitwise;
mod choices;
mod draft;
mod equality;
mod expression;
mod function;
pub mod laws;
mod products;
mod rewiring;
mod sums;

pub use bit_body::run_bits;
pub use bit_gate::BitGate;
pub use function::reversible;
