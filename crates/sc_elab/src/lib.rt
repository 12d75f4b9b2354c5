//! The elaborator: the instances of a source, or why it is refused.
#![tactic(auto)]

mod advance;
mod arguments;
mod callee;
mod declare;
mod elaborator;
mod frame;
mod function;
mod gates;
mod machine;
mod numbers;
mod operands;
mod span;
mod start;
mod todo;

pub use elaborator::elaborate;
pub use sc_meaning::{Choice, ElabFault};
