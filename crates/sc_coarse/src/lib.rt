//! Coarse schedules: a program too long to list is scheduled instance by instance, and a call holds the machine for as long
//! as its callee takes.
#![tactic(auto)]

mod block;
mod building;
mod coarse;
mod lengths;
mod limits;
mod make;
mod text;

pub use block::Block;
pub use coarse::Coarse;
pub use make::{CoarseFault, coarse_of};
pub use text::write_coarse;
