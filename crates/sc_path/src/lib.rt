//! Path tables: the heaviest chains of gates of an instance, from its parameter wires to its parameter wires, by the tables of
//! its callees alone.
#![tactic(auto)]

mod body;
mod fault;
mod front;
pub mod laws;
mod paths;
mod power;
mod row;
mod start;
mod table;

pub use fault::PathFault;
pub use paths::{Paths, critical};
pub use row::{Entry, Row};
pub use table::Table;
