//! Wires and gates.
#![tactic(auto)]

mod flat;
mod gate;
pub mod laws;
mod line;
mod slow;
mod times;
mod wire_table;

pub use flat::{write_flat, write_header, write_number_line};
pub use gate::{
    Gate, Kind, Wire, arity, cancels, depends, same_gate, same_kind, well_formed, wire_at,
};
pub use line::{push_wire, write_gate};
pub use slow::slow_critical;
pub use times::Times;
pub use wire_table::{OperandNumbers, WireTable};
