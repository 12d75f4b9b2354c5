//! What an OpenQASM text says.
use crate::Line;
use sc_base::List;

/// The registers and lines of an OpenQASM text.
#[derive(Debug, Drop)]
pub struct OpenText {
    /// How many qubits the register `q` has. There is no such register where it is 0.
    pub qubits: u32,
    /// How many classical bits the register `c` has. There is no such register where it is 0.
    pub cbits: u32,
    /// Whether there is the register `u` of one classical bit, for measurements whose outcome is not kept.
    pub spare: bool,
    /// The lines behind the registers, in order.
    pub lines: List<Line>,
}
