//! How much a body unfolds to.

/// The gates, the fresh qubits and the fresh classical bits of a body with all its calls written out.
#[derive(Clone, Copy, Debug, PartialEq, Eq)]
pub struct Size {
    pub gates: u64,
    pub qubits: u32,
    pub cbits: u32,
}
