//! The numbers that are counted.

/// What an instance counts with all its calls written out. Its parameters are not among the qubits and classical bits.
#[derive(Clone, Copy, Debug, PartialEq, Eq)]
pub struct Counts {
    /// The number of gates of each name, in the order of names.
    pub kinds: [u128; 18],
    /// The number of all gates.
    pub gates: u128,
    /// The sum of the durations of all gates.
    pub weight: u128,
    /// The sum of the fresh qubits.
    pub qubits: u128,
    /// The sum of the fresh classical bits.
    pub cbits: u128,
    /// The greatest number of live qubits, where a call's own qubits die at its return.
    pub peak: u128,
}
