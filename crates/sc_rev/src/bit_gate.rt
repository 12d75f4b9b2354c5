//! The gates of which classical functions are made.
ghost use Rattle.std.specs.Prelude.{◌≡◌};
ghost use Rattle.sc_rev.specs.Cells.{gate_of};

use sc_gate::{Gate, Kind, Wire};

/// A gate on local qubits, given by their numbers. The controls come first and the target last.
#[derive(Clone, Copy, Debug, PartialEq, Eq)]
pub enum BitGate {
    X(u32),
    Cnot(u32, u32),
    Toffoli(u32, u32, u32),
}

impl BitGate {
    /// The gate on the qubits of these numbers.
    pub fn gate(self) -> Gate
        ensures { result ≡ gate_of self }
    {
        match self {
            BitGate::X(t) => Gate::one(Kind::X, Wire::qubit(t)),
            BitGate::Cnot(a, t) => Gate::two(Kind::Cnot, Wire::qubit(a), Wire::qubit(t)),
            BitGate::Toffoli(a, b, t) => {
                Gate::three(
                    Kind::Toffoli,
                    Wire::qubit(a),
                    Wire::qubit(b),
                    Wire::qubit(t),
                )
            }
        }
    }
}
