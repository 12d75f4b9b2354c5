//! The two lists.
ghost use Rattle.std.specs.Prelude.{◌≡◌};
ghost use Rattle.sc_gate.specs.Gates.{AreWellFormed};
ghost use Rattle.sc_tables.specs.Tables.{AreThreeQubits, cnot, toffoli_list, fredkin_list};

use sc_gate::{Gate, Kind, Wire};

/// The list for a Toffoli gate with the controls `a` and `b` and the target `c`, which are distinct qubits.
pub fn toffoli(a: Wire, b: Wire, c: Wire) -> [Gate; 15]
    requires { AreThreeQubits a b c }
    ensures list { result ≡ toffoli_list a b c }
    ensures well_formed { AreWellFormed result }
{
    [
        Gate::one(Kind::H, c),
        cnot(b, c),
        Gate::one(Kind::Tdag, c),
        cnot(a, c),
        Gate::one(Kind::T, c),
        cnot(b, c),
        Gate::one(Kind::Tdag, c),
        cnot(a, c),
        Gate::one(Kind::T, b),
        Gate::one(Kind::T, c),
        cnot(a, b),
        Gate::one(Kind::T, a),
        Gate::one(Kind::Tdag, b),
        cnot(a, b),
        Gate::one(Kind::H, c),
    ]
}

fn cnot(a: Wire, b: Wire) -> Gate
    ensures { result ≡ cnot a b }
{
    Gate::two(Kind::Cnot, a, b)
}

/// The list for a Fredkin gate with the control `a` that swaps `b` and `c`, which are distinct qubits.
pub fn fredkin(a: Wire, b: Wire, c: Wire) -> [Gate; 17]
    requires { AreThreeQubits a b c }
    ensures list { result ≡ fredkin_list a b c }
    ensures well_formed { AreWellFormed result }
{
    let mut gates = [cnot(c, b); 17];
    gates[1..16].copy_from_slice(&toffoli(a, b, c));
    gates
}
