//! What the two lists do, and what stands in the place of each gate.
ghost use Rattle.std.specs.List.{AllByRecursion};
ghost use Rattle.sc_gate.specs.declared.gate.Gate.{Gate};
ghost use Rattle.sc_gate.specs.Gates.{IsWellFormed, AreWellFormed};
ghost use Rattle.sc_tables.specs.Tables.{ToffoliPhase, FredkinSwap};
ghost use Rattle.sc_tables.specs.Replacing.{replaced, HasOperandsOf};

/// Without its two H gates the Toffoli list brings three bits back to themselves with the phase `4abc` modulo 8.
pub fn toffoli_phase()
    ensures { ToffoliPhase }
{}

/// With its Toffoli kept the Fredkin list swaps `b` and `c` exactly where `a` is 1.
pub fn fredkin_swap()
    ensures { FredkinSwap }
{}

/// The gates in the place of a well-formed gate are well formed, and each of their operands is one of the gate's.
pub fn replaced_gates()
    ensures well_formed { (gate : Gate) → IsWellFormed gate → AreWellFormed (replaced gate) }
    ensures operands { (gate : Gate) → AllByRecursion (HasOperandsOf gate) (replaced gate) }
{}
