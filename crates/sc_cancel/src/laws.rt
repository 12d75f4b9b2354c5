//! What is true of all shorter lists.
ghost use Rattle.std.specs.Prelude.{◌≡◌, ◌≤◌, List};
ghost use Rattle.sc_base.specs.declared.names.GateName.{GateName as GateNameValue};
ghost use Rattle.sc_gate.specs.declared.gate.Gate.{Gate as GateValue};
ghost use Rattle.sc_gate.specs.Gates.{AreWellFormed};
ghost use Rattle.sc_cancel.specs.Cancelling.{shorter, gates_at};
ghost use Rattle.sc_cancel.specs.Moves.{Moves, IsReduced, count_of};

/// The shorter list is reached from the whole one by moves: neighbours that share no wire change places, and neighbours that
/// cancel are removed. Between two of its gates that cancel there is one that shares a wire with them. No name stands in it more
/// often than in the whole list.
pub fn shorter_lists()
    ensures moves { (gates : List GateValue) → AreWellFormed gates → Moves gates (gates_at gates (shorter gates)) }
    ensures reduced { (gates : List GateValue) → AreWellFormed gates → IsReduced (gates_at gates (shorter gates)) }
    ensures counts { (gates : List GateValue) → AreWellFormed gates → (name : GateNameValue) →
        count_of name (gates_at gates (shorter gates)) ≤ count_of name gates }
{}
