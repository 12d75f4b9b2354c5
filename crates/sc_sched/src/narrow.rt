//! Gates that no region has room for.
ghost use Rattle.std.specs.Prelude.{◌<◌, ◌≤◌, ℕ, length, IfSome, IfNone};
ghost use Rattle.sc_sched.specs.Gates.{arity_at};
ghost use Rattle.sc_sched.specs.PrioritySchedules.{NoneIsWider};

use sc_gate::{Gate, arity};

/// The position of the first gate with more than d qubits.
pub(crate) fn first_wider(gates: &[Gate], d: u32) -> Option<u32>
    requires { length gates.now ≤ 4194304 }
    ensures wider { IfSome result (λ x. (x < length gates.now) × (d < arity_at gates.now x)) }
    ensures first { IfSome result (λ x. (y : ℕ) → y < x → arity_at gates.now y ≤ d) }
    ensures none { IfNone result (NoneIsWider d gates.now) }
{
    for (x, gate) in gates.iter().enumerate() {
        if arity(&gate.kind) > d {
            return Some(x as u32);
        }
    }
    None
}
