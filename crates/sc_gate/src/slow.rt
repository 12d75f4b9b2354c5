//! The critical path of small lists, computed plainly.
ghost use Rattle.std.specs.Prelude.{◌≡◌, ◌*◌, ◌≤◌, [], IfSome, length, map};
ghost use Rattle.sc_gate.specs.Chains.{timed, meets, best, more, IsCritical};

use crate::gate::has_wire;
use crate::{Gate, Times, Wire};

/// The critical path of a list of at most 64 gates by these durations. It goes through the chains one by one, so it is
/// for lists of few gates, to compare other programs with.
pub fn slow_critical(gates: &[Gate], times: &Times) -> u64
    requires { length gates.now ≤ 64 }
    ensures { IsCritical (map (timed times.now) gates.now) result }
{
    heaviest(gates, None, times).unwrap_or(0)
}

/// The greatest weight of a chain that starts at the wire, or anywhere; None where there is none.
fn heaviest(gates: &[Gate], from: Option<Wire>, times: &Times) -> Option<u64>
    requires { length gates.now ≤ 64 }
    ensures weight { result ≡ best (map (timed times.now) gates.now) from None }
    ensures bound { IfSome result (λ n. n ≤ 1000000 * length gates.now) }
{
    let Some((gate, rest)) = gates.split_first() else {
        return None;
    };
    let without = heaviest(rest, from, times);
    if !can_start(gate, from) {
        return without;
    }
    let first = heaviest(rest, Some(gate.a), times);
    let second = match gate.b {
        Some(b) => heaviest(rest, Some(b), times),
        None => None,
    };
    let third = match gate.c {
        Some(c) => heaviest(rest, Some(c), times),
        None => None,
    };
    let longer = heavier(first, heavier(second, third)).unwrap_or(0);
    heavier(without, Some(u64::from(times.of(&gate.kind)) + longer))
}

fn can_start(gate: &Gate, from: Option<Wire>) -> bool
    ensures { result ≡ meets (timed [] gate.now) from }
{
    match from {
        Some(wire) => has_wire(gate, wire),
        None => true,
    }
}

fn heavier(a: Option<u64>, b: Option<u64>) -> Option<u64>
    ensures { result ≡ more a b }
{
    match (a, b) {
        (Some(a), Some(b)) => Some(a.max(b)),
        (Some(a), None) => Some(a),
        (None, b) => b,
    }
}
