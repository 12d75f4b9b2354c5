//! The shorter list, shown and written.
ghost use Rattle.std.specs.Prelude.{◌≡◌, ◌<◌, ◌≤◌, ℕ, List, [], false, length, map, OnOk, IfOk};
ghost use Rattle.std.specs.List.{AllByRecursion};
ghost use Rattle.sc_base.specs.Causes.{HasCause};
ghost use Rattle.sc_base.specs.Output.{Wrote, WrotePrefix};
ghost use Rattle.sc_gate.specs.Gates.{AreWellFormed};
ghost use Rattle.sc_gate.specs.Lines.{gate_lines, flat_text};
ghost use Rattle.sc_probe.specs.Rules.{folded};
ghost use Rattle.sc_cancel.specs.Cancelling.{shorter, gates_at};
ghost use Rattle.sc_cancel.specs.Moves.{Ascend};

use crate::keeping::Kept;
use sc_base::{List as Items, Memory, Sink, WriteFault};
use sc_gate::{Gate, write_gate, write_header};
use sc_probe::{Probe, show as show_gate};
use std::alloc::Global;

/// The positions of the gates that stay when pairs that undo each other are taken out, ascending.
///
/// Each gate is compared with the last one that stays and shares a wire with it. Needs at most 4,194,304 gates, all well formed.
/// Refused for want of memory alone.
pub fn cancel(alloc: Global, gates: &[Gate]) -> Result<Items<u32>, Memory>
    requires size { length gates.now ≤ 4194304 }
    requires well_formed { AreWellFormed gates.now }
    ensures shorter { IfOk result (λ kept. kept ≡ shorter gates.now) }
    ensures ascending { IfOk result (λ kept. Ascend kept) }
    ensures below { IfOk result (λ kept. AllByRecursion (λ p. p < length gates.now) kept) }
{
    let mut kept = Kept::new(alloc, gates)?;
    for gate in gates {
        kept.add(gates, gate)?;
    }
    kept.positions(alloc)
}

/// Shows the gates at these positions to each observer, each once, in order. The positions are below the number of gates.
/// Takes no memory.
pub fn show(gates: &[Gate], kept: &[u32], probes: &mut [Box<dyn Probe>])
    requires { AllByRecursion (λ p. p < length gates.now) kept.now }
    ensures rules { map rule probes.new ≡ map rule probes.old }
    ensures states { map state probes.new ≡ map (λ p. folded (rule p) (state p) (gates_at gates.now kept.now)) probes.old }
{
    for position in kept {
        show_gate(&gates[*position as usize], probes);
    }
}

/// Writes the lines of the gates at these positions.
fn write_gates<O: Sink>(gates: &[Gate], kept: &[u32], out: &mut O) -> Result<(), WriteFault>
    requires open { O.is_ended out.old ≡ false }
    requires below { AllByRecursion (λ p. p < length gates.now) kept.now }
    ensures open { O.is_ended out.new ≡ false }
    ensures appended { OnOk result (Wrote O.tells O.bytes out.old out.new (gate_lines (gates_at gates.now kept.now))) }
    ensures prefix { WrotePrefix O.tells O.bytes out.old out.new (gate_lines (gates_at gates.now kept.now)) }
    ensures cause { HasCause (O.faults out.old) (O.faults out.new) result }
{
    for position in kept {
        write_gate(&gates[*position as usize], out)?;
    }
    Ok(())
}

/// Writes the flat text of so many qubits and classical bits and of the gates at these positions, which are below the number of
/// gates. Takes no memory. At a fault of the sink a prefix of the text is written.
pub fn write_kept<O: Sink>(
    qubits: u32,
    cbits: u32,
    gates: &[Gate],
    kept: &[u32],
    out: &mut O,
) -> Result<(), WriteFault>
    requires open { O.is_ended out.old ≡ false }
    requires below { AllByRecursion (λ p. p < length gates.now) kept.now }
    ensures open { O.is_ended out.new ≡ false }
    ensures appended { OnOk result (Wrote O.tells O.bytes out.old out.new (flat_text qubits cbits (gates_at gates.now kept.now))) }
    ensures prefix { WrotePrefix O.tells O.bytes out.old out.new (flat_text qubits cbits (gates_at gates.now kept.now)) }
    ensures cause { HasCause (O.faults out.old) (O.faults out.new) result }
{
    write_header(
        u128::from(qubits),
        u128::from(cbits),
        kept.len() as u64,
        out,
    )?;
    write_gates(gates, kept, out)?;
    Ok(())
}
