//! Gates that are shown to boxed observers.
ghost use Rattle.std.specs.Prelude.{◌≡◌, ℕ, List, map, length, IfOk};
ghost use Rattle.sc_probe.specs.Rules.{step, folded, state_text};

use crate::Probe;
use sc_base::{List as Items, Memory, Text};
use sc_gate::Gate;
use std::alloc::Global;

fn show_one(probe: &mut Box<dyn Probe>, gate: &Gate)
    ensures rule { rule probe.new ≡ rule probe.old }
    ensures state { state probe.new ≡ step (rule probe.old) (state probe.old) gate.now }
{
    probe.see(gate);
}

/// Shows one gate to each observer, in their order. Takes no memory.
pub fn show(gate: &Gate, probes: &mut [Box<dyn Probe>])
    ensures rules { map rule probes.new ≡ map rule probes.old }
    ensures states { map state probes.new ≡ map (λ p. step (rule p) (state p) gate.now) probes.old }
{
    for probe in probes.iter_mut() {
        show_one(probe, gate);
    }
}

/// Shows each gate to each observer, gate by gate. Takes no memory.
pub fn show_all(gates: &[Gate], probes: &mut [Box<dyn Probe>])
    ensures rules { map rule probes.new ≡ map rule probes.old }
    ensures states { map state probes.new ≡ map (λ p. folded (rule p) (state p) gates.now) probes.old }
{
    for gate in gates {
        show(gate, probes);
    }
}

fn report_one(alloc: Global, probe: &Box<dyn Probe>) -> Result<Text, Memory>
    ensures { IfOk result (λ text. text ≡ state_text (rule probe.now) (state probe.now)) }
{
    probe.report(alloc)
}

/// The texts of all observers, in their order.
pub fn report_all(alloc: Global, probes: &[Box<dyn Probe>]) -> Result<Items<Text>, Memory>
    ensures { IfOk result (λ texts. texts ≡ map (λ p. state_text (rule p) (state p)) probes.now) }
{
    let mut texts = Items::new(alloc);
    for probe in probes {
        texts.push(report_one(alloc, probe)?)?;
    }
    Ok(texts)
}
