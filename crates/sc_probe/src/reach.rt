//! The greatest distance of qubit numbers in one gate.
ghost use Rattle.std.specs.Prelude.{◌≡◌, ◌++◌, ℕ, List, option_to_list, IfOk};
ghost use Rattle.sc_probe.specs.declared.rule.Rule.TheVariants.{Reach};
ghost use Rattle.sc_probe.specs.Rules.{start, bounds_of, qubit_numbers, distance, reach_text};
ghost use Rattle.sc_probe.specs.Probes.{reach_state};

use crate::telling::{tell_number, text_of};
use crate::{Probe, Rule};
use sc_base::{Class, Memory, Text};
use sc_gate::{Gate, Wire};
use std::alloc::Global;

/// Finds the first gate whose qubit numbers are the farthest apart.
#[derive(Drop)]
pub struct ReachProbe {
    seen: u128,
    distance: u128,
    position: u128,
}

impl ReachProbe {
    /// Before any gate.
    pub fn new() -> ReachProbe
        ensures { reach_state result ≡ start Reach }
    {
        ReachProbe {
            seen: 0,
            distance: 0,
            position: 0,
        }
    }
}

/// The least and the greatest of some numbers, and of one more where the wire is a qubit.
fn with_wire(bounds: Option<(u32, u32)>, wire: Option<Wire>) -> Option<(u32, u32)>
    ensures { (numbers : List ℕ) → bounds ≡ bounds_of numbers → result ≡ bounds_of (numbers ++ qubit_numbers (option_to_list wire)) }
{
    let Some(
        Wire {
            class: Class::Q,
            number,
        },
    ) = wire
    else {
        return bounds;
    };
    match bounds {
        Some((least, greatest)) => Some((least.min(number), greatest.max(number))),
        None => Some((number, number)),
    }
}

/// The greatest difference between the numbers of the gate's qubits.
fn distance_of(gate: &Gate) -> u32
    ensures { result ≡ distance gate.now }
{
    match with_wire(with_wire(with_wire(None, Some(gate.a)), gate.b), gate.c) {
        Some((least, greatest)) => greatest - least,
        None => 0,
    }
}

fn tell_reach(alloc: Global, distance: u128, position: u128) -> Result<Text, Memory>
    ensures { IfOk result (λ text. text ≡ reach_text distance position) }
{
    if distance == 0 {
        return text_of(alloc, b"reach 0");
    }
    let mut text = text_of(alloc, b"reach")?;
    tell_number(&mut text, b" ", distance)?;
    tell_number(&mut text, b" ", position)?;
    Ok(text)
}

impl Probe for ReachProbe {
    ghost rule = { λ _. Reach };

    ghost state = { λ probe. reach_state probe };

    fn rule(&self) -> Rule {
        Rule::Reach
    }

    fn see(&mut self, gate: &Gate) {
        let distance = u128::from(distance_of(gate));
        if self.distance < distance {
            self.distance = distance;
            self.position = self.seen;
        }
        self.seen = self.seen.saturating_add(1);
    }

    fn report(&self, alloc: Global) -> Result<Text, Memory> {
        tell_reach(alloc, self.distance, self.position)
    }
}
