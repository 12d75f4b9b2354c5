//! How many gates there are of each name.
ghost use Rattle.std.specs.Prelude.{◌≡◌, ◌++◌, IfOk, OnOk, replicate, slice_index};
ghost use Rattle.sc_base.specs.GateNames.{place_of};
ghost use Rattle.sc_probe.specs.declared.rule.Rule.TheVariants.{Kinds};
ghost use Rattle.sc_probe.specs.Rules.{start, kind_text, kinds_text};
ghost use Rattle.sc_probe.specs.Probes.{kinds_state};

use crate::telling::{tell_number, text_of};
use crate::{Probe, Rule};
use sc_base::{GateName, Memory, Text};
use sc_gate::Gate;
use std::alloc::Global;

/// Counts the gates of each name.
#[derive(Drop)]
pub struct KindsProbe {
    counts: [u128; 18],
}

impl KindsProbe {
    /// Before any gate.
    pub fn new() -> KindsProbe
        ensures { kinds_state result ≡ start Kinds }
    {
        KindsProbe { counts: [0; 18] }
    }
}

/// Appends the part of one name, where there are gates of it.
fn tell_kind(text: &mut Text, name: GateName, count: u128) -> Result<(), Memory>
    ensures { OnOk result (text.new ≡ text.old ++ kind_text count name) }
{
    if count == 0 {
        return Ok(());
    }
    text.push_bytes(b" ")?;
    text.push_bytes(name.text().as_bytes())?;
    tell_number(text, b"=", count)
}

fn tell_kinds(alloc: Global, counts: &[u128; 18]) -> Result<Text, Memory>
    ensures { IfOk result (λ text. text ≡ kinds_text counts.now) }
{
    let mut text = text_of(alloc, b"kinds")?;
    for name in &GateName::ALL {
        tell_kind(&mut text, *name, counts[name.place()])?;
    }
    Ok(text)
}

impl Probe for KindsProbe {
    ghost rule = { λ _. Kinds };

    ghost state = { λ probe. kinds_state probe };

    fn rule(&self) -> Rule {
        Rule::Kinds
    }

    fn see(&mut self, gate: &Gate) {
        let place = gate.kind.name().place();
        self.counts[place] = self.counts[place].saturating_add(1);
    }

    fn report(&self, alloc: Global) -> Result<Text, Memory> {
        tell_kinds(alloc, &self.counts)
    }
}
