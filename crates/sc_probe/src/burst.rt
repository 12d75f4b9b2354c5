//! The longest run of gates of one name.
ghost use Rattle.std.specs.Prelude.{◌≡◌, IfOk};
ghost use Rattle.sc_base.specs.GateNames.{place_of};
ghost use Rattle.sc_probe.specs.declared.rule.Rule.TheVariants.{Burst};
ghost use Rattle.sc_probe.specs.Rules.{start, run_after, longer, burst_text};
ghost use Rattle.sc_probe.specs.Probes.{run_of, burst_state};

use crate::telling::{tell_number, text_of};
use crate::{Probe, Rule};
use sc_base::{GateName, Memory, Text};
use sc_gate::Gate;
use std::alloc::Global;

/// Neighbouring gates of one name: how many, and the position of the first.
#[derive(Clone, Copy, Debug, PartialEq, Eq)]
struct Run {
    name: GateName,
    size: u128,
    start: u128,
}

/// Finds the first of the longest runs of gates of one name.
#[derive(Drop)]
pub struct BurstProbe {
    seen: u128,
    current: Run,
    best: Run,
}

const NONE: Run = Run {
    name: GateName::X,
    size: 0,
    start: 0,
};

impl BurstProbe {
    /// Before any gate.
    pub fn new() -> BurstProbe
        ensures { burst_state result ≡ start Burst }
    {
        BurstProbe {
            seen: 0,
            current: NONE,
            best: NONE,
        }
    }
}

impl Run {
    /// With one more gate of this name, or a new run from here on.
    fn after(self, seen: u128, name: GateName) -> Run
        ensures { run_of result ≡ run_after seen (run_of self) (place_of name) }
    {
        if self.size > 0 && self.name == name {
            Run {
                size: self.size.saturating_add(1),
                ..self
            }
        } else {
            Run {
                name,
                size: 1,
                start: seen,
            }
        }
    }
}

/// The longer of two runs, the first where they are equally long.
fn longer(best: Run, run: Run) -> Run
    ensures { run_of result ≡ longer (run_of best) (run_of run) }
{
    if best.size < run.size { run } else { best }
}

fn tell_burst(alloc: Global, run: Run) -> Result<Text, Memory>
    ensures { IfOk result (λ text. text ≡ burst_text (run_of run)) }
{
    if run.size == 0 {
        return text_of(alloc, b"burst 0");
    }
    let mut text = text_of(alloc, b"burst")?;
    tell_number(&mut text, b" ", run.size)?;
    text.push_bytes(b" ")?;
    text.push_bytes(run.name.text().as_bytes())?;
    tell_number(&mut text, b" ", run.start)?;
    Ok(text)
}

impl Probe for BurstProbe {
    ghost rule = { λ _. Burst };

    ghost state = { λ probe. burst_state probe };

    fn rule(&self) -> Rule {
        Rule::Burst
    }

    fn see(&mut self, gate: &Gate) {
        self.current = self.current.after(self.seen, gate.kind.name());
        self.best = longer(self.best, self.current);
        self.seen = self.seen.saturating_add(1);
    }

    fn report(&self, alloc: Global) -> Result<Text, Memory> {
        tell_burst(alloc, self.best)
    }
}
