//! The most T and Tdag gates among 16 gates in a row.
ghost use Rattle.std.specs.Prelude.{◌≡◌, IfOk, sum};
ghost use Rattle.sc_probe.specs.declared.rule.Rule.TheVariants.{Window};
ghost use Rattle.sc_probe.specs.Rules.{start, mark_of, window_text};
ghost use Rattle.sc_probe.specs.Probes.{window_state};
ghost use Rattle.sc_probe.specs.States.{raised};

use crate::telling::{tell_number, text_of};
use crate::{Probe, Rule};
use sc_base::{GateName, Memory, Text};
use sc_gate::Gate;
use std::alloc::Global;

/// How many gates before the last one are in a window with it.
const BEFORE: usize = 15;

/// Finds the greatest number of T and Tdag gates among 16 gates in a row.
#[derive(Drop)]
pub struct WindowProbe {
    /// 1 for each T and Tdag of the last 15 gates, the oldest first.
    marks: [u128; BEFORE],
    best: u128,
}

impl WindowProbe {
    /// Before any gate.
    pub fn new() -> WindowProbe
        ensures { window_state result ≡ start Window }
    {
        WindowProbe {
            marks: [0; BEFORE],
            best: 0,
        }
    }
}

/// 1 for T and Tdag, else 0.
fn mark_of(name: GateName) -> u128
    ensures { result ≡ mark_of name }
{
    match name {
        GateName::T | GateName::Tdag => 1,
        _ => 0,
    }
}

/// The sum of a mark and those before it.
fn sum_with(mark: u128, marks: &[u128; BEFORE]) -> u128
    ensures { result ≡ raised (sum marks.now) mark }
{
    let mut sum = mark;
    for earlier in marks {
        sum = sum.saturating_add(*earlier);
    }
    sum
}

impl Probe for WindowProbe {
    ghost rule = { λ _. Window };

    ghost state = { λ probe. window_state probe };

    fn rule(&self) -> Rule {
        Rule::Window
    }

    fn see(&mut self, gate: &Gate) {
        let mark = mark_of(gate.kind.name());
        self.best = self.best.max(sum_with(mark, &self.marks));
        self.marks[0] = mark;
        self.marks.rotate_left(1);
    }

    fn report(&self, alloc: Global) -> Result<Text, Memory> {
        let mut text = text_of(alloc, b"window")?;
        tell_number(&mut text, b" ", self.best)?;
        Ok(text)
    }
}
