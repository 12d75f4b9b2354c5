//! Rules, and observers that keep one.
ghost use Rattle.std.specs.Prelude.{◌≡◌, ℕ, List, IfOk};
ghost use Rattle.sc_probe.specs.declared.rule.Rule.{Rule};
ghost use Rattle.sc_probe.specs.Rules.{step, state_text};

use sc_base::{Memory, Text};
use sc_gate::Gate;
use std::alloc::Global;

/// What an observer counts: the gates of each name, the longest run of one name, the most T and Tdag gates among 16 in a
/// row, or the greatest distance of qubit numbers in one gate.
#[derive(Clone, Copy, Debug, PartialEq, Eq)]
pub enum Rule {
    Kinds,
    Burst,
    Window,
    Reach,
}

/// Sees gates one after another and tells what its rule says of them.
///
/// Its state is a list of numbers, from 0 to 2^128 - 1, where they stay.
pub trait Probe: Drop {
    /// The rule that it keeps.
    ghost rule: { Self → Rule };

    /// The numbers that it has so far.
    ghost state: { Self → List ℕ };

    /// The rule that it keeps.
    fn rule(&self) -> Rule
        ensures { result ≡ rule self.now };

    /// Moves the state by one more gate. Takes no memory.
    fn see(&mut self, gate: &Gate)
        ensures rule { rule self.new ≡ rule self.old }
        ensures state { state self.new ≡ step (rule self.old) (state self.old) gate.now };

    /// The text of the state, without the mark of a comment and the end of the line. Nothing changes.
    fn report(&self, alloc: Global) -> Result<Text, Memory>
        ensures { IfOk result (λ text. text ≡ state_text (rule self.now) (state self.now)) };
}
