//! Durations of gates.
ghost use Rattle.std.specs.Prelude.{◌≡◌, ◌<◌, ◌≤◌, replicate, slice_set};
ghost use Rattle.sc_gate.specs.Gates.{place_of};
ghost use Rattle.sc_gate.specs.Times.{AreTimes, duration};

use crate::Kind;
use sc_base::GateName;
use std::marker::Model;

/// One duration for each gate name, seen as the list of the 18 numbers in the order of names. Each is from 1
/// to 1,000,000.
#[derive(Clone, Copy, Debug, PartialEq, Eq)]
pub struct Times {
    numbers: [u32; 18],
}

impl Model for Times {
    ghost use Rattle.std.specs.Prelude.{ℕ, List};
    ghost use Rattle.sc_gate.specs.Times.{AreTimes};

    ghost Value = { List ℕ };

    ghost view = { λ times. times.numbers };

    ghost invariant = { λ times. AreTimes times.numbers };

    ghost inverse = { λ numbers. record { numbers = numbers } };
}

impl Times {
    /// The duration 1 for every name.
    pub fn ones() -> Times
        ensures { result ≡ replicate 18 1 }
    {
        Times { numbers: [1; 18] }
    }

    /// Sets the duration of a name. The others stay.
    pub fn set(&mut self, name: GateName, n: u32)
        requires low { 1 ≤ n }
        requires high { n ≤ 1000000 }
        ensures { self.new ≡ slice_set self.old (place_of name) n }
    {
        self.numbers[name as usize] = n;
    }

    /// The duration of a kind, by its name.
    pub fn of(&self, kind: &Kind) -> u32
        ensures duration { result ≡ duration self.now kind.now }
        ensures in_range { AreTimes self.now }
    {
        self.numbers[kind.name() as usize]
    }
}
