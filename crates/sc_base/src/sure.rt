//! A shelf and a sink that never fail.
ghost use Rattle.std.specs.Prelude.{◌≡◌, [], IsTrue, true, false, IsOk};

use crate::text::copy_front;
use crate::{Failed, Shelf, Sink, Text};
use std::marker::Model;

/// One text under every name, always told. No call fails, and its count of faults is the constant 0. Contracts
/// see it as a `SureState`.
#[derive(Drop)]
pub struct SureShelf {
    text: Text,
    at: usize,
}

impl Model for SureShelf {
    ghost use Rattle.std.specs.Prelude.{ℕ, ◌≤◌, length, drop};
    ghost use Rattle.sc_base.specs.States.{SureState};

    ghost Value = { SureState };

    ghost view = { λ s. record { text = s.text; rest = drop s.at s.text } };

    ghost invariant = { λ s. s.at ≤ length s.text };
}

impl SureShelf {
    /// A shelf that holds the text under every name. No text is begun.
    pub fn new(text: Text) -> SureShelf
        ensures { result ≡ record { text = text; rest = [] } }
    {
        let at = text.len();
        SureShelf { text, at }
    }
}

impl Shelf for SureShelf {
    ghost use Rattle.std.specs.Prelude.{true, Some};

    ghost tells_held = { λ _. true };

    ghost held = { λ s _. Some s.text };

    ghost tells_rest = { λ _. true };

    ghost rest = { λ s. s.rest };

    ghost faults = { λ _. 0 };

    fn begin(&mut self, _name: &[u8]) -> Result<(), Failed> {
        self.at = 0;
        Ok(())
    }

    fn read(&mut self, buf: &mut [u8]) -> Result<usize, Failed> {
        let count = copy_front(self.text.as_bytes(), self.at, buf);
        self.at += count;
        Ok(count)
    }

    ghost both_told = { λ s told. told };
}

/// Takes every byte, keeps none and does not tell them. No call fails, and its count of faults is the constant
/// 0. Contracts see it as whether it is ended.
#[derive(Drop)]
pub struct SureSink {
    is_ended: bool,
}

impl Model for SureSink {
    ghost use Rattle.std.specs.Prelude.{Bool};

    ghost Value = { Bool };

    ghost view = { λ s. s.is_ended };
}

impl SureSink {
    /// A sink that is not ended.
    pub fn new() -> SureSink
        ensures { result ≡ false }
    {
        SureSink { is_ended: false }
    }
}

impl Sink for SureSink {
    ghost use Rattle.std.specs.Prelude.{false, []};

    ghost tells = { λ _. false };

    ghost bytes = { λ _. [] };

    ghost faults = { λ _. 0 };

    ghost is_ended = { λ s. s };

    fn write(&mut self, piece: &[u8]) -> Result<usize, Failed> {
        Ok(piece.len())
    }

    fn finish(&mut self) -> Result<(), Failed> {
        self.is_ended = true;
        Ok(())
    }

    fn ended(&self) -> bool {
        self.is_ended
    }
}
