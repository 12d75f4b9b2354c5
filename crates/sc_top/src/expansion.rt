//! Decks whose flat text is to be written.
ghost use Rattle.std.specs.Prelude.{◌≡◌, false, map, OnOk};
ghost use Rattle.sc_base.specs.Causes.{HasCause};
ghost use Rattle.sc_base.specs.Output.{Wrote, WrotePrefix};
ghost use Rattle.sc_deck.specs.Decks.{IsWhole};
ghost use Rattle.sc_deck.specs.Events.{flat, gates_in};
ghost use Rattle.sc_probe.specs.Rules.{folded};
ghost use Rattle.sc_top.specs.Expansions.{whole, IsWritable};
ghost use Rattle.sc_top.specs.Stages.{Found};

use crate::fault::{Fault, size_fault};
use crate::tallied::tallied;
use sc_base::{Sink, WriteFault};
use sc_deck::Deck;
use sc_flat::{Expander, prepare};
use sc_gate::Times;
use sc_probe::Probe;
use std::alloc::Global;
use std::marker::Model;

/// A whole deck whose flat text fits, with what writes it. Contracts see the deck.
#[derive(Drop)]
pub(crate) struct Expansion {
    deck: Deck,
    expander: Expander,
}

impl Model for Expansion {
    ghost use Rattle.std.specs.Prelude.{List};
    ghost use Rattle.sc_deck.specs.Decks.{IsWhole};
    ghost use Rattle.sc_deck.specs.Modules.{Module};
    ghost use Rattle.sc_flat.specs.Shown.{FitsDeck};

    ghost Value = { List Module };

    ghost view = { λ e. e.deck };

    ghost invariant = { λ e. IsWhole e.deck × FitsDeck e.expander e.deck };
}

impl Expansion {
    /// Writes the flat text, and shows each gate to every probe, in order, before its line. Takes no memory.
    pub(crate) fn write<O: Sink>(
        &mut self,
        out: &mut O,
        probes: &mut [Box<dyn Probe>],
    ) -> Result<(), WriteFault>
        requires { O.is_ended out.old ≡ false }
        ensures open { O.is_ended out.new ≡ false }
        ensures appended { OnOk result (Wrote O.tells O.bytes out.old out.new (flat (whole self.old))) }
        ensures prefix { WrotePrefix O.tells O.bytes out.old out.new (flat (whole self.old)) }
        ensures cause { HasCause (O.faults out.old) (O.faults out.new) result }
        ensures rules { map rule probes.new ≡ map rule probes.old }
        ensures states { OnOk result (map state probes.new ≡ map (λ p. folded (rule p) (state p) (gates_in (whole self.old))) probes.old) }
    {
        self.expander.write(&self.deck, out, probes)
    }
}

/// The deck with what writes its flat text, where that is not too large and has at most `limit` gates.
pub(crate) fn sized(alloc: Global, deck: Deck, limit: u64) -> Result<Expansion, Fault>
    requires { IsWhole deck }
    ensures { Found (IsWritable limit deck) result }
{
    let tally = tallied(alloc, &deck, &Times::ones())?;
    match prepare(alloc, &deck, &tally, limit) {
        Ok(expander) => Ok(Expansion { deck, expander }),
        Err(fault) => Err(size_fault(fault)),
    }
}
