//! The flat text and the flat gate list of a deck.
ghost use Rattle.std.specs.Prelude.{◌≡◌, ◌-◌, ◌<◌, ◌≤◌, ◌^◌, ◌++◌, false, List, length, map, slice_index, OnOk, OnErr, IfOk};
ghost use Rattle.sc_base.specs.Causes.{HasCause};
ghost use Rattle.sc_base.specs.Output.{Wrote, WrotePrefix};
ghost use Rattle.sc_gate.specs.declared.gate.Gate.{Gate};
ghost use Rattle.sc_gate.specs.Lines.{flat_header, gate_lines};
ghost use Rattle.sc_deck.specs.Decks.{IsDeck, IsWhole};
ghost use Rattle.sc_deck.specs.Events.{flat, fresh_in, gates_in};
ghost use Rattle.sc_deck.specs.Modules.{reaches_of};
ghost use Rattle.sc_deck.specs.Unfolding.{expansion, gates_of};
ghost use Rattle.sc_probe.specs.Rules.{folded};
ghost use Rattle.sc_flat.specs.Kept.{AreSizes, IsSizeOf, WalkKept};
ghost use Rattle.sc_flat.specs.Shown.{FitsDeck, BrokeOff, BrokeLine};
ghost use Rattle.sc_flat.specs.Walks.{rest};

use crate::size::Size;
use crate::walk::Walk;
use sc_base::{List as Items, Memory, Sink, WriteFault};
use sc_deck::Deck;
use sc_gate::{Gate, write_gate, write_header};
use sc_probe::{Probe, show};
use std::alloc::Global;
use std::marker::Model;

/// Writes the flat text of the deck that it was prepared for, and lists its gates. It keeps the numbers of gates, qubits and
/// classical bits of each body's expansion, one frame a body, and room for the wires of every chain of calls; its frames
/// never hold more wires than that.
#[derive(Debug, Drop)]
pub struct Expander {
    sizes: Items<Size>,
    walk: Walk,
}

impl Model for Expander {
    ghost use Rattle.std.specs.Prelude.{◌≤◌, length};
    ghost use Rattle.sc_flat.specs.Shown.{Prepared};

    ghost Value = { Prepared };

    ghost view = { λ e. record { sizes = e.sizes; room = e.walk.wires.room } };

    ghost invariant = { λ e. length e.sizes ≤ e.walk.below.room };
}

impl Expander {
    /// Of the sizes of bodies, and a walk that has room for a frame each.
    pub(crate) fn of(sizes: Items<Size>, walk: Walk) -> Expander
        requires { length sizes ≤ walk.below.room }
        ensures { result ≡ record { sizes = sizes; room = walk.wires.room } }
    {
        Expander { sizes, walk }
    }

    /// For how many wires its frames have room.
    pub fn room(&self) -> u64
        ensures { result ≡ self.now.room }
    {
        self.walk.wires.room()
    }

    /// Writes the flat text. Shows each gate to every probe, in order, before its line is written. Takes no memory.
    /// At a fault of the sink a prefix of the text is written, and each probe has seen the gates whose lines are written
    /// and at most the one whose line failed.
    pub fn write<O: Sink>(
        &mut self,
        deck: &Deck,
        out: &mut O,
        probes: &mut [Box<dyn Probe>],
    ) -> Result<(), WriteFault>
        requires whole { IsWhole deck.now }
        requires fits { FitsDeck self.old deck.now }
        requires open { O.is_ended out.old ≡ false }
        ensures same { self.new ≡ self.old }
        ensures open { O.is_ended out.new ≡ false }
        ensures appended { OnOk result (Wrote O.tells O.bytes out.old out.new (flat (expansion deck.now (length deck.now - 1)))) }
        ensures prefix { WrotePrefix O.tells O.bytes out.old out.new (flat (expansion deck.now (length deck.now - 1))) }
        ensures cause { HasCause (O.faults out.old) (O.faults out.new) result }
        ensures rules { map rule probes.new ≡ map rule probes.old }
        ensures states { OnOk result (map state probes.new ≡ map (λ p. folded (rule p) (state p) (gates_of deck.now (length deck.now - 1))) probes.old) }
        ensures broke_off { OnErr result ((seen : List Gate) × (map state probes.new ≡ map (λ p. folded (rule p) (state p) seen) probes.old)
            × BrokeOff O.tells O.bytes out.old out.new (flat_header (fresh_in (expansion deck.now (length deck.now - 1))).qubits (fresh_in (expansion deck.now (length deck.now - 1))).cbits (length (gates_of deck.now (length deck.now - 1)))) (gates_of deck.now (length deck.now - 1)) seen) }
    {
        let size = begin(&mut self.walk, deck, self.sizes.as_slice());
        write_header(
            u128::from(size.qubits),
            u128::from(size.cbits),
            size.gates,
            out,
        )?;
        write_gates(&mut self.walk, deck, self.sizes.as_slice(), out, probes)
    }

    /// The flat gate list.
    pub fn list(&mut self, alloc: Global, deck: &Deck) -> Result<Items<Gate>, Memory>
        requires whole { IsWhole deck.now }
        requires fits { FitsDeck self.old deck.now }
        ensures same { self.new ≡ self.old }
        ensures gates { IfOk result (λ gates. gates ≡ gates_of deck.now (length deck.now - 1)) }
    {
        begin(&mut self.walk, deck, self.sizes.as_slice());
        let mut gates = Items::new(alloc);
        collect(&mut self.walk, deck, self.sizes.as_slice(), &mut gates)?;
        Ok(gates)
    }
}

/// Tells that the numbers of wires have 32 bits.
fn size_has_range(size: Size)
    ensures qubits { size.qubits < 2 ^ 32 }
    ensures cbits { size.cbits < 2 ^ 32 }
{
    let _ = size.qubits;
    let _ = size.cbits;
}

/// Goes to the front of a whole deck, and answers how much the deck unfolds to.
fn begin(walk: &mut Walk, deck: &Deck, sizes: &[Size]) -> Size
    requires whole { IsWhole deck.now }
    requires sizes { AreSizes deck.now sizes.now }
    requires room { walk.old.wires.room ≡ slice_index (reaches_of deck.now) (length deck.now - 1) }
    requires depth { length sizes.now ≤ walk.old.below.room }
    ensures deck { IsDeck deck.now }
    ensures size { IsSizeOf deck.now (length deck.now - 1) result }
    ensures kept { WalkKept deck.now walk.new }
    ensures gates { gates_in (rest deck.now walk.new) ≡ gates_of deck.now (length deck.now - 1) }
    ensures room { walk.new.wires.room ≡ walk.old.wires.room }
    ensures depth { walk.new.below.room ≡ walk.old.below.room }
{
    let last = deck.len() - 1;
    let size = sizes[last as usize];
    size_has_range(size);
    walk.start(last);
    size
}

/// Appends the gates that are left.
fn collect(
    walk: &mut Walk,
    deck: &Deck,
    sizes: &[Size],
    gates: &mut Items<Gate>,
) -> Result<(), Memory>
    requires deck { IsDeck deck.now }
    requires kept { WalkKept deck.now walk.old }
    requires sizes { AreSizes deck.now sizes.now }
    ensures room { walk.new.wires.room ≡ walk.old.wires.room }
    ensures depth { walk.new.below.room ≡ walk.old.below.room }
    ensures gates { OnOk result (gates.new ≡ gates.old ++ gates_in (rest deck.now walk.old)) }
{
    while let Some(gate) = walk.next_gate(deck, sizes) {
        gates.push(gate)?;
    }
    Ok(())
}

/// Shows each gate that is left to every probe, and then writes its line.
fn write_gates<O: Sink>(
    walk: &mut Walk,
    deck: &Deck,
    sizes: &[Size],
    out: &mut O,
    probes: &mut [Box<dyn Probe>],
) -> Result<(), WriteFault>
    requires deck { IsDeck deck.now }
    requires kept { WalkKept deck.now walk.old }
    requires sizes { AreSizes deck.now sizes.now }
    requires open { O.is_ended out.old ≡ false }
    ensures room { walk.new.wires.room ≡ walk.old.wires.room }
    ensures depth { walk.new.below.room ≡ walk.old.below.room }
    ensures open { O.is_ended out.new ≡ false }
    ensures appended { OnOk result (Wrote O.tells O.bytes out.old out.new (gate_lines (gates_in (rest deck.now walk.old)))) }
    ensures cause { HasCause (O.faults out.old) (O.faults out.new) result }
    ensures rules { map rule probes.new ≡ map rule probes.old }
    ensures states { OnOk result (map state probes.new ≡ map (λ p. folded (rule p) (state p) (gates_in (rest deck.now walk.old))) probes.old) }
    ensures broke_off { OnErr result ((seen : List Gate) × (map state probes.new ≡ map (λ p. folded (rule p) (state p) seen) probes.old)
        × BrokeLine O.tells O.bytes out.old out.new (gates_in (rest deck.now walk.old)) seen) }
{
    while let Some(gate) = walk.next_gate(deck, sizes) {
        show(&gate, probes);
        write_gate(&gate, out)?;
    }
    Ok(())
}
