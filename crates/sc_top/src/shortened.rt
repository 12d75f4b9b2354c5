//! The request for a list without the pairs of gates that undo each other.
ghost use Rattle.std.specs.Prelude.{◌≡◌, ◌≤◌, false, length, IfOk};
ghost use Rattle.sc_base.specs.Limits.{most_gates};
ghost use Rattle.sc_deck.specs.Decks.{IsWhole};
ghost use Rattle.sc_gate.specs.Gates.{AreWellFormed};
ghost use Rattle.sc_top.specs.Answers.{ShortenedOf, CarriedOut};
ghost use Rattle.sc_top.specs.Carried.{Took, Prints};
ghost use Rattle.sc_top.specs.Shortened.{shortened_text, IsShortened};
ghost use Rattle.sc_top.specs.Stages.{Found};
ghost use Rattle.sc_top.specs.Watching.{watchers};
ghost use Rattle.sc_words.specs.declared.Request.TheVariants as requests;

use crate::fault::Fault;
use crate::listed::listed;
use crate::source::source_of;
use crate::status::Ending;
use crate::watch::{Asked, print_lines};
use sc_base::{List, Memory, Shelf, Sink, Text, WriteFault};
use sc_cancel::{cancel, show, write_kept};
use sc_deck::Deck;
use sc_elab::Choice;
use sc_gate::Times;
use sc_probe::{Probe, report_all};
use sc_read::FlatText;
use std::alloc::Global;
use std::marker::Model;

/// A list, the positions of its gates that stay, and what probes tell of these. Contracts see the text that is written of
/// them.
#[derive(Drop)]
struct KeptGates {
    list: FlatText,
    kept: List<u32>,
    told: List<Text>,
}

impl Model for KeptGates {
    ghost use Rattle.std.specs.Prelude.{List, ℕ, ◌<◌, length};
    ghost use Rattle.std.specs.List.{AllByRecursion};
    ghost use Rattle.sc_top.specs.Shortened.{kept_text};

    ghost Value = { List ℕ };

    ghost view = { λ s. kept_text s.list s.kept s.told };

    ghost invariant = { λ s. AllByRecursion (λ p. p < length s.list.gates) s.kept };
}

/// Writes the flat text of the source under a name without the pairs of gates that undo each other, with the numbers of
/// wires of the whole list, and the lines of the probes whose rules are asked for, and ends the sink. These probes are
/// shown the gates that stay, and the others are dropped before.
pub(crate) fn carry_cancel<F: Shelf, O: Sink>(
    alloc: Global,
    file: &[u8],
    choice: Choice,
    asked: Asked,
    probes: Vec<Box<dyn Probe>>,
    shelf: &mut F,
    out: &mut O,
) -> Result<Ending, Fault>
    requires { O.is_ended out.old ≡ false }
    ensures { CarriedOut F.held F.tells_held F.faults O.tells O.bytes O.is_ended O.faults (watchers rule state probes.items)
        (requests.Cancel file.now choice asked.kinds asked.burst asked.window asked.reach) shelf.old shelf.new out.old out.new result }
{
    let mut probes = probes;
    asked.keep(&mut probes);
    let kept = kept_of(alloc, file, choice, probes.as_mut_slice(), shelf)?;
    match print_shortened(&kept, out) {
        Ok(()) => Ok(Ending::Done),
        Err(_) => Err(Fault::WriteFault),
    }
}

/// The list of the source under a name without these pairs, and what the probes tell of it.
fn kept_of<F: Shelf>(
    alloc: Global,
    file: &[u8],
    choice: Choice,
    probes: &mut [Box<dyn Probe>],
    shelf: &mut F,
) -> Result<KeptGates, Fault>
    ensures { Took F.held F.tells_held F.faults (λ held. ShortenedOf held (watchers rule state probes.old) file.now choice) shelf.old shelf.new result }
{
    let deck = source_of(alloc, file, choice, shelf)?;
    shortened(alloc, &deck, probes)
}

/// The list of a whole deck without the pairs that undo each other, and what the probes tell, which are shown the gates
/// that stay. It is refused as `listed` is.
fn shortened(alloc: Global, deck: &Deck, probes: &mut [Box<dyn Probe>]) -> Result<KeptGates, Fault>
    requires { IsWhole deck.now }
    ensures { Found (IsShortened (watchers rule state probes.old) deck.now) result }
{
    let list = listed(alloc, deck, &Times::ones())?;
    match shorten(alloc, list, probes) {
        Ok(kept) => Ok(kept),
        Err(_) => Err(Fault::Memory),
    }
}

/// The list without the pairs that undo each other, and what the probes tell.
fn shorten(
    alloc: Global,
    list: FlatText,
    probes: &mut [Box<dyn Probe>],
) -> Result<KeptGates, Memory>
    requires few { length list.gates ≤ most_gates }
    requires well_formed { AreWellFormed list.gates }
    ensures { IfOk result (λ text. text ≡ shortened_text (watchers rule state probes.old) list) }
{
    let kept = cancel(alloc, list.gates.as_slice())?;
    show(list.gates.as_slice(), kept.as_slice(), probes);
    let told = report_all(alloc, probes)?;
    Ok(KeptGates { list, kept, told })
}

/// Writes the text of a shortened list, and ends the sink. Takes no memory.
fn print_shortened<O: Sink>(kept: &KeptGates, out: &mut O) -> Result<(), WriteFault>
    requires { O.is_ended out.old ≡ false }
    ensures { Prints O.tells O.bytes O.is_ended O.faults out.old out.new kept.now result }
{
    let list = &kept.list;
    write_kept(
        list.qubits,
        list.cbits,
        list.gates.as_slice(),
        kept.kept.as_slice(),
        out,
    )?;
    print_lines(kept.told.as_slice(), out)
}
