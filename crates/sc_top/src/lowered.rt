//! The request for an OpenQASM text.
ghost use Rattle.std.specs.Prelude.{◌≡◌, [], false};
ghost use Rattle.sc_top.specs.Answers.{ListOf, CarriedOut};
ghost use Rattle.sc_top.specs.Carried.{Took, Prints};
ghost use Rattle.sc_top.specs.Lowered.{lowered_text};
ghost use Rattle.sc_words.specs.declared.Request.TheVariants as requests;

use crate::fault::Fault;
use crate::listed::listed;
use crate::source::source_of;
use crate::status::Ending;
use sc_base::{Shelf, Sink, WriteFault};
use sc_elab::Choice;
use sc_gate::Times;
use sc_open::write_open;
use sc_read::FlatText;
use std::alloc::Global;

/// Writes the OpenQASM text of the source under a name, and ends the sink.
pub(crate) fn carry_open<F: Shelf, O: Sink>(
    alloc: Global,
    file: &[u8],
    choice: Choice,
    shelf: &mut F,
    out: &mut O,
) -> Result<Ending, Fault>
    requires { O.is_ended out.old ≡ false }
    ensures { CarriedOut F.held F.tells_held F.faults O.tells O.bytes O.is_ended O.faults [] (requests.ToOpen file.now choice) shelf.old shelf.new out.old out.new result }
{
    let list = list_of(alloc, file, choice, shelf)?;
    match print_lowered(&list, out) {
        Ok(()) => Ok(Ending::Done),
        Err(_) => Err(Fault::WriteFault),
    }
}

/// The list of gates of the source under a name.
fn list_of<F: Shelf>(
    alloc: Global,
    file: &[u8],
    choice: Choice,
    shelf: &mut F,
) -> Result<FlatText, Fault>
    ensures { Took F.held F.tells_held F.faults (λ held. ListOf held file.now choice) shelf.old shelf.new result }
{
    let deck = source_of(alloc, file, choice, shelf)?;
    listed(alloc, &deck, &Times::ones())
}

/// Writes the OpenQASM text of a list, and ends the sink. Takes no memory.
fn print_lowered<O: Sink>(list: &FlatText, out: &mut O) -> Result<(), WriteFault>
    requires { O.is_ended out.old ≡ false }
    ensures { Prints O.tells O.bytes O.is_ended O.faults out.old out.new (lowered_text list.now) result }
{
    write_open(list.gates.as_slice(), list.qubits, list.cbits, out)?;
    match out.finish() {
        Ok(()) => Ok(()),
        Err(_) => Err(WriteFault),
    }
}
