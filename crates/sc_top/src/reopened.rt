//! The request for the flat text of an OpenQASM text.
ghost use Rattle.std.specs.Prelude.{◌≡◌, ◌≤◌, [], false, length};
ghost use Rattle.sc_base.specs.Limits.{most_text_bytes};
ghost use Rattle.sc_top.specs.Answers.{OpenedOf, CarriedOut};
ghost use Rattle.sc_top.specs.Carried.{Took, Prints};
ghost use Rattle.sc_top.specs.Lowered.{IsOpened, open_refusal, back_text};
ghost use Rattle.sc_top.specs.Stages.{Found, fault_of_refusal};
ghost use Rattle.sc_words.specs.declared.Request.TheVariants as requests;

use crate::fault::{Fault, Reason, at_line};
use crate::read::read_text;
use crate::status::Ending;
use sc_base::{MOST_TEXT_BYTES, Shelf, Sink, WriteFault};
use sc_open::{OpenFault, OpenText, read_open, write_lines};
use std::alloc::Global;

/// Writes the flat text of the OpenQASM text under a name, and ends the sink.
pub(crate) fn carry_reopen<F: Shelf, O: Sink>(
    alloc: Global,
    file: &[u8],
    shelf: &mut F,
    out: &mut O,
) -> Result<Ending, Fault>
    requires { O.is_ended out.old ≡ false }
    ensures { CarriedOut F.held F.tells_held F.faults O.tells O.bytes O.is_ended O.faults [] (requests.FromOpen file.now) shelf.old shelf.new out.old out.new result }
{
    let opened = opened_of(alloc, file, shelf)?;
    match print_reopened(&opened, out) {
        Ok(()) => Ok(Ending::Done),
        Err(_) => Err(Fault::WriteFault),
    }
}

/// The registers and lines of the OpenQASM text under a name.
fn opened_of<F: Shelf>(alloc: Global, file: &[u8], shelf: &mut F) -> Result<OpenText, Fault>
    ensures { Took F.held F.tells_held F.faults (λ held. OpenedOf held file.now) shelf.old shelf.new result }
{
    let text = read_text(alloc, file, MOST_TEXT_BYTES as u64, shelf)?;
    reopened(alloc, text.as_bytes())
}

/// The registers and lines of an OpenQASM text. `BadOpen` comes exactly where the text is outside the grammar, with its
/// first line that is not in its place.
fn reopened(alloc: Global, text: &[u8]) -> Result<OpenText, Fault>
    requires { length text.now ≤ most_text_bytes }
    ensures { Found (IsOpened text.now) result }
{
    match read_open(alloc, text) {
        Ok(opened) => Ok(opened),
        Err(fault) => Err(open_fault(fault)),
    }
}

/// The fault of a request over an OpenQASM text that is not read for this reason.
fn open_fault(fault: OpenFault) -> Fault
    ensures { result ≡ fault_of_refusal (open_refusal fault) }
{
    match fault {
        OpenFault::BadOpen(line) => at_line(Reason::BadOpen, line),
        OpenFault::Memory => Fault::Memory,
    }
}

/// Writes the flat text of an OpenQASM text, and ends the sink. Takes no memory.
fn print_reopened<O: Sink>(opened: &OpenText, out: &mut O) -> Result<(), WriteFault>
    requires { O.is_ended out.old ≡ false }
    ensures { Prints O.tells O.bytes O.is_ended O.faults out.old out.new (back_text opened.now) result }
{
    write_lines(opened, out)?;
    match out.finish() {
        Ok(()) => Ok(()),
        Err(_) => Err(WriteFault),
    }
}
