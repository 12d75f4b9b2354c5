//! The request for coarse schedules.
ghost use Rattle.std.specs.Prelude.{◌≡◌, ◌≤◌, [], false, length, IfOk};
ghost use Rattle.sc_top.specs.Answers.{CoarseOf, CarriedOut};
ghost use Rattle.sc_top.specs.Carried.{Took};
ghost use Rattle.sc_words.specs.declared.Request.TheVariants as requests;

use crate::coarsened::{Coarsened, print_coarse, with_coarse};
use crate::fault::Fault;
use crate::source::source_of;
use crate::status::Ending;
use sc_base::{Shelf, Sink};
use sc_elab::Choice;
use std::alloc::Global;

/// Writes the coarse schedules of the source under a name, on `k` regions of `d` qubits, and ends the sink.
pub(crate) fn carry_coarse<F: Shelf, O: Sink>(
    alloc: Global,
    file: &[u8],
    choice: Choice,
    k: u32,
    d: u32,
    lpfs: bool,
    shelf: &mut F,
    out: &mut O,
) -> Result<Ending, Fault>
    requires open { O.is_ended out.old ≡ false }
    requires k { 1 ≤ k }
    requires d { 1 ≤ d }
    ensures { CarriedOut F.held F.tells_held F.faults O.tells O.bytes O.is_ended O.faults [] (requests.Coarse file.now choice k d lpfs) shelf.old shelf.new out.old out.new result }
{
    let coarse = source_coarse(alloc, file, choice, k, d, lpfs, shelf)?;
    match print_coarse(&coarse, k, d, out) {
        Ok(()) => Ok(Ending::Done),
        Err(_) => Err(Fault::WriteFault),
    }
}

/// The coarse schedules of the source under a name.
fn source_coarse<F: Shelf>(
    alloc: Global,
    file: &[u8],
    choice: Choice,
    k: u32,
    d: u32,
    lpfs: bool,
    shelf: &mut F,
) -> Result<Coarsened, Fault>
    requires k { 1 ≤ k }
    requires d { 1 ≤ d }
    ensures took { Took F.held F.tells_held F.faults (λ held. CoarseOf held file.now choice k d lpfs) shelf.old shelf.new result }
    ensures many { IfOk result (λ c. length c.coarse ≡ length c.deck) }
{
    let deck = source_of(alloc, file, choice, shelf)?;
    with_coarse(alloc, deck, k, d, lpfs)
}
