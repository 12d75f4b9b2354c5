//! The request for a report.
ghost use Rattle.std.specs.Prelude.{◌≡◌, [], false};
ghost use Rattle.sc_top.specs.Answers.{SummaryOf, CarriedOut};
ghost use Rattle.sc_top.specs.Carried.{Took};
ghost use Rattle.sc_words.specs.declared.Request.TheVariants as requests;

use crate::fault::Fault;
use crate::report::{Summary, print_report};
use crate::source::source_of;
use crate::status::Ending;
use crate::tallied::{durations, summarized};
use sc_base::{Shelf, Sink};
use sc_elab::Choice;
use sc_gate::Times;
use std::alloc::Global;

/// Writes the report of the source under a name, by the durations of the request, and ends the sink.
pub(crate) fn carry_count<F: Shelf, O: Sink>(
    alloc: Global,
    file: &[u8],
    choice: Choice,
    times: Option<Times>,
    shelf: &mut F,
    out: &mut O,
) -> Result<Ending, Fault>
    requires { O.is_ended out.old ≡ false }
    ensures { CarriedOut F.held F.tells_held F.faults O.tells O.bytes O.is_ended O.faults [] (requests.Count file.now choice times) shelf.old shelf.new out.old out.new result }
{
    let weighs = times.is_some();
    let summary = summary_of(alloc, file, choice, times, shelf)?;
    match print_report(&summary, weighs, out) {
        Ok(()) => Ok(Ending::Done),
        Err(_) => Err(Fault::WriteFault),
    }
}

/// What is told of the source under a name.
fn summary_of<F: Shelf>(
    alloc: Global,
    file: &[u8],
    choice: Choice,
    times: Option<Times>,
    shelf: &mut F,
) -> Result<Summary, Fault>
    ensures { Took F.held F.tells_held F.faults (λ held. SummaryOf held file.now choice times) shelf.old shelf.new result }
{
    let deck = source_of(alloc, file, choice, shelf)?;
    summarized(alloc, &deck, &durations(times))
}
