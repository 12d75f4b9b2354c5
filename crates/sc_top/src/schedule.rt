//! The request for a schedule.
ghost use Rattle.std.specs.Prelude.{◌≡◌, ◌≤◌, [], false};
ghost use Rattle.sc_top.specs.Answers.{PlanOf, CarriedOut};
ghost use Rattle.sc_top.specs.Carried.{Took};
ghost use Rattle.sc_words.specs.declared.Request.TheVariants as requests;

use crate::fault::Fault;
use crate::scheduled::{print_schedule, scheduled};
use crate::source::source_of;
use crate::status::Ending;
use crate::tallied::durations;
use sc_base::{Shelf, Sink};
use sc_elab::Choice;
use sc_gate::Times;
use sc_sched::Plan;
use std::alloc::Global;

/// Writes the schedule of the source under a name, on `k` regions of `d` qubits, and ends the sink.
pub(crate) fn carry_schedule<F: Shelf, O: Sink>(
    alloc: Global,
    file: &[u8],
    choice: Choice,
    k: u32,
    d: u32,
    lpfs: bool,
    times: Option<Times>,
    shelf: &mut F,
    out: &mut O,
) -> Result<Ending, Fault>
    requires open { O.is_ended out.old ≡ false }
    requires k { 1 ≤ k }
    requires d { 1 ≤ d }
    ensures { CarriedOut F.held F.tells_held F.faults O.tells O.bytes O.is_ended O.faults [] (requests.Schedule file.now choice k d lpfs times) shelf.old shelf.new out.old out.new result }
{
    let plan = plan_of(alloc, file, choice, k, d, lpfs, times, shelf)?;
    match print_schedule(&plan, out) {
        Ok(()) => Ok(Ending::Done),
        Err(_) => Err(Fault::WriteFault),
    }
}

/// The schedule of the source under a name.
fn plan_of<F: Shelf>(
    alloc: Global,
    file: &[u8],
    choice: Choice,
    k: u32,
    d: u32,
    lpfs: bool,
    times: Option<Times>,
    shelf: &mut F,
) -> Result<Plan, Fault>
    requires k { 1 ≤ k }
    requires d { 1 ≤ d }
    ensures { Took F.held F.tells_held F.faults (λ held. PlanOf held file.now choice k d lpfs times) shelf.old shelf.new result }
{
    let deck = source_of(alloc, file, choice, shelf)?;
    scheduled(alloc, &deck, k, d, lpfs, &durations(times))
}
