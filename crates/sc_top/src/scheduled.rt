//! From a deck to its schedule.
ghost use Rattle.std.specs.Prelude.{◌≡◌, ◌≤◌, false, length};
ghost use Rattle.sc_base.specs.Limits.{most_gates};
ghost use Rattle.sc_deck.specs.Decks.{IsWhole};
ghost use Rattle.sc_sched.specs.Text.{schedule_text};
ghost use Rattle.sc_top.specs.Carried.{Prints};
ghost use Rattle.sc_top.specs.Scheduled.{order_by, IsPlanned, IsScheduled, schedule_refusal};
ghost use Rattle.sc_top.specs.Stages.{Found, fault_of_refusal};

use crate::fault::{Fault, Reason, at_gate, plainly};
use crate::listed::listed;
use sc_base::{Sink, WriteFault};
use sc_deck::Deck;
use sc_gate::{Gate, Times};
use sc_sched::{Lpfs, Plan, Priority, Rcp, SchedFault, schedule, write_schedule};
use std::alloc::Global;

/// The schedule of a whole deck on `k` regions of `d` qubits, by these durations. Ready gates are taken by the heaviest
/// chains that hold them where `lpfs`, and else by those that start at them.
pub(crate) fn scheduled(
    alloc: Global,
    deck: &Deck,
    k: u32,
    d: u32,
    lpfs: bool,
    times: &Times,
) -> Result<Plan, Fault>
    requires whole { IsWhole deck.now }
    requires k { 1 ≤ k }
    requires d { 1 ≤ d }
    ensures { Found (IsScheduled k d lpfs times.now deck.now) result }
{
    let list = listed(alloc, deck, times)?;
    planned(alloc, list.gates.as_slice(), k, d, lpfs, times)
}

/// Writes the text of the schedule, and ends the sink. Takes no memory.
pub(crate) fn print_schedule<O: Sink>(plan: &Plan, out: &mut O) -> Result<(), WriteFault>
    requires { O.is_ended out.old ≡ false }
    ensures { Prints O.tells O.bytes O.is_ended O.faults out.old out.new (schedule_text plan.now) result }
{
    write_schedule(plan, out)?;
    match out.finish() {
        Ok(()) => Ok(()),
        Err(_) => Err(WriteFault),
    }
}

/// The fault of a request over gates that have no schedule for this reason.
fn schedule_fault(fault: SchedFault) -> Fault
    ensures { result ≡ fault_of_refusal (schedule_refusal fault) }
{
    match fault {
        SchedFault::SchedTooLarge => plainly(Reason::SchedTooLarge),
        SchedFault::Narrow(position) => at_gate(Reason::Narrow, position),
        SchedFault::Memory => Fault::Memory,
    }
}

/// The schedule of gates.
fn planned(
    alloc: Global,
    gates: &[Gate],
    k: u32,
    d: u32,
    lpfs: bool,
    times: &Times,
) -> Result<Plan, Fault>
    requires few { length gates.now ≤ most_gates }
    requires k { 1 ≤ k }
    requires d { 1 ≤ d }
    ensures { Found (IsPlanned k d (order_by lpfs) times.now gates.now) result }
{
    if lpfs {
        planned_by(alloc, gates, k, d, &Lpfs, times)
    } else {
        planned_by(alloc, gates, k, d, &Rcp, times)
    }
}

fn planned_by<P: Priority>(
    alloc: Global,
    gates: &[Gate],
    k: u32,
    d: u32,
    order: &P,
    times: &Times,
) -> Result<Plan, Fault>
    requires few { length gates.now ≤ most_gates }
    requires k { 1 ≤ k }
    requires d { 1 ≤ d }
    ensures { Found (IsPlanned k d (P.comes order.now) times.now gates.now) result }
{
    match schedule(alloc, gates, k, d, order, times) {
        Ok(plan) => Ok(plan),
        Err(fault) => Err(schedule_fault(fault)),
    }
}
