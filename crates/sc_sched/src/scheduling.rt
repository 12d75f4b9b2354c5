//! The priority schedule of a gate list.
ghost use Rattle.std.specs.Prelude.{◌≡◌, ◌≤◌, ◌<◌, ◌↔◌, ℕ, length, IfOk};
ghost use Rattle.sc_sched.specs.PrioritySchedules.{IsPrioritySchedule, NoneIsWider};
ghost use Rattle.sc_sched.specs.Scheduling.{IsFirstWider};

use crate::layout::lay_out;
use crate::narrow::first_wider;
use crate::placing::place_all;
use crate::ranks::ranks;
use crate::{Plan, Priority, Step};
use sc_base::{List, MOST_GATES, Memory};
use sc_gate::{Gate, Times};
use std::alloc::Global;

/// Why there is no schedule.
#[derive(Clone, Copy, Debug, PartialEq, Eq)]
pub enum SchedFault {
    /// There are more than 4,194,304 gates.
    SchedTooLarge,
    /// A gate has more qubits than a region: the position of the first one, from 0.
    Narrow(u32),
    /// There is not enough memory.
    Memory,
}

/// The one priority schedule of the gates on `k` regions of `d` qubits, by an order of their ranks, where each gate
/// takes the time of its name in `times`. `k` and `d` are at least 1.
///
/// A gate is ready in a step where every earlier gate that shares a wire with it stands in an earlier step. Each step
/// takes the ready gates in the order, and of these exactly those that fit beside the ones before them: each kind needs
/// its number of gates divided by what a region takes, rounded up, and together they need at most `k` regions.
///
/// `SchedTooLarge` comes exactly where there are more than 4,194,304 gates. Else `Narrow` comes exactly where a gate has
/// more than `d` qubits, with the position of the first such gate.
pub fn schedule<P: Priority>(
    alloc: Global,
    gates: &[Gate],
    k: u32,
    d: u32,
    order: &P,
    times: &Times,
) -> Result<Plan, SchedFault>
    requires k { 1 ≤ k }
    requires d { 1 ≤ d }
    ensures steps { IfOk result (λ plan. IsPrioritySchedule (P.comes order.now) times.now gates.now k d plan.steps) }
    ensures regions { IfOk result (λ plan. plan.k ≡ k) }
    ensures width { IfOk result (λ plan. plan.d ≡ d) }
    ensures gates { IfOk result (λ plan. plan.gates ≡ length gates.now) }
    ensures too_large { (result ≡ Err SchedFault.SchedTooLarge) ↔ (4194304 < length gates.now) }
    ensures narrow { (x : ℕ) → (result ≡ Err (SchedFault.Narrow x)) ↔ ((length gates.now ≤ 4194304) × IsFirstWider d gates.now x) }
{
    if gates.len() > MOST_GATES {
        return Err(SchedFault::SchedTooLarge);
    }
    if let Some(x) = first_wider(gates, d) {
        return Err(SchedFault::Narrow(x));
    }
    match steps_by(alloc, gates, k, d, order, times) {
        Ok(steps) => Ok(Plan {
            k,
            d,
            gates: gates.len() as u32,
            steps,
        }),
        Err(_) => Err(SchedFault::Memory),
    }
}

fn steps_by<P: Priority>(
    alloc: Global,
    gates: &[Gate],
    k: u32,
    d: u32,
    order: &P,
    times: &Times,
) -> Result<List<Step>, Memory>
    requires few { length gates.now ≤ 4194304 }
    requires regions { 1 ≤ k }
    requires fits { NoneIsWider d gates.now }
    ensures { IfOk result (IsPrioritySchedule (P.comes order.now) times.now gates.now k d) }
{
    let ranks = ranks(alloc, gates, times)?;
    let laid = lay_out(alloc, gates, ranks.as_slice(), order, d)?;
    drop(ranks);
    let steps = place_all(alloc, gates, laid, k)?;
    Ok(steps)
}
