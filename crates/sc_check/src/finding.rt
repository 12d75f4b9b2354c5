//! The verdict on a schedule.
ghost use Rattle.std.specs.Prelude.{◌≡◌, ◌<◌, ◌≤◌, ◌↔◌, length, IfOk, All};
ghost use Rattle.sc_sched.specs.Legal.{IsLegal};
ghost use Rattle.sc_check.specs.Finding.{finding};

use crate::early::first_early;
use crate::places::{Stands, first_missing, first_twice, places_of};
use crate::steps::{first_crowded, first_mixed, first_wide};
use sc_base::Memory;
use sc_gate::Gate;
use sc_sched::Plan;
use std::alloc::Global;

/// That a schedule is legal, or its first breach in the order of the variants: the first three have the lowest such
/// position, the others the lowest such step, from 1.
#[derive(Clone, Copy, Debug, PartialEq, Eq)]
pub enum Finding {
    /// Every position stands once, in order, in regions that are few enough, narrow enough and of one kind each.
    Legal,
    /// The position stands in no step.
    Missing(u32),
    /// The position stands twice or more often.
    Twice(u32),
    /// The gate stands in a step not later than that of an earlier gate that shares a wire.
    Early(u32),
    /// The step has more regions than the schedule allows.
    TooManyRegions(u32),
    /// The step has a region of gates with more qubits together than the schedule allows.
    TooWideRegion(u32),
    /// The step has a region of gates of two kinds.
    MixedKinds(u32),
}

/// Whether the schedule is legal for these gates, by its own `k` and `d`, or else its first breach. Takes time in
/// proportion to the gates and the positions of the schedule. `Memory` is the only refusal.
pub fn verdict(alloc: Global, gates: &[Gate], s: &Plan) -> Result<Finding, Memory>
    requires gates { length gates.now ≤ 4194304 }
    requires steps { length s.now.steps ≤ 4294967295 }
    requires in_range { All (λ step. All (λ region. All (λ x. x < length gates.now) region) step) s.now.steps }
    ensures finding { IfOk result (λ f. f ≡ finding gates.now s.now) }
    ensures legal { IfOk result (λ f. (f ≡ Finding.Legal) ↔ IsLegal gates.now s.now.k s.now.d s.now.steps) }
{
    first_breach(alloc, gates, s)
}

fn first_breach(alloc: Global, gates: &[Gate], s: &Plan) -> Result<Finding, Memory>
    requires gates { length gates.now ≤ 4194304 }
    requires steps { length s.now.steps ≤ 4294967295 }
    requires in_range { All (λ step. All (λ region. All (λ x. x < length gates.now) region) step) s.now.steps }
    ensures { IfOk result (λ f. f ≡ finding gates.now s.now) }
{
    let steps = s.steps.as_slice();
    let places = places_of(alloc, gates.len(), steps)?;
    if let Some(x) = first_missing(&places) {
        return Ok(Finding::Missing(x));
    }
    if let Some(x) = first_twice(&places) {
        return Ok(Finding::Twice(x));
    }
    if let Some(x) = first_early(alloc, gates, &places)? {
        return Ok(Finding::Early(x));
    }
    if let Some(step) = first_crowded(steps, s.k) {
        return Ok(Finding::TooManyRegions(step));
    }
    if let Some(step) = first_wide(steps, gates, s.d) {
        return Ok(Finding::TooWideRegion(step));
    }
    if let Some(step) = first_mixed(steps, gates) {
        return Ok(Finding::MixedKinds(step));
    }
    Ok(Finding::Legal)
}
