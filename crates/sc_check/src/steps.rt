//! The first step that breaks a rule of regions.
ghost use Rattle.std.specs.Prelude.{◌≡◌, ℕ, ◌<◌, ◌≤◌, ◌^◌, length, nat_lt, All};
ghost use Rattle.std.specs.List.{sum_by};
ghost use Rattle.sc_sched.specs.Gates.{arity_at};
ghost use Rattle.sc_check.specs.Finding.{lowest_step, has_many_regions, has_wide_region, has_mixed_kinds, is_wide, is_mixed};

use sc_gate::{Gate, arity, same_kind};
use sc_sched::{Region, Step};

/// The first step, from 1, with more than `k` regions.
pub(crate) fn first_crowded(steps: &[Step], k: u32) -> Option<u32>
    requires { length steps.now < 2 ^ 32 }
    ensures { result ≡ lowest_step (has_many_regions k) steps.now }
{
    for (i, step) in steps.iter().enumerate() {
        if step.len() > k as usize {
            return Some(i as u32 + 1);
        }
    }
    None
}

/// Whether the gates have more than `d` qubits together.
fn region_is_wide(gates: &[Gate], d: u32, region: &[u32]) -> bool
    requires { All (λ x. x < length gates.now) region.now }
    ensures { result ≡ is_wide gates.now d region.now }
{
    let mut sum: u64 = 0;
    for x in region {
        sum += arity(&gates[*x as usize].kind) as u64;
        if sum > d as u64 {
            return true;
        }
    }
    false
}

fn step_is_wide(gates: &[Gate], d: u32, step: &[Region]) -> bool
    requires { All (λ region. All (λ x. x < length gates.now) region) step.now }
    ensures { result ≡ has_wide_region gates.now d step.now }
{
    for region in step {
        if region_is_wide(gates, d, region.as_slice()) {
            return true;
        }
    }
    false
}

/// The first step, from 1, with a region of gates with more than `d` qubits together.
pub(crate) fn first_wide(steps: &[Step], gates: &[Gate], d: u32) -> Option<u32>
    requires steps { length steps.now < 2 ^ 32 }
    requires in_range { All (λ step. All (λ region. All (λ x. x < length gates.now) region) step) steps.now }
    ensures { result ≡ lowest_step (has_wide_region gates.now d) steps.now }
{
    for (i, step) in steps.iter().enumerate() {
        if step_is_wide(gates, d, step.as_slice()) {
            return Some(i as u32 + 1);
        }
    }
    None
}

/// Whether two of the gates are of different kinds.
fn region_is_mixed(gates: &[Gate], region: &[u32]) -> bool
    requires { All (λ x. x < length gates.now) region.now }
    ensures { result ≡ is_mixed gates.now region.now }
{
    for x in region {
        if !same_kind(&gates[region[0] as usize], &gates[*x as usize]) {
            return true;
        }
    }
    false
}

fn step_is_mixed(gates: &[Gate], step: &[Region]) -> bool
    requires { All (λ region. All (λ x. x < length gates.now) region) step.now }
    ensures { result ≡ has_mixed_kinds gates.now step.now }
{
    for region in step {
        if region_is_mixed(gates, region.as_slice()) {
            return true;
        }
    }
    false
}

/// The first step, from 1, with a region of gates of two kinds.
pub(crate) fn first_mixed(steps: &[Step], gates: &[Gate]) -> Option<u32>
    requires steps { length steps.now < 2 ^ 32 }
    requires in_range { All (λ step. All (λ region. All (λ x. x < length gates.now) region) step) steps.now }
    ensures { result ≡ lowest_step (has_mixed_kinds gates.now) steps.now }
{
    for (i, step) in steps.iter().enumerate() {
        if step_is_mixed(gates, step.as_slice()) {
            return Some(i as u32 + 1);
        }
    }
    None
}
