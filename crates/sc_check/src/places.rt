//! Where each position stands in a schedule.
ghost use Rattle.std.specs.Prelude.{◌≡◌, ℕ, ◌+◌, ◌<◌, ◌≤◌, ◌==◌, ◌^◌, length, slice_index_or, IfOk, All};
ghost use Rattle.std.specs.List.{count_by};
ghost use Rattle.sc_sched.specs.Legal.{times_in};
ghost use Rattle.sc_check.specs.Places.{marked, marked_times, found_at, lowest, is_nowhere, is_again};
ghost use Rattle.sc_check.specs.declared.places.Stands.TheVariants.{Nowhere};

use sc_base::Memory;
use sc_sched::{Region, Step};
use std::alloc::Global;

/// In no step, once, in the step of this number from 0, or more often.
#[derive(Clone, Copy, Debug, PartialEq, Eq)]
pub enum Stands {
    Nowhere,
    Once(u32),
    Again,
}

/// One place more, in this step.
fn mark(known: Stands, step: u32) -> Stands
    ensures { result ≡ marked known step }
{
    match known {
        Stands::Nowhere => Stands::Once(step),
        _ => Stands::Again,
    }
}

fn mark_region(places: &mut [Stands], region: &[u32], step: u32)
    requires { All (λ x. x < length places.old) region.now }
    ensures { (x : ℕ) → x < length places.old → slice_index_or places.new x Nowhere ≡ marked_times (slice_index_or places.old x Nowhere) step (count_by (λ y. y == x) region.now) }
{
    for x in region {
        let at = *x as usize;
        places[at] = mark(places[at], step);
    }
}

fn mark_step(places: &mut [Stands], regions: &[Region], step: u32)
    requires { All (λ region. All (λ x. x < length places.old) region) regions.now }
    ensures { (x : ℕ) → x < length places.old → slice_index_or places.new x Nowhere ≡ marked_times (slice_index_or places.old x Nowhere) step (times_in x regions.now) }
{
    for region in regions {
        mark_region(places, region.as_slice(), step);
    }
}

/// Where each of so many positions stands.
pub(crate) fn places_of(alloc: Global, gates: usize, steps: &[Step]) -> Result<Vec<Stands>, Memory>
    requires steps { length steps.now < 2 ^ 32 }
    requires in_range { All (λ step. All (λ region. All (λ x. x < gates) region) step) steps.now }
    ensures places { IfOk result (λ p. (x : ℕ) → x < gates → slice_index_or p.items x Nowhere ≡ found_at steps.now x) }
    ensures len { IfOk result (λ p. length p.items ≡ gates) }
{
    let Ok(mut places) = vec![in alloc; Stands::Nowhere; gates] else {
        return Err(Memory);
    };
    for (i, step) in steps.iter().enumerate() {
        mark_step(&mut places, step.as_slice(), i as u32);
    }
    Ok(places)
}

/// The lowest position that stands nowhere.
pub(crate) fn first_missing(places: &[Stands]) -> Option<u32>
    requires { length places.now ≤ 4194304 }
    ensures { result ≡ lowest (λ x. is_nowhere (slice_index_or places.now x Nowhere)) (length places.now) }
{
    for (x, place) in places.iter().enumerate() {
        if matches!(place, Stands::Nowhere) {
            return Some(x as u32);
        }
    }
    None
}

/// The lowest position that stands twice or more often.
pub(crate) fn first_twice(places: &[Stands]) -> Option<u32>
    requires { length places.now ≤ 4194304 }
    ensures { result ≡ lowest (λ x. is_again (slice_index_or places.now x Nowhere)) (length places.now) }
{
    for (x, place) in places.iter().enumerate() {
        if matches!(place, Stands::Again) {
            return Some(x as u32);
        }
    }
    None
}
