//! The places of gates in an order.
ghost use Rattle.std.specs.Prelude.{◌≡◌, ◌<◌, ◌≤◌, ℕ, length, IfOk};
ghost use Rattle.std.specs.List.Sorted.{IsPermutation};
ghost use Rattle.std.specs.Ordering.{is_lt};
ghost use Rattle.sc_sched.specs.Schedule.{positions};
ghost use Rattle.sc_sched.specs.Laid.{rank_at, before_by};
ghost use Rattle.sc_sched.specs.Places.{AreInverse, IsInOrder};

use crate::{Priority, Rank};
use sc_base::Memory;
use std::alloc::Global;
use std::cmp::Ordering;

/// The rank at a position; past the end, weights of 0.
fn rank_at(ranks: &[Rank], position: u32) -> Rank
    ensures { result ≡ rank_at ranks.now position }
{
    match ranks.get(position as usize) {
        Some(rank) => *rank,
        None => Rank {
            height: 0,
            through: 0,
            position,
        },
    }
}

/// How the gates at two positions compare by their ranks.
fn compare<P: Priority>(ranks: &[Rank], order: &P, x: u32, y: u32) -> Ordering
    ensures { is_lt result ≡ before_by (P.comes order.now) ranks.now x y }
{
    let a = rank_at(ranks, x);
    let b = rank_at(ranks, y);
    if order.before(&a, &b) {
        Ordering::Less
    } else if order.before(&b, &a) {
        Ordering::Greater
    } else {
        Ordering::Equal
    }
}

/// The positions below a number, ascending.
fn positions(alloc: Global, many: usize) -> Result<Vec<u32>, Memory>
    requires { many ≤ 4194304 }
    ensures { IfOk result (λ xs. xs.items ≡ positions many) }
{
    let Ok(mut positions) = Vec::with_capacity(alloc, many) else {
        return Err(Memory);
    };
    for x in 0..many {
        let Ok(()) = positions.push(x as u32) else {
            return Err(Memory);
        };
    }
    Ok(positions)
}

/// The positions of gates of these ranks in the order.
pub(crate) fn in_order<P: Priority>(
    alloc: Global,
    ranks: &[Rank],
    order: &P,
) -> Result<Vec<u32>, Memory>
    requires few { length ranks.now ≤ 4194304 }
    requires positions { (x : ℕ) → x < length ranks.now → (rank_at ranks.now x).position ≡ x }
    ensures permutation { IfOk result (λ xs. IsPermutation (positions (length ranks.now)) xs.items) }
    ensures sorted { IfOk result (λ xs. IsInOrder (before_by (P.comes order.now) ranks.now) xs.items) }
{
    let mut gates = positions(alloc, ranks.len())?;
    gates.sort_unstable_by(|x, y| compare(ranks, order, *x, *y));
    Ok(gates)
}

/// Where each number is among these, which are all below their count.
pub(crate) fn inverse(alloc: Global, numbers: &[u32]) -> Result<Vec<u32>, Memory>
    requires few { length numbers.now ≤ 4194304 }
    requires permutation { IsPermutation (positions (length numbers.now)) numbers.now }
    ensures { IfOk result (λ back. AreInverse numbers.now back.items) }
{
    let Ok(mut back) = vec![in alloc; 0u32; numbers.len()] else {
        return Err(Memory);
    };
    for (i, x) in numbers.iter().enumerate() {
        back[*x as usize] = i as u32;
    }
    Ok(back)
}
