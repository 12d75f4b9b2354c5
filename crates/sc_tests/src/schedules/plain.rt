//! A plain program of the definition of schedules: it weighs all chains, and takes step after step.
use sc_gate::{Gate, Times, arity, depends, same_kind};
use std::alloc::Global;
use std::fmt::Write;
use std::test::Fail;

/// A list has fewer gates than this, and a set of them is a number below 2 ^ 8.
pub(crate) const GATES: u32 = 8;

const SETS: u32 = 256;

/// Whether the set holds x.
fn has(set: u32, x: u32) -> bool {
    set.wrapping_shr(x) % 2 == 1
}

/// The set with x.
fn with(set: u32, x: u32) -> u32 {
    set | 1u32.wrapping_shl(x)
}

/// A gate list and its machine, with the key by which each gate comes: the greater one first, then the lower position.
#[derive(Clone, Copy)]
pub(crate) struct Case<'a> {
    pub gates: &'a [Gate],
    pub keys: &'a [u64],
    pub k: u32,
    pub d: u32,
}

/// The weight of a set of gates, where each shares a wire with the next one in it.
fn chain_weight(gates: &[Gate], times: &Times, set: u32) -> Option<u64> {
    let mut weight: u64 = 0;
    let mut last: Option<Gate> = None;
    for x in 0..GATES {
        let Some(gate) = gates.get(x as usize).copied() else {
            break;
        };
        if has(set, x) {
            if let Some(before) = last {
                if !depends(&before, &gate) {
                    return None;
                }
            }
            weight = weight.saturating_add(times.of(&gate.kind) as u64);
            last = Some(gate);
        }
    }
    Some(weight)
}

/// The greatest weight of a chain that starts at x, or of one that holds x.
fn heaviest(gates: &[Gate], times: &Times, x: u32, starts: bool) -> u64 {
    let mut most = 0;
    for set in 0..SETS {
        if has(set, x) && (!starts || set.trailing_zeros() == x) {
            most = most.max(chain_weight(gates, times, set).unwrap_or(0));
        }
    }
    most
}

/// The keys by heights, or by the weights of the chains through a gate.
pub(crate) fn keys(
    alloc: Global,
    gates: &[Gate],
    times: &Times,
    starts: bool,
) -> Result<Vec<u64>, Fail> {
    let mut keys = Vec::new(alloc);
    for x in 0..GATES {
        keys.push(heaviest(gates, times, x, starts))?;
    }
    Ok(keys)
}

impl<'a> Case<'a> {
    fn gate(&self, x: u32) -> Option<&Gate> {
        self.gates.get(x as usize)
    }

    fn key(&self, x: u32) -> u64 {
        self.keys.get(x as usize).copied().unwrap_or(0)
    }

    fn shares_wire(&self, x: u32, y: u32) -> bool {
        match (self.gate(x), self.gate(y)) {
            (Some(a), Some(b)) => depends(a, b),
            _ => false,
        }
    }

    fn is_alike(&self, x: u32, y: u32) -> bool {
        match (self.gate(x), self.gate(y)) {
            (Some(a), Some(b)) => same_kind(a, b),
            _ => false,
        }
    }

    /// How many gates like x a region takes.
    fn room(&self, x: u32) -> u32 {
        match self.gate(x) {
            Some(gate) => self.d.checked_div(arity(&gate.kind)).unwrap_or(0),
            None => 0,
        }
    }

    /// Whether x is not placed, and each earlier gate that shares a wire with it is.
    fn is_ready(&self, placed: u32, x: u32) -> bool {
        for y in 0..x {
            if self.shares_wire(y, x) && !has(placed, y) {
                return false;
            }
        }
        self.gate(x).is_some() && !has(placed, x)
    }

    /// The ready gate that comes first among those that were not tried.
    fn next(&self, placed: u32, tried: u32) -> Option<u32> {
        let mut best = None;
        for x in 0..GATES {
            if self.is_ready(placed, x) && !has(tried, x) {
                let is_first = match best {
                    Some(y) => self.key(x) > self.key(y),
                    None => true,
                };
                if is_first {
                    best = Some(x);
                }
            }
        }
        best
    }

    /// Whether x is the lowest gate of its kind in a set.
    fn leads(&self, set: u32, x: u32) -> bool {
        for y in 0..x {
            if has(set, y) && self.is_alike(x, y) {
                return false;
            }
        }
        has(set, x)
    }

    /// How many gates of a set are of the kind of x.
    fn count(&self, set: u32, x: u32) -> u32 {
        let mut count: u32 = 0;
        for y in 0..GATES {
            if has(set, y) && self.is_alike(x, y) {
                count = count.saturating_add(1);
            }
        }
        count
    }

    /// How many regions a set of gates needs.
    fn needed(&self, set: u32) -> u32 {
        let mut needed: u32 = 0;
        for x in 0..GATES {
            if self.leads(set, x) {
                let regions = self.count(set, x).div_ceil(self.room(x).max(1));
                needed = needed.saturating_add(regions);
            }
        }
        needed
    }

    /// The gates of the step after those that are placed.
    fn step(&self, placed: u32) -> u32 {
        let mut step = 0;
        let mut tried = 0;
        for _ in 0..GATES {
            if let Some(x) = self.next(placed, tried) {
                tried = with(tried, x);
                if self.needed(with(step, x)) <= self.k {
                    step = with(step, x);
                }
            }
        }
        step
    }

    /// Shows the regions of the kind of x.
    fn show_kind(&self, step: u32, x: u32, text: &mut String) -> Result<(), Fail> {
        let mut used: u32 = 0;
        for y in 0..GATES {
            if has(step, y) && self.is_alike(x, y) {
                if used == self.room(x) {
                    text.push_str("/")?;
                    used = 0;
                }
                write!(text, "{y} ")?;
                used = used.saturating_add(1);
            }
        }
        text.push_str("/")?;
        Ok(())
    }

    fn show_step(&self, step: u32, text: &mut String) -> Result<(), Fail> {
        for x in 0..GATES {
            if self.leads(step, x) {
                self.show_kind(step, x, text)?;
            }
        }
        text.push_str(";")?;
        Ok(())
    }

    /// The positions of each region, with `/` behind a region and `;` behind a step.
    pub(crate) fn show(&self, alloc: Global) -> Result<String, Fail> {
        let mut text = String::new(alloc);
        let mut placed = 0;
        for _ in 0..GATES {
            let step = self.step(placed);
            if step != 0 {
                self.show_step(step, &mut text)?;
            }
            placed |= step;
        }
        Ok(text)
    }
}
