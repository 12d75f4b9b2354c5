//! Schedule texts, line by line.
ghost use Rattle.std.specs.Prelude.{◌≡◌, ◌+◌, ℕ, ◌<◌, ◌≤◌, ◌++◌, List as Values, [], length, codes, flat_map, IfOk, IfErr, OnOk, All};
ghost use Rattle.sc_sched.specs.Text.{region_line, step_text, IsWritable, IsTextOf};
ghost use Rattle.sc_check.specs.ReadFaults.{IsReadFault, IsBodyFault, ReadsBody, ReadsRegions};

use crate::reader::take_region_line;
use sc_base::{List, Memory, take_number_line, take_text};
use sc_sched::{Plan, Region, Step};
use std::alloc::Global;

/// The greatest number of regions and of qubits of a region in a text.
const GREATEST: u64 = 1_000_000;

/// The first line of a step.
const STEP: &[u8] = b"step\n";

/// Why a text was not read.
#[derive(Clone, Copy, Debug, PartialEq, Eq)]
pub enum SchedReadFault {
    /// The first line, from 1, that is not in its place.
    BadSchedule(u32),
    /// No memory was left.
    Memory,
}

/// The schedule of the text, for a list of so many gates. `BadSchedule` comes exactly where the text is not in the
/// grammar, with its first line that is not in its place, or the one after the last where the text ends too early.
pub fn read_schedule(alloc: Global, text: &[u8], gates: u32) -> Result<Plan, SchedReadFault>
    requires { length text.now ≤ 134217728 }
    ensures ok { IfOk result (λ s. IsTextOf gates text.now s) }
    ensures fault { IfErr result (λ fault. IsReadFault gates text.now fault) }
{
    let Some(after_title) = take_text(text, b"sched 1\n") else {
        return Err(SchedReadFault::BadSchedule(1));
    };
    let Some((k, after_k)) = take_number_line(after_title, b"regions", 1, GREATEST) else {
        return Err(SchedReadFault::BadSchedule(2));
    };
    let Some((d, after_d)) = take_number_line(after_k, b"width", 1, GREATEST) else {
        return Err(SchedReadFault::BadSchedule(3));
    };
    let wanted = gates as u64;
    let Some((_, after_gates)) = take_number_line(after_d, b"gates", wanted, wanted) else {
        return Err(SchedReadFault::BadSchedule(4));
    };
    let Some((count, body)) = take_number_line(after_gates, b"steps", 0, u32::MAX as u64) else {
        return Err(SchedReadFault::BadSchedule(5));
    };
    match read_steps(alloc, body, gates, count as u32) {
        Ok(steps) => Ok(Plan {
            k: k as u32,
            d: d as u32,
            gates,
            steps,
        }),
        Err(fault) => Err(fault),
    }
}

/// The steps of a text after its five first lines, of which so many have to follow.
fn read_steps(
    alloc: Global,
    text: &[u8],
    gates: u32,
    count: u32,
) -> Result<List<Step>, SchedReadFault>
    requires { length text.now ≤ 134217728 }
    ensures ok { IfOk result (λ steps. ReadsBody gates count text.now steps) }
    ensures fault { IfErr result (λ fault. IsBodyFault gates count text.now fault) }
{
    let room = (count as usize).min(text.len() / STEP.len());
    let Ok(items) = Vec::with_capacity(alloc, room) else {
        return Err(SchedReadFault::Memory);
    };
    let mut steps = List::from_vec(items);
    let mut found = Vec::new(alloc);
    let mut rest = text;
    let mut line = 6;
    for begun in 0..count {
        let Some(after_line) = take_text(rest, STEP) else {
            return Err(SchedReadFault::BadSchedule(line));
        };
        let Ok((step, after_step)) = take_regions(alloc, after_line, gates, &mut found) else {
            return Err(SchedReadFault::Memory);
        };
        line += 1 + step.len() as u32;
        let Ok(()) = steps.push(step) else {
            return Err(SchedReadFault::Memory);
        };
        rest = after_step;
    }
    match take_text(rest, b"end\n") {
        Some([]) => Ok(steps),
        Some(_) => Err(SchedReadFault::BadSchedule(line + 1)),
        None => Err(SchedReadFault::BadSchedule(line)),
    }
}

/// The region lines with which the text begins, and what follows them. They are gathered in `found`, and the step has
/// exactly the room that it needs.
fn take_regions<'a>(
    alloc: Global,
    text: &'a [u8],
    gates: u32,
    found: &mut Vec<Region>,
) -> Result<(Step, &'a [u8]), Memory>
    requires short { length text.now ≤ 134217728 }
    requires empty { found.old.items ≡ [] }
    ensures regions { IfOk result (λ r. ReadsRegions gates text.now r.0 r.1.now) }
    ensures empty { OnOk result (found.new.items ≡ []) }
{
    let mut rest = text;
    while let Some((region, more)) = take_region_line(alloc, rest, gates)? {
        found.push(region)?;
        rest = more;
    }
    let mut step = Vec::with_capacity(alloc, found.len())?;
    step.append(found)?;
    Ok((List::from_vec(step), rest))
}
