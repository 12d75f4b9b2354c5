//! The request for a verdict on a schedule.
ghost use Rattle.std.specs.Prelude.{◌≡◌, ◌≤◌, ◌++◌, [], false, length, decimal, IfOk};
ghost use Rattle.sc_base.specs.Limits.{most_gates, most_text_bytes};
ghost use Rattle.sc_top.specs.Answers.{VerdictOf, CarriedOut};
ghost use Rattle.sc_top.specs.Carried.{Took, Prints};
ghost use Rattle.sc_top.specs.Stages.{Found};
ghost use Rattle.sc_top.specs.Verdicts.{IsList, IsPlan, IsVerdict, finding_text, finding_ends};
ghost use Rattle.sc_words.specs.declared.Request.TheVariants as requests;

use crate::fault::{Fault, flat_fault, plan_fault};
use crate::read::read_text;
use crate::status::Ending;
use sc_base::{LineBuffer, MOST_TEXT_BYTES, Shelf, Sink, Text, WriteFault, write_all};
use sc_check::{Finding, read_schedule, verdict};
use sc_gate::Gate;
use sc_read::{FlatText, read_flat};
use sc_sched::Plan;
use std::alloc::Global;

/// Writes the verdict on the schedule under the second name, for the gates of the flat text under the first, and ends
/// the sink. Both texts are read before either is looked at.
pub(crate) fn carry_check<F: Shelf, O: Sink>(
    alloc: Global,
    list: &[u8],
    schedule: &[u8],
    shelf: &mut F,
    out: &mut O,
) -> Result<Ending, Fault>
    requires { O.is_ended out.old ≡ false }
    ensures { CarriedOut F.held F.tells_held F.faults O.tells O.bytes O.is_ended O.faults [] (requests.Check list.now schedule.now) shelf.old shelf.new out.old out.new result }
{
    let found = verdict_of(alloc, list, schedule, shelf)?;
    match print(found, out) {
        Ok(()) => Ok(ending(found)),
        Err(_) => Err(Fault::WriteFault),
    }
}

/// The verdict on the schedule under the second name.
fn verdict_of<F: Shelf>(
    alloc: Global,
    list: &[u8],
    schedule: &[u8],
    shelf: &mut F,
) -> Result<Finding, Fault>
    ensures { Took F.held F.tells_held F.faults (λ held. VerdictOf held list.now schedule.now) shelf.old shelf.new result }
{
    let gates = read_text(alloc, list, MOST_TEXT_BYTES as u64, shelf)?;
    let plan = read_text(alloc, schedule, MOST_TEXT_BYTES as u64, shelf)?;
    judge(alloc, gates, plan)
}

/// The verdict on the schedule of the second text, for the gates of the first. Each text is dropped when it is read.
fn judge(alloc: Global, list: Text, schedule: Text) -> Result<Finding, Fault>
    requires list { length list ≤ most_text_bytes }
    requires schedule { length schedule ≤ most_text_bytes }
    ensures { Found (IsVerdict list schedule) result }
{
    let list = read_list(alloc, list)?;
    let plan = read_plan(alloc, schedule, list.gates.as_slice())?;
    match verdict(alloc, list.gates.as_slice(), &plan) {
        Ok(found) => Ok(found),
        Err(_) => Err(Fault::Memory),
    }
}

fn read_list(alloc: Global, text: Text) -> Result<FlatText, Fault>
    requires { length text ≤ most_text_bytes }
    ensures list { Found (IsList text) result }
    ensures few { IfOk result (λ list. length list.gates ≤ most_gates) }
{
    match read_flat(alloc, text.as_bytes()) {
        Ok(list) => Ok(list),
        Err(fault) => Err(flat_fault(fault)),
    }
}

/// The schedule of a text, for these gates.
fn read_plan(alloc: Global, text: Text, gates: &[Gate]) -> Result<Plan, Fault>
    requires text { length text ≤ most_text_bytes }
    requires gates { length gates.now ≤ most_gates }
    ensures { Found (IsPlan (length gates.now) text) result }
{
    match read_schedule(alloc, text.as_bytes(), gates.len() as u32) {
        Ok(plan) => Ok(plan),
        Err(fault) => Err(plan_fault(fault)),
    }
}

fn ending(found: Finding) -> Ending
    ensures { result ≡ finding_ends found }
{
    match found {
        Finding::Legal => Ending::Done,
        _ => Ending::NotLegal,
    }
}

/// The line that tells a verdict.
fn verdict_line(found: Finding) -> LineBuffer
    ensures { result ≡ finding_text found }
{
    let mut line = LineBuffer::new();
    match found {
        Finding::Legal => line.push(b"legal"),
        Finding::Missing(position) => push_counted(&mut line, b"missing ", position),
        Finding::Twice(position) => push_counted(&mut line, b"twice ", position),
        Finding::Early(position) => push_counted(&mut line, b"early ", position),
        Finding::TooManyRegions(step) => push_counted(&mut line, b"regions ", step),
        Finding::TooWideRegion(step) => push_counted(&mut line, b"wide ", step),
        Finding::MixedKinds(step) => push_counted(&mut line, b"mixed ", step),
    }
    line.push(b"\n");
    line
}

/// Appends a word and a number.
fn push_counted(line: &mut LineBuffer, word: &[u8], number: u32)
    requires empty { line.old ≡ [] }
    requires short { length word.now ≤ 8 }
    ensures text { line.new ≡ word.now ++ decimal number }
    ensures short { length line.new ≤ 18 }
{
    line.push(word);
    line.push_number(number);
}

/// Writes the line of a verdict, and ends the sink. Takes no memory.
fn print<O: Sink>(found: Finding, out: &mut O) -> Result<(), WriteFault>
    requires { O.is_ended out.old ≡ false }
    ensures { Prints O.tells O.bytes O.is_ended O.faults out.old out.new (finding_text found) result }
{
    write_all(out, verdict_line(found).as_bytes())?;
    match out.finish() {
        Ok(()) => Ok(()),
        Err(_) => Err(WriteFault),
    }
}
