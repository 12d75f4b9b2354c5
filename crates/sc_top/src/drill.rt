//! The large source of a number, and what is told of it.
ghost use Rattle.std.specs.Prelude.{◌≡◌, ◌-◌, ◌≤◌, ◌++◌, [], false, decimal, flat_map, length, IfOk, OnOk};
ghost use Rattle.std.specs.List.{range_with_len};
ghost use Rattle.sc_base.specs.Causes.{HasCause};
ghost use Rattle.sc_base.specs.Limits.{most_source_bytes};
ghost use Rattle.sc_base.specs.Output.{Wrote, WrotePrefix};
ghost use Rattle.sc_top.specs.Answers.{CarriedOut};
ghost use Rattle.sc_top.specs.Carried.{Prints};
ghost use Rattle.sc_top.specs.Drills.{module_line, call_line, drill_text, drill_lines, drill_summary};
ghost use Rattle.sc_top.specs.Expansions.{ones};
ghost use Rattle.sc_top.specs.Sources.{IsSource};
ghost use Rattle.sc_top.specs.Stages.{Found, Then};
ghost use Rattle.sc_top.specs.Tallied.{IsSummarized};
ghost use Rattle.sc_words.specs.declared.Request.TheVariants as requests;
ghost use Rattle.sc_meaning.specs.declared.choice.Choice.TheVariants as choice;

use crate::fault::Fault;
use crate::report::Summary;
use crate::source::build_deck;
use crate::status::Ending;
use crate::tallied::summarized;
use sc_base::{LineBuffer, Memory, Shelf, Sink, Text, WriteFault};
use sc_elab::Choice;
use sc_gate::{Times, write_number_line};
use std::alloc::Global;

/// A source that is larger the greater `n` is, from 1 to 50,000, to try the compiler by: `n` modules on three qubits, each
/// but the first with two calls of that of half its number, and a main that calls each of them. It is the same text each
/// time, of at most 16,777,216 bytes. Refused for want of memory alone.
pub fn drill_source(alloc: Global, n: u32) -> Result<Text, Memory>
    requires some { 1 ≤ n }
    requires most { n ≤ 50000 }
    ensures text { IfOk result (λ text. text ≡ drill_text n) }
    ensures within { IfOk result (λ text. length text ≤ most_source_bytes) }
{
    let mut text = Text::new(alloc);
    text.push_bytes(b"module m1(qbit a, qbit b, qbit c) { H(a); CNOT(a, b); T(c); }\n")?;
    push_modules(&mut text, n)?;
    text.push_bytes(b"int main() { qbit q[3];\n")?;
    push_calls(&mut text, n)?;
    text.push_bytes(b"}\n")?;
    Ok(text)
}

/// Appends the modules 2 to `n`.
fn push_modules(text: &mut Text, n: u32) -> Result<(), Memory>
    requires { n ≤ 50000 }
    ensures { OnOk result (text.new ≡ text.old ++ flat_map module_line (range_with_len 2 (n - 1))) }
{
    for i in 2..n + 1 {
        push_module(text, i)?;
    }
    Ok(())
}

/// Appends the calls of modules 1 to `n`.
fn push_calls(text: &mut Text, n: u32) -> Result<(), Memory>
    requires { n ≤ 50000 }
    ensures { OnOk result (text.new ≡ text.old ++ flat_map call_line (range_with_len 1 n)) }
{
    for i in 1..n + 1 {
        push_call(text, i)?;
    }
    Ok(())
}

fn push_module(text: &mut Text, i: u32) -> Result<(), Memory>
    ensures { OnOk result (text.new ≡ text.old ++ module_line i) }
{
    let half = i / 2;
    push_numbered(text, b"module m", i)?;
    push_numbered(text, b"(qbit a, qbit b, qbit c) { m", half)?;
    push_numbered(text, b"(b, c, a); H(a); CNOT(a, b); T(c); m", half)?;
    text.push_bytes(b"(a, b, c); }\n")?;
    Ok(())
}

fn push_call(text: &mut Text, i: u32) -> Result<(), Memory>
    ensures { OnOk result (text.new ≡ text.old ++ call_line i) }
{
    push_numbered(text, b"m", i)?;
    text.push_bytes(b"(q[0], q[1], q[2]);\n")?;
    Ok(())
}

/// Appends some bytes and the decimal text of a number.
fn push_numbered(text: &mut Text, front: &[u8], number: u32) -> Result<(), Memory>
    requires { length front.now ≤ 70 }
    ensures { OnOk result (text.new ≡ text.old ++ front.now ++ decimal number) }
{
    let mut line = LineBuffer::new();
    line.push(front);
    line.push_number(number);
    text.push_bytes(line.as_bytes())
}

/// Writes the summary of the drill source of `n`, and ends the sink. It looks at no shelf.
pub(crate) fn carry_drill<F: Shelf, O: Sink>(
    alloc: Global,
    n: u32,
    shelf: &F,
    out: &mut O,
) -> Result<Ending, Fault>
    requires open { O.is_ended out.old ≡ false }
    requires some { 1 ≤ n }
    requires most { n ≤ 50000 }
    ensures { CarriedOut F.held F.tells_held F.faults O.tells O.bytes O.is_ended O.faults [] (requests.Drill n) shelf.now shelf.now out.old out.new result }
{
    let _ = shelf;
    let source = match drill_source(alloc, n) {
        Ok(source) => source,
        Err(_) => return Err(Fault::Memory),
    };
    let summary = drilled(alloc, source.as_bytes())?;
    match print_drill(n, source.len(), &summary, out) {
        Ok(()) => Ok(Ending::Done),
        Err(_) => Err(Fault::WriteFault),
    }
}

/// What is told of the deck of a source, its Toffoli and Fredkin gates replaced.
fn drilled(alloc: Global, source: &[u8]) -> Result<Summary, Fault>
    requires { length source.now ≤ most_source_bytes }
    ensures { Found (Then (IsSource choice.Replace source.now) (IsSummarized ones)) result }
{
    let deck = build_deck(alloc, source, Choice::Replace)?;
    summarized(alloc, &deck, &Times::ones())
}

/// Writes the summary of the source of `n`, which has so many bytes, and ends the sink. Takes no memory.
fn print_drill<O: Sink>(
    n: u32,
    bytes: usize,
    summary: &Summary,
    out: &mut O,
) -> Result<(), WriteFault>
    requires open { O.is_ended out.old ≡ false }
    requires bytes { bytes ≡ length (drill_text n) }
    ensures { Prints O.tells O.bytes O.is_ended O.faults out.old out.new (drill_summary n summary.now) result }
{
    write_drill(n, bytes, summary, out)?;
    match out.finish() {
        Ok(()) => Ok(()),
        Err(_) => Err(WriteFault),
    }
}

/// Writes the lines of a summary. Takes no memory. At a fault of the sink a prefix of it is written.
fn write_drill<O: Sink>(
    n: u32,
    bytes: usize,
    summary: &Summary,
    out: &mut O,
) -> Result<(), WriteFault>
    requires { O.is_ended out.old ≡ false }
    ensures open { O.is_ended out.new ≡ false }
    ensures appended { OnOk result (Wrote O.tells O.bytes out.old out.new (drill_lines n bytes summary.now)) }
    ensures prefix { WrotePrefix O.tells O.bytes out.old out.new (drill_lines n bytes summary.now) }
    ensures cause { HasCause (O.faults out.old) (O.faults out.new) result }
{
    write_number_line(b"drill", n as u128, out)?;
    write_number_line(b"bytes", bytes as u128, out)?;
    write_number_line(b"instances", summary.instances as u128, out)?;
    write_number_line(b"qubits", summary.counts.qubits, out)?;
    write_number_line(b"gates", summary.counts.gates, out)?;
    write_number_line(b"critical", summary.critical, out)?;
    Ok(())
}
