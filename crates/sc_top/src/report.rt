//! The report on a deck.
ghost use Rattle.std.specs.Prelude.{◌≡◌, false, OnOk};
ghost use Rattle.sc_base.specs.Causes.{HasCause};
ghost use Rattle.sc_base.specs.Output.{Wrote, WrotePrefix};
ghost use Rattle.sc_top.specs.Carried.{Prints};
ghost use Rattle.sc_top.specs.Reports.{totals_text, weight_text, kinds_text, report_text};

use sc_base::{GateName, Sink, WriteFault};
use sc_count::Counts;
use sc_gate::write_number_line;

/// What is told of a deck: the number of its instances, and the counts and the critical path of main with all its calls
/// written out.
#[derive(Clone, Copy)]
pub(crate) struct Summary {
    pub instances: u32,
    pub counts: Counts,
    pub critical: u128,
}

/// Writes the report, with the line of the weight where `weighs`, and ends the sink. Takes no memory.
pub(crate) fn print_report<O: Sink>(
    summary: &Summary,
    weighs: bool,
    out: &mut O,
) -> Result<(), WriteFault>
    requires { O.is_ended out.old ≡ false }
    ensures { Prints O.tells O.bytes O.is_ended O.faults out.old out.new (report_text weighs summary.now) result }
{
    write_report(summary, weighs, out)?;
    match out.finish() {
        Ok(()) => Ok(()),
        Err(_) => Err(WriteFault),
    }
}

/// Writes the report. Takes no memory. At a fault of the sink a prefix of it is written.
fn write_report<O: Sink>(summary: &Summary, weighs: bool, out: &mut O) -> Result<(), WriteFault>
    requires { O.is_ended out.old ≡ false }
    ensures open { O.is_ended out.new ≡ false }
    ensures appended { OnOk result (Wrote O.tells O.bytes out.old out.new (report_text weighs summary.now)) }
    ensures prefix { WrotePrefix O.tells O.bytes out.old out.new (report_text weighs summary.now) }
    ensures cause { HasCause (O.faults out.old) (O.faults out.new) result }
{
    write_totals(summary, out)?;
    write_weight(weighs, summary.counts.weight, out)?;
    write_kinds(&summary.counts.kinds, out)?;
    Ok(())
}

/// Writes the six lines that every report has before the names.
fn write_totals<O: Sink>(summary: &Summary, out: &mut O) -> Result<(), WriteFault>
    requires { O.is_ended out.old ≡ false }
    ensures open { O.is_ended out.new ≡ false }
    ensures appended { OnOk result (Wrote O.tells O.bytes out.old out.new (totals_text summary.now)) }
    ensures prefix { WrotePrefix O.tells O.bytes out.old out.new (totals_text summary.now) }
    ensures cause { HasCause (O.faults out.old) (O.faults out.new) result }
{
    write_number_line(b"instances", summary.instances as u128, out)?;
    write_number_line(b"qubits", summary.counts.qubits, out)?;
    write_number_line(b"cbits", summary.counts.cbits, out)?;
    write_number_line(b"peak", summary.counts.peak, out)?;
    write_number_line(b"gates", summary.counts.gates, out)?;
    write_number_line(b"critical", summary.critical, out)?;
    Ok(())
}

/// Writes the line of the weight, where it is wanted.
fn write_weight<O: Sink>(weighs: bool, weight: u128, out: &mut O) -> Result<(), WriteFault>
    requires { O.is_ended out.old ≡ false }
    ensures open { O.is_ended out.new ≡ false }
    ensures appended { OnOk result (Wrote O.tells O.bytes out.old out.new (weight_text weighs weight)) }
    ensures prefix { WrotePrefix O.tells O.bytes out.old out.new (weight_text weighs weight) }
    ensures cause { HasCause (O.faults out.old) (O.faults out.new) result }
{
    if weighs {
        write_number_line(b"weight", weight, out)
    } else {
        Ok(())
    }
}

/// Writes a line for each gate name.
fn write_kinds<O: Sink>(kinds: &[u128; 18], out: &mut O) -> Result<(), WriteFault>
    requires { O.is_ended out.old ≡ false }
    ensures open { O.is_ended out.new ≡ false }
    ensures appended { OnOk result (Wrote O.tells O.bytes out.old out.new (kinds_text kinds.now)) }
    ensures prefix { WrotePrefix O.tells O.bytes out.old out.new (kinds_text kinds.now) }
    ensures cause { HasCause (O.faults out.old) (O.faults out.new) result }
{
    for name in &GateName::ALL {
        write_number_line(name.text().as_bytes(), kinds[name.place()], out)?;
    }
    Ok(())
}
