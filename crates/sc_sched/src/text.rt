//! Schedule texts.
ghost use Rattle.std.specs.Prelude.{◌≡◌, false, flat_map, OnOk};
ghost use Rattle.sc_base.specs.Causes.{HasCause};
ghost use Rattle.sc_base.specs.Output.{Wrote, WrotePrefix};
ghost use Rattle.sc_sched.specs.Text.{after_spaces, region_line, step_text, head_text, schedule_text};

use crate::{Plan, Region, Step};
use sc_base::{LineBuffer, Sink, WriteFault, write_all};
use sc_gate::write_number_line;

/// Appends the text of the schedule. Takes no memory. At a fault a front of the text was appended.
pub fn write_schedule<O: Sink>(s: &Plan, out: &mut O) -> Result<(), WriteFault>
    requires open { O.is_ended out.old ≡ false }
    ensures open { O.is_ended out.new ≡ false }
    ensures appended { OnOk result (Wrote O.tells O.bytes out.old out.new (schedule_text s.now)) }
    ensures prefix { WrotePrefix O.tells O.bytes out.old out.new (schedule_text s.now) }
    ensures cause { HasCause (O.faults out.old) (O.faults out.new) result }
{
    write_head(s, out)?;
    write_steps(s.steps.as_slice(), out)?;
    write_all(out, b"end\n")?;
    Ok(())
}

fn write_head<O: Sink>(s: &Plan, out: &mut O) -> Result<(), WriteFault>
    requires open { O.is_ended out.old ≡ false }
    ensures open { O.is_ended out.new ≡ false }
    ensures appended { OnOk result (Wrote O.tells O.bytes out.old out.new (head_text s.now)) }
    ensures prefix { WrotePrefix O.tells O.bytes out.old out.new (head_text s.now) }
    ensures cause { HasCause (O.faults out.old) (O.faults out.new) result }
{
    write_all(out, b"sched 1\n")?;
    write_number_line(b"regions", s.k as u128, out)?;
    write_number_line(b"width", s.d as u128, out)?;
    write_number_line(b"gates", s.gates as u128, out)?;
    write_number_line(b"steps", s.steps.len() as u128, out)?;
    Ok(())
}

fn write_steps<O: Sink>(steps: &[Step], out: &mut O) -> Result<(), WriteFault>
    requires open { O.is_ended out.old ≡ false }
    ensures open { O.is_ended out.new ≡ false }
    ensures appended { OnOk result (Wrote O.tells O.bytes out.old out.new (flat_map step_text steps.now)) }
    ensures prefix { WrotePrefix O.tells O.bytes out.old out.new (flat_map step_text steps.now) }
    ensures cause { HasCause (O.faults out.old) (O.faults out.new) result }
{
    for step in steps {
        write_step(step.as_slice(), out)?;
    }
    Ok(())
}

fn write_step<O: Sink>(step: &[Region], out: &mut O) -> Result<(), WriteFault>
    requires open { O.is_ended out.old ≡ false }
    ensures open { O.is_ended out.new ≡ false }
    ensures appended { OnOk result (Wrote O.tells O.bytes out.old out.new (step_text step.now)) }
    ensures prefix { WrotePrefix O.tells O.bytes out.old out.new (step_text step.now) }
    ensures cause { HasCause (O.faults out.old) (O.faults out.new) result }
{
    write_all(out, b"step\n")?;
    write_regions(step, out)?;
    Ok(())
}

fn write_regions<O: Sink>(step: &[Region], out: &mut O) -> Result<(), WriteFault>
    requires open { O.is_ended out.old ≡ false }
    ensures open { O.is_ended out.new ≡ false }
    ensures appended { OnOk result (Wrote O.tells O.bytes out.old out.new (flat_map region_line step.now)) }
    ensures prefix { WrotePrefix O.tells O.bytes out.old out.new (flat_map region_line step.now) }
    ensures cause { HasCause (O.faults out.old) (O.faults out.new) result }
{
    for region in step {
        write_region(region.as_slice(), out)?;
    }
    Ok(())
}

fn write_region<O: Sink>(region: &[u32], out: &mut O) -> Result<(), WriteFault>
    requires open { O.is_ended out.old ≡ false }
    ensures open { O.is_ended out.new ≡ false }
    ensures appended { OnOk result (Wrote O.tells O.bytes out.old out.new (region_line region.now)) }
    ensures prefix { WrotePrefix O.tells O.bytes out.old out.new (region_line region.now) }
    ensures cause { HasCause (O.faults out.old) (O.faults out.new) result }
{
    write_all(out, b"region")?;
    write_positions(region, out)?;
    write_all(out, b"\n")?;
    Ok(())
}

fn write_positions<O: Sink>(region: &[u32], out: &mut O) -> Result<(), WriteFault>
    requires open { O.is_ended out.old ≡ false }
    ensures open { O.is_ended out.new ≡ false }
    ensures appended { OnOk result (Wrote O.tells O.bytes out.old out.new (after_spaces region.now)) }
    ensures prefix { WrotePrefix O.tells O.bytes out.old out.new (after_spaces region.now) }
    ensures cause { HasCause (O.faults out.old) (O.faults out.new) result }
{
    for x in region {
        let mut line = LineBuffer::new();
        line.push(b" ");
        line.push_number(*x);
        write_all(out, line.as_bytes())?;
    }
    Ok(())
}
