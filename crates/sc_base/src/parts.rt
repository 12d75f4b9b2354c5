//! Straight texts, written part by part.
ghost use Rattle.std.specs.Prelude.{◌≡◌, false, flat_map, OnOk};
ghost use Rattle.sc_base.specs.Causes.{HasCause};
ghost use Rattle.sc_base.specs.Output.{Wrote, WrotePrefix};

use crate::{Sink, WriteFault, write_all};

/// Appends the parts, one after another. It answers `WriteFault` only where the sink's count of faults rose, and
/// then a prefix of the joined parts was appended. The sink is not ended before and after.
pub fn write_parts<O: Sink>(out: &mut O, parts: &[&[u8]]) -> Result<(), WriteFault>
    requires open { O.is_ended out.old ≡ false }
    ensures open { O.is_ended out.new ≡ false }
    ensures appended { OnOk result (Wrote O.tells O.bytes out.old out.new (flat_map (λ part. part.now) parts.now)) }
    ensures prefix { WrotePrefix O.tells O.bytes out.old out.new (flat_map (λ part. part.now) parts.now) }
    ensures cause { HasCause (O.faults out.old) (O.faults out.new) result }
{
    for part in parts {
        write_all(out, part)?;
    }
    Ok(())
}
