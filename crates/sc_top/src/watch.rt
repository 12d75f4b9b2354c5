//! The probes that a request asks for, and their lines.
ghost use Rattle.std.specs.Prelude.{◌≡◌, false, filter, flat_map, OnOk};
ghost use Rattle.sc_base.specs.Causes.{HasCause};
ghost use Rattle.sc_base.specs.Output.{Wrote, WrotePrefix};
ghost use Rattle.sc_top.specs.Carried.{Prints};
ghost use Rattle.sc_top.specs.Watching.{asks, comment_line};

use sc_base::{Sink, Text, WriteFault, write_all};
use sc_probe::{Probe, Rule};

/// The rules whose options are given.
#[derive(Clone, Copy, Debug)]
pub(crate) struct Asked {
    pub kinds: bool,
    pub burst: bool,
    pub window: bool,
    pub reach: bool,
}

impl Asked {
    fn asks(self, rule: Rule) -> bool
        ensures { result ≡ asks self rule }
    {
        match rule {
            Rule::Kinds => self.kinds,
            Rule::Burst => self.burst,
            Rule::Window => self.window,
            Rule::Reach => self.reach,
        }
    }

    /// Whether the rule of the probe is asked for.
    fn wants(self, probe: &Box<dyn Probe>) -> bool
        ensures { result ≡ asks self (rule probe.now) }
    {
        self.asks(probe.rule())
    }

    /// Drops the probes whose rules are not asked for.
    pub(crate) fn keep(self, probes: &mut Vec<Box<dyn Probe>>)
        ensures { probes.new.items ≡ filter (λ p. asks self (rule p)) probes.old.items }
    {
        let asked = self;
        probes.retain(
            move |probe: &Box<dyn Probe>|
                ensures { result ≡ asks asked (rule probe.now) }
            { asked.wants(probe) },
        );
    }
}

/// Writes a text on a line that begins with the mark of a comment.
fn write_line<O: Sink>(text: &[u8], out: &mut O) -> Result<(), WriteFault>
    requires { O.is_ended out.old ≡ false }
    ensures open { O.is_ended out.new ≡ false }
    ensures appended { OnOk result (Wrote O.tells O.bytes out.old out.new (comment_line text.now)) }
    ensures prefix { WrotePrefix O.tells O.bytes out.old out.new (comment_line text.now) }
    ensures cause { HasCause (O.faults out.old) (O.faults out.new) result }
{
    write_all(out, b"# ")?;
    write_all(out, text)?;
    write_all(out, b"\n")
}

/// Writes each text on such a line.
fn write_lines<O: Sink>(texts: &[Text], out: &mut O) -> Result<(), WriteFault>
    requires { O.is_ended out.old ≡ false }
    ensures open { O.is_ended out.new ≡ false }
    ensures appended { OnOk result (Wrote O.tells O.bytes out.old out.new (flat_map comment_line texts.now)) }
    ensures prefix { WrotePrefix O.tells O.bytes out.old out.new (flat_map comment_line texts.now) }
    ensures cause { HasCause (O.faults out.old) (O.faults out.new) result }
{
    for text in texts {
        write_line(text.as_bytes(), out)?;
    }
    Ok(())
}

/// Writes each text on a line that begins with the mark of a comment, and ends the sink. Takes no memory.
pub(crate) fn print_lines<O: Sink>(texts: &[Text], out: &mut O) -> Result<(), WriteFault>
    requires { O.is_ended out.old ≡ false }
    ensures { Prints O.tells O.bytes O.is_ended O.faults out.old out.new (flat_map comment_line texts.now) result }
{
    write_lines(texts, out)?;
    match out.finish() {
        Ok(()) => Ok(()),
        Err(_) => Err(WriteFault),
    }
}
