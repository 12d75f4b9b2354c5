//! Coarse texts.
ghost use Rattle.std.specs.Prelude.{◌≡◌, ◌<◌, ◌∷◌, false, length, decimal, flat_map, map, Some, slice_get, OnOk};
ghost use Rattle.sc_base.specs.Causes.{HasCause};
ghost use Rattle.sc_base.specs.Output.{Wrote, WrotePrefix};
ghost use Rattle.sc_gate.specs.Lines.{number_line};
ghost use Rattle.sc_deck.specs.Modules.{key_of};
ghost use Rattle.sc_hier.specs.Gathering.{Gathers, GathersPrefix};
ghost use Rattle.sc_sched.specs.Text.{after_spaces, region_line, step_text};
ghost use Rattle.sc_coarse.specs.CoarseText.{block_text, instance_text, instances_text, coarse_head, coarse_text};

use crate::coarse::Instance;
use crate::{Block, Coarse};
use sc_base::{LineBuffer, Sink, WriteFault};
use sc_deck::{Deck, Key};
use sc_hier::{Gathered, push_heading};
use sc_sched::Region;

/// A line of a short word, a space and a number.
fn line_of(word: &[u8], number: u128) -> LineBuffer
    requires { length word.now < 39 }
    ensures { result ≡ number_line word.now number }
{
    let mut line = LineBuffer::new();
    line.push(word);
    line.push(b" ");
    line.push_u128(number);
    line.push(b"\n");
    line
}

/// A position after a space.
fn position_after(x: u32) -> LineBuffer
    ensures { result ≡ 32 ∷ decimal x }
{
    let mut line = LineBuffer::new();
    line.push(b" ");
    line.push_number(x);
    line
}

/// Appends positions, each after a space.
fn push_positions<O: Sink>(
    region: &[u32],
    held: &mut Gathered,
    out: &mut O,
) -> Result<(), WriteFault>
    requires open { O.is_ended out.old ≡ false }
    ensures open { O.is_ended out.new ≡ false }
    ensures gathered { OnOk result (Gathers O.tells O.bytes out.old out.new held.old held.new (after_spaces region.now)) }
    ensures prefix { GathersPrefix O.tells O.bytes out.old out.new held.old (after_spaces region.now) }
    ensures cause { HasCause (O.faults out.old) (O.faults out.new) result }
{
    for x in region {
        held.push(position_after(*x).as_bytes(), out)?;
    }
    Ok(())
}

/// Appends the line of a region.
fn push_region<O: Sink>(region: &[u32], held: &mut Gathered, out: &mut O) -> Result<(), WriteFault>
    requires open { O.is_ended out.old ≡ false }
    ensures open { O.is_ended out.new ≡ false }
    ensures gathered { OnOk result (Gathers O.tells O.bytes out.old out.new held.old held.new (region_line region.now)) }
    ensures prefix { GathersPrefix O.tells O.bytes out.old out.new held.old (region_line region.now) }
    ensures cause { HasCause (O.faults out.old) (O.faults out.new) result }
{
    held.push(b"region", out)?;
    push_positions(region, held, out)?;
    held.push(b"\n", out)?;
    Ok(())
}

/// Appends the lines of regions.
fn push_regions<O: Sink>(
    regions: &[Region],
    held: &mut Gathered,
    out: &mut O,
) -> Result<(), WriteFault>
    requires open { O.is_ended out.old ≡ false }
    ensures open { O.is_ended out.new ≡ false }
    ensures gathered { OnOk result (Gathers O.tells O.bytes out.old out.new held.old held.new (flat_map region_line regions.now)) }
    ensures prefix { GathersPrefix O.tells O.bytes out.old out.new held.old (flat_map region_line regions.now) }
    ensures cause { HasCause (O.faults out.old) (O.faults out.new) result }
{
    for region in regions {
        push_region(region.as_slice(), held, out)?;
    }
    Ok(())
}

/// Appends the lines of a step.
fn push_step<O: Sink>(
    regions: &[Region],
    held: &mut Gathered,
    out: &mut O,
) -> Result<(), WriteFault>
    requires open { O.is_ended out.old ≡ false }
    ensures open { O.is_ended out.new ≡ false }
    ensures gathered { OnOk result (Gathers O.tells O.bytes out.old out.new held.old held.new (step_text regions.now)) }
    ensures prefix { GathersPrefix O.tells O.bytes out.old out.new held.old (step_text regions.now) }
    ensures cause { HasCause (O.faults out.old) (O.faults out.new) result }
{
    held.push(b"step\n", out)?;
    push_regions(regions, held, out)?;
    Ok(())
}

/// Appends the lines of a block.
fn push_block<O: Sink>(block: &Block, held: &mut Gathered, out: &mut O) -> Result<(), WriteFault>
    requires open { O.is_ended out.old ≡ false }
    ensures open { O.is_ended out.new ≡ false }
    ensures gathered { OnOk result (Gathers O.tells O.bytes out.old out.new held.old held.new (block_text block.now)) }
    ensures prefix { GathersPrefix O.tells O.bytes out.old out.new held.old (block_text block.now) }
    ensures cause { HasCause (O.faults out.old) (O.faults out.new) result }
{
    match block {
        Block::Step(regions) => push_step(regions.as_slice(), held, out),
        Block::Alone(x) => held.push(line_of(b"alone", *x as u128).as_bytes(), out),
    }
}

/// Appends the lines of blocks.
fn push_blocks<O: Sink>(
    blocks: &[Block],
    held: &mut Gathered,
    out: &mut O,
) -> Result<(), WriteFault>
    requires open { O.is_ended out.old ≡ false }
    ensures open { O.is_ended out.new ≡ false }
    ensures gathered { OnOk result (Gathers O.tells O.bytes out.old out.new held.old held.new (flat_map block_text blocks.now)) }
    ensures prefix { GathersPrefix O.tells O.bytes out.old out.new held.old (flat_map block_text blocks.now) }
    ensures cause { HasCause (O.faults out.old) (O.faults out.new) result }
{
    for block in blocks {
        push_block(block, held, out)?;
    }
    Ok(())
}

/// Appends the lines of the instance of this number.
fn push_instance<O: Sink>(
    number: u32,
    key: &Key,
    instance: &Instance,
    held: &mut Gathered,
    out: &mut O,
) -> Result<(), WriteFault>
    requires open { O.is_ended out.old ≡ false }
    ensures open { O.is_ended out.new ≡ false }
    ensures gathered { OnOk result (Gathers O.tells O.bytes out.old out.new held.old held.new (instance_text number key.now instance.now)) }
    ensures prefix { GathersPrefix O.tells O.bytes out.old out.new held.old (instance_text number key.now instance.now) }
    ensures cause { HasCause (O.faults out.old) (O.faults out.new) result }
{
    push_heading(number, key, held, out)?;
    held.push(line_of(b"length", instance.length).as_bytes(), out)?;
    push_blocks(instance.blocks.as_slice(), held, out)?;
    held.push(b"end\n", out)?;
    Ok(())
}

/// The key of this number and its coarse schedule, which are there.
fn instance_at<'a>(deck: &'a Deck, c: &'a Coarse, number: u32) -> (&'a Key, &'a Instance)
    requires key { number < length deck.now }
    requires instance { number < length c.now }
    ensures key { slice_get (map key_of deck.now) number ≡ Some result.0.now }
    ensures instance { slice_get c.now number ≡ Some result.1.now }
{
    let key = deck.key_at(number).unwrap();
    let instance = c.instance(number).unwrap();
    (key, instance)
}

/// Appends the lines of all instances in order.
fn push_instances<O: Sink>(
    deck: &Deck,
    c: &Coarse,
    held: &mut Gathered,
    out: &mut O,
) -> Result<(), WriteFault>
    requires open { O.is_ended out.old ≡ false }
    requires many { length c.now ≡ length deck.now }
    ensures open { O.is_ended out.new ≡ false }
    ensures gathered { OnOk result (Gathers O.tells O.bytes out.old out.new held.old held.new (instances_text 0 (map key_of deck.now) c.now)) }
    ensures prefix { GathersPrefix O.tells O.bytes out.old out.new held.old (instances_text 0 (map key_of deck.now) c.now) }
    ensures cause { HasCause (O.faults out.old) (O.faults out.new) result }
{
    for number in 0..deck.len() {
        let (key, instance) = instance_at(deck, c, number);
        push_instance(number, key, instance, held, out)?;
    }
    Ok(())
}

/// Appends the three lines before the instances.
fn push_head<O: Sink>(k: u32, d: u32, held: &mut Gathered, out: &mut O) -> Result<(), WriteFault>
    requires open { O.is_ended out.old ≡ false }
    ensures open { O.is_ended out.new ≡ false }
    ensures gathered { OnOk result (Gathers O.tells O.bytes out.old out.new held.old held.new (coarse_head k d)) }
    ensures prefix { GathersPrefix O.tells O.bytes out.old out.new held.old (coarse_head k d) }
    ensures cause { HasCause (O.faults out.old) (O.faults out.new) result }
{
    held.push(b"coarse 1\n", out)?;
    held.push(line_of(b"regions", k as u128).as_bytes(), out)?;
    held.push(line_of(b"width", d as u128).as_bytes(), out)?;
    Ok(())
}

/// Writes the coarse text of the schedules, for the instances of the deck and `k` regions of `d` qubits. There are as many
/// schedules as instances.
///
/// It answers `WriteFault` only where the sink's count of faults rose, and then a prefix of the text was appended. The sink is
/// not ended before and after. Takes no memory. Short lines are gathered, 8192 bytes at most, and handed over together.
pub fn write_coarse<O: Sink>(
    deck: &Deck,
    c: &Coarse,
    k: u32,
    d: u32,
    out: &mut O,
) -> Result<(), WriteFault>
    requires open { O.is_ended out.old ≡ false }
    requires many { length c.now ≡ length deck.now }
    ensures open { O.is_ended out.new ≡ false }
    ensures appended { OnOk result (Wrote O.tells O.bytes out.old out.new (coarse_text k d deck.now c.now)) }
    ensures prefix { WrotePrefix O.tells O.bytes out.old out.new (coarse_text k d deck.now c.now) }
    ensures cause { HasCause (O.faults out.old) (O.faults out.new) result }
{
    let mut held = Gathered::new();
    push_head(k, d, &mut held, out)?;
    push_instances(deck, c, &mut held, out)?;
    held.flush(out)?;
    Ok(())
}
