//! Lines of items.
ghost use Rattle.std.specs.Prelude.{◌≡◌, ◌∷◌, ◌++◌, ◌≤◌, false, length, flat_map, codes, decimal, OnOk};
ghost use Rattle.sc_base.specs.Causes.{HasCause};
ghost use Rattle.sc_gate.specs.Lines.{wire_text, gate_line, number_line};
ghost use Rattle.sc_deck.specs.Hierarchical.{wires_text, call_line, fresh_word, repeat_line, item_line};
ghost use Rattle.sc_hier.specs.Gathering.{Gathers, GathersPrefix};

use crate::gate_line::line_of;
use crate::gathered::Gathered;
use sc_base::{Class, LineBuffer, Sink, WriteFault};
use sc_deck::Item;
use sc_gate::{Gate, Wire, push_wire};

/// The line of so many fresh wires of a class.
fn fresh_line(class: Class, n: u32) -> LineBuffer
    ensures { result ≡ number_line (fresh_word class) n }
{
    let mut line = LineBuffer::new();
    line.push(match class {
        Class::Q => b"qbit ".as_slice(),
        Class::C => b"cbit ".as_slice(),
    });
    line.push_number(n);
    line.push(b"\n");
    line
}

/// `repeat`, the number of turns, and a space.
fn turns_word(turns: u64) -> LineBuffer
    ensures { result ≡ codes "repeat " ++ decimal turns ++ codes " " }
{
    let mut line = LineBuffer::new();
    line.push(b"repeat ");
    line.push_u64(turns);
    line.push(b" ");
    line
}

/// `call` and the number of the callee.
fn call_word(callee: u32) -> LineBuffer
    ensures { result ≡ codes "call " ++ decimal callee }
{
    let mut line = LineBuffer::new();
    line.push(b"call ");
    line.push_number(callee);
    line
}

/// The text of a wire behind one byte.
fn wire_after(mark: &[u8], wire: Wire) -> LineBuffer
    requires { length mark.now ≤ 1 }
    ensures { result ≡ mark.now ++ wire_text wire }
{
    let mut line = LineBuffer::new();
    line.push(mark);
    push_wire(&mut line, wire);
    line
}

/// Appends wires, each behind a comma.
fn push_more_wires<O: Sink>(
    wires: &[Wire],
    held: &mut Gathered,
    out: &mut O,
) -> Result<(), WriteFault>
    requires open { O.is_ended out.old ≡ false }
    ensures open { O.is_ended out.new ≡ false }
    ensures gathered { OnOk result (Gathers O.tells O.bytes out.old out.new held.old held.new (flat_map (λ wire. 44 ∷ wire_text wire) wires.now)) }
    ensures prefix { GathersPrefix O.tells O.bytes out.old out.new held.old (flat_map (λ wire. 44 ∷ wire_text wire) wires.now) }
    ensures cause { HasCause (O.faults out.old) (O.faults out.new) result }
{
    for wire in wires {
        held.push(wire_after(b",", *wire).as_bytes(), out)?;
    }
    Ok(())
}

/// Appends a space and the wires, joined by commas; nothing where there is no wire.
fn push_wires<O: Sink>(wires: &[Wire], held: &mut Gathered, out: &mut O) -> Result<(), WriteFault>
    requires open { O.is_ended out.old ≡ false }
    ensures open { O.is_ended out.new ≡ false }
    ensures gathered { OnOk result (Gathers O.tells O.bytes out.old out.new held.old held.new (wires_text wires.now)) }
    ensures prefix { GathersPrefix O.tells O.bytes out.old out.new held.old (wires_text wires.now) }
    ensures cause { HasCause (O.faults out.old) (O.faults out.new) result }
{
    let Some((first, rest)) = wires.split_first() else {
        return Ok(());
    };
    held.push(wire_after(b" ", *first).as_bytes(), out)?;
    push_more_wires(rest, held, out)?;
    Ok(())
}

/// Appends the line of a call.
fn push_call<O: Sink>(
    callee: u32,
    wires: &[Wire],
    held: &mut Gathered,
    out: &mut O,
) -> Result<(), WriteFault>
    requires open { O.is_ended out.old ≡ false }
    ensures open { O.is_ended out.new ≡ false }
    ensures gathered { OnOk result (Gathers O.tells O.bytes out.old out.new held.old held.new (call_line callee wires.now)) }
    ensures prefix { GathersPrefix O.tells O.bytes out.old out.new held.old (call_line callee wires.now) }
    ensures cause { HasCause (O.faults out.old) (O.faults out.new) result }
{
    held.push(call_word(callee).as_bytes(), out)?;
    push_wires(wires, held, out)?;
    held.push(b"\n", out)?;
    Ok(())
}

/// Appends the line of a gate with turns.
fn push_gates<O: Sink>(
    gate: &Gate,
    turns: u64,
    held: &mut Gathered,
    out: &mut O,
) -> Result<(), WriteFault>
    requires open { O.is_ended out.old ≡ false }
    ensures open { O.is_ended out.new ≡ false }
    ensures gathered { OnOk result (Gathers O.tells O.bytes out.old out.new held.old held.new (repeat_line turns (gate_line gate.now))) }
    ensures prefix { GathersPrefix O.tells O.bytes out.old out.new held.old (repeat_line turns (gate_line gate.now)) }
    ensures cause { HasCause (O.faults out.old) (O.faults out.new) result }
{
    held.push(turns_word(turns).as_bytes(), out)?;
    held.push(line_of(gate).as_bytes(), out)?;
    Ok(())
}

/// Appends the line of a call with turns.
fn push_calls<O: Sink>(
    callee: u32,
    wires: &[Wire],
    turns: u64,
    held: &mut Gathered,
    out: &mut O,
) -> Result<(), WriteFault>
    requires open { O.is_ended out.old ≡ false }
    ensures open { O.is_ended out.new ≡ false }
    ensures gathered { OnOk result (Gathers O.tells O.bytes out.old out.new held.old held.new (repeat_line turns (call_line callee wires.now))) }
    ensures prefix { GathersPrefix O.tells O.bytes out.old out.new held.old (repeat_line turns (call_line callee wires.now)) }
    ensures cause { HasCause (O.faults out.old) (O.faults out.new) result }
{
    held.push(turns_word(turns).as_bytes(), out)?;
    push_call(callee, wires, held, out)?;
    Ok(())
}

/// Appends the line of an item.
fn push_item<O: Sink>(item: &Item, held: &mut Gathered, out: &mut O) -> Result<(), WriteFault>
    requires open { O.is_ended out.old ≡ false }
    ensures open { O.is_ended out.new ≡ false }
    ensures gathered { OnOk result (Gathers O.tells O.bytes out.old out.new held.old held.new (item_line item.now)) }
    ensures prefix { GathersPrefix O.tells O.bytes out.old out.new held.old (item_line item.now) }
    ensures cause { HasCause (O.faults out.old) (O.faults out.new) result }
{
    match item {
        Item::Fresh(class, n) => held.push(fresh_line(*class, *n).as_bytes(), out),
        Item::Gate(gate) => held.push(line_of(gate).as_bytes(), out),
        Item::Call(callee, wires) => push_call(*callee, wires.as_slice(), held, out),
        Item::Gates(gate, turns) => push_gates(gate, *turns, held, out),
        Item::Calls(callee, wires, turns) => {
            push_calls(*callee, wires.as_slice(), *turns, held, out)
        }
    }
}

/// Appends the lines of the items.
pub fn push_items<O: Sink>(
    items: &[Item],
    held: &mut Gathered,
    out: &mut O,
) -> Result<(), WriteFault>
    requires open { O.is_ended out.old ≡ false }
    ensures open { O.is_ended out.new ≡ false }
    ensures gathered { OnOk result (Gathers O.tells O.bytes out.old out.new held.old held.new (flat_map item_line items.now)) }
    ensures prefix { GathersPrefix O.tells O.bytes out.old out.new held.old (flat_map item_line items.now) }
    ensures cause { HasCause (O.faults out.old) (O.faults out.new) result }
{
    for item in items {
        push_item(item, held, out)?;
    }
    Ok(())
}
