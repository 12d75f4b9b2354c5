//! The whole text.
ghost use Rattle.std.specs.Prelude.{◌≡◌, ◌<◌, false, length, codes, Some, slice_get, if◌then◌else◌, OnOk};
ghost use Rattle.std.specs.List.{list_any};
ghost use Rattle.sc_base.specs.Causes.{HasCause};
ghost use Rattle.sc_base.specs.Output.{Wrote, WrotePrefix};
ghost use Rattle.sc_gate.specs.Lines.{number_line};
ghost use Rattle.sc_deck.specs.Hierarchical.{module_text, modules_text, have_turns, hier};
ghost use Rattle.sc_deck.specs.Turns.{has_turns as item_has_turns};
ghost use Rattle.sc_hier.specs.Gathering.{Gathers, GathersPrefix};

use crate::gathered::Gathered;
use crate::item::push_items;
use crate::signature::push_heading;
use sc_base::{Sink, WriteFault};
use sc_deck::{Body, Deck, Item, Key};

/// The key and the body of this number, which are there.
fn module_at(deck: &Deck, number: u32) -> (&Key, &Body)
    requires { number < length deck.now }
    ensures { slice_get deck.now number ≡ Some (record { key = result.0.now; items = result.1.now.items }) }
{
    let key = deck.key_at(number).unwrap();
    let body = deck.body_at(number).unwrap();
    (key, body)
}

fn has_turns(item: &Item) -> bool
    ensures { result ≡ item_has_turns item.now }
{
    match item {
        Item::Fresh(..) | Item::Gate(_) | Item::Call(..) => false,
        Item::Gates(..) | Item::Calls(..) => true,
    }
}

fn any_has_turns(items: &[Item]) -> bool
    ensures { result ≡ list_any item_has_turns items.now }
{
    items.iter().any(|item| has_turns(item))
}

/// Whether some item of the deck has turns.
fn deck_has_turns(deck: &Deck) -> bool
    ensures { result ≡ have_turns deck.now }
{
    for number in 0..deck.len() {
        let (_, body) = module_at(deck, number);
        if any_has_turns(body.items()) {
            return true;
        }
    }
    false
}

/// The first line of the text.
fn version_line(turns: bool) -> &'static [u8]
    ensures { result.now ≡ number_line (codes "hier") (if turns then 2 else 1) }
{
    if turns { b"hier 2\n" } else { b"hier 1\n" }
}

/// Appends the module of this number.
fn push_module<O: Sink>(
    number: u32,
    key: &Key,
    body: &Body,
    held: &mut Gathered,
    out: &mut O,
) -> Result<(), WriteFault>
    requires open { O.is_ended out.old ≡ false }
    ensures open { O.is_ended out.new ≡ false }
    ensures gathered { OnOk result (Gathers O.tells O.bytes out.old out.new held.old held.new (module_text number (record { key = key.now; items = body.now.items }))) }
    ensures prefix { GathersPrefix O.tells O.bytes out.old out.new held.old (module_text number (record { key = key.now; items = body.now.items })) }
    ensures cause { HasCause (O.faults out.old) (O.faults out.new) result }
{
    push_heading(number, key, held, out)?;
    push_items(body.items(), held, out)?;
    held.push(b"end\n", out)?;
    Ok(())
}

/// Appends all modules in order.
fn push_modules<O: Sink>(deck: &Deck, held: &mut Gathered, out: &mut O) -> Result<(), WriteFault>
    requires open { O.is_ended out.old ≡ false }
    ensures open { O.is_ended out.new ≡ false }
    ensures gathered { OnOk result (Gathers O.tells O.bytes out.old out.new held.old held.new (modules_text 0 deck.now)) }
    ensures prefix { GathersPrefix O.tells O.bytes out.old out.new held.old (modules_text 0 deck.now) }
    ensures cause { HasCause (O.faults out.old) (O.faults out.new) result }
{
    for number in 0..deck.len() {
        let (key, body) = module_at(deck, number);
        push_module(number, key, body, held, out)?;
    }
    Ok(())
}

/// Writes the hierarchical text of the deck: version 2 where an item has turns, and version 1 elsewhere.
///
/// It answers `WriteFault` only where the sink's count of faults rose, and then a prefix of the text was appended. The sink is
/// not ended before and after. Takes no memory. Short lines are gathered, 8192 bytes at most, and handed over together.
pub fn write_hier<O: Sink>(deck: &Deck, out: &mut O) -> Result<(), WriteFault>
    requires open { O.is_ended out.old ≡ false }
    ensures open { O.is_ended out.new ≡ false }
    ensures appended { OnOk result (Wrote O.tells O.bytes out.old out.new (hier deck.now)) }
    ensures prefix { WrotePrefix O.tells O.bytes out.old out.new (hier deck.now) }
    ensures cause { HasCause (O.faults out.old) (O.faults out.new) result }
{
    let mut held = Gathered::new();
    held.push(version_line(deck_has_turns(deck)), out)?;
    push_modules(deck, &mut held, out)?;
    held.flush(out)?;
    Ok(())
}
