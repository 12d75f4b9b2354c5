//! Lines of items, read strictly.
ghost use Rattle.std.specs.Prelude.{◌≡◌, ◌≤◌, ◌<◌, ◌^◌, ◌++◌, ℕ, List as Values, IfOk, IfSome, IfNone, Some as SomeOf, codes};
ghost use Rattle.sc_base.specs.declared.names.Class.{Class as ClassValue};
ghost use Rattle.sc_gate.specs.declared.gate.Wire.{Wire as WireValue};
ghost use Rattle.sc_gate.specs.Numbers.{AreThere};
ghost use Rattle.sc_deck.specs.Bodies.{wires_of};
ghost use Rattle.sc_deck.specs.Hierarchical.{fresh_word, repeat_line, wires_text};
ghost use Rattle.sc_read.specs.declared.item_line.Step.{Step as StepValue};
ghost use Rattle.sc_read.specs.declared.item_line.ItemLine.{ItemLine as LineValue};
ghost use Rattle.sc_read.specs.GateFronts.{counts};
ghost use Rattle.sc_read.specs.HierFronts.{ReadsFresh, ReadsStep, ReadsItem};

use crate::gate_line::{short_gate, take_gate, take_next_wire, take_wire};
use crate::signature::take_length;
use sc_base::{Class, List, Memory, take_number, take_text};
use sc_deck::{Body, Deck, first_repeat};
use sc_gate::{Gate, Wire};
use std::alloc::Global;

/// What an item does once.
#[derive(Drop)]
pub(crate) enum Step {
    /// A gate.
    Apply(Gate),
    /// A call of the body with this number, on these wires.
    Enter(u32, List<Wire>),
}

/// The item of a line.
#[derive(Drop)]
pub(crate) enum ItemLine {
    /// So many fresh wires of a class.
    Fresh(Class, u32),
    /// A step that is taken once.
    Once(Step),
    /// A step that is taken so many times.
    Repeated(Step, u64),
}

/// The item whose line this is, behind a body. None where the line is not in its place.
pub(crate) fn item_of(
    alloc: Global,
    line: &[u8],
    turns: bool,
    deck: &Deck,
    body: &Body,
) -> Result<Option<ItemLine>, Memory>
    ensures some { IfOk result (λ r. IfSome r (λ item. ReadsItem turns deck.now (wires_of body.now) line.now item)) }
    ensures none { IfOk result (λ r. IfNone r ((item : LineValue) → ReadsItem turns deck.now (wires_of body.now) line.now item → ⊥)) }
{
    if let Some(gate) = short_gate(line, body.count(Class::Q)) {
        return Ok(Some(ItemLine::Once(Step::Apply(gate))));
    }
    if let Some((class, count)) = fresh_of(line) {
        return Ok(Some(ItemLine::Fresh(class, count)));
    }
    if turns {
        if let Some((count, rest)) = take_turns(line) {
            return match step_of(alloc, rest, deck, body)? {
                Some(step) => Ok(Some(ItemLine::Repeated(step, count))),
                None => Ok(None),
            };
        }
    }
    match step_of(alloc, line, deck, body)? {
        Some(step) => Ok(Some(ItemLine::Once(step))),
        None => Ok(None),
    }
}

/// The fresh wires whose line this is.
fn fresh_of(line: &[u8]) -> Option<(Class, u32)>
    ensures some { IfSome result (λ r. ReadsFresh line.now r.0 r.1) }
    ensures none { IfNone result ((class : ClassValue) (kept : ℕ) → ReadsFresh line.now class kept → ⊥) }
{
    let Some((class, digits)) = take_fresh_word(line) else {
        return None;
    };
    let Some((count, rest)) = take_length(digits) else {
        return None;
    };
    if rest == b"\n".as_slice() {
        Some((class, count))
    } else {
        None
    }
}

/// The class whose word the line begins with, and what follows the space behind it.
fn take_fresh_word(line: &[u8]) -> Option<(Class, &[u8])>
    ensures some { IfSome result (λ r. line.now ≡ fresh_word r.0 ++ codes " " ++ r.1.now) }
    ensures none { IfNone result ((class : ClassValue) (rest : Values ℕ) → line.now ≡ fresh_word class ++ codes " " ++ rest → ⊥) }
{
    if let Some(rest) = take_text(line, b"qbit ") {
        return Some((Class::Q, rest));
    }
    match take_text(line, b"cbit ") {
        Some(rest) => Some((Class::C, rest)),
        None => None,
    }
}

/// The number of turns in front, at least 2, and what is repeated.
fn take_turns(line: &[u8]) -> Option<(u64, &[u8])>
    ensures some { IfSome result (λ r. line.now ≡ repeat_line r.0 r.1.now) }
    ensures turns { IfSome result (λ r. (2 ≤ r.0) × (r.0 < 2 ^ 64)) }
    ensures none { IfNone result ((turns : ℕ) (rest : Values ℕ) → 2 ≤ turns → turns < 2 ^ 64 → line.now ≡ repeat_line turns rest → ⊥) }
{
    let Some(after_word) = take_text(line, b"repeat ") else {
        return None;
    };
    let Some((count, after_count)) = take_number(after_word) else {
        return None;
    };
    if count < 2 {
        return None;
    }
    match take_text(after_count, b" ") {
        Some(rest) => Some((count, rest)),
        None => None,
    }
}

/// The gate or the call whose line this is.
fn step_of(alloc: Global, line: &[u8], deck: &Deck, body: &Body) -> Result<Option<Step>, Memory>
    ensures some { IfOk result (λ r. IfSome r (λ step. ReadsStep deck.now (wires_of body.now) line.now step)) }
    ensures none { IfOk result (λ r. IfNone r ((step : StepValue) → ReadsStep deck.now (wires_of body.now) line.now step → ⊥)) }
{
    if let Some(call) = take_text(line, b"call ") {
        return call_of(alloc, call, deck, body);
    }
    match take_gate(line, body.count(Class::Q), body.count(Class::C)) {
        Some((gate, rest)) if rest.is_empty() => Ok(Some(Step::Apply(gate))),
        _ => Ok(None),
    }
}

/// The call whose number and wires these are: of an earlier body, with its parameters in number and class, all distinct.
fn call_of(alloc: Global, call: &[u8], deck: &Deck, body: &Body) -> Result<Option<Step>, Memory>
    ensures some { IfOk result (λ r. IfSome r (λ step. ReadsStep deck.now (wires_of body.now) (codes "call " ++ call.now) step)) }
    ensures none { IfOk result (λ r. IfNone r ((step : StepValue) → ReadsStep deck.now (wires_of body.now) (codes "call " ++ call.now) step → ⊥)) }
{
    let bodies = deck.len() as u64;
    let Some((callee, rest)) = take_number(call) else {
        return Ok(None);
    };
    let Some(wires) = operands_of(alloc, rest, body.count(Class::Q), body.count(Class::C))? else {
        return Ok(None);
    };
    if callee >= bodies {
        return Ok(None);
    }
    let callee = callee as u32;
    if first_repeat(wires.as_slice()).is_some() {
        return Ok(None);
    }
    if deck.fits_call(callee, wires.as_slice()) {
        Ok(Some(Step::Enter(callee, wires)))
    } else {
        Ok(None)
    }
}

/// The wires of a call, behind its number up to the end of the line.
fn operands_of(
    alloc: Global,
    bytes: &[u8],
    qubits: u32,
    cbits: u32,
) -> Result<Option<List<Wire>>, Memory>
    ensures some { IfOk result (λ r. IfSome r (λ wires. (bytes.now ≡ wires_text wires ++ codes "\n") × AreThere (counts qubits cbits) wires)) }
    ensures only { IfOk result (λ r. (wires : Values WireValue) → AreThere (counts qubits cbits) wires → bytes.now ≡ wires_text wires ++ codes "\n" → r ≡ SomeOf wires) }
{
    let Some(after_space) = take_text(bytes, b" ") else {
        if bytes == b"\n".as_slice() {
            return Ok(Some(List::new(alloc)));
        }
        return Ok(None);
    };
    let Some((wire, after_wire)) = take_wire(after_space, qubits, cbits) else {
        return Ok(None);
    };
    let mut wires = List::new(alloc);
    wires.push(wire)?;
    let mut rest = after_wire;
    while let Some((wire, after_wire)) = take_next_wire(rest, qubits, cbits) {
        wires.push(wire)?;
        rest = after_wire;
    }
    if rest == b"\n".as_slice() {
        Ok(Some(wires))
    } else {
        Ok(None)
    }
}
