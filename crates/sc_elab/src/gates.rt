//! Gates of a body.
ghost use Rattle.std.specs.Prelude.{◌≡◌, ◌≢◌, ◌+◌, ◌<◌, ◌^◌, fold, length, map, option_map, Ok, Err, OnOk, IfOk, IfErr};
ghost use Rattle.std.specs.List.{AllByRecursion};
ghost use Rattle.std.specs.Option.{option_copied};
ghost use Rattle.sc_syntax.specs.Alike.{pure_expr, pure_operand};
ghost use Rattle.sc_deck.specs.Bodies.{wires_of};
ghost use Rattle.sc_deck.specs.Items.{GateFits};
ghost use Rattle.sc_deck.specs.Turns.{with_folded, last_turns};
ghost use Rattle.sc_meaning.specs.Arguments.{angle, start, start_of, kind_of, gate_on, called_gate};
ghost use Rattle.sc_elab.specs.Evaluated.{passed_by};
ghost use Rattle.sc_elab.specs.Frames.{view};
ghost use Rattle.sc_meaning.specs.Instances.{chosen};
ghost use Rattle.sc_meaning.specs.Run.{measured};

use crate::arguments::{Evaluated, distinct_wires, pass_all, push_span};
use crate::frame::Frame;
use crate::operands::operand;
use sc_base::{Fixed, GateName, Memory, Place};
use sc_deck::{Arg, Body, Item};
use sc_gate::{Gate, Kind, Wire};
use sc_meaning::{Choice, ElabFault, gate_wants};
use sc_syntax::{Expr, Measure};
use sc_tables::{fredkin, toffoli};
use std::alloc::Global;

fn angle(second: Option<&Evaluated>) -> Fixed
    ensures { result ≡ angle (option_map passed_by (option_copied second.entry)) }
{
    match second {
        Some(
            Evaluated {
                arg: Arg::Double(d),
                ..
            },
        ) => *d,
        _ => Fixed(0),
    }
}

/// A start value is 0 or 1; without one it is 0.
fn start(second: Option<&Evaluated>) -> Result<bool, ElabFault>
    ensures { result ≡ start (option_map passed_by (option_copied second.entry)) }
{
    match second {
        None => Ok(false),
        Some(one) => start_of(one.at, one.arg),
    }
}

fn start_of(at: Place, arg: Arg) -> Result<bool, ElabFault>
    ensures { result ≡ start_of at arg }
{
    match arg {
        Arg::Int(0) => Ok(false),
        Arg::Int(1) => Ok(true),
        _ => Err(ElabFault::OutOfRange(at)),
    }
}

/// The kind of a gate by its name and its second argument.
fn kind_of(gate: GateName, second: Option<&Evaluated>) -> Result<Kind, ElabFault>
    ensures { result ≡ kind_of gate (option_map passed_by (option_copied second.entry)) }
{
    match gate {
        GateName::X => Ok(Kind::X),
        GateName::Y => Ok(Kind::Y),
        GateName::Z => Ok(Kind::Z),
        GateName::H => Ok(Kind::H),
        GateName::S => Ok(Kind::S),
        GateName::T => Ok(Kind::T),
        GateName::Sdag => Ok(Kind::Sdag),
        GateName::Tdag => Ok(Kind::Tdag),
        GateName::Cnot => Ok(Kind::Cnot),
        GateName::Toffoli => Ok(Kind::Toffoli),
        GateName::Fredkin => Ok(Kind::Fredkin),
        GateName::Rx => Ok(Kind::Rx(angle(second))),
        GateName::Ry => Ok(Kind::Ry(angle(second))),
        GateName::Rz => Ok(Kind::Rz(angle(second))),
        GateName::PrepX => Ok(Kind::PrepX(start(second)?)),
        GateName::PrepZ => Ok(Kind::PrepZ(start(second)?)),
        GateName::MeasX => Ok(Kind::MeasX),
        GateName::MeasZ => Ok(Kind::MeasZ),
    }
}

/// A gate on wires in the order of its operands.
fn gate_on(kind: Kind, wires: &[Wire]) -> Gate
    ensures { result ≡ gate_on kind wires.now }
{
    Gate {
        kind,
        a: wires.get(0).copied().unwrap_or(Wire::qubit(0)),
        b: wires.get(1).copied(),
        c: wires.get(2).copied(),
    }
}

/// The gate of a call.
pub(crate) fn called_gate(
    alloc: Global,
    frame: &Frame,
    gate: GateName,
    args: &[Expr],
) -> Result<Gate, ElabFault>
    ensures ok { IfOk result (λ g. called_gate (view frame.now) gate (map pure_expr args.now) ≡ Ok g) }
    ensures err { IfErr result (λ f. f ≢ ElabFault.Memory → called_gate (view frame.now) gate (map pure_expr args.now) ≡ Err f) }
{
    let evaluated = pass_all(alloc, frame, gate_wants(gate, args.len()), args)?;
    let kind = kind_of(gate, evaluated.get(1))?;
    let wires = distinct_wires(alloc, &evaluated)?;
    Ok(gate_on(kind, &wires))
}

/// The gate of a measurement into a classical bit, whose operand comes first.
pub(crate) fn measured(alloc: Global, frame: &Frame, measure: &Measure) -> Result<Gate, ElabFault>
    ensures ok { IfOk result (λ g. measured (view frame.now) measure.now.gate (pure_operand measure.now.into) (pure_operand measure.now.from) ≡ Ok g) }
    ensures err { IfErr result (λ f. f ≢ ElabFault.Memory → measured (view frame.now) measure.now.gate (pure_operand measure.now.into) (pure_operand measure.now.from) ≡ Err f) }
{
    let into = &measure.into;
    let from = &measure.from;
    let bit = operand(frame, &into.name.text, into.name.place, into.index.as_ref())?;
    let qubit = operand(frame, &from.name.text, from.name.place, from.index.as_ref())?;
    let kind = kind_of(measure.gate, None)?;
    let mut wires = Vec::new(alloc);
    push_span(&mut wires, qubit)?;
    push_span(&mut wires, bit)?;
    Ok(gate_on(kind, &wires))
}

/// Appends gates, each of which may join the last item.
fn push_all(body: &mut Body, gates: &[Gate]) -> Result<(), Memory>
    requires fits { AllByRecursion (GateFits (wires_of body.old)) gates.now }
    requires turns { last_turns body.old.items + length gates.now < 2 ^ 64 }
    ensures { OnOk result (body.new ≡ record body.old { items = fold with_folded body.old.items (map Item.Gate gates.now) }) }
{
    for gate in gates {
        body.fold_gate(*gate)?;
    }
    Ok(())
}

/// Appends the gates that stand for a gate, each of which may join the last item.
pub(crate) fn push_chosen(body: &mut Body, choice: Choice, gate: Gate) -> Result<(), Memory>
    requires fits { GateFits (wires_of body.old) gate }
    requires turns { last_turns body.old.items + 64 < 2 ^ 64 }
    ensures { OnOk result (body.new ≡ record body.old { items = fold with_folded body.old.items (map Item.Gate (chosen choice gate)) }) }
{
    match (choice, gate.kind, gate.b, gate.c) {
        (Choice::Replace, Kind::Toffoli, Some(b), Some(c)) => {
            push_all(body, &toffoli(gate.a, b, c))
        }
        (Choice::Replace, Kind::Fredkin, Some(b), Some(c)) => {
            push_all(body, &fredkin(gate.a, b, c))
        }
        _ => body.fold_gate(gate),
    }
}
