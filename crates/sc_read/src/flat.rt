//! Flat texts, line by line.
ghost use Rattle.std.specs.Prelude.{◌≡◌, ℕ, ◌≤◌, ◌++◌, [], List as Values, length, IfOk, IfErr, IfSome, IfNone};
ghost use Rattle.sc_base.specs.Limits.{most_flat_wires};
ghost use Rattle.sc_base.specs.Lines.{IsLine, IsReadWhole};
ghost use Rattle.sc_gate.specs.Lines.{number_line};
ghost use Rattle.sc_gate.specs.declared.gate.Gate.{Gate as GateValue};
ghost use Rattle.sc_read.specs.FlatReads.{IsFlatText, IsFlatFault, IsBodyFault, IsGateWithin, GatesFront, after_line, count_within};
ghost use Rattle.sc_read.specs.FlatStages.{Stage, Body, GatesLine, Goes, MayEnd};
ghost use Rattle.sc_read.specs.GateFronts.{counts};

use crate::gate_line::take_gate;
use sc_base::{
    Lines, List, MOST_FLAT_WIRES, MOST_GATES, Whole, take_number_line, take_text, take_whole,
};
use sc_gate::Gate;
use std::alloc::Global;

/// The gates of a flat text, in order, and its numbers of wires.
#[derive(Debug, Drop)]
pub struct FlatText {
    /// How many qubits there are. They are numbered from 0.
    pub qubits: u32,
    /// How many classical bits there are. They are numbered from 0.
    pub cbits: u32,
    pub gates: List<Gate>,
}

/// Why a flat text was not read.
#[derive(Clone, Copy, Debug, PartialEq, Eq)]
pub enum FlatFault {
    /// The `gates` line has a number past 4,194,304.
    SchedTooLarge,
    /// The first line, from 1, that is not in its place.
    BadQasm(u32),
    /// No memory was left.
    Memory,
}

/// A line of the body: one that is passed over, or a gate.
#[derive(Clone, Copy, Debug, PartialEq, Eq)]
enum BodyLine {
    PassedOver,
    OneGate(Gate),
}

/// The numbers and the gates of a flat text of at most 134,217,728 bytes. `BadQasm` comes exactly where the text is not in the
/// grammar before a limit is passed, with its first line that is not in its place, or the one after the last where the text
/// ends too early. `SchedTooLarge` comes exactly where the `gates` line is in its place and its number passes 4,194,304.
/// Lines behind the fourth that begin with `#` are passed over.
pub fn read_flat(alloc: Global, text: &[u8]) -> Result<FlatText, FlatFault>
    requires { length text.now ≤ 134217728 }
    ensures ok { IfOk result (λ flat. IsFlatText text.now flat) }
    ensures fault { IfErr result (λ fault. IsFlatFault text.now fault) }
{
    let Some(after_title) = take_text(text, b"flat 1\n") else {
        return Err(FlatFault::BadQasm(1));
    };
    let Some((qubits, after_qubits)) = take_wire_count(after_title, b"qbits") else {
        return Err(FlatFault::BadQasm(2));
    };
    let Some((cbits, after_cbits)) = take_wire_count(after_qubits, b"cbits") else {
        return Err(FlatFault::BadQasm(3));
    };
    let Some((count, body)) = take_gates_line(after_cbits) else {
        return Err(FlatFault::BadQasm(4));
    };
    let Some(count) = count else {
        return Err(FlatFault::SchedTooLarge);
    };
    match read_body(alloc, body, qubits, cbits, count) {
        Ok(gates) => Ok(FlatText {
            qubits,
            cbits,
            gates,
        }),
        Err(fault) => Err(fault),
    }
}

/// The number of wires with whose line the bytes begin, and what follows the line.
fn take_wire_count<'a>(bytes: &'a [u8], word: &[u8]) -> Option<(u32, &'a [u8])>
    ensures some { IfSome result (λ r. bytes.now ≡ number_line word.now r.0 ++ r.1.now) }
    ensures allowed { IfSome result (λ r. r.0 ≤ most_flat_wires) }
    ensures none { IfNone result ((n : ℕ) (more : Values ℕ) → n ≤ most_flat_wires → bytes.now ≡ number_line word.now n ++ more → ⊥) }
{
    match take_number_line(bytes, word, 0, MOST_FLAT_WIRES as u64) {
        Some((number, rest)) => Some((number as u32, rest)),
        None => None,
    }
}

/// The number of gates with whose line the bytes begin, if it is within the limit, and what follows the line.
fn take_gates_line(bytes: &[u8]) -> Option<(Option<u32>, &[u8])>
    ensures some { IfSome result (λ r. GatesFront bytes.now r.0 r.1.now) }
    ensures none { IfNone result ((line more : Values ℕ) (number : ℕ) → GatesLine line number → bytes.now ≡ line ++ more → ⊥) }
{
    let Some(after_word) = take_text(bytes, b"gates ") else {
        return None;
    };
    let Some((number, after_number)) = take_whole(after_word) else {
        return None;
    };
    match take_text(after_number, b"\n") {
        Some(rest) => Some((count_within(number), rest)),
        None => None,
    }
}

/// The number, if it is within the limit on gates.
fn count_within(number: Whole) -> Option<u32>
    ensures { result ≡ count_within number }
{
    match number {
        Whole::Fits(count) if count <= MOST_GATES as u64 => Some(count as u32),
        _ => None,
    }
}

/// The gates of a text behind its four first lines, of which so many have to follow.
fn read_body(
    alloc: Global,
    text: &[u8],
    qubits: u32,
    cbits: u32,
    count: u32,
) -> Result<List<Gate>, FlatFault>
    requires { length text.now ≤ 134217728 }
    ensures ok { IfOk result (λ gates. IsReadWhole Goes MayEnd (Body (counts qubits cbits) count []) text.now (Body (counts qubits cbits) 0 gates)) }
    ensures fault { IfErr result (λ fault. IsBodyFault (counts qubits cbits) count text.now fault) }
{
    let room = if count as usize <= text.len() / 5 {
        count as usize
    } else {
        text.len() / 5
    };
    let Ok(gates) = Vec::with_capacity(alloc, room) else {
        return Err(FlatFault::Memory);
    };
    let mut gates = List::from_vec(gates);
    let mut left = count;
    let mut lines = Lines {
        rest: text,
        number: 5,
    };
    while let Some(line) = lines.next_line() {
        match body_line(line, qubits, cbits, left) {
            Some(BodyLine::PassedOver) => {}
            Some(BodyLine::OneGate(gate)) => {
                let Ok(()) = gates.push(gate) else {
                    return Err(FlatFault::Memory);
                };
                left -= 1;
            }
            None => return Err(FlatFault::BadQasm(lines.number - 1)),
        }
    }
    if left == 0 && lines.rest.is_empty() {
        Ok(gates)
    } else {
        Err(FlatFault::BadQasm(lines.number))
    }
}

/// What a line of the body is, where so many gates have to follow. None where it is not in its place.
fn body_line(line: &[u8], qubits: u32, cbits: u32, left: u32) -> Option<BodyLine>
    requires { IsLine line.now }
    ensures some { IfSome result (λ r. (gates : Values GateValue) → Goes (Body (counts qubits cbits) left gates) line.now (after_line (counts qubits cbits) left gates r)) }
    ensures gate { IfSome result (λ r. IsGateWithin left r) }
    ensures none { IfNone result ((gates : Values GateValue) (next : Stage) → Goes (Body (counts qubits cbits) left gates) line.now next → ⊥) }
{
    if let [b'#', ..] = line {
        return Some(BodyLine::PassedOver);
    }
    if left == 0 {
        return None;
    }
    match take_gate(line, qubits, cbits) {
        Some((gate, _)) => Some(BodyLine::OneGate(gate)),
        None => None,
    }
}
