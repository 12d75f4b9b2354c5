//! Bit runs of bodies.
ghost use Rattle.std.specs.Prelude.{◌≡◌, ◌++◌, ◌&&◌, drop};
ghost use Rattle.sc_gate.specs.Runs.{bit_at, xor_at, bit_step, bit_run, number_or_zero};
ghost use Rattle.sc_rev.specs.BitBodies.{gates_in};

use sc_deck::{Body, Item};
use sc_gate::{Gate, Kind, Wire};

/// The truth value at a place; false past the end.
fn bit_at(bits: &[bool], place: u32) -> bool
    ensures { result ≡ bit_at bits.now place }
{
    let place = place as usize;
    place < bits.len() && bits[place]
}

/// Xors a truth value into that at a place, where there is one.
fn xor_at(bits: &mut [bool], place: u32, value: bool)
    ensures { bits.new ≡ xor_at place value bits.old }
{
    let place = place as usize;
    if place < bits.len() {
        bits[place] = bits[place] != value;
    }
}

/// The number of a wire; 0 where there is none.
fn number_or_zero(wire: Option<Wire>) -> u32
    ensures { result ≡ number_or_zero wire }
{
    match wire {
        Some(wire) => wire.number,
        None => 0,
    }
}

/// Applies one gate. Gates other than X, CNOT and Toffoli leave the bits.
fn apply(gate: &Gate, bits: &mut [bool])
    ensures { bits.new ≡ bit_step gate.now bits.old }
{
    let a = gate.a.number;
    let b = number_or_zero(gate.b);
    match gate.kind {
        Kind::X => xor_at(bits, a, true),
        Kind::Cnot => xor_at(bits, b, bit_at(bits, a)),
        Kind::Toffoli => {
            let both = bit_at(bits, a) && bit_at(bits, b);
            xor_at(bits, number_or_zero(gate.c), both);
        }
        _ => {}
    }
}

/// Applies the body's X, CNOT and Toffoli gates in order to truth values, one per qubit: X flips the bit, CNOT xors its control into
/// its target, and Toffoli xors the AND of its controls into its target. It is meant for the bodies of classical functions: it passes
/// over every other gate, and over calls and repeated gates; a qubit without a truth value reads as false and stays. Takes no memory.
pub fn run_bits(body: &Body, bits: &mut [bool])
    ensures { bits.new ≡ bit_run (gates_in body.now.items) bits.old }
{
    for item in body.items() {
        if let Item::Gate(gate) = item {
            apply(gate, bits);
        }
    }
}
