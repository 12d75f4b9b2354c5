//! OpenQASM texts, line by line.
ghost use Rattle.std.specs.Prelude.{◌≡◌, ◌++◌, ◌≤◌, ℕ, List as Values, length, IfOk, IfErr, IfSome, IfNone, OnOk, true, codes};
ghost use Rattle.sc_open.specs.declared.line.Line.{Line as LineValue};
ghost use Rattle.sc_open.specs.declared.reader.Part.{Part as Parts};
ghost use Rattle.sc_open.specs.declared.reader.Part.TheVariants as part;
ghost use Rattle.sc_open.specs.OpenTexts.{register_line, spare_line};
ghost use Rattle.sc_open.specs.OpenStages.{IsSize, MayFollow, part_text, with_part};
ghost use Rattle.sc_open.specs.OpenReads.{IsInGrammar, IsOpenText, IsOpenFault};

use crate::open_line::{Registers, read_line};
use crate::{Line, OpenText};
use sc_base::{Lines, List, MOST_FLAT_WIRES, Memory, take_number, take_text};
use std::alloc::Global;

/// Why an OpenQASM text was not read.
#[derive(Clone, Copy, Debug, PartialEq, Eq)]
pub enum OpenFault {
    /// The first line, from 1, that is not in its place.
    BadOpen(u32),
    /// No memory was left.
    Memory,
}

/// What stands behind the first two lines: declarations of registers, with their sizes, and lines.
#[derive(Clone, Copy, Debug, PartialEq, Eq)]
enum Part {
    Qubits(u32),
    Cbits(u32),
    Spare,
    One(Line),
}

/// The registers and lines of an OpenQASM text of at most 134,217,728 bytes, in the form in which `write_open` writes: no
/// comments, no other spaces, and none of the other statements of the language. `BadOpen` comes exactly where the text is not
/// in this form, with its first line that is not in its place, or the one after the last where a line is missing; a last line
/// without a line feed is not in its place.
pub fn read_open(alloc: Global, text: &[u8]) -> Result<OpenText, OpenFault>
    requires { length text.now ≤ 134217728 }
    ensures ok { IfOk result (λ read. IsOpenText text.now read) }
    ensures grammar { IfOk result (λ read. IsInGrammar text.now read) }
    ensures fault { IfErr result (λ fault. IsOpenFault text.now fault) }
{
    let Some(after_title) = take_text(text, b"OPENQASM 2.0;\n") else {
        return Err(OpenFault::BadOpen(1));
    };
    let Some(body) = take_text(after_title, b"include \"qelib1.inc\";\n") else {
        return Err(OpenFault::BadOpen(2));
    };
    let mut read = OpenText {
        qubits: 0,
        cbits: 0,
        spare: false,
        lines: List::new(alloc),
    };
    let mut lines = Lines {
        rest: body,
        number: 3,
    };
    while let Some(line) = lines.next_line() {
        let Some(part) = next_part(line, &read) else {
            return Err(OpenFault::BadOpen(lines.number - 1));
        };
        let Ok(()) = add_part(&mut read, part) else {
            return Err(OpenFault::Memory);
        };
    }
    if lines.rest.is_empty() {
        Ok(read)
    } else {
        Err(OpenFault::BadOpen(lines.number))
    }
}

/// Adds a declaration or a line to what was read.
fn add_part(read: &mut OpenText, part: Part) -> Result<(), Memory>
    ensures { OnOk result (read.new ≡ with_part read.old part) }
{
    match part {
        Part::Qubits(size) => read.qubits = size,
        Part::Cbits(size) => read.cbits = size,
        Part::Spare => read.spare = true,
        Part::One(line) => read.lines.push(line)?,
    }
    Ok(())
}

/// The declaration or line that the bytes are, where it may stand behind what was read.
fn next_part(bytes: &[u8], read: &OpenText) -> Option<Part>
    ensures some { IfSome result (λ p. MayFollow read.now p) }
    ensures text { IfSome result (λ p. bytes.now ≡ part_text p) }
    ensures none { IfNone result ((p : Parts) → MayFollow read.now p → bytes.now ≡ part_text p → ⊥) }
{
    match next_register(bytes, read) {
        Some(part) => Some(part),
        None => next_line(bytes, read),
    }
}

/// The line that the bytes are, where it may stand behind what was read.
fn next_line(bytes: &[u8], read: &OpenText) -> Option<Part>
    ensures some { IfSome result (λ p. MayFollow read.now p) }
    ensures text { IfSome result (λ p. bytes.now ≡ part_text p) }
    ensures none { IfNone result ((l : LineValue) → MayFollow read.now (part.One l) → bytes.now ≡ part_text (part.One l) → ⊥) }
{
    let registers = Registers {
        qubits: read.qubits,
        cbits: read.cbits,
        spare: read.spare,
    };
    match read_line(bytes, registers) {
        Some(line) => Some(Part::One(line)),
        None => None,
    }
}

/// The declaration that the bytes are, where it may stand behind what was read.
fn next_register(bytes: &[u8], read: &OpenText) -> Option<Part>
    ensures some { IfSome result (λ p. MayFollow read.now p) }
    ensures text { IfSome result (λ p. bytes.now ≡ part_text p) }
    ensures no_qubits { IfNone result ((size : ℕ) → MayFollow read.now (part.Qubits size) → bytes.now ≡ part_text (part.Qubits size) → ⊥) }
    ensures no_cbits { IfNone result ((size : ℕ) → MayFollow read.now (part.Cbits size) → bytes.now ≡ part_text (part.Cbits size) → ⊥) }
    ensures no_spare { IfNone result (MayFollow read.now part.Spare → bytes.now ≡ part_text part.Spare → ⊥) }
{
    if read.spare || !read.lines.is_empty() {
        return None;
    }
    if bytes == b"creg u[1];\n".as_slice() {
        return Some(Part::Spare);
    }
    if read.cbits > 0 {
        return None;
    }
    if let Some(size) = read_size(bytes, b"creg c[") {
        return Some(Part::Cbits(size));
    }
    if read.qubits > 0 {
        return None;
    }
    match read_size(bytes, b"qreg q[") {
        Some(size) => Some(Part::Qubits(size)),
        None => None,
    }
}

/// The size of the register that the bytes declare, where they begin with this front and have nothing but the declaration.
fn read_size(bytes: &[u8], front: &[u8]) -> Option<u32>
    ensures some { IfSome result (λ size. bytes.now ≡ register_line front.now size) }
    ensures is_size { IfSome result (λ size. IsSize size) }
    ensures none { IfNone result ((size : ℕ) → IsSize size → bytes.now ≡ register_line front.now size → ⊥) }
{
    let Some(digits) = take_text(bytes, front) else {
        return None;
    };
    let Some((size, rest)) = take_number(digits) else {
        return None;
    };
    if rest == b"];\n".as_slice() {
        allowed_size(size)
    } else {
        None
    }
}

/// The size, where a register may have it.
fn allowed_size(size: u64) -> Option<u32>
    ensures some { IfSome result (λ small. small ≡ size) }
    ensures is_size { IfSome result (λ small. IsSize small) }
    ensures none { IfNone result (IsSize size → ⊥) }
{
    if 1 <= size && size <= MOST_FLAT_WIRES as u64 {
        Some(size as u32)
    } else {
        None
    }
}
