//! Bodies of classical functions from their text, and runs of their gates.
use sc_base::Class;
use sc_deck::Body;
use sc_parse::parse;
use sc_rev::{reversible, run_bits};
use sc_syntax::lex;
use sc_types::{Checked, check};
use std::alloc::Global;
use std::process::Abort;
use std::test::Fail;

/// The source of a function.
pub fn checked(rt: &impl Abort, alloc: Global, function: &str) -> Result<Checked, Fail> {
    let source = format!(in alloc; "{function} int main() {{ }}")?;
    let bytes = source.as_bytes();
    assert!(rt; bytes.len() <= 16_777_216);
    let tokens = lex(alloc, bytes)?;
    let tree = parse(alloc, bytes, &tokens)?;
    Ok(check(alloc, tree)?)
}

/// The body of a function.
pub fn body_of(rt: &impl Abort, alloc: Global, function: &str) -> Result<Body, Fail> {
    let source = checked(rt, alloc, function)?;
    let word = source.word(0).ok_or("no function")?;
    assert!(rt; word.wires() <= 65536);
    Ok(reversible(alloc, word)?)
}

/// Puts the bits of a number behind the others, bit 0 first.
fn push_bits(bits: &mut Vec<bool>, number: u64, count: u32) -> Result<(), Fail> {
    let mut rest = number;
    for _ in 0..count {
        bits.push(rest % 2 == 1)?;
        rest /= 2;
    }
    Ok(())
}

/// The qubits of a body, where its words and its output have these numbers, and its scratch is zero.
fn bits_of(
    alloc: Global,
    body: &Body,
    outputs: u32,
    words: u64,
    output: u64,
) -> Result<Vec<bool>, Fail> {
    let params = body.params(Class::Q);
    let mut bits = Vec::new(alloc);
    push_bits(&mut bits, words, params.saturating_sub(outputs))?;
    push_bits(&mut bits, output, outputs)?;
    push_bits(&mut bits, 0, body.wires().saturating_sub(params))?;
    Ok(bits)
}

/// The gates take an output of so many qubits from one number to another, and leave the words and the scratch.
pub fn check_run(
    rt: &impl Abort,
    alloc: Global,
    body: &Body,
    outputs: u32,
    words: u64,
    before: u64,
    after: u64,
) -> Result<(), Fail> {
    let mut bits = bits_of(alloc, body, outputs, words, before)?;
    run_bits(body, bits.as_mut_slice());
    let want = bits_of(alloc, body, outputs, words, after)?;
    assert_eq!(rt;
        bits.as_slice(),
        want.as_slice(),
        "words {words}, output {before}"
    );
    Ok(())
}
