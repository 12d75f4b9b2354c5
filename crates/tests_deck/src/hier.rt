//! Hierarchical texts of decks that are built by hand.
ghost use Rattle.std.specs.Prelude.{◌≡◌, [], ◌∷◌, IfOk, negsuc, codes};
ghost use Rattle.sc_gate.specs.Kinds.{qubit, cbit};
ghost use Rattle.sc_deck.specs.Examples.{h, cnot, g_key, g_twice};
ghost use Rattle.sc_deck.specs.Keys.{main_key};

use crate::deck::{controlled_not, deck_of_g, hadamard, key_of_g, key_of_main};
use sc_base::{Class, Fixed, List, MemSink, Memory, Text};
use sc_deck::{Arg, Body, Deck, Item, Key};
use sc_gate::Wire;
use sc_hier::write_hier;
use std::alloc::Global;
use std::test::Fail;

/// The body of g with its three H apart.
fn body_of_g(alloc: Global) -> Result<Body, Memory>
    ensures { IfOk result (λ b. b ≡ record { params = record { qubits = 1; cbits = 0 }; items = Item.Fresh Class.Q 1 ∷ Item.Gate (h 1) ∷ Item.Gate (h 1) ∷ Item.Gate (h 1) ∷ Item.Gate (cnot 1 0) ∷ [] }) }
{
    let mut body = Body::new(alloc, 1, 0);
    body.push_fresh(Class::Q, 1)?;
    body.push_gate(hadamard(1))?;
    body.push_gate(hadamard(1))?;
    body.push_gate(hadamard(1))?;
    body.push_gate(controlled_not(1, 0))?;
    Ok(body)
}

/// The body of main, which calls g twice on its qubit.
fn body_of_main(alloc: Global) -> Result<Body, Memory>
    ensures { IfOk result (λ b. b ≡ record { params = record { qubits = 0; cbits = 0 }; items = Item.Fresh Class.Q 1 ∷ Item.Call 0 (qubit 0 ∷ []) ∷ Item.Call 0 (qubit 0 ∷ []) ∷ [] }) }
{
    let mut body = Body::new(alloc, 0, 0);
    body.push_fresh(Class::Q, 1)?;
    body.push_call(0, &[Wire::qubit(0)])?;
    body.push_call(0, &[Wire::qubit(0)])?;
    Ok(body)
}

/// The example without turns.
fn deck_without_turns(alloc: Global) -> Result<Deck, Memory>
    ensures { IfOk result (λ d. d ≡ g_twice) }
{
    let mut deck = Deck::new(alloc);
    deck.push_body(key_of_g(alloc)?, body_of_g(alloc)?)?;
    deck.push_body(key_of_main(alloc)?, body_of_main(alloc)?)?;
    Ok(deck)
}

/// A key with an argument of each kind.
fn key_of_f(alloc: Global, step: Fixed) -> Result<Key, Memory>
    ensures { IfOk result (λ k. k ≡ record { name = codes "f"; args = Arg.Int (negsuc 4) ∷ Arg.Double step ∷ Arg.One Class.Q ∷ Arg.Many Class.C 2 ∷ [] }) }
{
    let mut args = List::new(alloc);
    args.push(Arg::Int(-5))?;
    args.push(Arg::Double(step))?;
    args.push(Arg::One(Class::Q))?;
    args.push(Arg::Many(Class::C, 2))?;
    Ok(Key {
        name: Text::from_bytes(alloc, b"f")?,
        args,
    })
}

/// A main that calls f on fresh wires of both classes.
fn body_that_calls_f(alloc: Global) -> Result<Body, Memory>
    ensures { IfOk result (λ b. b ≡ record { params = record { qubits = 0; cbits = 0 }; items = Item.Fresh Class.Q 2 ∷ Item.Fresh Class.C 2 ∷ Item.Call 0 (qubit 1 ∷ cbit 0 ∷ cbit 1 ∷ []) ∷ [] }) }
{
    let mut body = Body::new(alloc, 0, 0);
    body.push_fresh(Class::Q, 2)?;
    body.push_fresh(Class::C, 2)?;
    body.push_call(0, &[Wire::qubit(1), Wire::cbit(0), Wire::cbit(1)])?;
    Ok(body)
}

fn deck_of_f(alloc: Global) -> Result<Deck, Memory> {
    let mut deck = Deck::new(alloc);
    deck.push_body(
        key_of_f(alloc, Fixed(-500_000_000_000))?,
        Body::new(alloc, 1, 2),
    )?;
    deck.push_body(key_of_main(alloc)?, body_that_calls_f(alloc)?)?;
    Ok(deck)
}

fn key_with_a_long_name(alloc: Global) -> Result<Key, Memory>
    ensures { IfOk result (λ k. k.args ≡ []) }
{
    Ok(Key {
        name: Text::from_bytes(alloc, &[b'a'; 9000])?,
        args: List::new(alloc),
    })
}

fn deck_with_a_long_name(alloc: Global) -> Result<Deck, Memory> {
    let mut deck = Deck::new(alloc);
    deck.push_body(key_with_a_long_name(alloc)?, Body::new(alloc, 0, 0))?;
    Ok(deck)
}

#[test]
fn a_text_with_turns(rt: HostRuntime) -> Result<(), Fail> {
    let deck = deck_of_g(rt.alloc())?;
    let mut sink = MemSink::new(rt.alloc(), 7, 200)?;
    write_hier(&deck, &mut sink)?;
    let want =
        b"hier 2\nmodule 0 g(q)\nqbit 1\nrepeat 3 H q1\nCNOT q1,q0\nend\nmodule 1 main()\nqbit 1\nrepeat 2 call 0 q0\nend\n".as_slice();
    assert_eq!(rt; sink.written(), want);
    Ok(())
}

#[test]
fn a_text_without_turns(rt: HostRuntime) -> Result<(), Fail> {
    let deck = deck_without_turns(rt.alloc())?;
    let mut sink = MemSink::new(rt.alloc(), 200, 200)?;
    write_hier(&deck, &mut sink)?;
    let want =
        b"hier 1\nmodule 0 g(q)\nqbit 1\nH q1\nH q1\nH q1\nCNOT q1,q0\nend\nmodule 1 main()\nqbit 1\ncall 0 q0\ncall 0 q0\nend\n".as_slice();
    assert_eq!(rt; sink.written(), want);
    Ok(())
}

#[test]
fn a_signature_with_every_kind_of_argument(rt: HostRuntime) -> Result<(), Fail> {
    let deck = deck_of_f(rt.alloc())?;
    let mut sink = MemSink::new(rt.alloc(), 200, 200)?;
    write_hier(&deck, &mut sink)?;
    let want =
        b"hier 1\nmodule 0 f(-5,-0.500000000000,q,c[2])\nend\nmodule 1 main()\nqbit 2\ncbit 2\ncall 0 q1,c0,c1\nend\n".as_slice();
    assert_eq!(rt; sink.written(), want);
    Ok(())
}

#[test]
fn a_prefix_at_a_fault(rt: HostRuntime) -> Result<(), Fail> {
    let deck = deck_of_g(rt.alloc())?;
    let mut sink = MemSink::new(rt.alloc(), 200, 9)?;
    assert!(rt; write_hier(&deck, &mut sink).is_err());
    assert_eq!(rt; sink.written(), b"hier 2\nmo".as_slice());
    Ok(())
}

/// A sink that takes one byte a call and fails at its third call has two bytes of the text.
#[test]
fn a_fault_at_the_third_byte(rt: HostRuntime) -> Result<(), Fail> {
    let deck = deck_of_g(rt.alloc())?;
    let mut sink = MemSink::new(rt.alloc(), 1, 200)?;
    sink.fail_at(3)?;
    assert!(rt; write_hier(&deck, &mut sink).is_err());
    assert_eq!(rt; sink.written(), b"hi".as_slice());
    Ok(())
}

/// Lines are handed over together: a sink that would fail at its second call has the whole text.
#[test]
fn one_call_for_a_short_text(rt: HostRuntime) -> Result<(), Fail> {
    let deck = deck_of_g(rt.alloc())?;
    let mut sink = MemSink::new(rt.alloc(), 200, 200)?;
    sink.fail_at(2)?;
    assert!(rt; write_hier(&deck, &mut sink).is_ok());
    assert_eq!(rt; sink.written().len(), 103);
    Ok(())
}

/// A piece that is longer than all that is gathered is handed over as it stands, behind what was gathered.
#[test]
fn a_long_name(rt: HostRuntime) -> Result<(), Fail> {
    let deck = deck_with_a_long_name(rt.alloc())?;
    let mut whole = MemSink::new(rt.alloc(), 10000, 10000)?;
    write_hier(&deck, &mut whole)?;
    assert_eq!(rt; whole.written().len(), 9023);
    let mut cut = MemSink::new(rt.alloc(), 10000, 10000)?;
    cut.fail_at(2)?;
    assert!(rt; write_hier(&deck, &mut cut).is_err());
    assert_eq!(rt; cut.written(), b"hier 1\nmodule 0 ".as_slice());
    Ok(())
}
