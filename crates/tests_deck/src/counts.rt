//! Counts of decks that are built by hand.
ghost use Rattle.std.specs.Prelude.{◌≡◌, ◌+◌, ◌≤◌, [], ◌∷◌, length, IfOk};
ghost use Rattle.sc_deck.specs.Items.{callees_of};
ghost use Rattle.sc_count.specs.Limits.{AreSound};

use crate::deck::deck_of_g;
use sc_base::{Class, GateName, Memory};
use sc_count::{Tally, TallyFault, tally_deck};
use sc_deck::Body;
use sc_gate::{Gate, Kind, Times, Wire};
use std::alloc::Global;
use std::test::Fail;

#[test]
fn two_calls_have_qubits_of_their_own(rt: HostRuntime) -> Result<(), Fail> {
    let deck = deck_of_g(rt.alloc())?;
    assert!(rt; deck.is_whole());
    let mut times = Times::ones();
    times.set(GateName::Cnot, 10);
    let tally = tally_deck(rt.alloc(), &deck, &times)?;
    let g = tally.at(0).ok_or("no counts of g")?;
    assert_eq!(rt;
        (g.gates, g.weight, g.qubits, g.cbits, g.peak),
        (4, 13, 1, 0, 1)
    );
    let main = tally.at(1).ok_or("no counts of main")?;
    assert_eq!(rt;
        (main.gates, main.weight, main.qubits, main.cbits, main.peak),
        (8, 26, 3, 0, 2)
    );
    let kinds = (main.kinds[0], main.kinds[3], main.kinds[8]);
    assert_eq!(rt; kinds, (0, 6, 2));
    assert!(rt; tally.at(2).is_none());
    Ok(())
}

/// A body with one parameter, a qubit of its own and a CNOT of the two.
fn body_with_a_qubit(alloc: Global) -> Result<Body, Memory>
    ensures { IfOk result (λ b. callees_of b.items ≡ []) }
{
    let mut body = Body::new(alloc, 1, 0);
    body.push_fresh(Class::Q, 1)?;
    body.push_gate(Gate::two(Kind::Cnot, Wire::qubit(1), Wire::qubit(0)))?;
    Ok(body)
}

/// A body with a qubit and a classical bit of its own, which calls another so many times on the qubit.
fn body_with_calls(alloc: Global, callee: u32, turns: u64) -> Result<Body, Memory>
    requires { 2 ≤ turns }
    ensures { IfOk result (λ b. callees_of b.items ≡ callee ∷ []) }
{
    let mut body = Body::new(alloc, 0, 0);
    body.push_fresh(Class::Q, 1)?;
    body.push_fresh(Class::C, 1)?;
    body.push_calls(callee, &[Wire::qubit(0)], turns)?;
    Ok(body)
}

#[test]
fn turns_make_qubits_that_die(rt: HostRuntime) -> Result<(), Fail> {
    let mut tally = Tally::new(rt.alloc(), Times::ones());
    tally.add(&body_with_a_qubit(rt.alloc())?)?;
    tally.add(&body_with_calls(rt.alloc(), 0, 300_000)?)?;
    let main = tally.at(1).ok_or("no counts")?;
    assert_eq!(rt;
        (main.gates, main.qubits, main.cbits, main.peak),
        (300_000, 300_001, 1, 2)
    );
    Ok(())
}

/// A body that applies X to its parameter.
fn body_of_x(alloc: Global) -> Result<Body, Memory>
    ensures { IfOk result (λ b. callees_of b.items ≡ []) }
{
    let mut body = Body::new(alloc, 1, 0);
    body.push_gate(Gate::one(Kind::X, Wire::qubit(0)))?;
    Ok(body)
}

/// A body that calls another twice on its parameter.
fn doubled(alloc: Global, callee: u32) -> Result<Body, Memory>
    ensures { IfOk result (λ b. callees_of b.items ≡ callee ∷ []) }
{
    let mut body = Body::new(alloc, 1, 0);
    body.push_calls(callee, &[Wire::qubit(0)], 2)?;
    Ok(body)
}

/// X, and then n bodies each of which calls the one before it twice.
fn doublings(alloc: Global, times: Times, n: u32) -> Result<Tally, Fail>
    ensures len { IfOk result (λ t. length t.counts ≡ n + 1) }
    ensures sound { IfOk result (λ t. AreSound t.counts) }
{
    let mut tally = Tally::new(alloc, times);
    tally.add(&body_of_x(alloc)?)?;
    for i in 0..n {
        tally.add(&doubled(alloc, i)?)?;
    }
    Ok(tally)
}

#[test]
fn gates_pass_the_greatest_number(rt: HostRuntime) -> Result<(), Fail> {
    let mut tally = doublings(rt.alloc(), Times::ones(), 127)?;
    let last = tally.at(127).ok_or("no counts")?;
    assert_eq!(rt;
        (last.gates, last.weight, last.peak),
        (1 << 127, 1 << 127, 0)
    );
    let refused = tally.add(&doubled(rt.alloc(), 127)?);
    assert_eq!(rt; refused, Err(TallyFault::CountTooLarge));
    assert_eq!(rt; tally.counts.len(), 128);
    Ok(())
}

#[test]
fn weight_alone_passes_the_greatest_number(rt: HostRuntime) -> Result<(), Fail> {
    let mut times = Times::ones();
    times.set(GateName::X, 2);
    let mut tally = doublings(rt.alloc(), times, 126)?;
    let last = tally.at(126).ok_or("no counts")?;
    assert_eq!(rt; (last.gates, last.weight), (1 << 126, 1 << 127));
    let refused = tally.add(&doubled(rt.alloc(), 126)?);
    assert_eq!(rt; refused, Err(TallyFault::CountTooLarge));
    assert!(rt; tally.at(127).is_none());
    Ok(())
}
