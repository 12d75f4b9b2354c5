//! Programs with many wires and with many bodies.
use crate::bodies::{Step, body_of, push_calls, push_fresh, push_gate};
use sc_base::Class;
use sc_deck::Body;
use sc_gate::{Gate, Kind, Wire};
use std::alloc::Global;
use std::process::Abort;
use std::test::Fail;

/// H on each of so many parameters, and a main that calls it twice.
pub fn wide(rt: &impl Abort, alloc: Global, n: u32) -> Result<[Body; 2], Fail> {
    let mut wires = Vec::new(alloc);
    assert!(rt; n <= 65536);
    let mut body = Body::new(alloc, n, 0);
    for i in 0..n {
        push_gate(rt, &mut body, Gate::one(Kind::H, Wire::qubit(i)))?;
        wires.push(Wire::qubit(i))?;
    }
    let mut main = Body::new(alloc, 0, 0);
    push_fresh(rt, &mut main, Class::Q, n)?;
    push_calls(rt, &mut main, 0, &wires, 2)?;
    Ok([body, main])
}

/// So many bodies with X on a parameter, and a main that calls each of them on its one qubit.
pub fn many(rt: &impl Abort, alloc: Global, n: u32) -> Result<Vec<Body>, Fail> {
    let mut bodies = Vec::new(alloc);
    let mut main = Body::new(alloc, 0, 0);
    push_fresh(rt, &mut main, Class::Q, 1)?;
    for callee in 0..n {
        bodies.push(body_of(rt, alloc, 1, 0, &[Step::One(Kind::X, 0)])?)?;
        push_calls(rt, &mut main, callee, &[Wire::qubit(0)], 1)?;
    }
    bodies.push(main)?;
    Ok(bodies)
}
