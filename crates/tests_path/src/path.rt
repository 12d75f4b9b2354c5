//! What path tables answer for their wires, and their powers.
use crate::bodies::{Step, Steps, bodies_of};
use crate::known::paths_of;
use crate::programs::G;
use sc_gate::{Kind, Times};
use sc_path::{Paths, Table, critical};
use std::alloc::Global;
use std::process::Abort;
use std::test::Fail;

/// A measurement of the second qubit.
const MEASURED: Steps = Steps {
    qubits: 2,
    cbits: 1,
    items: &[Step::Measured(1, 0)],
};

const X: Steps = Steps {
    qubits: 1,
    cbits: 0,
    items: &[Step::One(Kind::X, 0)],
};

#[test]
fn tables_answer_for_their_wires(rt: HostRuntime) -> Result<(), Fail> {
    let bodies = bodies_of(&rt, rt.alloc(), &[G, MEASURED])?;
    let paths = paths_of(&rt, rt.alloc(), &[], &bodies)?;
    for (body, from, to, weight) in [
        (0, Some(0), Some(0), Some(1)),
        (0, None, Some(0), Some(4)),
        (0, Some(0), None, Some(1)),
        (0, None, None, Some(4)),
        (0, Some(1), Some(0), None),
        (0, Some(0), Some(1), None),
        (0, None, Some(1), None),
        (1, Some(1), Some(2), Some(1)),
        (1, Some(2), Some(1), Some(1)),
        (1, Some(0), Some(0), None),
        (1, None, Some(0), None),
    ] {
        let table = paths.table(body).ok_or("no table")?;
        assert_eq!(rt; table.get(from, to), weight, "{body} {from:?} {to:?}");
    }
    assert!(rt; paths.table(2).is_none());
    assert_eq!(rt; critical(&Paths::new(rt.alloc(), Times::ones())), 0);
    Ok(())
}

/// The table of so many turns: from wire 0 to itself, and from anywhere to anywhere.
fn power_of(
    rt: &impl Abort,
    alloc: Global,
    table: &Table,
    n: u64,
) -> Result<[Option<u128>; 2], Fail> {
    assert!(rt; n >= 1 && table.rows.len() >= 1 && table.rows.len() <= 65537);
    let power = table.power(alloc, n)?;
    Ok([power.get(Some(0), Some(0)), power.get(None, None)])
}

#[test]
fn powers_of_x_and_of_g(rt: HostRuntime) -> Result<(), Fail> {
    let alloc = rt.alloc();
    let paths = paths_of(&rt, alloc, &[], &bodies_of(&rt, alloc, &[X, G])?)?;
    let x = paths.table(0).ok_or("no table of x")?;
    let g = paths.table(1).ok_or("no table of g")?;
    for (n, of_x, of_g) in [
        (1, 1, 4),
        (2, 2, 5),
        (3, 3, 6),
        (
            18_446_744_073_709_551_615,
            18_446_744_073_709_551_615,
            18_446_744_073_709_551_618,
        ),
    ] {
        assert_eq!(rt; power_of(&rt, alloc, x, n)?, [Some(of_x), Some(of_x)]);
        assert_eq!(rt; power_of(&rt, alloc, g, n)?, [Some(of_x), Some(of_g)]);
    }
    Ok(())
}
