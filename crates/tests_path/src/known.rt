//! Bodies that are added to counts and to path tables, once it is seen that the bodies that they call are there.
ghost use Rattle.std.specs.Prelude.{◌<◌, ◌≤◌, [], ◌∷◌, IsTrue, length};
ghost use Rattle.std.specs.List.{AllByRecursion};
ghost use Rattle.sc_deck.specs.Items.{callees_of};
ghost use Rattle.sc_count.specs.Limits.{AreSound};
ghost use Rattle.sc_path.specs.Tables.{ItemKnown, CallsKnown, CallKnown};

use sc_base::GateName;
use sc_count::{Counts, Tally, TallyFault};
use sc_deck::{Body, Item};
use sc_gate::Times;
use sc_path::{PathFault, Paths, Table};
use std::alloc::Global;
use std::process::Abort;

/// Some durations; the others are 1.
pub type Durations = &'static [(GateName, u32)];

/// Whether there is a table of this number, of so many parameters.
fn is_table(tables: &[Table], number: u32, params: usize) -> bool
    ensures { IsTrue result → CallKnown tables.now number params }
{
    match tables.get(number as usize) {
        Some(table) => table.rows.len() > params && table.rows.len() - 1 == params,
        None => false,
    }
}

fn is_known(tables: &[Table], item: &Item) -> bool
    ensures { IsTrue result → ItemKnown tables.now item.now }
{
    match item {
        Item::Fresh(..) | Item::Gate(_) | Item::Gates(..) => true,
        Item::Call(callee, wires) | Item::Calls(callee, wires, _) => {
            is_table(tables, *callee, wires.as_slice().len())
        }
    }
}

/// Whether each call is of a body with a table, of as many parameters as it has wires.
fn are_known(tables: &[Table], items: &[Item]) -> bool
    ensures { IsTrue result → CallsKnown tables.now items.now }
{
    for item in items {
        if !is_known(tables, item) {
            return false;
        }
    }
    true
}

/// Adds the table of a body whose calls are known.
pub fn add(rt: &impl Abort, paths: &mut Paths, body: &Body) -> Result<(), PathFault> {
    assert!(rt; are_known(paths.tables.as_slice(), body.items()));
    paths.add(body)
}

/// These durations.
pub fn times_of(rt: &impl Abort, durations: Durations) -> Times {
    let mut times = Times::ones();
    for (name, duration) in durations {
        assert!(rt; *duration >= 1 && *duration <= 1_000_000);
        times.set(*name, *duration);
    }
    times
}

/// The tables of bodies in order.
pub fn paths_of(
    rt: &impl Abort,
    alloc: Global,
    durations: Durations,
    bodies: &[Body],
) -> Result<Paths, PathFault> {
    let mut paths = Paths::new(alloc, times_of(rt, durations));
    for body in bodies {
        add(rt, &mut paths, body)?;
    }
    Ok(paths)
}

fn calls_below(item: &Item, n: usize) -> bool
    ensures { IsTrue result → AllByRecursion (λ j. j < n) (callees_of (item.now ∷ [])) }
{
    match item {
        Item::Fresh(..) | Item::Gate(_) | Item::Gates(..) => true,
        Item::Call(callee, _) | Item::Calls(callee, ..) => (*callee as usize) < n,
    }
}

/// Whether each call is of one of the first n bodies.
fn call_below(items: &[Item], n: usize) -> bool
    ensures { IsTrue result → AllByRecursion (λ j. j < n) (callees_of items.now) }
{
    for item in items {
        if !calls_below(item, n) {
            return false;
        }
    }
    true
}

/// Adds the counts of a body whose callees were added.
fn count(rt: &impl Abort, tally: &mut Tally, body: &Body) -> Result<(), TallyFault>
    requires { AreSound tally.old.counts }
    ensures { AreSound tally.new.counts }
{
    assert!(rt; call_below(body.items(), tally.counts.len()));
    tally.add(body)
}

/// The counts of the last of some bodies; None where there is none.
pub fn last_counts(
    rt: &impl Abort,
    alloc: Global,
    durations: Durations,
    bodies: &[Body],
) -> Result<Option<Counts>, TallyFault> {
    let mut tally = Tally::new(alloc, times_of(rt, durations));
    for body in bodies {
        count(rt, &mut tally, body)?;
    }
    Ok(tally.counts.as_slice().last().copied())
}
