//! The table of so many calls one after another.
ghost use Rattle.std.specs.Prelude.{◌≡◌, ℕ, ◌+◌, ◌-◌, ◌*◌, ◌%◌, ◌^◌, ◌<◌, ◌≤◌, List, length, slice_index, All, IfOk, IfErr, OnOk};
ghost use Rattle.sc_gate.specs.Chains.{Timed, best, critical_of};
ghost use Rattle.sc_path.specs.declared.fault.PathFault.TheVariants.{Memory};
ghost use Rattle.sc_path.specs.Fronts.{Bounded, Stands};
ghost use Rattle.sc_path.specs.Rows.{HaveWeights};
ghost use Rattle.sc_path.specs.Powers.{AreTurns, WhyPower, WhyTurn, WhyTwice, WhyTurns, IsRange, params_at};
ghost use Rattle.sc_path.specs.Tables.{IsTable};

use crate::front::{Front, add_call};
use crate::{PathFault, Row, Table};
use std::alloc::Global;

impl Table {
    /// The table of `n` calls one after another on the same wires, each with fresh wires of its own; `n` is at least 1. It takes
    /// as many squares of tables as `n` has binary digits.
    ///
    /// `CountTooLarge` comes exactly where one of their chains weighs more than 2^128 - 1.
    pub fn power(&self, alloc: Global, n: u64) -> Result<Table, PathFault>
        requires some { 1 ≤ n }
        requires rows { 1 ≤ length self.now.rows }
        requires few { length self.now.rows ≤ 65537 }
        ensures size { IfOk result (λ table. length table.rows ≡ length self.now.rows) }
        ensures weights { IfOk result (λ table. All HaveWeights table.rows) }
        ensures turns { IfOk result (λ table. (q : ℕ) (turns : ℕ → List Timed) → AreTurns q (length self.now.rows - 1) turns →
            IsTable (turns 1) q (length self.now.rows - 1) self.now.rows → IsTable (turns n) q (length self.now.rows - 1) table.rows) }
        ensures fits { OnOk result ((q : ℕ) (turns : ℕ → List Timed) → AreTurns q (length self.now.rows - 1) turns →
            IsTable (turns 1) q (length self.now.rows - 1) self.now.rows → critical_of (turns n) < 2 ^ 128) }
        ensures err { IfErr result (WhyPower self.now.rows n) }
    {
        let wires = match numbers(alloc, (self.rows.len() - 1) as u32) {
            Ok(wires) => wires,
            Err(fault) => return Err(fault),
        };
        let mut front = match idle(alloc, &wires) {
            Ok(front) => front,
            Err(fault) => return Err(fault),
        };
        match add_turns(alloc, &mut front, &wires, self.rows.as_slice(), n) {
            Ok(()) => {}
            Err(fault) => return Err(fault),
        }
        match finished(alloc, &front, &wires) {
            Ok(table) => {
                let _greatest = table.get(None, None).unwrap_or(0);
                Ok(table)
            }
            Err(fault) => Err(fault),
        }
    }
}

/// So many turns one after another: by the table of two turns, half as many of them, after one turn where their number is odd.
fn add_turns(
    alloc: Global,
    front: &mut Front,
    wires: &[u32],
    rows: &[Row],
    n: u64,
) -> Result<(), PathFault>
    requires some { 1 ≤ n }
    requires few { length wires.now ≤ 65536 }
    requires range { IsRange wires.now }
    requires many { length rows.now ≡ length wires.now + 1 }
    requires rows { length front.now.rows.items ≡ length wires.now }
    requires lasts { length front.now.last.items ≡ length wires.now + 1 }
    requires bounded { Bounded front.now.rows.items (length front.now.last.items) }
    ensures rows { OnOk result (length front.new.rows.items ≡ length wires.now) }
    ensures lasts { OnOk result (length front.new.last.items ≡ length wires.now + 1) }
    ensures bounded { OnOk result (Bounded front.new.rows.items (length front.new.last.items)) }
    ensures stands { OnOk result ((q a b : ℕ) (turns : ℕ → List Timed) → AreTurns q (length wires.now) turns → Stands (turns a) (params_at q) front.old.rows.items front.old.last.items →
        IsTable (turns b) q (length wires.now) rows.now → Stands (turns (a + n * b)) (params_at q) front.new.rows.items front.new.last.items) }
    ensures err { IfErr result (WhyTurns front.old.rows.items front.old.last.items (length wires.now) rows.now n) }
{
    match add_odd(alloc, front, wires, rows, n) {
        Ok(()) => {}
        Err(fault) => return Err(fault),
    }
    if n < 2 {
        return Ok(());
    }
    let square = match twice(alloc, rows, wires) {
        Ok(square) => square,
        Err(fault) => return Err(fault),
    };
    add_turns(alloc, front, wires, square.rows.as_slice(), n / 2)
}

/// One turn, where the number of turns is odd.
fn add_odd(
    alloc: Global,
    front: &mut Front,
    wires: &[u32],
    rows: &[Row],
    n: u64,
) -> Result<(), PathFault>
    requires some { 1 ≤ n }
    requires range { IsRange wires.now }
    requires many { length rows.now ≡ length wires.now + 1 }
    requires rows { length front.now.rows.items ≡ length wires.now }
    requires lasts { length front.now.last.items ≡ length wires.now + 1 }
    requires bounded { Bounded front.now.rows.items (length front.now.last.items) }
    ensures rows { OnOk result (length front.new.rows.items ≡ length wires.now) }
    ensures lasts { OnOk result (length front.new.last.items ≡ length wires.now + 1) }
    ensures bounded { OnOk result (Bounded front.new.rows.items (length front.new.last.items)) }
    ensures stands { OnOk result ((q a b : ℕ) (turns : ℕ → List Timed) → AreTurns q (length wires.now) turns → Stands (turns a) (params_at q) front.old.rows.items front.old.last.items →
        IsTable (turns b) q (length wires.now) rows.now → Stands (turns (a + n % 2 * b)) (params_at q) front.new.rows.items front.new.last.items) }
    ensures err { IfErr result (WhyTurns front.old.rows.items front.old.last.items (length wires.now) rows.now n) }
{
    if n % 2 == 0 {
        return Ok(());
    }
    add_turn(alloc, front, wires, rows)
}

/// One turn more: a call on the parameter wires.
fn add_turn(alloc: Global, front: &mut Front, wires: &[u32], rows: &[Row]) -> Result<(), PathFault>
    requires range { IsRange wires.now }
    requires many { length rows.now ≡ length wires.now + 1 }
    requires rows { length front.now.rows.items ≡ length wires.now }
    requires lasts { length front.now.last.items ≡ length wires.now + 1 }
    requires bounded { Bounded front.now.rows.items (length front.now.last.items) }
    ensures rows { OnOk result (length front.new.rows.items ≡ length wires.now) }
    ensures lasts { OnOk result (length front.new.last.items ≡ length wires.now + 1) }
    ensures bounded { OnOk result (Bounded front.new.rows.items (length front.new.last.items)) }
    ensures stands { OnOk result ((q a b : ℕ) (turns : ℕ → List Timed) → AreTurns q (length wires.now) turns → Stands (turns a) (params_at q) front.old.rows.items front.old.last.items →
        IsTable (turns b) q (length wires.now) rows.now → Stands (turns (a + b)) (params_at q) front.new.rows.items front.new.last.items) }
    ensures err { IfErr result (WhyTurn front.old.rows.items front.old.last.items (length wires.now) rows.now) }
{
    add_call(alloc, front, wires, rows)
}

/// The rows of parameter wires before any turn.
fn idle(alloc: Global, wires: &[u32]) -> Result<Front, PathFault>
    requires few { length wires.now ≤ 65536 }
    ensures rows { IfOk result (λ f. length f.rows.items ≡ length wires.now) }
    ensures lasts { IfOk result (λ f. length f.last.items ≡ length wires.now + 1) }
    ensures bounded { IfOk result (λ f. Bounded f.rows.items (length f.last.items)) }
    ensures stands { IfOk result (λ f. (q : ℕ) (turns : ℕ → List Timed) → AreTurns q (length wires.now) turns → Stands (turns 0) (params_at q) f.rows.items f.last.items) }
    ensures err { IfErr result (λ fault. fault ≡ Memory) }
{
    let count = wires.len() as u32;
    match Front::of_wires(alloc, count, count, 0, 0) {
        Ok(front) => Ok(front),
        Err(fault) => Err(fault),
    }
}

/// The table of two turns.
fn twice(alloc: Global, rows: &[Row], wires: &[u32]) -> Result<Table, PathFault>
    requires range { IsRange wires.now }
    requires few { length wires.now ≤ 65536 }
    requires many { length rows.now ≡ length wires.now + 1 }
    ensures size { IfOk result (λ table. length table.rows ≡ length wires.now + 1) }
    ensures table { IfOk result (λ table. (q b : ℕ) (turns : ℕ → List Timed) → AreTurns q (length wires.now) turns → IsTable (turns b) q (length wires.now) rows.now → IsTable (turns (b + b)) q (length wires.now) table.rows) }
    ensures err { IfErr result (WhyTwice rows.now (length wires.now)) }
{
    let mut front = match idle(alloc, wires) {
        Ok(front) => front,
        Err(fault) => return Err(fault),
    };
    match add_turn(alloc, &mut front, wires, rows) {
        Ok(()) => {}
        Err(fault) => return Err(fault),
    }
    match add_turn(alloc, &mut front, wires, rows) {
        Ok(()) => {}
        Err(fault) => return Err(fault),
    }
    finished(alloc, &front, wires)
}

/// The table of turns from the rows after them.
fn finished(alloc: Global, front: &Front, wires: &[u32]) -> Result<Table, PathFault>
    requires range { IsRange wires.now }
    requires few { length wires.now ≤ 65536 }
    requires rows { length front.now.rows.items ≡ length wires.now }
    requires lasts { length front.now.last.items ≡ length wires.now + 1 }
    requires bounded { Bounded front.now.rows.items (length front.now.last.items) }
    ensures size { IfOk result (λ table. length table.rows ≡ length wires.now + 1) }
    ensures weights { IfOk result (λ table. All HaveWeights table.rows) }
    ensures table { IfOk result (λ table. (q n : ℕ) (turns : ℕ → List Timed) → AreTurns q (length wires.now) turns → Stands (turns n) (params_at q) front.now.rows.items front.now.last.items → IsTable (turns n) q (length wires.now) table.rows) }
    ensures err { IfErr result (λ fault. fault ≡ Memory) }
{
    match front.table(alloc, wires) {
        Ok(table) => Ok(table),
        Err(fault) => Err(fault),
    }
}

/// The numbers below n.
fn numbers(alloc: Global, n: u32) -> Result<Vec<u32>, PathFault>
    ensures len { IfOk result (λ r. length r.items ≡ n) }
    ensures range { IfOk result (λ r. IsRange r.items) }
    ensures err { IfErr result (λ fault. fault ≡ Memory) }
{
    let mut out = Vec::new(alloc);
    for i in 0..n {
        if out.push(i).is_err() {
            return Err(PathFault::Memory);
        }
    }
    Ok(out)
}
