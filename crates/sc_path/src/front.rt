//! The rows of a body, item after item.
ghost use Rattle.std.specs.Prelude.{◌≡◌, ℕ, ◌+◌, ◌<◌, ◌≤◌, List, [], ◌∷◌, ◌++◌, length, map, All, max, slice_index, IfOk, IfErr, OnOk, Option, None, Some, take};
ghost use Rattle.sc_gate.specs.Chains.{Timed, or_zero, more, plus};
ghost use Rattle.sc_gate.specs.Renaming.{rename_timed};
ghost use Rattle.sc_path.specs.declared.fault.PathFault.TheVariants.{Memory};
ghost use Rattle.sc_path.specs.Rows.{look, row_at, place, Ascends};
ghost use Rattle.sc_path.specs.Tables.{IsTable};
ghost use Rattle.sc_path.specs.Fronts.{Sites, Bounded, Stands, gate_at, through, put_at, source, called, row_after, Placed, WhyThrough, WhyGate, WhyCalled, WhyCall, WhyNoCall, put_each};

use crate::row::merge;
use crate::{Entry, PathFault, Row};
use std::alloc::Global;

/// The rows of a body's wires, and for each start the greatest weight of a chain that ends anywhere, 0 where there is none.
/// A row has an entry of weight 0 where a chain may start at its wire.
#[derive(Drop)]
pub struct Front {
    pub rows: Vec<Row>,
    pub last: Vec<u128>,
}

/// Where a start has its place among all starts.
fn place_of(start: Option<u32>) -> usize
    ensures { result ≡ place start }
{
    match start {
        None => 0,
        Some(wire) => wire as usize + 1,
    }
}

/// The entries of the row at a place.
pub fn entries_of(rows: &[Row], at: usize) -> &[Entry]
    requires { at < length rows.now }
    ensures row { result.now ≡ row_at rows.now at }
    ensures ascends { Ascends result.now }
{
    rows[at].as_slice()
}

/// The entries through a gate on these wires.
fn through_gate(alloc: Global, rows: &[Row], weight: u128, wires: &[u32]) -> Result<Row, PathFault>
    requires { All (λ w. w < length rows.now) wires.now }
    ensures sums { IfOk result (λ row. (s : Option ℕ) → look row s ≡ through rows.now weight wires.now s) }
    ensures err { IfErr result (WhyThrough rows.now wires.now weight) }
{
    let mut out = Row::new(alloc);
    for wire in wires {
        match merge(
            alloc,
            out.as_slice(),
            entries_of(rows, *wire as usize),
            weight,
        ) {
            Ok(more) => out = more,
            Err(fault) => return Err(fault),
        }
    }
    Ok(out)
}

/// Each number is raised to the entry with its start.
fn raise(last: &mut [u128], row: &[Entry])
    requires { All (λ e. place e.start < length last.now) row.now }
    ensures len { length last.new ≡ length last.old }
    ensures raised { (s : Option ℕ) → place s < length last.old → slice_index last.new (place s) ≡ max (slice_index last.old (place s)) (or_zero (look row.now s)) }
{
    for entry in row {
        let at = place_of(entry.start);
        last[at] = last[at].max(entry.weight);
    }
}

/// A copy of the row is put at each of the wires.
fn put_copies(
    alloc: Global,
    rows: &mut [Row],
    wires: &[u32],
    row: &[Entry],
) -> Result<(), PathFault>
    requires below { All (λ w. w < length rows.now) wires.now }
    requires ascends { Ascends row.now }
    ensures len { length rows.new ≡ length rows.old }
    ensures put { OnOk result ((w : ℕ) (s : Option ℕ) → look (row_at rows.new w) s ≡ put_at rows.old wires.now row.now w s) }
    ensures err { IfErr result (λ fault. fault ≡ Memory) }
{
    for wire in wires {
        match Row::from_slice(alloc, row) {
            Ok(copy) => rows[*wire as usize] = copy,
            Err(fault) => return Err(fault),
        }
    }
    Ok(())
}

/// The row is put at each of the wires: copies, and at the last one the row itself.
fn put_row(alloc: Global, rows: &mut [Row], wires: &[u32], row: Row) -> Result<(), PathFault>
    requires below { All (λ w. w < length rows.now) wires.now }
    requires some { 0 < length wires.now }
    ensures len { length rows.new ≡ length rows.old }
    ensures put { OnOk result ((w : ℕ) (s : Option ℕ) → look (row_at rows.new w) s ≡ put_at rows.old wires.now row w s) }
    ensures err { IfErr result (λ fault. fault ≡ Memory) }
{
    let first = wires.len() - 1;
    let (front, _) = wires.split_at(first);
    match put_copies(alloc, rows, front, row.as_slice()) {
        Ok(()) => {}
        Err(fault) => return Err(fault),
    }
    rows[wires[first] as usize] = row;
    Ok(())
}

/// One more gate, on the wires of these rows.
pub fn add_gate(
    alloc: Global,
    front: &mut Front,
    weight: u128,
    wires: &[u32],
) -> Result<(), PathFault>
    requires below { All (λ w. w < length front.now.rows.items) wires.now }
    requires some { 0 < length wires.now }
    requires bounded { Bounded front.now.rows.items (length front.now.last.items) }
    ensures rows { OnOk result (length front.new.rows.items ≡ length front.old.rows.items) }
    ensures lasts { OnOk result (length front.new.last.items ≡ length front.old.last.items) }
    ensures bounded { OnOk result (Bounded front.new.rows.items (length front.new.last.items)) }
    ensures stands { OnOk result ((gates : List Timed) (sites : Sites) → Stands gates sites front.old.rows.items front.old.last.items →
        Stands (gates ++ gate_at sites weight wires.now ∷ []) sites front.new.rows.items front.new.last.items) }
    ensures err { IfErr result (WhyGate front.old.rows.items front.old.last.items weight wires.now) }
{
    let row = match through_gate(alloc, &front.rows, weight, wires) {
        Ok(row) => row,
        Err(fault) => return Err(fault),
    };
    raise(&mut front.last, row.as_slice());
    put_row(alloc, &mut front.rows, wires, row)
}

/// One entry of the callee's row, after what the rows have at its start.
fn entered(alloc: Global, rows: &[Row], wires: &[u32], entry: Entry) -> Result<Row, PathFault>
    requires below { All (λ w. w < length rows.now) wires.now }
    ensures sums { IfOk result (λ row. (s : Option ℕ) → look row s ≡ called (λ t. source rows.now wires.now t s) (entry ∷ [])) }
    ensures err { IfErr result (WhyCalled rows.now wires.now (entry ∷ [])) }
{
    match entry.start {
        None => {
            let start = [Entry {
                start: None,
                weight: 0,
            }];
            merge(alloc, &[], &start, entry.weight)
        }
        Some(at) => match wires.get(at as usize) {
            Some(wire) => merge(alloc, &[], entries_of(rows, *wire as usize), entry.weight),
            None => Ok(Row::new(alloc)),
        },
    }
}

/// What a row of the callee's table adds: its entries, each after what the rows have at its start.
fn gathered(alloc: Global, rows: &[Row], wires: &[u32], callee: &[Entry]) -> Result<Row, PathFault>
    requires below { All (λ w. w < length rows.now) wires.now }
    ensures sums { IfOk result (λ row. (s : Option ℕ) → look row s ≡ called (λ t. source rows.now wires.now t s) callee.now) }
    ensures err { IfErr result (WhyCalled rows.now wires.now callee.now) }
{
    if callee.is_empty() {
        return Ok(Row::new(alloc));
    }
    if callee.len() == 1 {
        return entered(alloc, rows, wires, callee[0]);
    }
    let half = callee.len() / 2;
    let (low, high) = callee.split_at(half);
    let first = match gathered(alloc, rows, wires, low) {
        Ok(first) => first,
        Err(fault) => return Err(fault),
    };
    let second = match gathered(alloc, rows, wires, high) {
        Ok(second) => second,
        Err(fault) => return Err(fault),
    };
    merge(alloc, first.as_slice(), second.as_slice(), 0)
}

/// The rows of a call's wires after the call.
fn call_rows(
    alloc: Global,
    rows: &[Row],
    wires: &[u32],
    table: &[Row],
) -> Result<Vec<Row>, PathFault>
    requires below { All (λ w. w < length rows.now) wires.now }
    requires many { length wires.now ≤ length table.now }
    ensures len { IfOk result (λ r. length r.items ≡ length wires.now) }
    ensures rows { IfOk result (λ r. (j : ℕ) (s : Option ℕ) → j < length wires.now → look (row_at r.items j) s ≡ row_after rows.now wires.now table.now j s) }
    ensures err { IfErr result (WhyCall rows.now wires.now table.now) }
{
    let mut out = Vec::new(alloc);
    for j in 0..wires.len() {
        let more = match gathered(alloc, rows, wires, entries_of(table, j)) {
            Ok(more) => more,
            Err(fault) => return Err(fault),
        };
        let row = match merge(
            alloc,
            entries_of(rows, wires[j] as usize),
            more.as_slice(),
            0,
        ) {
            Ok(row) => row,
            Err(fault) => return Err(fault),
        };
        if out.push(row).is_err() {
            return Err(PathFault::Memory);
        }
    }
    Ok(out)
}

/// Each of the new rows is put at its wire.
fn put_rows(rows: &mut [Row], wires: &[u32], mut new: Vec<Row>)
    requires below { All (λ w. w < length rows.now) wires.now }
    requires many { length new.items ≡ length wires.now }
    ensures len { length rows.new ≡ length rows.old }
    ensures put { (w : ℕ) → row_at rows.new w ≡ put_each rows.old wires.now new.items w }
{
    while let Some(row) = new.pop() {
        let wire = wires[new.len()];
        rows[wire as usize] = row;
    }
}

/// A call on the wires of these rows of a callee with this table: a row for each of the wires, and the last row.
pub fn add_call(
    alloc: Global,
    front: &mut Front,
    wires: &[u32],
    table: &[Row],
) -> Result<(), PathFault>
    requires below { All (λ w. w < length front.now.rows.items) wires.now }
    requires many { length table.now ≡ length wires.now + 1 }
    requires bounded { Bounded front.now.rows.items (length front.now.last.items) }
    requires starts { 0 < length front.now.last.items }
    ensures rows { OnOk result (length front.new.rows.items ≡ length front.old.rows.items) }
    ensures lasts { OnOk result (length front.new.last.items ≡ length front.old.last.items) }
    ensures bounded { OnOk result (Bounded front.new.rows.items (length front.new.last.items)) }
    ensures stands { OnOk result ((gates callee : List Timed) (q : ℕ) (sites : Sites) → Stands gates sites front.old.rows.items front.old.last.items →
        IsTable callee q (length wires.now) table.now → (placed : Placed gates callee sites (length front.old.rows.items) (length front.old.last.items) q wires.now) →
        Stands (gates ++ map (rename_timed placed.rename) callee) sites front.new.rows.items front.new.last.items) }
    ensures err { IfErr result (WhyNoCall front.old.rows.items front.old.last.items wires.now table.now) }
{
    let rows = match call_rows(alloc, &front.rows, wires, table) {
        Ok(rows) => rows,
        Err(fault) => return Err(fault),
    };
    let last = match gathered(alloc, &front.rows, wires, entries_of(table, wires.len())) {
        Ok(last) => last,
        Err(fault) => return Err(fault),
    };
    raise(&mut front.last, last.as_slice());
    put_rows(&mut front.rows, wires, rows);
    Ok(())
}
