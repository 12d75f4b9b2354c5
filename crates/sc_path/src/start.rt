//! The rows of a body before its first item, and the table of its rows after the last one.
ghost use Rattle.std.specs.Prelude.{◌≡◌, ℕ, ◌+◌, ◌<◌, ◌≤◌, List, [], ◌∷◌, length, replicate, All, slice_index, IfOk, IfErr, OnOk, Option, None, Some};
ghost use Rattle.sc_gate.specs.Chains.{more};
ghost use Rattle.sc_path.specs.declared.fault.PathFault.TheVariants.{Memory};
ghost use Rattle.sc_path.specs.Rows.{look, row_at, place, Ascends, AreBefore, HaveWeights};
ghost use Rattle.sc_path.specs.Ends.{begin, start_in, positive, number_at, start_of};

use crate::front::{Front, entries_of};
use crate::{Entry, PathFault, Row, Table};
use sc_base::List;
use std::alloc::Global;

impl Front {
    /// The rows of so many qubits and then so many classical bits before any gate. The first ones of each are parameter wires:
    /// a chain may start there or anywhere, and at the others only anywhere.
    pub fn of_wires(
        alloc: Global,
        qubit_params: u32,
        qubits: u32,
        cbit_params: u32,
        cbits: u32,
    ) -> Result<Front, PathFault>
        requires params { qubit_params + cbit_params ≤ 65536 }
        requires wires { qubits + cbits ≤ 65536 }
        ensures rows { IfOk result (λ f. length f.rows.items ≡ qubits + cbits) }
        ensures qubits { IfOk result (λ f. (w : ℕ) (s : Option ℕ) → w < qubits → look (row_at f.rows.items w) s ≡ begin (start_in 0 qubit_params w) s) }
        ensures cbits { IfOk result (λ f. (w : ℕ) (s : Option ℕ) → w < cbits → look (row_at f.rows.items (qubits + w)) s ≡ begin (start_in qubit_params cbit_params w) s) }
        ensures last { IfOk result (λ f. f.last.items ≡ replicate (qubit_params + cbit_params + 1) 0) }
        ensures err { IfErr result (λ fault. fault ≡ Memory) }
    {
        let mut rows = Vec::new(alloc);
        match push_rows(alloc, &mut rows, 0, qubit_params, qubits) {
            Ok(()) => {}
            Err(fault) => return Err(fault),
        }
        match push_rows(alloc, &mut rows, qubit_params, cbit_params, cbits) {
            Ok(()) => {}
            Err(fault) => return Err(fault),
        }
        match vec![in alloc; 0u128; (qubit_params + cbit_params) as usize + 1] {
            Ok(last) => Ok(Front { rows, last }),
            Err(_) => Err(PathFault::Memory),
        }
    }

    /// The table with the rows of these wires, without the entries of weight 0, and the last row.
    pub fn table(&self, alloc: Global, wires: &[u32]) -> Result<Table, PathFault>
        requires below { All (λ w. w < length self.now.rows.items) wires.now }
        requires few { length self.now.last.items ≤ 65537 }
        ensures size { IfOk result (λ table. length table.rows ≡ length wires.now + 1) }
        ensures rows { IfOk result (λ table. (j : ℕ) (s : Option ℕ) → j < length wires.now → look (row_at table.rows j) s ≡ positive (look (row_at self.now.rows.items (slice_index wires.now j)) s)) }
        ensures weights { IfOk result (λ table. All HaveWeights table.rows) }
        ensures last { IfOk result (λ table. (s : Option ℕ) → look (row_at table.rows (length wires.now)) s ≡ positive (number_at self.now.last.items (place s))) }
        ensures err { IfErr result (λ fault. fault ≡ Memory) }
    {
        let last = match last_row(alloc, &self.last) {
            Ok(last) => last,
            Err(fault) => return Err(fault),
        };
        let mut rows = match kept_rows(alloc, &self.rows, wires) {
            Ok(rows) => rows,
            Err(fault) => return Err(fault),
        };
        match rows.push(last) {
            Ok(()) => Ok(Table { rows }),
            Err(_) => Err(PathFault::Memory),
        }
    }
}

/// Rows of wires of one class, of which the first ones are the parameter wires from a number on.
fn push_rows(
    alloc: Global,
    rows: &mut Vec<Row>,
    first: u32,
    params: u32,
    all: u32,
) -> Result<(), PathFault>
    requires params { first + params ≤ 65536 }
    ensures len { OnOk result (length rows.new.items ≡ length rows.old.items + all) }
    ensures before { OnOk result ((w : ℕ) → w < length rows.old.items → row_at rows.new.items w ≡ row_at rows.old.items w) }
    ensures made { OnOk result ((w : ℕ) (s : Option ℕ) → w < all → look (row_at rows.new.items (length rows.old.items + w)) s ≡ begin (start_in first params w) s) }
    ensures err { IfErr result (λ fault. fault ≡ Memory) }
{
    for wire in 0..all {
        let start = start_of_wire(first, params, wire);
        let row = match start_row(alloc, start) {
            Ok(row) => row,
            Err(fault) => return Err(fault),
        };
        if rows.push(row).is_err() {
            return Err(PathFault::Memory);
        }
    }
    Ok(())
}

fn start_of_wire(first: u32, params: u32, wire: u32) -> Option<u32>
    requires { first + params ≤ 65536 }
    ensures { result ≡ start_in first params wire }
{
    if wire < params {
        Some(first + wire)
    } else {
        None
    }
}

/// The row of a wire before any gate: a chain may start there anywhere, and from its parameter wire.
fn start_row(alloc: Global, start: Option<u32>) -> Result<Row, PathFault>
    ensures row { IfOk result (λ row. (s : Option ℕ) → look row s ≡ begin start s) }
    ensures err { IfErr result (λ fault. fault ≡ Memory) }
{
    let anywhere = Entry {
        start: None,
        weight: 0,
    };
    match start {
        None => Row::from_slice(alloc, &[anywhere]),
        Some(_) => Row::from_slice(alloc, &[anywhere, Entry { start, weight: 0 }]),
    }
}

/// The rows of these wires without the entries of weight 0.
fn kept_rows(alloc: Global, rows: &[Row], wires: &[u32]) -> Result<List<Row>, PathFault>
    requires below { All (λ w. w < length rows.now) wires.now }
    ensures len { IfOk result (λ r. length r ≡ length wires.now) }
    ensures weights { IfOk result (λ r. All HaveWeights r) }
    ensures rows { IfOk result (λ r. (j : ℕ) (s : Option ℕ) → j < length wires.now → look (row_at r j) s ≡ positive (look (row_at rows.now (slice_index wires.now j)) s)) }
    ensures err { IfErr result (λ fault. fault ≡ Memory) }
{
    let mut out = List::new(alloc);
    for wire in wires {
        let row = match kept(alloc, entries_of(rows, *wire as usize)) {
            Ok(row) => row,
            Err(fault) => return Err(fault),
        };
        if out.push(row).is_err() {
            return Err(PathFault::Memory);
        }
    }
    Ok(out)
}

/// The entries that have a weight.
fn kept(alloc: Global, row: &[Entry]) -> Result<Row, PathFault>
    requires { Ascends row.now }
    ensures weights { IfOk result HaveWeights }
    ensures kept { IfOk result (λ r. (s : Option ℕ) → look r s ≡ positive (look row.now s)) }
    ensures err { IfErr result (λ fault. fault ≡ Memory) }
{
    let mut out = Row::new(alloc);
    for entry in row {
        match push_kept(&mut out, *entry) {
            Ok(()) => {}
            Err(fault) => return Err(fault),
        }
    }
    Ok(out)
}

/// An entry for each number above 0, by its place.
fn last_row(alloc: Global, last: &[u128]) -> Result<Row, PathFault>
    requires few { length last.now ≤ 65537 }
    ensures weights { IfOk result HaveWeights }
    ensures numbers { IfOk result (λ r. (s : Option ℕ) → look r s ≡ positive (number_at last.now (place s))) }
    ensures err { IfErr result (λ fault. fault ≡ Memory) }
{
    let mut out = Row::new(alloc);
    for at in 0..last.len() {
        let entry = Entry {
            start: start_at(at),
            weight: last[at],
        };
        match push_kept(&mut out, entry) {
            Ok(()) => {}
            Err(fault) => return Err(fault),
        }
    }
    Ok(out)
}

/// Puts the entry behind the others, where it has a weight.
fn push_kept(out: &mut Row, entry: Entry) -> Result<(), PathFault>
    requires { AreBefore (place entry.start) out.old }
    ensures before { OnOk result ((p : ℕ) → place entry.start < p → AreBefore p out.old → AreBefore p out.new) }
    ensures weights { OnOk result (HaveWeights out.old → HaveWeights out.new) }
    ensures kept { OnOk result ((s : Option ℕ) → look out.new s ≡ more (look out.old s) (positive (look (entry ∷ []) s))) }
    ensures err { IfErr result (λ fault. fault ≡ Memory) }
{
    if entry.weight == 0 {
        return Ok(());
    }
    out.push(entry)
}

/// The start at a place.
fn start_at(at: usize) -> Option<u32>
    requires { at < 65537 }
    ensures { result ≡ start_of at }
{
    if at == 0 { None } else { Some((at - 1) as u32) }
}
