//! Path tables: the rows that are kept of a body.
ghost use Rattle.std.specs.Prelude.{◌≡◌, ℕ, ◌+◌, ◌<◌, List, length, Option, Some};
ghost use Rattle.sc_gate.specs.Chains.{more, when};
ghost use Rattle.sc_path.specs.Rows.{look, row_at, same_start};
ghost use Rattle.sc_path.specs.Tables.{get_of, row_for};

use crate::row::is_same;
use crate::{Entry, Row};
use sc_base::List;

/// The path table of an instance: one row for each of its parameter wires, for the chains that end there, qubits first and then
/// classical bits, and one last row for the chains that end anywhere. No entry has the weight 0.
#[derive(Debug, Drop)]
pub struct Table {
    pub rows: List<Row>,
}

impl Table {
    /// The greatest weight of a chain that starts and ends at these parameter wires, qubits numbered first and then classical
    /// bits; None as `from` is a chain that starts anywhere, None as `to` one that ends anywhere. None where there is no such
    /// chain or no such wire. Takes no memory.
    pub fn get(&self, from: Option<u32>, to: Option<u32>) -> Option<u128>
        ensures { result ≡ get_of self.now.rows from to }
    {
        weight_of(ending(self.rows.as_slice(), to), from)
    }
}

/// The row of the chains that end there; no entry where there is no such wire.
fn ending(rows: &[Row], to: Option<u32>) -> &[Entry]
    ensures { result.now ≡ row_for rows.now to }
{
    match to {
        None => row_or_none(rows, rows.len().saturating_sub(1)),
        Some(wire) => {
            if wire as usize + 1 < rows.len() {
                row_or_none(rows, wire as usize)
            } else {
                &[]
            }
        }
    }
}

/// The row at a place; no entry past the last one.
fn row_or_none(rows: &[Row], at: usize) -> &[Entry]
    ensures { result.now ≡ row_at rows.now at }
{
    match rows.get(at) {
        Some(row) => row.as_slice(),
        None => &[],
    }
}

/// The weight of the entry with this start.
fn weight_of(row: &[Entry], start: Option<u32>) -> Option<u128>
    ensures { result ≡ look row.now start }
{
    let mut found = None;
    for entry in row {
        found = found_with(found, *entry, start);
    }
    found
}

/// What was found, and the entry where it has this start.
fn found_with(found: Option<u128>, entry: Entry, start: Option<u32>) -> Option<u128>
    ensures { result ≡ more found (when (same_start entry.start start) (Some entry.weight)) }
{
    if is_same(entry.start, start) {
        Some(greater(found, entry.weight))
    } else {
        found
    }
}

fn greater(found: Option<u128>, weight: u128) -> u128
    ensures { Some result ≡ more found (Some weight) }
{
    match found {
        Some(other) => other.max(weight),
        None => weight,
    }
}
