//! The table of a body, by the tables of the bodies that it calls.
ghost use Rattle.std.specs.Prelude.{◌≡◌, ℕ, ◌+◌, ◌*◌, ◌<◌, ◌≤◌, ◌^◌, List, [], ◌∷◌, ◌++◌, All, length, map, IfOk, IfErr, OnOk, option_to_list};
ghost use Rattle.std.specs.List.{range_with_len};
ghost use Rattle.sc_deck.specs.Bodies.{IsBody, wires_of};
ghost use Rattle.sc_deck.specs.Modules.{Module};
ghost use Rattle.sc_deck.specs.Unfolding.{of_class};
ghost use Rattle.sc_deck.specs.declared.key.Key.{Key};
ghost use Rattle.sc_gate.specs.Chains.{Timed};
ghost use Rattle.sc_gate.specs.Gates.{operands};
ghost use Rattle.sc_gate.specs.Numbers.{both};
ghost use Rattle.sc_gate.specs.Renaming.{rename_timed};
ghost use Rattle.sc_gate.specs.Times.{AreTimes, duration};
ghost use Rattle.sc_path.specs.declared.fault.PathFault.TheVariants.{Memory};
ghost use Rattle.sc_path.specs.Fronts.{Sites, Bounded, Stands, Placed, gate_at, WhyGate, WhyNoCall};
ghost use Rattle.sc_path.specs.Places.{row_number, rows_for, StandsAt, WhyItem};
ghost use Rattle.sc_path.specs.Rows.{HaveWeights};
ghost use Rattle.sc_path.specs.Tables.{CallsKnown, Extends, StandsFor, IsTable, IsTableOf, WhyAdded};

use crate::front::{Front, add_call, add_gate};
use crate::{PathFault, Row, Table};
use sc_base::Class;
use sc_deck::{Body, Item};
use sc_gate::{Gate, Kind, Times, Wire};
use smallvec::SmallVec;
use std::alloc::Global;

/// The table of a body whose calls name these tables.
pub fn table_of(
    alloc: Global,
    tables: &[Table],
    times: &Times,
    body: &Body,
) -> Result<Table, PathFault>
    requires known { CallsKnown tables.now body.now.items }
    ensures size { IfOk result (λ table. length table.rows ≡ both body.now.params + 1) }
    ensures weights { IfOk result (λ table. All HaveWeights table.rows) }
    ensures table { IfOk result (λ table. (modules : List Module) (key : Key) → Extends modules key body.now → StandsFor tables.now times.now modules →
        IsTableOf times.now (modules ++ record { key = key; items = body.now.items } ∷ []) (length modules) (record { key = key; items = body.now.items }) table) }
    ensures large { IfErr result (WhyAdded tables.now times.now body.now) }
{
    let _wires = body.wires();
    let _one = times.of(&Kind::X);
    let mut front = match start_of(alloc, body) {
        Ok(front) => front,
        Err(fault) => return Err(fault),
    };
    match add_items(alloc, &mut front, tables, times, body) {
        Ok(()) => {}
        Err(fault) => return Err(fault),
    }
    let ends = match param_rows(
        alloc,
        body.params(Class::Q),
        body.count(Class::Q),
        body.params(Class::C),
    ) {
        Ok(ends) => ends,
        Err(fault) => return Err(fault),
    };
    match front.table(alloc, &ends) {
        Ok(table) => Ok(table),
        Err(fault) => Err(fault),
    }
}

/// The rows of a body before its first item.
fn start_of(alloc: Global, body: &Body) -> Result<Front, PathFault>
    requires sound { IsBody body.now }
    requires params { both body.now.params ≤ both (wires_of body.now) }
    ensures rows { IfOk result (λ f. length f.rows.items ≡ both (wires_of body.now)) }
    ensures lasts { IfOk result (λ f. length f.last.items ≡ both body.now.params + 1) }
    ensures bounded { IfOk result (λ f. Bounded f.rows.items (length f.last.items)) }
    ensures stands { IfOk result (λ f. (tables : List Table) (times : List ℕ) → StandsAt tables times body.now 0 f.rows.items f.last.items) }
    ensures err { IfErr result (λ fault. fault ≡ Memory) }
{
    let front = Front::of_wires(
        alloc,
        body.params(Class::Q),
        body.count(Class::Q),
        body.params(Class::C),
        body.count(Class::C),
    );
    match front {
        Ok(front) => Ok(front),
        Err(fault) => Err(fault),
    }
}

/// The rows of the parameter wires.
fn param_rows(
    alloc: Global,
    qubit_params: u32,
    qubits: u32,
    cbit_params: u32,
) -> Result<Vec<u32>, PathFault>
    requires fits { qubit_params + (qubits + cbit_params) < 2 ^ 32 }
    ensures rows { IfOk result (λ r. r.items ≡ range_with_len 0 qubit_params ++ range_with_len qubits cbit_params) }
    ensures err { IfErr result (λ fault. fault ≡ Memory) }
{
    let mut out = Vec::new(alloc);
    match push_numbers(&mut out, 0, qubit_params) {
        Ok(()) => {}
        Err(fault) => return Err(fault),
    }
    match push_numbers(&mut out, qubits, cbit_params) {
        Ok(()) => Ok(out),
        Err(fault) => Err(fault),
    }
}

fn push_numbers(out: &mut Vec<u32>, first: u32, n: u32) -> Result<(), PathFault>
    requires { first + n < 2 ^ 32 }
    ensures ok { OnOk result (out.new.items ≡ out.old.items ++ range_with_len first n) }
    ensures err { IfErr result (λ fault. fault ≡ Memory) }
{
    for i in 0..n {
        if out.push(first + i).is_err() {
            return Err(PathFault::Memory);
        }
    }
    Ok(())
}

/// The rows after all items of the body.
fn add_items(
    alloc: Global,
    front: &mut Front,
    tables: &[Table],
    times: &Times,
    body: &Body,
) -> Result<(), PathFault>
    requires known { CallsKnown tables.now body.now.items }
    requires sound { IsBody body.now }
    requires rows { length front.now.rows.items ≡ both (wires_of body.now) }
    requires durations { AreTimes times.now }
    requires lasts { length front.now.last.items ≡ both body.now.params + 1 }
    requires bounded { Bounded front.now.rows.items (length front.now.last.items) }
    ensures rows { OnOk result (length front.new.rows.items ≡ both (wires_of body.now)) }
    ensures lasts { OnOk result (length front.new.last.items ≡ both body.now.params + 1) }
    ensures bounded { OnOk result (Bounded front.new.rows.items (length front.new.last.items)) }
    ensures stands { OnOk result (StandsAt tables.now times.now body.now 0 front.old.rows.items front.old.last.items →
        StandsAt tables.now times.now body.now (length body.now.items) front.new.rows.items front.new.last.items) }
    ensures err { IfErr result (WhyItem tables.now times.now body.now 0 front.old.rows.items front.old.last.items) }
{
    for at in 0..body.items().len() {
        match add_item(alloc, front, tables, times, body, at) {
            Ok(()) => {}
            Err(fault) => return Err(fault),
        }
    }
    Ok(())
}

/// The rows after one more item of the body, where they were those of the items before it.
fn add_item(
    alloc: Global,
    front: &mut Front,
    tables: &[Table],
    times: &Times,
    body: &Body,
    at: usize,
) -> Result<(), PathFault>
    requires known { CallsKnown tables.now body.now.items }
    requires sound { IsBody body.now }
    requires item { at < length body.now.items }
    requires rows { length front.now.rows.items ≡ both (wires_of body.now) }
    requires durations { AreTimes times.now }
    requires lasts { length front.now.last.items ≡ both body.now.params + 1 }
    requires bounded { Bounded front.now.rows.items (length front.now.last.items) }
    ensures rows { OnOk result (length front.new.rows.items ≡ both (wires_of body.now)) }
    ensures lasts { OnOk result (length front.new.last.items ≡ both body.now.params + 1) }
    ensures bounded { OnOk result (Bounded front.new.rows.items (length front.new.last.items)) }
    ensures stands { OnOk result (StandsAt tables.now times.now body.now at front.old.rows.items front.old.last.items →
        StandsAt tables.now times.now body.now (at + 1) front.new.rows.items front.new.last.items) }
    ensures err { IfErr result (WhyItem tables.now times.now body.now at front.old.rows.items front.old.last.items) }
{
    let qubits = body.count(Class::Q);
    match &body.items()[at] {
        Item::Fresh(..) => Ok(()),
        Item::Gate(gate) => add_gates(alloc, front, times, qubits, gate, 1),
        Item::Gates(gate, turns) => add_gates(alloc, front, times, qubits, gate, *turns),
        Item::Call(callee, wires) => {
            let table = &tables[*callee as usize];
            add_called(
                alloc,
                front,
                qubits,
                wires.as_slice(),
                table.rows.as_slice(),
            )
        }
        Item::Calls(callee, wires, turns) => {
            let table = match tables[*callee as usize].power(alloc, *turns) {
                Ok(table) => table,
                Err(fault) => return Err(fault),
            };
            add_called(
                alloc,
                front,
                qubits,
                wires.as_slice(),
                table.rows.as_slice(),
            )
        }
    }
}

/// So many turns of a gate weigh as one gate of so many times the weight.
fn add_gates(
    alloc: Global,
    front: &mut Front,
    times: &Times,
    qubits: u32,
    gate: &Gate,
    turns: u64,
) -> Result<(), PathFault>
    requires fits { All (λ w. qubits + w.number < 2 ^ 32) (operands gate.now) }
    requires below { All (λ w. w < length front.now.rows.items) (map (row_number qubits) (operands gate.now)) }
    requires bounded { Bounded front.now.rows.items (length front.now.last.items) }
    ensures rows { OnOk result (length front.new.rows.items ≡ length front.old.rows.items) }
    ensures lasts { OnOk result (length front.new.last.items ≡ length front.old.last.items) }
    ensures bounded { OnOk result (Bounded front.new.rows.items (length front.new.last.items)) }
    ensures stands { OnOk result ((gates : List Timed) (sites : Sites) → Stands gates sites front.old.rows.items front.old.last.items →
        Stands (gates ++ gate_at sites (turns * duration times.now gate.now.kind) (map (row_number qubits) (operands gate.now)) ∷ []) sites front.new.rows.items front.new.last.items) }
    ensures err { IfErr result (WhyGate front.old.rows.items front.old.last.items (turns * duration times.now gate.now.kind) (map (row_number qubits) (operands gate.now))) }
{
    let weight = u128::from(turns) * u128::from(times.of(&gate.kind));
    let rows = match operand_rows(alloc, gate, qubits) {
        Ok(rows) => rows,
        Err(fault) => return Err(fault),
    };
    add_gate(alloc, front, weight, rows.as_slice())
}

/// A call on these wires of a callee with this table.
fn add_called(
    alloc: Global,
    front: &mut Front,
    qubits: u32,
    wires: &[Wire],
    table: &[Row],
) -> Result<(), PathFault>
    requires fits { All (λ w. qubits + w.number < 2 ^ 32) wires.now }
    requires below { All (λ w. w < length front.now.rows.items) (rows_for qubits wires.now) }
    requires many { length table.now ≡ length wires.now + 1 }
    requires bounded { Bounded front.now.rows.items (length front.now.last.items) }
    requires starts { 0 < length front.now.last.items }
    ensures rows { OnOk result (length front.new.rows.items ≡ length front.old.rows.items) }
    ensures lasts { OnOk result (length front.new.last.items ≡ length front.old.last.items) }
    ensures bounded { OnOk result (Bounded front.new.rows.items (length front.new.last.items)) }
    ensures stands { OnOk result ((gates callee : List Timed) (q : ℕ) (sites : Sites) → Stands gates sites front.old.rows.items front.old.last.items →
        IsTable callee q (length (rows_for qubits wires.now)) table.now → (placed : Placed gates callee sites (length front.old.rows.items) (length front.old.last.items) q (rows_for qubits wires.now)) →
        Stands (gates ++ map (rename_timed placed.rename) callee) sites front.new.rows.items front.new.last.items) }
    ensures err { IfErr result (WhyNoCall front.old.rows.items front.old.last.items (rows_for qubits wires.now) table.now) }
{
    let rows = match rows_of(alloc, wires, qubits) {
        Ok(rows) => rows,
        Err(fault) => return Err(fault),
    };
    add_call(alloc, front, &rows, table)
}

/// The row of a local wire: qubits come first, then classical bits.
fn row_of(wire: Wire, qubits: u32) -> u32
    requires { qubits + wire.number < 2 ^ 32 }
    ensures { result ≡ row_number qubits wire }
{
    match wire.class {
        Class::Q => wire.number,
        Class::C => qubits + wire.number,
    }
}

/// The rows of a gate's operands, in order.
fn operand_rows(alloc: Global, gate: &Gate, qubits: u32) -> Result<SmallVec<u32, 4>, PathFault>
    requires { All (λ w. qubits + w.number < 2 ^ 32) (operands gate.now) }
    ensures rows { IfOk result (λ r. r.items ≡ map (row_number qubits) (operands gate.now)) }
    ensures err { IfErr result (λ fault. fault ≡ Memory) }
{
    let mut out = SmallVec::new(alloc);
    match push_row(&mut out, Some(gate.a), qubits) {
        Ok(()) => {}
        Err(fault) => return Err(fault),
    }
    match push_row(&mut out, gate.b, qubits) {
        Ok(()) => {}
        Err(fault) => return Err(fault),
    }
    match push_row(&mut out, gate.c, qubits) {
        Ok(()) => Ok(out),
        Err(fault) => Err(fault),
    }
}

fn push_row(out: &mut SmallVec<u32, 4>, wire: Option<Wire>, qubits: u32) -> Result<(), PathFault>
    requires { All (λ w. qubits + w.number < 2 ^ 32) (option_to_list wire) }
    ensures ok { OnOk result (out.new.items ≡ out.old.items ++ map (row_number qubits) (option_to_list wire)) }
    ensures err { IfErr result (λ fault. fault ≡ Memory) }
{
    let Some(wire) = wire else {
        return Ok(());
    };
    match out.push(row_of(wire, qubits)) {
        Ok(()) => Ok(()),
        Err(_) => Err(PathFault::Memory),
    }
}

/// The rows of the wires of a call, qubits first, as the callee's table has its parameters.
fn rows_of(alloc: Global, wires: &[Wire], qubits: u32) -> Result<Vec<u32>, PathFault>
    requires { All (λ w. qubits + w.number < 2 ^ 32) wires.now }
    ensures rows { IfOk result (λ r. r.items ≡ rows_for qubits wires.now) }
    ensures err { IfErr result (λ fault. fault ≡ Memory) }
{
    let mut out = Vec::new(alloc);
    match push_class(&mut out, wires, Class::Q, qubits) {
        Ok(()) => {}
        Err(fault) => return Err(fault),
    }
    match push_class(&mut out, wires, Class::C, qubits) {
        Ok(()) => Ok(out),
        Err(fault) => Err(fault),
    }
}

/// The rows of the wires of one class.
fn push_class(
    out: &mut Vec<u32>,
    wires: &[Wire],
    class: Class,
    qubits: u32,
) -> Result<(), PathFault>
    requires { All (λ w. qubits + w.number < 2 ^ 32) wires.now }
    ensures ok { OnOk result (out.new.items ≡ out.old.items ++ map (row_number qubits) (of_class class wires.now)) }
    ensures err { IfErr result (λ fault. fault ≡ Memory) }
{
    for wire in wires {
        match push_of(out, *wire, class, qubits) {
            Ok(()) => {}
            Err(fault) => return Err(fault),
        }
    }
    Ok(())
}

/// The row of the wire, where it is of the class.
fn push_of(out: &mut Vec<u32>, wire: Wire, class: Class, qubits: u32) -> Result<(), PathFault>
    requires { qubits + wire.number < 2 ^ 32 }
    ensures ok { OnOk result (out.new.items ≡ out.old.items ++ map (row_number qubits) (of_class class (wire ∷ []))) }
    ensures err { IfErr result (λ fault. fault ≡ Memory) }
{
    if wire.class != class {
        return Ok(());
    }
    if out.push(row_of(wire, qubits)).is_err() {
        return Err(PathFault::Memory);
    }
    Ok(())
}
