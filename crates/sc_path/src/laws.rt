//! What is true of all path tables.
ghost use Rattle.std.specs.Prelude.{◌≡◌, ℕ, ◌-◌, ◌<◌, ◌^◌, List, map, length, slice_get, true, false, ◌&&◌, Option, Some, None};
ghost use Rattle.std.specs.List.{range_with_len};
ghost use Rattle.sc_gate.specs.Chains.{Timed, Chain, Greatest, more, plus, or_zero, critical_of, total_weight, Arrives, after, times_of, wire_of as wire_at};
ghost use Rattle.sc_deck.specs.Decks.{IsDeck, IsWhole};
ghost use Rattle.sc_deck.specs.Keys.{params_of};
ghost use Rattle.sc_deck.specs.Modules.{Module};
ghost use Rattle.sc_gate.specs.Numbers.{both};
ghost use Rattle.sc_gate.specs.Times.{AreTimes};
ghost use Rattle.sc_path.specs.declared.row.Entry.{Entry};
ghost use Rattle.sc_path.specs.declared.table.Table.{Table};
ghost use Rattle.sc_path.specs.Fronts.{over_rows};
ghost use Rattle.sc_path.specs.Powers.{AreTurns, calls_in_a_row};
ghost use Rattle.sc_path.specs.Tables.{param, wire_of, within, get_of, IsTable, StandsFor, timed_gates, critical_at};

/// A table answers the greatest weight of a chain between two of its wires, chains by positions, and nothing where there is
/// no such wire.
pub fn tables_are_greatest()
    ensures chains { (gates : List Timed) (q k : ℕ) (rows : List (List Entry)) (from to : Option ℕ) → IsTable gates q k rows →
        within k from ≡ true → within k to ≡ true → Greatest (Chain gates (wire_of q from) (wire_of q to)) (get_of rows from to) }
    ensures outside { (gates : List Timed) (q k : ℕ) (rows : List (List Entry)) (from to : Option ℕ) → IsTable gates q k rows →
        (within k from && within k to) ≡ false → get_of rows from to ≡ None }
{}

/// A table tells the arrival times at the parameter wires, by those before the gates: at each wire the greatest of the time there,
/// of the weights of the chains that end there, and of those that start at a parameter wire, each after the time of that wire.
pub fn tables_tell_arrivals()
    ensures { (gates : List Timed) (q k : ℕ) (rows : List (List Entry)) (arrivals : List Arrives) (w : ℕ) → IsTable gates q k rows →
        map wire_at arrivals ≡ map (param q) (range_with_len 0 k) → w < k →
        after (times_of arrivals) gates (param q w)
        ≡ or_zero (more (Some (times_of arrivals (param q w))) (more (get_of rows None (Some w)) (over_rows (range_with_len 0 k) (λ u. plus (Some (times_of arrivals (param q u))) (get_of rows (Some u) (Some w)))))) }
{}

/// What `critical` answers is the critical path of the last module.
pub fn critical_is_that_of_the_last_module()
    ensures { (tables : List Table) (times : List ℕ) (modules : List Module) → StandsFor tables times modules → 0 < length modules →
        critical_at tables ≡ critical_of (timed_gates times modules (length modules - 1)) }
{}

/// Calls of a module of a deck, one after another on its parameter wires, are turns, and one of them has the module's gates: so a
/// power of the module's table is the table of so many calls of it.
pub fn calls_are_turns()
    ensures turns { (times : List ℕ) (modules : List Module) → AreTimes times → IsDeck modules → (i : ℕ) (m : Module) → slice_get modules i ≡ Some m →
        AreTurns (params_of m.key).qubits (both (params_of m.key)) (calls_in_a_row times modules i m) }
    ensures one { (times : List ℕ) (modules : List Module) → IsDeck modules → (i : ℕ) (m : Module) → slice_get modules i ≡ Some m →
        calls_in_a_row times modules i m 1 ≡ timed_gates times modules i }
{}

/// In a whole deck whose last module's gates weigh less than 2^128 in all, the critical path of each module is less, so no table
/// is refused for its weight.
pub fn weights_fit_in_whole_decks()
    ensures { (times : List ℕ) (modules : List Module) (i : ℕ) → IsDeck modules → IsWhole modules → i < length modules →
        total_weight (timed_gates times modules (length modules - 1)) < 2 ^ 128 → critical_of (timed_gates times modules i) < 2 ^ 128 }
{}
