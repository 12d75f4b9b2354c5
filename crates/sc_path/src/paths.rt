//! Path tables of the bodies of a deck, one after another.
ghost use Rattle.std.specs.Prelude.{◌≡◌, ◌≢◌, ℕ, ◌+◌, ◌-◌, ◌<◌, ◌≤◌, ◌^◌, List, [], ◌∷◌, ◌++◌, length, slice_get, OnOk, OnErr, IfErr, IsSome, Option, None, Some};
ghost use Rattle.std.specs.Option.{option_copied};
ghost use Rattle.sc_gate.specs.Chains.{or_zero, critical_of};
ghost use Rattle.sc_deck.specs.Modules.{Module};
ghost use Rattle.sc_deck.specs.declared.key.Key.{Key};
ghost use Rattle.sc_path.specs.declared.fault.PathFault.TheVariants.{CountTooLarge, Memory};
ghost use Rattle.sc_path.specs.Tables.{StandsFor, CallsKnown, Extends, HasTableMore, timed_gates, WhyAdded, critical_at};

use crate::body::table_of;
use crate::{PathFault, Table};
use sc_base::List;
use sc_deck::Body;
use sc_gate::Times;
use std::alloc::Global;

/// One path table for each body added, in order, by the durations of `times`.
#[derive(Debug, Drop)]
pub struct Paths {
    pub tables: List<Table>,
    pub times: Times,
    alloc: Global,
}

impl Paths {
    /// No body yet. It takes memory at the first `add`.
    pub fn new(alloc: Global, times: Times) -> Paths
        ensures tables { result.tables ≡ [] }
        ensures times { result.times ≡ times }
        ensures stands { StandsFor result.tables result.times [] }
    {
        Paths {
            tables: List::new(alloc),
            times,
            alloc,
        }
    }

    /// Adds the table of one more body. Bodies are added in the order of their deck: each call names a body that was added, and
    /// has as many wires as that body has parameters.
    ///
    /// `CountTooLarge` comes exactly where the weight of a chain of this body's expansion passes 2^128 - 1. Unchanged after a
    /// refusal.
    pub fn add(&mut self, body: &Body) -> Result<(), PathFault>
        requires known { CallsKnown self.old.tables body.now.items }
        ensures times { self.new.times ≡ self.old.times }
        ensures ok { OnOk result (HasTableMore self.old.tables self.new.tables body.now) }
        ensures err { OnErr result (self.new.tables ≡ self.old.tables) }
        ensures stands { OnOk result ((modules : List Module) (key : Key) → Extends modules key body.now → StandsFor self.old.tables self.old.times modules →
            StandsFor self.new.tables self.old.times (modules ++ record { key = key; items = body.now.items } ∷ [])) }
        ensures fits { OnOk result ((modules : List Module) (key : Key) → Extends modules key body.now → StandsFor self.old.tables self.old.times modules →
            critical_of (timed_gates self.old.times (modules ++ record { key = key; items = body.now.items } ∷ []) (length modules)) < 2 ^ 128) }
        ensures large { IfErr result (WhyAdded self.old.tables self.old.times body.now) }
    {
        let table = match table_of(self.alloc, self.tables.as_slice(), &self.times, body) {
            Ok(table) => table,
            Err(fault) => return Err(fault),
        };
        let _greatest = table.get(None, None).unwrap_or(0);
        match self.tables.push(table) {
            Ok(()) => Ok(()),
            Err(_) => Err(PathFault::Memory),
        }
    }

    /// The table of body `i`, counted from 0; None where no such body was added. Takes no memory.
    pub fn table(&self, i: u32) -> Option<&Table>
        ensures { option_copied result ≡ slice_get self.now.tables i }
    {
        self.tables.get(i as usize)
    }
}

/// The critical path of the last body that was added: the greatest weight of a chain of its expansion. 0 where there is no gate
/// or no body was added. Takes no memory.
pub fn critical(paths: &Paths) -> u128
    ensures { result ≡ critical_at paths.now.tables }
{
    let tables = paths.tables.as_slice();
    match tables.last() {
        Some(table) => table.get(None, None).unwrap_or(0),
        None => 0,
    }
}
