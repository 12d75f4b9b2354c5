//! One scope: a map from names to values.
ghost use Rattle.std.specs.Prelude.{◌≡◌, if◌then◌else◌, OnOk, OnErr};
ghost use Rattle.std.specs.FinMap as map;

use crate::Value;
use sc_base::Memory;
use std::alloc::Global;
use std::collections::BTreeMap;
use std::marker::Model;

#[derive(Drop)]
pub(crate) struct Scope {
    values: BTreeMap<Vec<u8>, Value>,
}

impl Model for Scope {
    ghost use Rattle.std.specs.FinMap as map;
    ghost use Rattle.std.specs.Coded.{coded_list, coded_ℕ};
    ghost use Rattle.sc_value.specs.contracts.Value as number;
    ghost use Rattle.sc_value.specs.Scopes.{Scope as Values};
    ghost use Rattle.sc_value.specs.Entries.{byte_entries};

    ghost Value = { Values };

    ghost coded = { map.code (coded_list coded_ℕ) number.the_row.coded };

    ghost view = { λ s. map.from_entries (byte_entries s.values.entries) };
}

impl Scope {
    /// Takes no memory.
    pub(crate) fn new(alloc: Global) -> Scope
        ensures { result ≡ map.empty }
    {
        Scope {
            values: BTreeMap::new(alloc),
        }
    }

    pub(crate) fn get(&self, name: &[u8]) -> Option<Value>
        ensures { result ≡ map.get self.now name.now }
    {
        self.values.get(name).copied()
    }

    /// Replaces the value of a name that the scope has. After `Err` the scope is unchanged.
    pub(crate) fn declare(&mut self, alloc: Global, name: &[u8], value: Value) -> Result<(), Memory>
        ensures ok { OnOk result (self.new ≡ map.insert self.old name.now value) }
        ensures err { OnErr result (self.new ≡ self.old) }
    {
        let Ok(name) = Vec::from_slice(alloc, name) else {
            return Err(Memory);
        };
        match self.values.insert(name, value) {
            Ok(_) => Ok(()),
            Err(_) => Err(Memory),
        }
    }

    /// Gives a name that the scope has another value; another name changes nothing. Takes no memory.
    pub(crate) fn set(&mut self, name: &[u8], value: Value)
        ensures { self.new ≡ (if map.contains_key self.old name.now then map.insert self.old name.now value else self.old) }
    {
        if let Some(place) = self.values.get_mut(name) {
            *place = value;
        }
    }
}
