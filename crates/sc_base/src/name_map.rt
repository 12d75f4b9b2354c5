//! Values under names.
ghost use Rattle.std.specs.Prelude.{◌≡◌, ◌==◌, [], ◌∷◌, ◌++◌, length, None, OnOk, OnErr};
ghost use Rattle.std.specs.Option.{option_copied};
ghost use Rattle.sc_base.specs.NameMaps.{place_under, value_under, with_value};

use crate::{Memory, Text};
use std::alloc::Global;
use std::collections::BTreeMap;
use std::marker::Model;

/// A map from names to values, which keeps the names in the order in which they came. Contracts see it as the list of
/// its entries in that order: each name with its value. No name stands there twice. A look-up takes time that grows
/// with the logarithm of the number of names, whatever the names are.
#[derive(Drop)]
pub struct NameMap<V> {
    entries: Vec<(Text, V)>,
    places: BTreeMap<Text, usize>,
}

impl<V> Model for NameMap<V> {
    ghost use Rattle.std.specs.Prelude.{List, ℕ};
    ghost use Rattle.std.specs.Coded.{coded_list, coded×, coded_ℕ};
    ghost use Rattle.sc_base.specs.NameMaps.{ArePlaces};

    ghost Value = { List (List ℕ × V) };

    ghost coded = { coded_list (coded× (coded_list coded_ℕ) V.code) };

    ghost view = { λ m. m.entries.items };

    ghost invariant = { λ m. ArePlaces m.entries.items m.places };
}

impl<V> NameMap<V> {
    /// A map with no name. It takes memory at the first `push` or `insert`.
    pub fn new(alloc: Global) -> NameMap<V>
        ensures { result ≡ [] }
    {
        NameMap {
            entries: Vec::new(alloc),
            places: BTreeMap::new(alloc),
        }
    }

    /// The entries in the order in which their names came.
    pub fn entries(&self) -> &[(Text, V)]
        ensures { result.now ≡ self.now }
    {
        self.entries.as_slice()
    }

    /// How many names there are.
    pub fn len(&self) -> usize
        ensures { result ≡ length self.now }
    {
        self.entries.len()
    }

    /// Whether there is no name.
    pub fn is_empty(&self) -> bool
        ensures { result ≡ (length self.now == 0) }
    {
        self.entries.is_empty()
    }

    /// The place of the name among the entries, counted from 0, and None where the map does not have it.
    pub fn place(&self, name: &Text) -> Option<usize>
        ensures { result ≡ place_under self.now name.now }
    {
        self.places.get(name).copied()
    }

    /// The value under the name, and None where the map does not have it.
    pub fn get(&self, name: &Text) -> Option<&V>
        ensures { option_copied result ≡ value_under self.now name.now }
    {
        let at = self.place(name)?;
        Some(&self.entries[at].1)
    }
}

impl<V: Drop> NameMap<V> {
    /// Puts a new name, of which it takes a copy, behind all others. At `Memory` the map is unchanged and the value is
    /// dropped.
    pub fn push(&mut self, alloc: Global, name: &Text, value: V) -> Result<(), Memory>
        requires { place_under self.old name.now ≡ None }
        ensures ok { OnOk result (self.new ≡ self.old ++ (name.now, value) ∷ []) }
        ensures err { OnErr result (self.new ≡ self.old) }
    {
        let key = name.try_clone(alloc)?;
        let entry = name.try_clone(alloc)?;
        let at = self.entries.len();
        self.entries.push((entry, value))?;
        match self.places.insert(key, at) {
            Ok(_) => Ok(()),
            Err(_) => {
                self.entries.truncate(at);
                Err(Memory)
            }
        }
    }

    /// Puts the value under the name: in the place of the value that stands there, and else behind all others with a
    /// copy of the name. At `Memory` the map is unchanged and the value is dropped.
    pub fn insert(&mut self, alloc: Global, name: &Text, value: V) -> Result<(), Memory>
        ensures ok { OnOk result (self.new ≡ with_value self.old name.now value) }
        ensures err { OnErr result (self.new ≡ self.old) }
    {
        match self.place(name) {
            None => self.push(alloc, name, value),
            Some(at) => {
                self.entries[at].1 = value;
                Ok(())
            }
        }
    }
}
