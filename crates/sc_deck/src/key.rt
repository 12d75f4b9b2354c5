//! The key of an instance: a module with its arguments.
ghost use Rattle.std.specs.Prelude.{◌≡◌, ◌++◌, IfOk};
ghost use Rattle.std.specs.Hash as fed;
ghost use Rattle.std.specs.Hash.{same_Alike};
ghost use Rattle.sc_deck.specs.Keys.{same_key};
ghost use Rattle.sc_deck.specs.KeyLaws.{same_key_laws, same_key_decides};

use sc_base::{Class, Fixed, List, Memory, Text};
use std::alloc::Global;
use std::hash::{Hash, Hasher};

/// One argument: the value of an `int` or of a `double`, one wire, or an array of wires with its length.
#[derive(Clone, Copy, Debug, PartialEq, Eq, Hash)]
pub enum Arg {
    Int(i64),
    Double(Fixed),
    One(Class),
    Many(Class, u32),
}

/// A module with its arguments, in order of parameters. Which wires are passed is no part of it.
#[derive(Debug, Drop)]
pub struct Key {
    pub name: Text,
    pub args: List<Arg>,
}

impl PartialEq for Key {
    ghost use Rattle.std.specs.Cmp.{partial_equiv_from_equiv};

    ghost eq = { same_key };

    ghost laws = { partial_equiv_from_equiv same_key_laws };

    fn eq(&self, other: &Key) -> bool {
        self.name.as_bytes() == other.name.as_bytes()
            && self.args.as_slice() == other.args.as_slice()
    }
}

impl Eq for Key {
    ghost laws = { same_key_laws };
}

impl Hash for Key {
    ghost hash_input = { λ k. fed.slice fed.u8 k.name ++ fed.slice ⟦<Arg as Hash>⟧.hash_input k.args };

    ghost respects_eq = { (same_Alike _ same_key_decides).fed };

    fn hash<H: Hasher>(&self, state: &mut H) {
        self.name.as_bytes().hash(state);
        self.args.as_slice().hash(state);
    }
}

impl Key {
    /// A copy of the key. `Memory` where there is no room for it.
    pub fn try_clone(&self, alloc: Global) -> Result<Key, Memory>
        ensures { IfOk result (λ key. key ≡ self.now) }
    {
        Ok(Key {
            name: self.name.try_clone(alloc)?,
            args: self.args.try_clone(alloc)?,
        })
    }
}
