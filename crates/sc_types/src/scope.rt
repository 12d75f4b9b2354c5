//! One scope: a map from names to what they stand for.
ghost use Rattle.std.specs.Prelude.{◌≡◌, ◌≢◌, [], ◌∷◌, ◌++◌, None, Ok, Err, OnOk, IfErr};
ghost use Rattle.sc_types.specs.Scopes.{known, kind_here, declared_here};

use crate::fault::TypeFault;
use sc_base::{NameMap, Text};
use sc_syntax::{Name, NameKind};
use std::alloc::Global;
use std::marker::Model;

/// Names and kinds in the order in which they were declared.
#[derive(Drop)]
pub(crate) struct Scope {
    kinds: NameMap<NameKind>,
}

impl Model for Scope {
    ghost use Rattle.std.specs.Prelude.{List, map};
    ghost use Rattle.sc_types.specs.Scopes.{Known, known_entry};

    ghost Value = { List Known };

    ghost view = { λ s. map known_entry s.kinds };
}

impl Scope {
    /// Takes no memory.
    pub(crate) fn new(alloc: Global) -> Scope
        ensures { result ≡ [] }
    {
        Scope {
            kinds: NameMap::new(alloc),
        }
    }

    pub(crate) fn get(&self, name: &Text) -> Option<NameKind>
        ensures { result ≡ kind_here self.now name.now }
    {
        self.kinds.get(name).copied()
    }

    fn push(&mut self, alloc: Global, name: &Text, kind: NameKind) -> Result<(), TypeFault>
        requires { kind_here self.old name.now ≡ None }
        ensures ok { OnOk result (self.new ≡ self.old ++ known name.now kind ∷ []) }
        ensures err { IfErr result (λ f. f ≡ TypeFault.Memory) }
    {
        self.kinds.push(alloc, name, kind)?;
        Ok(())
    }

    /// Declares a name, with a copy of its text, where the scope does not have it.
    pub(crate) fn declare(
        &mut self,
        alloc: Global,
        name: &Name,
        kind: NameKind,
    ) -> Result<(), TypeFault>
        ensures ok { OnOk result (declared_here self.old name.now kind ≡ Ok self.new) }
        ensures err { IfErr result (λ f. f ≢ TypeFault.Memory → declared_here self.old name.now kind ≡ Err f) }
    {
        if self.get(&name.text).is_some() {
            return Err(TypeFault::Redefined(name.place));
        }
        self.push(alloc, &name.text, kind)?;
        Ok(())
    }
}
