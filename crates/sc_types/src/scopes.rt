//! The scopes that are open at a place.
ghost use Rattle.std.specs.Prelude.{◌≡◌, ◌≢◌, [], ◌∷◌, Ok, Err, OnOk, IfErr, reverse};
ghost use Rattle.sc_types.specs.Declarations.{is_pi, or_pi};
ghost use Rattle.sc_types.specs.Scopes.{kind_in, declared, left};

use crate::fault::TypeFault;
use crate::names::Names;
use crate::scope::Scope;
use sc_base::Text;
use sc_syntax::{Name, NameKind, NumSort};
use std::alloc::Global;
use std::marker::Model;
use std::mem;

/// The open scopes with their names; one is always open. `M_PI` is a double outside every scope.
#[derive(Drop)]
pub(crate) struct Scopes {
    alloc: Global,
    innermost: Scope,
    outer: Vec<Scope>,
}

impl Model for Scopes {
    ghost use Rattle.std.specs.Prelude.{◌∷◌, reverse};
    ghost use Rattle.sc_types.specs.Scopes.{Stack};

    ghost Value = { Stack };

    ghost view = { λ s. s.innermost ∷ reverse s.outer.items };
}

impl Scopes {
    /// One scope without names. Takes no memory.
    pub(crate) fn new(alloc: Global) -> Scopes
        ensures { result ≡ [] ∷ [] }
    {
        Scopes {
            alloc,
            innermost: Scope::new(alloc),
            outer: Vec::new(alloc),
        }
    }

    /// Opens a scope without names inside the others. After `Memory` the scopes are of no use.
    pub(crate) fn enter(&mut self) -> Result<(), TypeFault>
        ensures ok { OnOk result (self.new ≡ [] ∷ self.old) }
        ensures err { IfErr result (λ f. f ≡ TypeFault.Memory) }
    {
        let inner = mem::replace(&mut self.innermost, Scope::new(self.alloc));
        match self.outer.push(inner) {
            Ok(()) => Ok(()),
            Err(_) => Err(TypeFault::Memory),
        }
    }

    /// Drops the innermost scope with its names, where there is a scope around it.
    pub(crate) fn leave(&mut self)
        ensures { self.new ≡ left self.old }
    {
        if let Some(scope) = self.outer.pop() {
            self.innermost = scope;
        }
    }

    /// Declares a name in the innermost scope: `Redefined` where that scope has it.
    pub(crate) fn declare(&mut self, name: &Name, kind: NameKind) -> Result<(), TypeFault>
        ensures ok { OnOk result (declared self.old name.now kind ≡ Ok self.new) }
        ensures err { IfErr result (λ f. f ≢ TypeFault.Memory → declared self.old name.now kind ≡ Err f) }
    {
        self.innermost.declare(self.alloc, name, kind)?;
        Ok(())
    }

    /// What a name stands for in the innermost scope that has it.
    pub(crate) fn declared_kind(&self, name: &Text) -> Option<NameKind>
        ensures { result ≡ kind_in self.now name.now }
    {
        match self.innermost.get(name) {
            Some(kind) => Some(kind),
            None => kind_around(self.outer.as_slice(), name),
        }
    }
}

fn kind_around(outer: &[Scope], name: &Text) -> Option<NameKind>
    ensures { result ≡ kind_in (reverse outer.now) name.now }
{
    let mut depth = outer.len();
    while depth > 0 {
        depth -= 1;
        if let Some(kind) = outer[depth].get(name) {
            return Some(kind);
        }
    }
    None
}

pub(crate) fn is_pi(name: &Text) -> bool
    ensures { result ≡ is_pi name.now }
{
    name.as_bytes() == b"M_PI".as_slice()
}

/// The kind that was found, or else that of `M_PI`.
fn or_pi(name: &Text, kind: Option<NameKind>) -> Option<NameKind>
    ensures { result ≡ or_pi name.now kind }
{
    match kind {
        Some(kind) => Some(kind),
        None => {
            if is_pi(name) {
                Some(NameKind::Number(NumSort::Double))
            } else {
                None
            }
        }
    }
}

impl Names for Scopes {
    ghost use Rattle.sc_types.specs.Scopes.{kinds_in};

    ghost kinds = { kinds_in };

    fn kind(&self, name: &Text) -> Option<NameKind> {
        or_pi(name, self.declared_kind(name))
    }
}
