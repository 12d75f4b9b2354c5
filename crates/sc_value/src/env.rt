//! The values of names, scope by scope.
ghost use Rattle.std.specs.Prelude.{◌≡◌, ◌<◌, [], ◌∷◌, length, drop, OnOk, OnErr};
ghost use Rattle.std.specs.FinMap as map;
ghost use Rattle.sc_value.specs.Scopes.{constant, value_of_name, with_declared, with_set};

use crate::Value;
use crate::scope::Scope;
use sc_base::{Fixed, Memory, Text};
use std::alloc::Global;
use std::marker::Model;

/// The names that are known, scope by scope, with their values. There is always one scope more than were
/// entered and not left. `M_PI` is known outside every scope, as 3141592653590 units of 10^-12.
#[derive(Drop)]
pub struct Env {
    alloc: Global,
    outermost: Scope,
    entered: Vec<Scope>,
}

impl Model for Env {
    ghost use Rattle.std.specs.Prelude.{[], ◌∷◌, ◌++◌, reverse};
    ghost use Rattle.std.specs.FinMap as map;
    ghost use Rattle.std.specs.Coded.{coded_list, coded_ℕ};
    ghost use Rattle.sc_value.specs.contracts.Value as number;
    ghost use Rattle.sc_value.specs.Scopes.{Scopes};

    ghost Value = { Scopes };

    ghost coded = { coded_list (map.code (coded_list coded_ℕ) number.the_row.coded) };

    ghost view = { λ e. reverse e.entered.items ++ e.outermost ∷ [] };
}

impl Env {
    /// One scope without names. Takes no memory.
    pub fn new(alloc: Global) -> Env
        ensures { result ≡ map.empty ∷ [] }
    {
        Env {
            alloc,
            outermost: Scope::new(alloc),
            entered: Vec::new(alloc),
        }
    }

    /// Begins a scope without names inside the others. After `Memory` nothing is changed.
    pub fn enter(&mut self) -> Result<(), Memory>
        ensures ok { OnOk result (self.new ≡ map.empty ∷ self.old) }
        ensures err { OnErr result (self.new ≡ self.old) }
    {
        self.entered.push(Scope::new(self.alloc))?;
        Ok(())
    }

    /// Drops the innermost scope with its names.
    pub fn leave(&mut self)
        requires { 1 < length self.old }
        ensures { self.new ≡ drop 1 self.old }
    {
        let _ = self.entered.pop();
    }

    /// Declares a name in the innermost scope. Where that scope has the name already, its value is replaced.
    /// After `Memory` nothing is changed.
    pub fn declare(&mut self, name: &Text, value: Value) -> Result<(), Memory>
        ensures ok { OnOk result (self.new ≡ with_declared self.old name.now value) }
        ensures err { OnErr result (self.new ≡ self.old) }
        // There is always a scope to declare it in.
        ensures scoped { 0 < length self.old }
    {
        match self.entered.last_mut() {
            Some(scope) => scope.declare(self.alloc, name.as_bytes(), value),
            None => self.outermost.declare(self.alloc, name.as_bytes(), value),
        }
    }

    /// Gives a name another value, in the innermost scope that declares it. Every other name, also one of the
    /// same spelling further out, keeps its value; a name that no scope declares changes nothing. Takes no memory.
    pub fn set(&mut self, name: &Text, value: Value)
        ensures { self.new ≡ with_set self.old name.now value }
    {
        let bytes = name.as_bytes();
        let mut depth = self.entered.len();
        while depth > 0 {
            depth -= 1;
            if self.entered[depth].get(bytes).is_some() {
                self.entered[depth].set(bytes, value);
                return;
            }
        }
        self.outermost.set(bytes, value);
    }

    /// The value of a name in the innermost scope that declares it; `M_PI` where no scope declares that.
    pub fn get(&self, name: &Text) -> Option<Value>
        ensures value { result ≡ value_of_name self.now name.now }
    {
        let bytes = name.as_bytes();
        let mut depth = self.entered.len();
        while depth > 0 {
            depth -= 1;
            if let Some(value) = self.entered[depth].get(bytes) {
                return Some(value);
            }
        }
        self.outermost.get(bytes).or(constant(bytes))
    }
}

fn constant(name: &[u8]) -> Option<Value>
    ensures { result ≡ constant name.now }
{
    if name == b"M_PI".as_slice() {
        Some(Value::Double(Fixed(3_141_592_653_590)))
    } else {
        None
    }
}
