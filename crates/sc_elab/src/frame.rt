//! A body that is being run, in its own wire numbers.
ghost use Rattle.std.specs.Prelude.{◌≡◌, ◌<◌, length, OnOk};
ghost use Rattle.sc_elab.specs.Frames.{view, names_of};
ghost use Rattle.sc_elab.specs.Spans.{span_wires};
ghost use Rattle.sc_meaning.specs.States.{wires_named, with_wires, with_scope, without_scope};

use crate::span::Span;
use sc_base::{Class, Memory, NameMap, Text};
use sc_deck::Body;
use sc_value::Env;
use std::alloc::Global;

/// A body that is being run: its numbers and wires by name, scope by scope, the steps that it has left, and its items.
#[derive(Drop)]
pub(crate) struct Frame {
    pub(crate) numbers: Env,
    /// The wires of names, scope by scope, the innermost scope last.
    pub(crate) wires: Vec<NameMap<Span>>,
    pub(crate) steps: u32,
    pub(crate) body: Body,
}

impl Frame {
    /// Begins a scope without names.
    pub(crate) fn enter(&mut self, alloc: Global) -> Result<(), Memory>
        ensures view { OnOk result (view self.new ≡ with_scope (view self.old)) }
        ensures body { OnOk result (self.new.body ≡ self.old.body) }
    {
        self.numbers.enter()?;
        self.wires.push(NameMap::new(alloc))?;
        Ok(())
    }

    /// Leaves the innermost scope.
    pub(crate) fn leave(&mut self)
        requires { 1 < length self.old.numbers }
        ensures view { view self.new ≡ without_scope (view self.old) }
        ensures body { self.new.body ≡ self.old.body }
    {
        self.numbers.leave();
        let _ = self.wires.pop();
    }

    /// The wires of a name in the innermost scope that declares it as wires, and none where no scope does.
    #[tactic(auto, using(crate::proofs::Names::named_here, crate::proofs::Names::named_outside))]
    pub(crate) fn named(&self, name: &Text) -> Span
        ensures { span_wires result ≡ wires_named (names_of self.now) name.now }
    {
        let mut depth = self.wires.len();
        while depth > 0 {
            depth -= 1;
            if let Some(span) = self.wires[depth].get(name) {
                return *span;
            }
        }
        Span {
            class: Class::Q,
            first: 0,
            len: 0,
        }
    }

    /// Declares a name of wires in the innermost scope.
    pub(crate) fn declare_wires(
        &mut self,
        alloc: Global,
        name: &Text,
        span: Span,
    ) -> Result<(), Memory>
        ensures names { OnOk result (names_of self.new ≡ with_wires (names_of self.old) name.now (span_wires span)) }
        ensures others { OnOk result (self.new ≡ record self.old { wires = self.new.wires }) }
    {
        match self.wires.last_mut() {
            Some(scope) => scope.insert(alloc, name, span),
            None => Ok(()),
        }
    }
}
