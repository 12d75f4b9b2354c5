//! Checked sources.
ghost use Rattle.std.specs.Prelude.{◌≡◌, Some, None, IsSomeAnd, MatchOption};
ghost use Rattle.std.specs.Option.{option_copied};
ghost use Rattle.sc_syntax.specs.Formed.{IsFormedSource};
ghost use Rattle.sc_word.specs.Typed.{TypesFn};
ghost use Rattle.sc_types.specs.Accepted.{IsAccepted};
ghost use Rattle.sc_types.specs.FirstParts.{FindsFirst};
ghost use Rattle.sc_types.specs.Typing.{IsWellTyped, main_at, part_at, HasMain, HaveDistinctNames, function_at, typed_at};

use sc_base::{List, NameMap, Text};
use sc_syntax::Source;
use sc_word::TypedFn;
use std::marker::Model;

/// A source that is formed and well typed. Contracts see the source, and for each of its parts the typed
/// function where the part is a classical function.
#[derive(Drop)]
pub struct Checked {
    source: Source,
    words: List<Option<TypedFn>>,
    first: NameMap<u32>,
    main: u32,
}

impl Model for Checked {
    ghost use Rattle.sc_types.specs.FirstParts.{FindsFirst};
    ghost use Rattle.sc_types.specs.Typing.{TypedSource, typed_source, typed_source_code, IsChecked};

    ghost Value = { TypedSource };

    ghost coded = { typed_source_code };

    ghost view = { λ c. typed_source c.source c.words };

    ghost invariant = { λ c. IsChecked (typed_source c.source c.words) c.main × FindsFirst c.source.parts c.first };
}

impl Checked {
    pub(crate) fn new(
        source: Source,
        words: List<Option<TypedFn>>,
        first: NameMap<u32>,
        main: u32,
    ) -> Checked
        requires { Rattle.sc_types.specs.Typing.IsChecked (Rattle.sc_types.specs.Typing.typed_source source words) main × FindsFirst source.parts first }
        ensures { result ≡ Rattle.sc_types.specs.Typing.typed_source source words }
    {
        Checked {
            source,
            words,
            first,
            main,
        }
    }

    /// The source that was handed in. In it every expression is of the kind that its place needs, every call fits
    /// what it calls in number and kinds, every operand is a wire of its class and shape, and every name is
    /// declared once in its scope.
    pub fn source(&self) -> &Source
        ensures value { result.now ≡ self.now.source }
        ensures formed { IsFormedSource self.now.source }
        ensures well_typed { IsWellTyped self.now.source }
        ensures accepted { IsAccepted self.now }
        ensures distinct { HaveDistinctNames self.now.source.parts }
    {
        &self.source
    }

    /// The position of its module `main` without parameters among the parts, from 0.
    pub fn main(&self) -> u32
        ensures first { main_at self.now.source ≡ Some result }
        ensures module { HasMain self.now.source result }
    {
        self.main
    }

    /// The position of the module or classical function of a name among the parts, from 0; `None` exactly where
    /// the source has none of that name.
    pub fn find(&self, name: &Text) -> Option<u32>
        ensures { result ≡ part_at self.now.source name.now }
    {
        self.first.get(name).copied()
    }

    /// The typed function of the part at a position, from 0; `None` exactly where there is no such part or
    /// it is a module.
    pub fn word(&self, part: u32) -> Option<&TypedFn>
        ensures value { option_copied result ≡ typed_at self.now.words part }
        ensures typed { MatchOption (function_at self.now.source part) (option_copied result ≡ None) (λ f. IsSomeAnd (option_copied result) (TypesFn f)) }
    {
        match self.words.get(part as usize) {
            Some(word) => word.as_ref(),
            None => None,
        }
    }
}
