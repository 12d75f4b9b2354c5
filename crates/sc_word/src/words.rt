//! The words that are known at a place of a classical function.
ghost use Rattle.std.specs.Prelude.{◌≡◌, ◌<◌, [], ◌∷◌, ◌++◌, length, None, OnOk, IfErr, IfSome, option_map};
ghost use Rattle.std.specs.Result.{result_err};
ghost use Rattle.sc_word.specs.Words.{number_of, width_at, named};
ghost use Rattle.sc_word.specs.Checks.{first_fault, is_new};

use crate::tree::WordFault;
use sc_base::{NameMap, Text};
use sc_syntax::Name;
use std::alloc::Global;
use std::marker::Model;

/// Names and widths in the order in which they were declared. The number of a word is its place.
#[derive(Drop)]
pub(crate) struct Words {
    widths: NameMap<u32>,
}

impl Model for Words {
    ghost use Rattle.std.specs.Prelude.{List, map};
    ghost use Rattle.sc_word.specs.Words.{Named, named_entry};

    ghost Value = { List Named };

    ghost view = { λ w. map named_entry w.widths };
}

/// A word's number and width.
#[derive(Clone, Copy, Debug, PartialEq, Eq)]
pub(crate) struct Known {
    pub number: usize,
    pub width: u32,
}

impl Words {
    pub fn new(alloc: Global) -> Words
        ensures { result ≡ [] }
    {
        Words {
            widths: NameMap::new(alloc),
        }
    }

    pub fn find(&self, name: &Text) -> Option<Known>
        ensures number { option_map (λ k. k.number) result ≡ number_of self.now name.now }
        ensures width { IfSome result (λ k. k.width ≡ width_at self.now k.number) }
        ensures within { IfSome result (λ k. k.number < length self.now) }
    {
        let number = self.widths.place(name)?;
        let width = self.widths.entries()[number].1;
        Some(Known { number, width })
    }

    pub fn is_new(&self, name: &Name) -> Result<(), WordFault>
        ensures { result_err result ≡ first_fault (is_new self.now name.now ∷ []) }
    {
        match self.find(&name.text) {
            Some(_) => Err(WordFault::Redefined(name.place)),
            None => Ok(()),
        }
    }

    /// Declares a new name. Takes memory for a copy of its text.
    pub fn push(&mut self, alloc: Global, name: &Text, width: u32) -> Result<(), WordFault>
        requires { number_of self.old name.now ≡ None }
        ensures ok { OnOk result (self.new ≡ self.old ++ named name.now width ∷ []) }
        ensures err { IfErr result (λ f. f ≡ WordFault.Memory) }
    {
        self.widths.push(alloc, name, width)?;
        Ok(())
    }
}
