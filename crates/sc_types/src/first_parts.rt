//! The parts of a source by their names.
ghost use Rattle.std.specs.Prelude.{◌≡◌, ◌≤◌, ◌+◌, [], ◌∷◌, ◌++◌, OnOk, IfOk, IfErr, map, length, replicate, slice_get};
ghost use Rattle.std.specs.Option.{option_copied};
ghost use Rattle.sc_types.specs.Positions.{first_at, is_position};
ghost use Rattle.sc_types.specs.Sources.{name_of as name_of_part};
ghost use Rattle.sc_types.specs.Statements.{param_want as wanted, part_wants as wanted_by};
ghost use Rattle.sc_syntax.specs.Alike.{pure_sort, pure_param, pure_part};
ghost use Rattle.sc_syntax.specs.FormedWords.{max_items};
ghost use Rattle.sc_types.specs.FirstParts.{has_name, FindsFirst};
ghost use Rattle.sc_types.specs.Tables.{with_new};

use crate::definitions::Definitions;
use crate::fault::TypeFault;
use crate::want::Want;
use sc_base::{List, NameMap, Text};
use sc_syntax::{Name, Param, Part, Sort, WordParam};
use std::alloc::Global;
use std::marker::Model;

/// The parts of a source, with the first of each name and what each of them takes.
#[derive(Drop)]
pub(crate) struct FirstParts<'a> {
    parts: &'a [Part],
    first: &'a NameMap<u32>,
    wants: List<List<Want>>,
}

impl<'a> Model for FirstParts<'a> {
    ghost use Rattle.std.specs.Prelude.{List as Listed};
    ghost use Rattle.std.specs.Coded.{coded_list};
    ghost use Rattle.sc_syntax.specs.declared.Part.{Part as PartOf};
    ghost use Rattle.sc_syntax.specs.contracts.Part as part_type;
    ghost use Rattle.sc_types.specs.FirstParts.{AreFirst};

    ghost Value = { Listed PartOf };

    ghost coded = { coded_list part_type.the_row.coded };

    ghost view = { λ f. f.parts.now };

    ghost invariant = { λ f. AreFirst f.parts.now f.first.now f.wants };
}

impl<'a> FirstParts<'a> {
    /// Takes the first position of each name.
    pub(crate) fn new(
        alloc: Global,
        parts: &'a [Part],
        first: &'a NameMap<u32>,
    ) -> Result<FirstParts<'a>, TypeFault>
        requires { FindsFirst parts.now first.now }
        ensures ok { IfOk result (λ f. f ≡ parts.now) }
        ensures err { IfErr result (λ f. f ≡ TypeFault.Memory) }
    {
        let wants = all_wants(alloc, parts)?;
        Ok(FirstParts {
            parts,
            first,
            wants,
        })
    }

    /// Whether the first part of the name stands at the position.
    pub(crate) fn is_first(&self, name: &Text, position: usize) -> bool
        ensures { result ≡ is_position position (first_at (has_name name.now) self.now) }
    {
        match self.first.get(name) {
            Some(first) => *first as usize == position,
            None => false,
        }
    }
}

fn wants_at(wants: &List<List<Want>>, position: usize) -> Option<&[Want]>
    ensures { option_copied result ≡ slice_get wants.now position }
{
    match wants.get(position) {
        Some(wants) => Some(wants.as_slice()),
        None => None,
    }
}

impl<'a> Definitions for FirstParts<'a> {
    ghost parts = { λ f. map pure_part f };

    fn wants(&self, name: &Text) -> Option<&[Want]> {
        match self.first.get(name) {
            Some(first) => wants_at(&self.wants, *first as usize),
            None => None,
        }
    }
}

pub(crate) fn name_of(part: &Part) -> &Name
    ensures { result.now ≡ name_of_part (pure_part part.now) }
{
    match part {
        Part::Module(module) => &module.name,
        Part::Words(function) => &function.name,
    }
}

/// Puts a value behind the last one.
pub(crate) fn push<T: Drop>(list: &mut List<T>, value: T) -> Result<(), TypeFault>
    ensures ok { OnOk result (list.new ≡ list.old ++ value ∷ []) }
    ensures err { IfErr result (λ f. f ≡ TypeFault.Memory) }
{
    match list.push(value) {
        Ok(()) => Ok(()),
        Err(_) => Err(TypeFault::Memory),
    }
}

fn param_want(sort: &Sort) -> Want
    ensures { result ≡ wanted (pure_sort sort.now) }
{
    match sort {
        Sort::One(class) => Want::OneWire(*class),
        Sort::Many(class, _) => Want::ManyWires(*class),
        Sort::Int => Want::AnInt,
        Sort::Double => Want::ADouble,
    }
}

fn params_wants(alloc: Global, params: &[Param]) -> Result<List<Want>, TypeFault>
    ensures ok { IfOk result (λ w. w ≡ map (λ p. wanted p.sort) (map pure_param params.now)) }
    ensures err { IfErr result (λ f. f ≡ TypeFault.Memory) }
{
    let mut wants = List::new(alloc);
    for param in params {
        push(&mut wants, param_want(&param.sort))?;
    }
    Ok(wants)
}

/// A classical function takes its words, and then its output.
fn words_wants(alloc: Global, params: &[WordParam]) -> Result<List<Want>, TypeFault>
    ensures ok { IfOk result (λ w. w ≡ replicate (length params.now + 1) Want.Word) }
    ensures err { IfErr result (λ f. f ≡ TypeFault.Memory) }
{
    let mut wants = List::new(alloc);
    for _param in params {
        push(&mut wants, Want::Word)?;
    }
    push(&mut wants, Want::Word)?;
    Ok(wants)
}

fn part_wants(alloc: Global, part: &Part) -> Result<List<Want>, TypeFault>
    ensures ok { IfOk result (λ w. w ≡ wanted_by (pure_part part.now)) }
    ensures err { IfErr result (λ f. f ≡ TypeFault.Memory) }
{
    match part {
        Part::Module(module) => params_wants(alloc, module.params.as_slice()),
        Part::Words(function) => words_wants(alloc, function.params.as_slice()),
    }
}

/// What each part takes.
fn all_wants(alloc: Global, parts: &[Part]) -> Result<List<List<Want>>, TypeFault>
    ensures ok { IfOk result (λ w. w ≡ map (λ p. wanted_by (pure_part p)) parts.now) }
    ensures err { IfErr result (λ f. f ≡ TypeFault.Memory) }
{
    let mut wants = List::new(alloc);
    for part in parts {
        push(&mut wants, part_wants(alloc, part)?)?;
    }
    Ok(wants)
}

/// Puts the position under a name that has none.
fn put_new(
    alloc: Global,
    first: &mut NameMap<u32>,
    name: &Text,
    position: u32,
) -> Result<(), TypeFault>
    ensures ok { OnOk result (first.new ≡ with_new first.old name.now position) }
    ensures err { IfErr result (λ f. f ≡ TypeFault.Memory) }
{
    match first.place(name) {
        Some(_) => Ok(()),
        None => {
            first.push(alloc, name, position)?;
            Ok(())
        }
    }
}

/// For each name the position of the first part of that name.
pub(crate) fn first_positions(alloc: Global, parts: &[Part]) -> Result<NameMap<u32>, TypeFault>
    requires { length parts.now ≤ max_items }
    ensures ok { IfOk result (FindsFirst parts.now) }
    ensures err { IfErr result (λ f. f ≡ TypeFault.Memory) }
{
    let mut first = NameMap::new(alloc);
    for (i, part) in parts.iter().enumerate() {
        put_new(alloc, &mut first, &name_of(part).text, i as u32)?;
    }
    Ok(first)
}
