//! Parts of sources from their parts.
ghost use Rattle.std.specs.Prelude.{◌≡◌, [], ◌∷◌};
ghost use Rattle.sc_base.specs.declared.Place.{Place};
ghost use Rattle.sc_parse.specs.Derives.{Builds};
ghost use Rattle.sc_parse.specs.Form as symbol;
ghost use Rattle.sc_parse.specs.Trees.{name as name_part, num as num_part, param as tree};

use sc_syntax::{Name, NumSort, Param, Sort};

/// A parameter that is a number.
pub fn number_param(name: Name, number: NumSort) -> Param
    ensures { (p : Place) → Builds symbol.Param (num_part number p ∷ name_part name ∷ []) (tree result) }
{
    match number {
        NumSort::Int => Param {
            name,
            sort: Sort::Int,
        },
        NumSort::Double => Param {
            name,
            sort: Sort::Double,
        },
    }
}
