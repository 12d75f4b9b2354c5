//! Laws of kinds and values: each function has its law as contract, and does nothing.
ghost use Rattle.sc_value.specs.Agreement.{HasKindOfItsNames, HasValueOfItsNames, UsesNumbers, HasKindOfItsValues, HaveOneValue};
ghost use Rattle.sc_value.specs.Ranges.{FormedHoldWritten, ValuesStayInRange};
ghost use Rattle.sc_value.specs.Scopes.{SetsKeepKinds};

/// The kind and the value of an expression depend on the names in it alone.
pub fn names_decide()
    ensures kind { HasKindOfItsNames }
    ensures value { HasValueOfItsNames }
{}

/// An expression that is well typed as a number uses names of numbers alone, so that it has the same kind for their
/// values, also where a wire hides a number that has a value.
pub fn numbers_decide()
    ensures uses { UsesNumbers }
    ensures kind { HasKindOfItsValues }
{}

/// Expressions that are alike have one value.
pub fn alike_values()
    ensures { HaveOneValue }
{}

/// Where the names of a formed expression have values in range, the expression has a value in range.
pub fn ranges_last()
    ensures written { FormedHoldWritten }
    ensures ranges { ValuesStayInRange }
{}

/// Where a name is set to a value of the kind that it had, every name keeps its kind.
pub fn sets_keep_kinds()
    ensures { SetsKeepKinds }
{}
