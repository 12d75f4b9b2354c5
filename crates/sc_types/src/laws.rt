//! What holds of every well typed source.
ghost use Rattle.sc_types.specs.Typing.{HaveTypedFunctions};

/// Every formed source in which no check fails has a typed function for each of its classical functions, and
/// a module `main`.
pub fn well_typed_sources_have_typed_functions()
    ensures { HaveTypedFunctions }
{}
