//! What holds of every typed function.
ghost use Rattle.sc_word.specs.Fits.{WidthsFit};
ghost use Rattle.sc_word.specs.Once.{HasOneTyping, HaveTypings};
ghost use Rattle.sc_word.specs.Value.{ValuesFit};

/// The value of a well typed function, for values of its parameters that fit their widths, is a number of its width.
pub fn values_fit()
    ensures { ValuesFit }
{}

/// Each part of a well typed expression, and each binding of a well typed function, has a width of 1 to 64.
pub fn widths_fit()
    ensures { WidthsFit }
{}

/// Functions that differ only in memory addresses have one fault, or none, and at most one typed function.
pub fn one_typing()
    ensures { HasOneTyping }
{}

/// A classical function in which no check fails has a typed function.
pub fn well_typed_functions_have_typings()
    ensures { HaveTypings }
{}
