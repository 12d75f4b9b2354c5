//! What is true of the gates of all classical functions.
ghost use Rattle.std.specs.Prelude.{◌≡◌};
ghost use Rattle.sc_syntax.specs.declared.WordFn.{WordFn};
ghost use Rattle.sc_word.specs.Fits.{IsTypedFn};
ghost use Rattle.sc_word.specs.Pure.{pure_word_fn};
ghost use Rattle.sc_word.specs.Scratch.{fn_scratch};
ghost use Rattle.sc_word.specs.Typed.{TypedWords, TypesFn};
ghost use Rattle.sc_rev.specs.BitBodies.{gates_in, reversible_body};
ghost use Rattle.sc_rev.specs.Functions.{gates_of};
ghost use Rattle.sc_rev.specs.Reversible.{IsReversible, AreOwnGates, RunsOnPlacedWires};

/// For every value of the words and of the output, and zero scratch, the gates of a well typed function xor its value into the
/// output, leave the words, and return the scratch to zero.
pub fn values_are_xored()
    ensures { (t : TypedWords) → IsTypedFn t → IsReversible t }
{}

/// Each gate of a well typed function is an X, a CNOT or a Toffoli on distinct qubits of the function's own.
pub fn gates_are_own()
    ensures { (t : TypedWords) → IsTypedFn t → AreOwnGates t }
{}

/// The gates among the items of a function's body are those of the function.
pub fn bodies_have_the_gates()
    ensures { (t : TypedWords) → gates_in (reversible_body t).items ≡ gates_of t }
{}

/// Where a well typed function's qubits stand for distinct wires, of which the scratch is zero, the gates on those wires xor the
/// function's value into the output, and leave every other wire.
pub fn placed_gates_xor()
    ensures { (t : TypedWords) → IsTypedFn t → RunsOnPlacedWires t }
{}

/// Functions that differ only in memory addresses have the same gates and as many scratch qubits.
pub fn alike_functions_have_one_body()
    ensures gates { (f g : WordFn) (t u : TypedWords) → pure_word_fn f ≡ pure_word_fn g → TypesFn f t → TypesFn g u → gates_of t ≡ gates_of u }
    ensures scratch { (f g : WordFn) (t u : TypedWords) → pure_word_fn f ≡ pure_word_fn g → TypesFn f t → TypesFn g u → fn_scratch t ≡ fn_scratch u }
{}
