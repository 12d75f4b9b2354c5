//! What is kept of a function that is well typed.
ghost use Rattle.std.specs.Prelude.{◌≡◌, length, map, option_map, slice_get};
ghost use Rattle.std.specs.Option.{option_copied};
ghost use Rattle.sc_word.specs.Pure.{pure_typed_expr};
ghost use Rattle.sc_word.specs.Fits.{IsTypedFn};
ghost use Rattle.sc_word.specs.Scratch.{fn_scratch, fn_wires};
ghost use Rattle.sc_word.specs.Functions.{typed_words};

use crate::tree::TypedExpr;
use std::marker::Model;

/// A classical function whose names are known and whose widths fit.
#[derive(Drop)]
pub struct TypedFn {
    params: Vec<u32>,
    binds: Vec<TypedExpr>,
    returned: TypedExpr,
    scratch: u64,
}

impl Model for TypedFn {
    ghost use Rattle.std.specs.Prelude.{map};
    ghost use Rattle.sc_word.specs.Pure.{pure_typed_expr};
    ghost use Rattle.sc_word.specs.Typed.{TypedWords};
    ghost use Rattle.sc_word.specs.Functions.{typed_words, typed_words_code, IsCounted};

    ghost Value = { TypedWords };

    ghost coded = { typed_words_code };

    ghost view = { λ f. typed_words f.params.items (map pure_typed_expr f.binds.items) (pure_typed_expr f.returned) };

    ghost invariant = { λ f. IsCounted (typed_words f.params.items (map pure_typed_expr f.binds.items) (pure_typed_expr f.returned)) f.scratch };
}

impl TypedFn {
    pub(crate) fn new(
        params: Vec<u32>,
        binds: Vec<TypedExpr>,
        returned: TypedExpr,
        scratch: u64,
    ) -> TypedFn
        requires { Rattle.sc_word.specs.Functions.IsCounted (typed_words params.items (map pure_typed_expr binds.items) (pure_typed_expr returned)) scratch }
        ensures { result ≡ typed_words params.items (map pure_typed_expr binds.items) (pure_typed_expr returned) }
    {
        TypedFn {
            params,
            binds,
            returned,
            scratch,
        }
    }

    /// The number of parameters.
    pub fn params(&self) -> u32
        ensures { result ≡ length self.now.params }
    {
        self.params.len() as u32
    }

    /// The width of parameter `i`, from 0; `None` exactly where there is no such parameter.
    pub fn param_width(&self, i: u32) -> Option<u32>
        ensures width { result ≡ slice_get self.now.params i }
    {
        self.params.get(i as usize).copied()
    }

    /// The width of the result.
    pub fn width_of(&self) -> u32
        ensures { result ≡ self.now.returned.width }
    {
        self.returned.width
    }

    /// The number of scratch qubits that its gates use.
    pub fn scratch(&self) -> u64
        ensures { result ≡ fn_scratch self.now }
    {
        self.scratch
    }

    /// The number of wires of its gates: those of the parameters, of the output, and the scratch.
    pub fn wires(&self) -> u64
        ensures { result ≡ fn_wires self.now }
    {
        let mut count = u64::from(self.returned.width) + self.scratch;
        for width in self.params.as_slice() {
            count += u64::from(*width);
        }
        count
    }

    /// The widths of the parameters in order.
    pub fn widths(&self) -> &[u32]
        ensures { result.now ≡ self.now.params }
    {
        self.params.as_slice()
    }

    /// The expressions of the bindings in order.
    pub fn bindings(&self) -> &[TypedExpr]
        ensures { map pure_typed_expr result.now ≡ self.now.binds }
    {
        self.binds.as_slice()
    }

    /// The number of bindings.
    pub fn binds(&self) -> u32
        ensures { result ≡ length self.now.binds }
    {
        self.binds.len() as u32
    }

    /// The expression of binding `i`, from 0; `None` exactly where there is no such binding.
    pub fn bind(&self, i: u32) -> Option<&TypedExpr>
        ensures expression { option_map pure_typed_expr (option_copied result) ≡ slice_get self.now.binds i }
    {
        self.binds.get(i as usize)
    }

    /// The returned expression. Names and widths fit throughout.
    pub fn returned(&self) -> &TypedExpr
        ensures value { pure_typed_expr result.now ≡ self.now.returned }
        ensures well_typed { IsTypedFn self.now }
    {
        &self.returned
    }
}
