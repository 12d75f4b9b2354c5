//! Values of expressions: numbers, scopes of names, and exact evaluation.
#![tactic(auto)]

mod env;
mod expressions;
pub mod laws;
mod numbers;
mod scope;

pub use env::Env;
pub use expressions::eval;
pub use numbers::{apply, is_true, to_double};
use sc_base::{Fixed, Place};

/// A number of the language: an `int`, or a `double` in units of 10^-12.
#[derive(Clone, Copy, Debug, PartialEq, Eq)]
pub enum Value {
    Int(i64),
    Double(Fixed),
}

/// Why an expression has no value.
#[derive(Clone, Copy, Debug, PartialEq, Eq)]
pub enum EvalFault {
    /// A result or a converted number is out of range, or a shift is not by 0 to 63.
    Overflow(Place),
    /// The divisor is zero.
    DivZero(Place),
}
