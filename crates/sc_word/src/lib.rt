//! Classical functions: names, widths and typed trees.
#![tactic(auto)]

mod chain;
mod form;
mod function;
mod laws;
mod operand;
mod rules;
mod scratch;
mod tree;
mod typed_fn;
mod walk;
mod words;

pub use function::typed;
pub use laws::{one_typing, values_fit, well_typed_functions_have_typings, widths_fit};
pub use operand::Form;
pub use tree::{TypedExpr, TypedLink, TypedNode, WordFault};
pub use typed_fn::TypedFn;
