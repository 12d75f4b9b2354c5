//! The parser: tokens to trees.
#![tactic(auto)]

mod expr;
mod function;
pub mod laws;
mod make;
mod make_modules;
mod make_stmts;
mod make_words;
mod module;
mod operators;
mod reader;
mod source;
mod starts;
mod stmt;
mod terminal;
mod word;

pub use source::{ParseFault, parse};
