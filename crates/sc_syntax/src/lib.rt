//! Tokens and trees of the language.
#![tactic(auto)]

mod adding;
mod bytes;
mod define;
mod fault;
mod kind;
pub mod laws;
mod lexing;
mod piece;
mod reading;
mod token;
mod tree;

pub use fault::LexFault;
pub use kind::NameKind;
pub use lexing::lex;
pub use token::{Mark, Token, TokenSort, Tokens, Word};
pub use tree::{
    Act, BinOp, Bind, Call, Callee, Decl, Expr, Init, Link, Measure, Module, Name, Node, NumSort,
    Operand, Param, Part, Set, SetOp, ShiftLink, Sort, Source, Stmt, UnOp, Width, WordExpr, WordFn,
    WordLink, WordNode, WordOp, WordParam,
};
