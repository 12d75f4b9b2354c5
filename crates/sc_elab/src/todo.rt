//! What a body still has to do.
use sc_base::Place;
use sc_deck::Key;
use sc_gate::Wire;
use sc_syntax::{Expr, Stmt};

/// The rounds of a loop: where it stands, its condition, its body, and what is done after each round.
#[derive(Clone, Copy)]
pub(crate) struct Rounds<'a> {
    pub(crate) at: Place,
    pub(crate) test: Option<&'a Expr>,
    pub(crate) body: &'a Stmt,
    pub(crate) advance: Option<&'a Stmt>,
}

/// A part of a body that is still to do.
#[derive(Clone, Copy)]
pub(crate) enum Todo<'a> {
    /// A statement.
    Do(&'a Stmt),
    /// The rounds of a loop that are still to come.
    Loop(Rounds<'a>),
    /// Statements one after another.
    Rest(&'a [Stmt]),
    /// The innermost scope is left.
    Leave,
}

/// A call that a body has come to: the callee's key, and the wires that are passed.
#[derive(Drop)]
pub(crate) struct Request {
    pub(crate) key: Key,
    pub(crate) wires: Vec<Wire>,
}
