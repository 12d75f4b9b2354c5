//! Laws of trees: each function has its law as contract, and does nothing.
ghost use Rattle.sc_parse.specs.Texts.{HasOneFormedTree};

/// A text stands for one tree at most, wherever it lies in memory, and that tree is formed.
pub fn one_formed_tree()
    ensures { HasOneFormedTree }
{}
