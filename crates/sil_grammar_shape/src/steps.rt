//! The steps of a leftmost derivation.

use sil_grammar_tables::{Production, Symbol};

/// One step of a leftmost derivation: the next token is taken, or the part that stands first gives way to what a
/// production writes.
#[derive(Clone, Copy)]
pub enum Step {
    Take,
    Expand(Production),
}

/// A derivation of a module that has come so far.
#[derive(Drop)]
pub struct Front {
    pub steps: Vec<Step>,
    /// What is still to be written: the symbol that stands first is the last one here.
    pub left: Vec<Symbol>,
}
