//! What a production writes, put on a stack or counted.

ghost use Rattle.std.specs.Prelude.{◌≡◌, ◌++◌, length, reverse, OnOk};
ghost use Rattle.sil_grammar_tables.specs.Grammar.{body};

use crate::grammar::{Production, Symbol};
use crate::rows::{push_row, push_symbols, row_length};
use crate::tables::fixed_body;
use std::alloc::AllocError;

/// Puts the body of a production on the stack, its first symbol on top.
#[inline(always)]
#[tactic(auto, unfolding(crate::specs::Grammar::body))]
pub fn push_body(stack: &mut Vec<Symbol>, production: Production) -> Result<(), AllocError>
    ensures { OnOk result (reverse stack.new.items ≡ body production ++ reverse stack.old.items) }
{
    match production {
        Production::Row(op) => push_row(stack, op),
        _ => push_symbols(stack, fixed_body(production)),
    }
}

/// How many symbols the body of a production has.
#[tactic(auto, unfolding(crate::specs::Grammar::body))]
pub fn body_length(production: Production) -> usize
    ensures { result ≡ length (body production) }
{
    match production {
        Production::Row(op) => row_length(op),
        _ => fixed_body(production).len(),
    }
}
