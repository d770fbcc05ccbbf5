//! The shortest way to write a part of a text.

ghost use Rattle.std.specs.Prelude.{◌≡◌, ◌++◌, ◌∷◌, [], reverse, IfOk, OnOk};
ghost use Rattle.sil_grammar_shape.specs.Shortest.{shortest_step, after_step, Shortens};
ghost use Rattle.sil_grammar_tables.specs.declared.grammar.Symbol.TheVariants.{Part};

use crate::machine::pop_symbol;
use crate::steps::Step;
use sil_grammar_tables::{Nonterminal, Symbol, push_body, shortest};
use std::alloc::{AllocError, Global};

/// Does the first step of the shortest way to write a symbol that was taken off.
fn shorten(stack: &mut Vec<Symbol>, steps: &mut Vec<Step>, symbol: Symbol) -> Result<(), AllocError>
    ensures stack { OnOk result (reverse stack.new.items ≡ after_step symbol ++ reverse stack.old.items) }
    ensures steps { OnOk result (steps.new.items ≡ steps.old.items ++ shortest_step symbol ∷ []) }
{
    match symbol {
        Symbol::Read(_) => {
            steps.push(Step::Take)?;
            Ok(())
        }
        Symbol::Part(part) => {
            let production = shortest(part);
            steps.push(Step::Expand(production))?;
            push_body(stack, production)?;
            Ok(())
        }
    }
}

/// The steps of the shortest way to write a part. Fails where memory runs out.
pub fn shortest_steps(alloc: Global, part: Nonterminal) -> Result<Vec<Step>, AllocError>
    ensures { IfOk result (λ steps. Shortens (Part part ∷ []) steps.items) }
{
    let mut stack = Vec::new(alloc);
    stack.push(Symbol::Part(part))?;
    let mut steps = Vec::new(alloc);
    while let Some(symbol) = pop_symbol(&mut stack) {
        shorten(&mut stack, &mut steps, symbol)?;
    }
    Ok(steps)
}
