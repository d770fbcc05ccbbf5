//! A derivation cut behind the last token that it takes: what no token has decided is left to be written.

ghost use Rattle.std.specs.Prelude.{◌≡◌, ◌≤◌, drop, length, reverse, take, IfOk, OnOk};
ghost use Rattle.sil_grammar_shape.specs.Derivation.{start};
ghost use Rattle.sil_grammar_shape.specs.inner.Turns.{Pops};
ghost use Rattle.sil_grammar_shape.specs.inner.Values.{takes_of};
ghost use Rattle.sil_grammar.specs.inner.Left.{after, left_after, AreDecided, IsCut};

use sil_ast::Exhausted;
use sil_grammar_shape::steps::{Front, Step};
use sil_grammar_tables::{Nonterminal, Symbol, push_body};
use std::alloc::Global;

/// How many steps there are up to the last token.
fn count_decided(steps: &[Step]) -> usize
    ensures inside { result ≤ length steps.now }
    ensures decided { AreDecided (take result steps.now) }
    ensures none_behind { takes_of (drop result steps.now) ≡ 0 }
{
    for i in (0..steps.len()).rev() {
        if let Step::Take = steps[i] {
            return i + 1;
        }
    }
    0
}

/// Takes off what stands first.
fn pop_symbol(stack: &mut Vec<Symbol>) -> Option<Symbol>
    ensures { Pops (reverse stack.old.items) result (reverse stack.new.items) }
{
    stack.pop()
}

/// Does a step to what is left to be written.
fn follow(stack: &mut Vec<Symbol>, step: Step) -> Result<(), Exhausted>
    ensures { OnOk result (reverse stack.new.items ≡ after step (reverse stack.old.items)) }
{
    pop_symbol(stack);
    if let Step::Expand(production) = step {
        push_body(stack, production)?;
    }
    Ok(())
}

/// What is left of a module after these steps: the symbol that stands first is the last one.
fn left_after(alloc: Global, steps: &[Step]) -> Result<Vec<Symbol>, Exhausted>
    ensures { IfOk result (λ left. reverse left.items ≡ left_after steps.now start) }
{
    let mut stack = Vec::new(alloc);
    stack.push(Symbol::Part(Nonterminal::Module))?;
    for i in 0..steps.len() {
        follow(&mut stack, steps[i])?;
    }
    Ok(stack)
}

/// The steps up to the last token, and what they leave to be written.
pub(crate) fn cut_at_last_token(alloc: Global, front: Front) -> Result<Front, Exhausted>
    ensures { IfOk result (IsCut front) }
{
    let Front { mut steps, .. } = front;
    let count = count_decided(steps.as_slice());
    steps.truncate(count);
    let left = left_after(alloc, steps.as_slice())?;
    Ok(Front { steps, left })
}
