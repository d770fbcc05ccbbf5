//! What the symbols stand for that a front leaves to be written: their shortest texts, of which all tokens are lacking.

ghost use Rattle.std.specs.Prelude.{◌≡◌, ◌+◌, ◌≤◌, [], length, reverse, IfOk, OnOk};
ghost use Rattle.sil_grammar_tables.specs.Grammar.{body};
ghost use Rattle.sil_grammar_tables.specs.declared.grammar.Symbol.TheVariants.{Part};
ghost use Rattle.sil_grammar_tables.specs.Shortest as said;
ghost use Rattle.sil_grammar_shape.specs.inner.Values.{IsEnough};
ghost use Rattle.sil_grammar_modules.specs.inner.Lacking.{lacking, Fills};
ghost use Rattle.sil_grammar_modules.specs.inner.Replay.{replay};

use crate::reduce::reduce;
use sil_ast::Exhausted;
use sil_grammar_shape::shortest_steps::shortest_steps;
use sil_grammar_shape::steps::Step;
use sil_grammar_tables::{Nonterminal, Production, Symbol, body_length, shortest};
use sil_grammar_values::nothing::no_token;
use sil_grammar_values::prepended::Prepended;
use sil_grammar_values::value::Value;
use std::alloc::Global;

/// The values that the steps build where all tokens are lacking, that of the first step first.
fn replay_lacking(alloc: Global, steps: &[Step]) -> Result<Prepended<Value>, Exhausted>
    requires { IsEnough steps.now }
    ensures { IfOk result (λ values. values ≡ replay steps.now []) }
{
    let mut values = Prepended::new(alloc);
    for i in (0..steps.len()).rev() {
        match steps[i] {
            Step::Take => values.push_front(Value::Token(no_token()))?,
            Step::Expand(production) => {
                reduce(alloc, production, &mut values)?;
            }
        }
    }
    Ok(values)
}

/// What a part stands for whose shortest text is empty.
fn empty_part(alloc: Global, part: Nonterminal) -> Result<Value, Exhausted>
    requires { length (body (said.shortest part)) ≡ 0 }
    ensures { IfOk result (λ value. value ≡ lacking (Part part)) }
{
    let production = shortest(part);
    let mut values = Prepended::new(alloc);
    reduce(alloc, production, &mut values)?;
    Ok(values.pop_front())
}

/// What a part stands for. Nearly all shortest texts are empty, and take no steps to find.
fn lacking_part(alloc: Global, part: Nonterminal) -> Result<Value, Exhausted>
    ensures { IfOk result (λ value. value ≡ lacking (Part part)) }
{
    let production = shortest(part);
    if body_length(production) == 0 {
        return empty_part(alloc, part);
    }
    let steps = shortest_steps(alloc, part)?;
    let mut values = replay_lacking(alloc, steps.as_slice())?;
    Ok(values.pop_front())
}

fn lacking(alloc: Global, symbol: Symbol) -> Result<Value, Exhausted>
    ensures { IfOk result (λ value. value ≡ lacking symbol) }
{
    match symbol {
        Symbol::Read(_) => Ok(Value::Token(no_token())),
        Symbol::Part(part) => lacking_part(alloc, part),
    }
}

/// Builds the values of symbols that are left, the last of which stands first, until there are `count` values.
pub(crate) fn fill(
    alloc: Global,
    values: &mut Prepended<Value>,
    left: &mut Vec<Symbol>,
    count: usize,
) -> Result<(), Exhausted>
    requires { count ≤ length values.old + length left.old.items }
    ensures { OnOk result (Fills count values.old (reverse left.old.items) values.new (reverse left.new.items)) }
{
    while values.len() < count {
        let symbol = left.pop().unwrap();
        let value = lacking(alloc, symbol)?;
        values.push_back(value)?;
    }
    Ok(())
}

/// Builds values of symbols that are left, until there are those of a production's body. Where none is left, they are there.
pub(crate) fn fill_body(
    alloc: Global,
    production: Production,
    values: &mut Prepended<Value>,
    left: &mut Vec<Symbol>,
) -> Result<(), Exhausted>
    requires { length (body production) ≤ length values.old + length left.old.items }
    ensures { OnOk result (Fills (length (body production)) values.old (reverse left.old.items) values.new (reverse left.new.items)) }
{
    if left.is_empty() {
        return Ok(());
    }
    fill(alloc, values, left, body_length(production))
}
