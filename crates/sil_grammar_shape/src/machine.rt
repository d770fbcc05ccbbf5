//! The machine that finds the derivation: it keeps its own stack of what the grammar still needs, so that no nesting
//! of the text takes room on the stack of the program.

ghost use Rattle.std.specs.Prelude.{◌≡◌, ◌++◌, ◌∷◌, [], ◌≤◌, ◌+◌, ◌↔◌, length, reverse, slice_get, IfOk, OnOk, IfErr, IsTrue, MatchBool};
ghost use Rattle.sil_grammar_shape.specs.inner.Turns.{Turns, IsAccepted, Pops, Expands, Settles, Takes, Refuses};
ghost use Rattle.sil_grammar_shape.specs.Derivation.{start, IsDerivation};
ghost use Rattle.sil_grammar_shape.specs.inner.Values.{takes_of, values_left, IsEnough};
ghost use Rattle.sil_grammar_shape.specs.inner.Refusal.{IsRefusal};
ghost use Rattle.sil_grammar_shape.specs.declared.machine.ShapeRefusal.TheVariants.{FirstBad, Memory};

use crate::choice::accepts;
use crate::lookahead::{Lookahead, NumberedClass};
use crate::parse_table::ParseTable;
use crate::steps::{Front, Step};
use sil_grammar_classes::Class;
use sil_grammar_tables::{Nonterminal, Production, Symbol, push_body};
use std::alloc::{AllocError, Global};

/// Why a list of classes has no derivation.
#[derive(Drop)]
pub enum ShapeRefusal {
    /// there was no memory left
    Memory,
    /// the index of the first class with which no list of a module's shape goes on, or the length of the list where only
    /// its end is wrong; and the derivation of the classes before it
    FirstBad { place: usize, front: Front },
}

impl From<AllocError> for ShapeRefusal {
    ghost from_gives = { λ _ e. e ≡ Memory };

    fn from(_error: AllocError) -> Self {
        ShapeRefusal::Memory
    }
}

/// Takes off what stands first.
pub(crate) fn pop_symbol(stack: &mut Vec<Symbol>) -> Option<Symbol>
    ensures { Pops (reverse stack.old.items) result (reverse stack.new.items) }
{
    stack.pop()
}

/// What stands first.
fn first(stack: &[Symbol]) -> Option<Symbol>
    ensures { result ≡ slice_get (reverse stack.now) 0 }
{
    if stack.is_empty() {
        None
    } else {
        Some(stack[stack.len() - 1])
    }
}

/// Puts the body of a production in the place of the part that stands first.
#[inline(always)]
fn expand(
    stack: &mut Vec<Symbol>,
    steps: &mut Vec<Step>,
    production: Production,
) -> Result<(), AllocError>
    ensures { OnOk result (Expands production (reverse stack.old.items) steps.old.items (reverse stack.new.items) steps.new.items) }
{
    pop_symbol(stack);
    steps.push(Step::Expand(production))?;
    push_body(stack, production)?;
    Ok(())
}

/// Expands what stands first until that is a token or nothing, or a part for which the next token chooses no body.
#[inline(always)]
fn settle(
    stack: &mut Vec<Symbol>,
    steps: &mut Vec<Step>,
    table: &mut ParseTable,
    look: Lookahead,
) -> Result<(), AllocError>
    ensures { OnOk result (Settles look.class (reverse stack.old.items) steps.old.items (reverse stack.new.items) steps.new.items) }
{
    while let Some(Symbol::Part(part)) = first(stack.as_slice()) {
        let Some(production) = table.predict(part, look) else {
            return Ok(());
        };
        expand(stack, steps, production)?;
    }
    Ok(())
}

/// Whether a token of this class may stand for what stands first.
fn first_accepts(stack: &[Symbol], token: NumberedClass) -> bool
    ensures { IsTrue result ↔ IsAccepted token.class (reverse stack.now) }
{
    match first(stack) {
        Some(symbol) => accepts(symbol, token),
        None => false,
    }
}

/// Takes the next token, where it suits what stands first; else that stays.
fn take(
    stack: &mut Vec<Symbol>,
    steps: &mut Vec<Step>,
    table: &mut ParseTable,
    class: Class,
) -> Result<bool, AllocError>
    ensures { IfOk result (λ taken. MatchBool taken
        (Takes class (reverse stack.old.items) steps.old.items (reverse stack.new.items) steps.new.items)
        (Refuses (Some class) (reverse stack.old.items) steps.old.items (reverse stack.new.items) steps.new.items)) }
{
    let token = NumberedClass::new(class);
    settle(stack, steps, table, Lookahead::token(token))?;
    if !first_accepts(stack.as_slice(), token) {
        return Ok(false);
    }
    pop_symbol(stack);
    steps.push(Step::Take)?;
    Ok(true)
}

/// Whether the list may end here.
fn end(
    stack: &mut Vec<Symbol>,
    steps: &mut Vec<Step>,
    table: &mut ParseTable,
) -> Result<bool, AllocError>
    ensures { IfOk result (λ ends. MatchBool ends
        (Turns None (reverse stack.old.items) steps.old.items [] steps.new.items)
        (Refuses None (reverse stack.old.items) steps.old.items (reverse stack.new.items) steps.new.items)) }
{
    settle(stack, steps, table, Lookahead::end())?;
    Ok(stack.is_empty())
}

/// The stack at the start: a whole module is needed.
fn full_stack(alloc: Global) -> Result<Vec<Symbol>, AllocError>
    ensures { IfOk result (λ stack. reverse stack.items ≡ start) }
{
    let mut stack = Vec::new(alloc);
    stack.push(Symbol::Part(Nonterminal::Module))?;
    Ok(stack)
}

fn first_bad(place: usize, steps: Vec<Step>, left: Vec<Symbol>) -> ShapeRefusal
    ensures { result ≡ FirstBad place (record { steps = steps; left = left }) }
{
    ShapeRefusal::FirstBad {
        place,
        front: Front { steps, left },
    }
}

/// The steps of the derivation of a module from these classes.
pub fn steps_of(alloc: Global, classes: &[Class]) -> Result<Vec<Step>, ShapeRefusal>
    // these steps derive the classes, and no others do
    ensures found { IfOk result (λ steps. IsDerivation classes.now steps.items) }

    // replayed from the last to the first, they have a value for each token and end with one value
    ensures taken { IfOk result (λ steps. takes_of steps.items ≡ length classes.now) }
    ensures enough { IfOk result (λ steps. IsEnough steps.items) }
    ensures one_value { IfOk result (λ steps. values_left steps.items ≡ 1) }

    ensures refused { IfErr result (IsRefusal classes.now) }
{
    let mut stack = full_stack(alloc)?;
    // each token takes a step of its own, and seldom more than two others
    let mut steps = Vec::with_capacity(alloc, classes.len().saturating_mul(3))?;
    let mut table = ParseTable::new(alloc)?;
    for (place, class) in classes.iter().enumerate() {
        if !take(&mut stack, &mut steps, &mut table, *class)? {
            return Err(first_bad(place, steps, stack));
        }
    }
    if !end(&mut stack, &mut steps, &mut table)? {
        return Err(first_bad(classes.len(), steps, stack));
    }
    Ok(steps)
}
