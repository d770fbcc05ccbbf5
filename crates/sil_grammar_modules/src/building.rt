//! The second pass of the reader: from the last step to the first, it builds what the parts of the text stand for, and
//! keeps the first fault.

ghost use Rattle.std.specs.Prelude.{◌≡◌, ◌≤◌, ◌++◌, All, List, length, reverse, take, IfOk};
ghost use Rattle.sil_lexer.specs.inner.Lexing.{IsInside, IsLexingOf, lexemes_of};
ghost use Rattle.sil_grammar_classes.specs.declared.classes.Class.{Class};
ghost use Rattle.sil_grammar_shape.specs.declared.steps.Step.{Step};
ghost use Rattle.sil_grammar_shape.specs.inner.Begun.{LeadsTo};
ghost use Rattle.sil_grammar_shape.specs.Derivation.{start, Derives};
ghost use Rattle.sil_grammar_shape.specs.Shortest.{Shortens};
ghost use Rattle.sil_grammar_shape.specs.inner.Values.{takes_of, IsEnough};
ghost use Rattle.sil_grammar_modules.specs.inner.Lacking.{waiting};
ghost use Rattle.sil_grammar_modules.specs.inner.Replay.{first_fault, replay, KeepsFirst, Writes};

use crate::lacking::{fill, fill_body};
use crate::leaves::leaf_at;
use crate::reduce::reduce;
use sil_ast::Exhausted;
use sil_grammar_shape::steps::{Front, Step};
use sil_grammar_tables::Symbol;
use sil_grammar_tree::{Fault, WrittenModule, earlier};
use sil_grammar_values::prepended::Prepended;
use sil_grammar_values::value::Value;
use sil_lexer::Tokens;
use std::alloc::Global;
use std::rc::Rc;

/// What the steps of a derivation stand for.
#[derive(Drop)]
pub struct Built {
    pub written: WrittenModule,
    /// The first number out of range, or token past a limit.
    pub fault: Option<Fault>,
}

/// What a list of steps leaves behind.
#[derive(Drop)]
struct Replayed {
    /// The values that were built. Behind them are those of the symbols that are left.
    values: Prepended<Value>,
    left: Vec<Symbol>,
    fault: Option<Fault>,
}

/// After how many tokens the memory is given back of those, and of their steps.
const PIECE: usize = 8192;

/// Gives back the memory of all tokens but the first `token`, and of all steps but the first `step`.
#[cold]
fn cut(tokens: &mut Tokens, token: usize, steps: &mut Vec<Step>, step: usize)
    ensures tokens { tokens.new.tokens ≡ take token tokens.old.tokens }
    ensures steps { steps.new.items ≡ take step steps.old.items }
{
    tokens.truncate(token);
    tokens.shrink_to_fit();
    steps.truncate(step);
    steps.shrink_to_fit();
}

/// Lets go of tokens and steps that are replayed, now and then: the first ones stay.
#[inline(always)]
fn let_go(tokens: &mut Tokens, token: usize, steps: &mut Vec<Step>, step: usize)
    requires token { token ≤ length tokens.old.tokens }
    requires step { step ≤ length steps.old.items }
    ensures tokens { KeepsFirst token tokens.old.tokens tokens.new.tokens }
    ensures steps { KeepsFirst step steps.old.items steps.new.items }
{
    if token % PIECE == 0 {
        cut(tokens, token, steps, step);
    }
}

/// The values that steps build which take these tokens, that of the first step first, and the first fault in them. Both go
/// as they are replayed. Behind the steps the symbols that are left are written in the shortest way, with no tokens.
fn replay(
    alloc: Global,
    text: &Rc<Vec<u8>>,
    tokens: Tokens,
    steps: Vec<Step>,
    left: Vec<Symbol>,
) -> Result<Replayed, Exhausted>
    ghost rest: { List Step }
    requires inside { All (IsInside text.now.value.items) tokens.tokens }
    requires taken { takes_of steps.items ≡ length tokens.tokens }
    requires shortest { Shortens (reverse left.items) rest }
    requires enough { IsEnough (steps.items ++ rest) }
    ensures values { IfOk result (λ replayed. waiting replayed.values (reverse replayed.left.items)
        ≡ replay (steps.items ++ rest) (lexemes_of text.now.value.items tokens)) }
    ensures fault { IfOk result (λ replayed. replayed.fault ≡ first_fault (steps.items ++ rest) (lexemes_of text.now.value.items tokens)) }
{
    let mut values = Prepended::new(alloc);
    let mut tokens = tokens;
    let mut steps = steps;
    let mut left = left;
    let mut fault = None;
    let mut token = tokens.len();
    for i in (0..steps.len()).rev() {
        match steps[i] {
            Step::Take => {
                token -= 1;
                values.push_front(leaf_at(text, &tokens, token)?)?;
                let_go(&mut tokens, token, &mut steps, i);
            }
            Step::Expand(production) => {
                fill_body(alloc, production, &mut values, &mut left)?;
                let found = reduce(alloc, production, &mut values)?;
                fault = earlier(found, fault);
            }
        }
    }
    Ok(Replayed {
        values,
        left,
        fault,
    })
}

/// What the steps of a derivation from all tokens stand for. The tokens that are kept share the text.
pub fn build(
    alloc: Global,
    text: &Rc<Vec<u8>>,
    tokens: Tokens,
    steps: Vec<Step>,
) -> Result<Built, Exhausted>
    requires lexed { IsLexingOf text.now.value.items tokens }
    requires derived { (classes : List Class) × Derives start classes steps.items }
    requires taken { takes_of steps.items ≡ length tokens.tokens }
    ensures written { IfOk result (λ built. Writes steps.items (lexemes_of text.now.value.items tokens) built.written) }
    ensures fault { IfOk result (λ built. built.fault ≡ first_fault steps.items (lexemes_of text.now.value.items tokens)) }
{
    let Replayed {
        mut values,
        mut left,
        fault,
    } = replay(alloc, text, tokens, steps, Vec::new(alloc))?;
    fill(alloc, &mut values, &mut left, 1)?;
    let written = values.pop_front().into_module(alloc);
    Ok(Built { written, fault })
}

/// The first fault in what a module stands for that begins with the first `count` tokens and goes on in the shortest way,
/// with no tokens.
pub fn front_fault(
    alloc: Global,
    text: &Rc<Vec<u8>>,
    tokens: Tokens,
    count: usize,
    front: Front,
) -> Result<Option<Fault>, Exhausted>
    requires lexed { IsLexingOf text.now.value.items tokens }
    requires inside { count ≤ length tokens.tokens }
    requires begun { (classes : List Class) × (length classes ≡ count) × LeadsTo classes front.steps.items (reverse front.left.items) }
    ensures { IfOk result (λ fault. (rest : List Step) × Shortens (reverse front.left.items) rest
        × (fault ≡ first_fault (front.steps.items ++ rest) (take count (lexemes_of text.now.value.items tokens)))) }
{
    let Front { steps, left } = front;
    let mut tokens = tokens;
    tokens.truncate(count);
    let replayed = replay(alloc, text, tokens, steps, left)?;
    Ok(replayed.fault)
}
