//! Reads the module that a text spells.

ghost use Rattle.std.specs.Prelude.{◌≡◌, ℕ, List, ◌≤◌, length, map, reverse, take, IfOk, IfErr};
ghost use Rattle.sil_ast.specs.declared.module.Module.{Module};
ghost use Rattle.sil_lexer.specs.inner.Lexing.{IsLexingOf, Lexing, lexemes_of};
ghost use Rattle.sil_lexer.specs.Places.{IsInLimit};
ghost use Rattle.sil_grammar_shape.specs.declared.steps.Front.{Front};
ghost use Rattle.sil_grammar_shape.specs.inner.Begun.{LeadsTo};
ghost use Rattle.numbered_form.specs.inner.NumberedForm.{IsNumbered};
ghost use Rattle.sil_grammar.specs.Classes.{token_class};
ghost use Rattle.sil_grammar.specs.inner.Front.{IsFrontFault};
ghost use Rattle.sil_grammar.specs.Refusals.{IsRefusalOf};
ghost use Rattle.sil_grammar.specs.inner.Shape.{IsBroken, IsWhole};
ghost use Rattle.sil_grammar.specs.Spells.{Spells, SpellsWritten};

use crate::cutting::cut_at_last_token;
use crate::first_bad::{BadPlace, Shape, shape_of};
use crate::refusal::{ReadRefusal, refusal_of_bad, refusal_of_fault};
use sil_ast::{Exhausted, Module};
use sil_grammar_modules::{build, front_fault};
use sil_grammar_names::{NameRefusal, resolve};
use sil_grammar_shape::steps::{Front, Step};
use sil_grammar_tree::{Fault, WrittenModule};
use sil_lexer::{Tokens, lex};
use std::alloc::Global;
use std::rc::Rc;

/// The module that a text spells which writes `written`.
fn numbered(alloc: Global, written: WrittenModule) -> Result<Module, ReadRefusal>
    ensures found { IfOk result (λ m. (text : List ℕ) → SpellsWritten written text → Spells m text) }
    ensures refused { IfErr result (λ r. (text : List ℕ) → SpellsWritten written text → IsRefusalOf text r) }
{
    match resolve(alloc, written) {
        Ok(module) => Ok(module),
        Err(NameRefusal::Name(fault)) => Err(refusal_of_fault(fault)),
        Err(NameRefusal::Memory) => Err(ReadRefusal::Memory),
    }
}

/// The module that a text spells whose tokens have these steps. `source` is the text.
fn read_whole(
    alloc: Global,
    text: &[u8],
    source: &Rc<Vec<u8>>,
    tokens: Tokens,
    steps: Vec<Step>,
) -> Result<Module, ReadRefusal>
    requires source { source.now.value.items ≡ text.now }
    requires lexed { IsLexingOf text.now tokens }
    requires derived { IsWhole text.now tokens steps.items }
    ensures found { IfOk result (λ m. Spells m text.now) }
    ensures refused { IfErr result (IsRefusalOf text.now) }
{
    let built = build(alloc, source, tokens, steps)?;
    match built.fault {
        Some(fault) => Err(refusal_of_fault(fault)),
        None => numbered(alloc, built.written),
    }
}

/// The first fault in the shortest module that begins with the first `count` tokens of a text. This front of a
/// derivation takes them, and `source` is the text.
fn fault_before(
    alloc: Global,
    text: &[u8],
    source: &Rc<Vec<u8>>,
    tokens: Tokens,
    count: usize,
    front: Front,
) -> Result<Option<Fault>, Exhausted>
    requires source { source.now.value.items ≡ text.now }
    requires lexed { IsLexingOf text.now tokens }
    requires inside { count ≤ length tokens.tokens }
    requires leads { LeadsTo (map token_class (take count (lexemes_of text.now tokens))) front.steps.items (reverse front.left.items) }
    ensures { IfOk result (IsFrontFault text.now tokens count) }
{
    let front = cut_at_last_token(alloc, front)?;
    let fault = front_fault(alloc, source, tokens, count, front)?;
    Ok(fault)
}

/// The refusal of a text that goes wrong at `bad`, for the first fault in what stands before, if there is one.
fn earlier_refusal(fault: Option<Fault>, bad: BadPlace) -> ReadRefusal
    ensures { (text : List ℕ) (lexing : Lexing) (count : ℕ) (front : Front) → IsLexingOf text lexing → IsBroken text lexing bad count front
        → IsFrontFault text lexing count fault → IsRefusalOf text result }
{
    match fault {
        Some(fault) if fault.place.offset < bad.place.offset => refusal_of_fault(fault),
        _ => refusal_of_bad(bad),
    }
}

/// The same as `read`, of a text that `source` has too.
fn read_shared(alloc: Global, text: &[u8], source: &Rc<Vec<u8>>) -> Result<Module, ReadRefusal>
    requires source { source.now.value.items ≡ text.now }
    requires limit { IsInLimit text.now }
    ensures found { IfOk result (λ m. Spells m text.now) }
    ensures only { IfOk result (λ m. (other : Module) → Spells other text.now → other ≡ m) }
    ensures numbered { IfOk result IsNumbered }
    ensures refused { IfErr result (IsRefusalOf text.now) }
{
    let tokens = lex(alloc, text)?;
    match shape_of(alloc, text, &tokens)? {
        Shape::Whole(steps) => read_whole(alloc, text, source, tokens, steps),
        Shape::Broken { bad, count, front } => {
            let fault = fault_before(alloc, text, source, tokens, count, front)?;
            Err(earlier_refusal(fault, bad))
        }
    }
}

/// A text that tokens can share.
fn shared(alloc: Global, text: Vec<u8>) -> Result<Rc<Vec<u8>>, Exhausted>
    ensures { IfOk result (λ source. source.value ≡ text) }
{
    Ok(Rc::new(alloc, text)?)
}

/// A copy of a text that tokens can share.
fn copied(alloc: Global, text: &[u8]) -> Result<Rc<Vec<u8>>, Exhausted>
    ensures { IfOk result (λ source. source.value.items ≡ text.now) }
{
    shared(alloc, Vec::from_slice(alloc, text)?)
}

/// The module that a text of at most 1,048,576 bytes spells, with its values, blocks and functions numbered.
///
/// A text that spells none is refused for the first thing that is wrong: where it stops having the shape of a module,
/// or a number or a limit before that place. A name is a reason only in a text without these.
pub fn read(alloc: Global, text: &[u8]) -> Result<Module, ReadRefusal>
    requires { IsInLimit text.now }
    ensures found { IfOk result (λ m. Spells m text.now) }
    ensures only { IfOk result (λ m. (other : Module) → Spells other text.now → other ≡ m) }
    ensures numbered { IfOk result IsNumbered }
    ensures refused { IfErr result (IsRefusalOf text.now) }
{
    let source = copied(alloc, text)?;
    read_shared(alloc, text, &source)
}

/// The same as `read`, of a text that is given away: it isn't copied.
pub fn read_owned(alloc: Global, text: Vec<u8>) -> Result<Module, ReadRefusal>
    requires { IsInLimit text.items }
    ensures found { IfOk result (λ m. Spells m text.items) }
    ensures only { IfOk result (λ m. (other : Module) → Spells other text.items → other ≡ m) }
    ensures numbered { IfOk result IsNumbered }
    ensures refused { IfErr result (IsRefusalOf text.items) }
{
    let source = shared(alloc, text)?;
    read_shared(alloc, source.as_ref().as_slice(), &source)
}
