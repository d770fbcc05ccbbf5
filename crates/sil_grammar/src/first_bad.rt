//! Finds where a text first goes wrong as a list of tokens, and how.
//! It asks for the shape of a module alone: names may be unknown, numbers and types of any size.

ghost use Rattle.std.specs.Prelude.{◌≡◌, [], ◌↔◌, length, map, IfOk, IsNone, MatchOption, None, Some};
ghost use Rattle.sil_lexer.specs.inner.Lexing.{IsLexingOf, lexemes_of};
ghost use Rattle.sil_lexer.specs.Places.{IsInLimit};
ghost use Rattle.sil_grammar_shape.specs.declared.steps.Front.{Front};
ghost use Rattle.sil_grammar_shape.specs.Derivation.{IsFirstBad};
ghost use Rattle.sil_grammar.specs.declared.first_bad.BadPlace.{BadPlace};
ghost use Rattle.sil_grammar.specs.declared.first_bad.Shape.TheVariants.{Whole, Broken};
ghost use Rattle.sil_grammar.specs.Classes.{token_class};
ghost use Rattle.sil_grammar.specs.FirstBad.{bad_stop, token_place, HasShape, IsFirstBadPlace};
ghost use Rattle.sil_grammar.specs.inner.Shape.{IsShapeOf};

use crate::classes::classes_of;
use sil_ast::{Exhausted, Place};
use sil_grammar_classes::Class;
use sil_grammar_shape::machine::{ShapeRefusal, steps_of};
use sil_grammar_shape::steps::{Front, Step};
use sil_grammar_shape::unsupported::is_unsupported;
use sil_lexer::{LexRefusal, LexStop, Tokens, end_place, lex};
use std::alloc::Global;

/// What is wrong at a place of a text.
#[derive(Clone, Copy, Debug, PartialEq, Eq)]
pub enum BadKind {
    /// a byte that begins no token, or that a text between quotes may not hold
    BadByte,
    /// the opening quote of a text that a line feed or the end of the input cuts
    UnclosedText,
    /// the start of a word, an `@` name or a `%` name of more than 255 bytes, its sigil not counted
    NameTooLong,
    /// a mnemonic without a row, the name of no builtin operation, or behind `Builtin.` a word that is no integer type
    Unsupported,
    /// any other token with which no module goes on, or the end of a text that may not end there
    Unexpected,
}

/// A bad place of a text. A bad end stands behind the last byte.
#[derive(Clone, Copy, Debug, PartialEq, Eq)]
pub struct BadPlace {
    pub kind: BadKind,
    pub place: Place,
}

/// How far a text has the shape of a module.
#[derive(Drop)]
pub(crate) enum Shape {
    /// Its tokens reach its end, and these steps derive them.
    Whole(Vec<Step>),
    /// It goes wrong here, and the first `count` tokens begin a module, by this front of a derivation.
    Broken {
        bad: BadPlace,
        count: usize,
        front: Front,
    },
}

fn bad_stop(stop: LexRefusal) -> BadPlace
    ensures { result ≡ bad_stop stop }
{
    match stop {
        LexRefusal::BadByte(place) => BadPlace {
            kind: BadKind::BadByte,
            place,
        },
        LexRefusal::UnclosedText(place) => BadPlace {
            kind: BadKind::UnclosedText,
            place,
        },
        LexRefusal::NameTooLong(place) => BadPlace {
            kind: BadKind::NameTooLong,
            place,
        },
    }
}

/// The shape of tokens that these steps derive, up to where they stop.
fn shape_to_stop(alloc: Global, tokens: &Tokens, steps: Vec<Step>) -> Shape
    ensures { MatchOption tokens.now.stop (result ≡ Whole steps)
        (λ stop. (front : Front) × (result ≡ Broken (bad_stop stop) (length tokens.now.tokens) front) × (front.steps ≡ steps) × (front.left.items ≡ [])) }
{
    match tokens.stop() {
        Some(stop) => Shape::Broken {
            bad: bad_stop(stop),
            count: tokens.len(),
            front: Front {
                steps,
                left: Vec::new(alloc),
            },
        },
        None => Shape::Whole(steps),
    }
}

/// Where the token at `i` stands, or the end of the text behind the last one.
fn token_place(text: &[u8], tokens: &Tokens, i: usize) -> Place
    requires limit { IsInLimit text.now }
    requires lexed { IsLexingOf text.now tokens.now }
    ensures { result ≡ token_place text.now (lexemes_of text.now tokens.now) i }
{
    if i < tokens.len() {
        tokens.place(i)
    } else {
        end_place(text)
    }
}

/// The first bad place, where that is the token at `i` or the end of the text.
fn bad_token(
    alloc: Global,
    text: &[u8],
    tokens: &Tokens,
    classes: &[Class],
    i: usize,
) -> Result<BadPlace, Exhausted>
    requires limit { IsInLimit text.now }
    requires lexed { IsLexingOf text.now tokens.now }
    requires classes { classes.now ≡ map token_class (lexemes_of text.now tokens.now) }
    requires first { IsFirstBad classes.now i }
    requires reached { i ≡ length tokens.now.tokens → tokens.now.stop ≡ None }
    ensures { IfOk result (IsFirstBadPlace text.now) }
{
    let place = token_place(text, tokens, i);
    if is_unsupported(alloc, classes, i)? {
        return Ok(BadPlace {
            kind: BadKind::Unsupported,
            place,
        });
    }
    Ok(BadPlace {
        kind: BadKind::Unexpected,
        place,
    })
}

/// The first bad place, where no list that has shape goes on with the token at `i`, or ends there.
fn bad_token_or_stop(
    alloc: Global,
    text: &[u8],
    tokens: &Tokens,
    classes: &[Class],
    i: usize,
) -> Result<BadPlace, Exhausted>
    requires limit { IsInLimit text.now }
    requires lexed { IsLexingOf text.now tokens.now }
    requires classes { classes.now ≡ map token_class (lexemes_of text.now tokens.now) }
    requires first { IsFirstBad classes.now i }
    ensures { IfOk result (IsFirstBadPlace text.now) }
{
    if i == tokens.len() {
        if let Some(stop) = tokens.stop() {
            return Ok(bad_stop(stop));
        }
    }
    bad_token(alloc, text, tokens, classes, i)
}

/// How far tokens of these classes have the shape of a module.
fn shape_by(
    alloc: Global,
    text: &[u8],
    tokens: &Tokens,
    classes: &[Class],
) -> Result<Shape, Exhausted>
    requires limit { IsInLimit text.now }
    requires lexed { IsLexingOf text.now tokens.now }
    requires classes { classes.now ≡ map token_class (lexemes_of text.now tokens.now) }
    ensures { IfOk result (IsShapeOf text.now tokens.now) }
{
    match steps_of(alloc, classes) {
        Ok(steps) => Ok(shape_to_stop(alloc, tokens, steps)),
        Err(
            ShapeRefusal::FirstBad {
                place: count,
                front,
            },
        ) => {
            let bad = bad_token_or_stop(alloc, text, tokens, classes, count)?;
            Ok(Shape::Broken { bad, count, front })
        }
        Err(ShapeRefusal::Memory) => Err(Exhausted),
    }
}

/// How far the tokens of a text have the shape of a module.
pub(crate) fn shape_of(alloc: Global, text: &[u8], tokens: &Tokens) -> Result<Shape, Exhausted>
    requires limit { IsInLimit text.now }
    requires lexed { IsLexingOf text.now tokens.now }
    ensures { IfOk result (IsShapeOf text.now tokens.now) }
{
    let classes = classes_of(alloc, text, tokens)?;
    shape_by(alloc, text, tokens, classes.as_slice())
}

/// The first bad place of cut tokens, if they have one.
fn first_bad_of(alloc: Global, text: &[u8], tokens: &Tokens) -> Result<Option<BadPlace>, Exhausted>
    requires limit { IsInLimit text.now }
    requires lexed { IsLexingOf text.now tokens.now }
    ensures { IfOk result (λ r. MatchOption r (HasShape text.now) (IsFirstBadPlace text.now)) }
{
    match shape_of(alloc, text, tokens)? {
        Shape::Whole(_steps) => Ok(None),
        Shape::Broken { bad, .. } => Ok(Some(bad)),
    }
}

/// The first bad place of a text of at most 1,048,576 bytes; none where the text has the shape of a module.
/// Fails where no memory is left.
pub fn first_bad_place(alloc: Global, text: &[u8]) -> Result<Option<BadPlace>, Exhausted>
    requires { IsInLimit text.now }
    ensures shape { IfOk result (λ r. IsNone r ↔ HasShape text.now) }
    ensures place { IfOk result (λ r. (bad : BadPlace) → (r ≡ Some bad) ↔ IsFirstBadPlace text.now bad) }
{
    match lex(alloc, text) {
        Ok(tokens) => first_bad_of(alloc, text, &tokens),
        Err(LexStop::Memory) => Err(Exhausted),
    }
}
