//! Whether a first bad token is unsupported or merely unexpected: other classes are tried in its place.

ghost use Rattle.std.specs.Prelude.{◌≡◌, ◌++◌, ◌∷◌, [], ◌↔◌, IfOk, IsTrue};
ghost use Rattle.sil_grammar_shape.specs.Derivation.{BeginsShape, IsFirstBad};
ghost use Rattle.sil_grammar_shape.specs.Unsupported.{is_mnemonic, GoesOn, IsUnknown, IsUnsupported};
ghost use Rattle.sil_grammar_classes.specs.declared.classes.Class.TheVariants.{Word};

use crate::machine::{ShapeRefusal, steps_of};
use instruction_table::Op;
use sil_grammar_classes::{Class, Keyword};
use std::alloc::{AllocError, Global};

/// Whether a row begins with the word.
fn is_mnemonic(word: Keyword) -> bool
    ensures { result ≡ is_mnemonic word }
{
    match word {
        Keyword::Mnemonic(_) => true,
        _ => false,
    }
}

/// Whether some list goes on with this class.
fn goes_on(alloc: Global, front: &[Class], next: Class) -> Result<bool, AllocError>
    requires { BeginsShape front.now }
    ensures { IfOk result (λ yes. IsTrue yes ↔ GoesOn front.now next) }
{
    let mut classes = Vec::from_slice(alloc, front)?;
    classes.push(next)?;
    match steps_of(alloc, classes.as_slice()) {
        Ok(_steps) => Ok(true),
        Err(ShapeRefusal::FirstBad { place, .. }) => Ok(place != front.len()),
        Err(ShapeRefusal::Memory) => Err(AllocError),
    }
}

fn is_unknown_word(alloc: Global, front: &[Class], word: Keyword) -> Result<bool, AllocError>
    requires { BeginsShape front.now }
    ensures { IfOk result (λ yes. IsTrue yes ↔ IsUnknown front.now (Word word)) }
{
    if !is_mnemonic(word) {
        if goes_on(alloc, front, Class::Word(Keyword::Mnemonic(Op::Load)))? {
            return Ok(true);
        }
    }
    goes_on(alloc, front, Class::Word(Keyword::Int64))
}

fn is_unknown(alloc: Global, front: &[Class], token: Class) -> Result<bool, AllocError>
    requires { BeginsShape front.now }
    ensures { IfOk result (λ yes. IsTrue yes ↔ IsUnknown front.now token) }
{
    match token {
        Class::Word(word) => is_unknown_word(alloc, front, word),
        Class::OtherText => goes_on(alloc, front, Class::BuiltinText),
        _ => Ok(false),
    }
}

/// Whether the first bad token is a mnemonic without a row, the name of no builtin operation where one must stand, or
/// after `Builtin.` a word that isn't an integer type. Fails where memory runs out.
pub fn is_unsupported(alloc: Global, classes: &[Class], place: usize) -> Result<bool, AllocError>
    requires { IsFirstBad classes.now place }
    ensures { IfOk result (λ yes. IsTrue yes ↔ IsUnsupported classes.now place) }
{
    match classes.get(place) {
        Some(token) => is_unknown(alloc, &classes[..place], *token),
        None => Ok(false),
    }
}
