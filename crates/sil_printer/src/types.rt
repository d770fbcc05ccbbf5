//! The texts of types.

ghost use Rattle.std.specs.Prelude.{◌≡◌, ◌↔◌, ◌++◌, OnOk, codes, decimal};
ghost use Rattle.sil_printer.specs.Words.{in_parens};
ghost use Rattle.sil_printer.specs.CanonicalTypes.{type_text, opens_parens, is_several};

use crate::pieces::{Canonical, push_bytes, push_decimal, push_separator};
use sil_ast::{Exhausted, TypeName};

impl Canonical for TypeName {
    ghost text = { type_text };

    fn push_to(&self, out: &mut Vec<u8>) -> Result<(), Exhausted> {
        push_type(out, self)
    }
}

#[cycle(text)]
#[tactic(auto, using(crate::proofs::TypeTexts::by_form))]
pub(crate) fn push_type(out: &mut Vec<u8>, ty: &TypeName) -> Result<(), Exhausted>
    ensures { OnOk result (out.new.items ≡ out.old.items ++ type_text ty.now) }
{
    match ty {
        TypeName::Int(width) => push_int(out, *width),
        TypeName::Named(name) => push_bytes(out, name.as_slice()),
        TypeName::Optional(target) => push_optional(out, target.get()),
        TypeName::Tuple(elements) => push_tuple(out, elements.get().as_slice()),
        TypeName::Weak(target) => push_behind(out, b"@sil_weak ", target.get()),
        TypeName::Unowned(target) => push_behind(out, b"@sil_unowned ", target.get()),
        TypeName::Address(target) => push_behind(out, b"*", target.get()),
    }
}

fn push_int(out: &mut Vec<u8>, width: u8) -> Result<(), Exhausted>
    ensures { OnOk result (out.new.items ≡ out.old.items ++ (codes "Builtin.Int" ++ decimal width)) }
{
    out.extend_from_slice(b"Builtin.Int")?;
    push_decimal(out, u64::from(width))
}

#[cycle(text)]
fn push_optional(out: &mut Vec<u8>, target: &TypeName) -> Result<(), Exhausted>
    ensures { OnOk result (out.new.items ≡ out.old.items ++ (codes "Optional<" ++ type_text target.now ++ codes ">")) }
{
    push_behind(out, b"Optional<", target)?;
    out.push(b'>')?;
    Ok(())
}

#[cycle(text)]
fn push_behind(out: &mut Vec<u8>, word: &[u8], target: &TypeName) -> Result<(), Exhausted>
    ensures { OnOk result (out.new.items ≡ out.old.items ++ (word.now ++ type_text target.now)) }
{
    out.extend_from_slice(word)?;
    push_type(out, target)
}

#[cycle(text)]
fn push_tuple(out: &mut Vec<u8>, elements: &[TypeName]) -> Result<(), Exhausted>
    ensures { OnOk result (out.new.items ≡ out.old.items ++ in_parens type_text elements.now) }
{
    out.push(b'(')?;
    for (i, element) in elements.iter().enumerate() {
        push_separator(out, b", ", i)?;
        push_type(out, element)?;
    }
    out.push(b')')?;
    Ok(())
}

/// Whether the text of the type begins with a parenthesis.
pub(crate) fn opens_with_parens(ty: &TypeName) -> bool
    ensures { result ≡ opens_parens (type_text ty.now) }
{
    match ty {
        TypeName::Tuple(_) => true,
        TypeName::Named(name) => name.as_slice().first() == Some(&b'('),
        _ => false,
    }
}

/// Whether the type is a tuple of two or more.
pub(crate) fn is_long_tuple(ty: &TypeName) -> bool
    ensures { result ≡ is_several ty.now }
{
    match ty {
        TypeName::Tuple(elements) => elements.get().len() >= 2,
        _ => false,
    }
}
