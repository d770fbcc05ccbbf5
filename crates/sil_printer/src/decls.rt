//! The texts of declared types.

ghost use Rattle.std.specs.Prelude.{◌≡◌, ◌++◌, OnOk, codes};
ghost use Rattle.sil_printer.specs.CanonicalDecls.{storage_text, field_text, payload_text, case_text, braced, heading, decl_text};

use crate::pieces::{Canonical, push_bytes, push_indented, push_opening};
use crate::types::{is_long_tuple, push_type};
use sil_ast::{Case, Decl, Exhausted, Field, Storage, Text, TypeName};

impl Canonical for Decl {
    ghost text = { decl_text };

    fn push_to(&self, out: &mut Vec<u8>) -> Result<(), Exhausted> {
        match self {
            Decl::Struct { name, fields } => push_braced(
                out,
                b"struct ",
                name.as_slice(),
                fields.as_slice(),
            ),
            Decl::Enum { name, cases } => push_braced(
                out,
                b"enum ",
                name.as_slice(),
                cases.as_slice(),
            ),
            Decl::Class {
                name,
                superclass,
                fields,
            } => push_class(out, name.as_slice(), superclass, fields.as_slice()),
        }
    }
}

/// Puts the name of a class, with its superclass.
fn push_heading(out: &mut Vec<u8>, name: &[u8], superclass: &Option<Text>) -> Result<(), Exhausted>
    ensures { OnOk result (out.new.items ≡ out.old.items ++ heading name.now superclass.now) }
{
    push_bytes(out, name)?;
    match superclass {
        None => Ok(()),
        Some(superclass) => {
            push_bytes(out, b" : ")?;
            push_bytes(out, superclass.as_slice())
        }
    }
}

fn push_class(
    out: &mut Vec<u8>,
    name: &[u8],
    superclass: &Option<Text>,
    fields: &[Field],
) -> Result<(), Exhausted>
    ensures { OnOk result (out.new.items ≡ out.old.items ++ braced (codes "class ") (heading name.now superclass.now) field_text fields.now) }
{
    push_bytes(out, b"class ")?;
    push_heading(out, name, superclass)?;
    push_bytes(out, b" {\n")?;
    push_indented(out, fields)?;
    push_bytes(out, b"}\n")
}

fn push_braced<T: Canonical>(
    out: &mut Vec<u8>,
    word: &[u8],
    name: &[u8],
    members: &[T],
) -> Result<(), Exhausted>
    ensures { OnOk result (out.new.items ≡ out.old.items ++ braced word.now name.now T.text members.now) }
{
    push_opening(out, word, name)?;
    push_indented(out, members)?;
    push_bytes(out, b"}\n")
}

impl Canonical for Field {
    ghost text = { field_text };

    fn push_to(&self, out: &mut Vec<u8>) -> Result<(), Exhausted> {
        push_bytes(out, storage_word(self.storage))?;
        push_bytes(out, b"var ")?;
        push_bytes(out, self.name.as_slice())?;
        push_bytes(out, b": ")?;
        push_type(out, &self.ty)
    }
}

fn storage_word(storage: Storage) -> &'static [u8]
    ensures { result.now ≡ storage_text storage }
{
    match storage {
        Storage::Strong => b"",
        Storage::Weak => b"weak ",
        Storage::Unowned => b"unowned ",
    }
}

impl Canonical for Case {
    ghost text = { case_text };

    fn push_to(&self, out: &mut Vec<u8>) -> Result<(), Exhausted> {
        push_bytes(out, b"case ")?;
        push_bytes(out, self.name.as_slice())?;
        match &self.payload {
            Some(payload) => push_payload(out, payload),
            None => Ok(()),
        }
    }
}

fn push_payload(out: &mut Vec<u8>, payload: &TypeName) -> Result<(), Exhausted>
    ensures { OnOk result (out.new.items ≡ out.old.items ++ payload_text payload.now) }
{
    if is_long_tuple(payload) {
        return push_type(out, payload);
    }
    push_bytes(out, b"(")?;
    push_type(out, payload)?;
    push_bytes(out, b")")
}
