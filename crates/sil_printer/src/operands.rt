//! The texts of values and operands, and of the words, types and members that an instruction may have.

ghost use Rattle.std.specs.Prelude.{◌≡◌, ◌++◌, OnOk, slice_get};
ghost use Rattle.std.specs.Fmt.{signed_decimal};
ghost use Rattle.sil_printer.specs.Words.{if_there, in_parens};
ghost use Rattle.sil_printer.specs.CanonicalInsts.{value_text, typed_text, bare_text, type_word, signature_word, quoted};
ghost use Rattle.sil_printer.specs.CanonicalInsts.{function_name, field_name, case_name, member_text};

use crate::pieces::{
    Canonical, push_bytes, push_decimal, push_in_parens, push_separator, push_signed,
};
use crate::types::push_type;
use instruction_table::{Detail, Op, detail_of};
use sil_ast::{
    Boxed, Exhausted, FuncId, Function, Member, Operand, Signature, Text, TypeName, ValueId,
};

impl Canonical for ValueId {
    ghost text = { value_text };

    fn push_to(&self, out: &mut Vec<u8>) -> Result<(), Exhausted> {
        push_bytes(out, b"%")?;
        push_decimal(out, u64::from(self.0))
    }
}

impl Canonical for Operand {
    ghost text = { typed_text };

    fn push_to(&self, out: &mut Vec<u8>) -> Result<(), Exhausted> {
        self.value.push_to(out)?;
        push_type_word(out, b" : ", &self.ty)
    }
}

/// Puts `$T` behind `lead`, where there is a type.
pub(crate) fn push_type_word(
    out: &mut Vec<u8>,
    lead: &[u8],
    ty: &Option<TypeName>,
) -> Result<(), Exhausted>
    ensures { OnOk result (out.new.items ≡ out.old.items ++ if_there lead.now type_word ty.now) }
{
    match ty {
        Some(ty) => {
            push_bytes(out, lead)?;
            push_bytes(out, b"$")?;
            push_type(out, ty)
        }
        None => Ok(()),
    }
}

/// Puts `$@convention(thin) () -> ()` behind `lead`, where there is a signature.
pub(crate) fn push_signature_word(
    out: &mut Vec<u8>,
    lead: &[u8],
    signature: &Option<Boxed<Signature>>,
) -> Result<(), Exhausted>
    ensures { OnOk result (out.new.items ≡ out.old.items ++ if_there lead.now signature_word signature.now) }
{
    match signature {
        Some(signature) => {
            push_bytes(out, lead)?;
            push_bytes(out, b"$")?;
            signature.get().push_to(out)
        }
        None => Ok(()),
    }
}

/// Puts the first operand and its type behind `lead`, where there is an operand.
pub(crate) fn push_first_typed(
    out: &mut Vec<u8>,
    lead: &[u8],
    operands: &[Operand],
) -> Result<(), Exhausted>
    ensures { OnOk result (out.new.items ≡ out.old.items ++ if_there lead.now typed_text (slice_get operands.now 0)) }
{
    match operands.first() {
        Some(operand) => {
            push_bytes(out, lead)?;
            operand.push_to(out)
        }
        None => Ok(()),
    }
}

/// The same without its type.
pub(crate) fn push_first_bare(
    out: &mut Vec<u8>,
    lead: &[u8],
    operands: &[Operand],
) -> Result<(), Exhausted>
    ensures { OnOk result (out.new.items ≡ out.old.items ++ if_there lead.now bare_text (slice_get operands.now 0)) }
{
    match operands.first() {
        Some(operand) => {
            push_bytes(out, lead)?;
            operand.value.push_to(out)
        }
        None => Ok(()),
    }
}

/// Puts `(%a : $T, %b : $U)` behind `lead`.
pub(crate) fn push_typed_args(
    out: &mut Vec<u8>,
    lead: &[u8],
    operands: &[Operand],
) -> Result<(), Exhausted>
    ensures { OnOk result (out.new.items ≡ out.old.items ++ (lead.now ++ in_parens typed_text operands.now)) }
{
    push_bytes(out, lead)?;
    push_in_parens(out, operands)
}

/// Puts `(%a, %b)` behind `lead`.
pub(crate) fn push_bare_args(
    out: &mut Vec<u8>,
    lead: &[u8],
    operands: &[Operand],
) -> Result<(), Exhausted>
    ensures { OnOk result (out.new.items ≡ out.old.items ++ (lead.now ++ in_parens bare_text operands.now)) }
{
    push_bytes(out, lead)?;
    push_bytes(out, b"(")?;
    for (i, operand) in operands.iter().enumerate() {
        push_separator(out, b", ", i)?;
        operand.value.push_to(out)?;
    }
    push_bytes(out, b")")
}

/// Puts a number behind `lead`, where there is one.
pub(crate) fn push_number(
    out: &mut Vec<u8>,
    lead: &[u8],
    number: Option<i64>,
) -> Result<(), Exhausted>
    ensures { OnOk result (out.new.items ≡ out.old.items ++ if_there lead.now signed_decimal number) }
{
    match number {
        Some(number) => {
            push_bytes(out, lead)?;
            push_signed(out, number)
        }
        None => Ok(()),
    }
}

/// Puts a text in quotes behind `lead`, where there is one.
pub(crate) fn push_quoted(
    out: &mut Vec<u8>,
    lead: &[u8],
    text: &Option<Boxed<Text>>,
) -> Result<(), Exhausted>
    ensures { OnOk result (out.new.items ≡ out.old.items ++ if_there lead.now quoted text.now) }
{
    match text {
        Some(text) => {
            push_bytes(out, lead)?;
            push_bytes(out, b"\"")?;
            push_bytes(out, text.get().as_slice())?;
            push_bytes(out, b"\"")
        }
        None => Ok(()),
    }
}

/// Puts the name of a function behind `lead`, where one is named.
pub(crate) fn push_callee(
    out: &mut Vec<u8>,
    lead: &[u8],
    functions: &[Function],
    function: Option<FuncId>,
) -> Result<(), Exhausted>
    ensures { OnOk result (out.new.items ≡ out.old.items ++ if_there lead.now (function_name functions.now) function) }
{
    match function {
        Some(function) => {
            push_bytes(out, lead)?;
            push_function_name(out, functions, function)
        }
        None => Ok(()),
    }
}

/// Puts `@f`, by the place of `f` among the functions.
pub(crate) fn push_function_name(
    out: &mut Vec<u8>,
    functions: &[Function],
    function: FuncId,
) -> Result<(), Exhausted>
    ensures { OnOk result (out.new.items ≡ out.old.items ++ function_name functions.now function) }
{
    match functions.get(function.0 as usize) {
        Some(function) => {
            push_bytes(out, b"@")?;
            push_bytes(out, function.name.as_slice())
        }
        None => Ok(()),
    }
}

/// Puts a member behind `lead`, where there is one.
pub(crate) fn push_member(
    out: &mut Vec<u8>,
    lead: &[u8],
    op: Op,
    member: &Option<Boxed<Member>>,
) -> Result<(), Exhausted>
    ensures { OnOk result (out.new.items ≡ out.old.items ++ if_there lead.now (member_text op) member.now) }
{
    match member {
        Some(member) => {
            push_bytes(out, lead)?;
            match detail_of(op) {
                Detail::Case => push_case_name(out, member.get()),
                Detail::Field
                | Detail::NoDetail
                | Detail::Literal
                | Detail::Element
                | Detail::Operation
                | Detail::Message => push_field_name(out, member.get()),
            }
        }
        None => Ok(()),
    }
}

fn push_field_name(out: &mut Vec<u8>, member: &Member) -> Result<(), Exhausted>
    ensures { OnOk result (out.new.items ≡ out.old.items ++ field_name member.now) }
{
    push_bytes(out, b"#")?;
    push_bytes(out, member.owner.as_slice())?;
    push_bytes(out, b".")?;
    push_bytes(out, member.name.as_slice())
}

pub(crate) fn push_case_name(out: &mut Vec<u8>, member: &Member) -> Result<(), Exhausted>
    ensures { OnOk result (out.new.items ≡ out.old.items ++ case_name member.now) }
{
    push_field_name(out, member)?;
    push_bytes(out, b"!enumelt")
}
