//! A returned value, written as one of its type.

ghost use Rattle.std.specs.Prelude.{◌≡◌, ◌++◌, OnOk, map, option_map};
ghost use Rattle.std.specs.Option.{option_copied};
ghost use Rattle.holder_model.specs.RunReport.ReportLines.{class_among};
ghost use Rattle.holder_model.specs.RunReport.ValueTexts.{if_integer, if_object, object_text};
ghost use Rattle.holder_model_values.specs.RunValues.Values.{integer_of, object_of};
ghost use Rattle.module_runner_report.specs.RunOutcomes.{value_of};
ghost use Rattle.module_runner_report.specs.inner.Layers.{case_told, cases_in, types_in};
ghost use Rattle.module_runner_report.specs.inner.Texts.{AreOfRunnable, case_text, chosen_text, group_text, member_text, members_text, payload_text, text_of};

use crate::layers::{CaseType, CaseTypes, MemberTypes, TypeLayer, layer_of};
use crate::pieces::{push_bytes, push_number, push_separator, push_signed};
use holder_model::LeftObject;
use holder_model_values::Val;
use sil_ast::{Boxed, Exhausted, ObjectId, TypeName};
use sil_types::TypeTable;

/// What the text of a value names: what is declared, and the objects that are left, which have the classes of references.
#[derive(Clone, Copy)]
pub(crate) struct Names<'a> {
    pub(crate) table: &'a TypeTable,
    pub(crate) left: &'a [LeftObject],
}

/// Puts a value of a type.
#[cycle(write)]
pub(crate) fn push_value(
    out: &mut Vec<u8>,
    names: &Names<'_>,
    value: &Val,
    ty: &TypeName,
) -> Result<(), Exhausted>
    requires { AreOfRunnable names.now.table.now }
    ensures { OnOk result (out.new.items ≡ out.old.items ++ text_of names.now.table.now names.now.left.now ty.now (value_of value.now)) }
{
    match layer_of(names.table, ty) {
        TypeLayer::Integer => push_integer(out, value),
        TypeLayer::Reference => push_reference(out, names.left, value),
        TypeLayer::Group { name, types } => {
            push_bytes(out, name)?;
            push_group(out, names, value, &types)
        }
        TypeLayer::Enum { name, cases } => {
            push_bytes(out, name)?;
            push_case(out, names, value, &cases)
        }
        TypeLayer::Unknown => Ok(()),
    }
}

/// Puts the members of a struct or a tuple, in parentheses.
#[cycle(write)]
fn push_group(
    out: &mut Vec<u8>,
    names: &Names<'_>,
    value: &Val,
    types: &MemberTypes<'_>,
) -> Result<(), Exhausted>
    requires { AreOfRunnable names.now.table.now }
    ensures { OnOk result (out.new.items ≡ out.old.items ++ group_text names.now.table.now names.now.left.now (types_in types.now) (value_of value.now)) }
{
    match value {
        Val::Group(members) => {
            push_bytes(out, b"(")?;
            push_members(out, names, members.get().as_slice(), types)?;
            push_bytes(out, b")")
        }
        Val::Int(_) => push_bytes(out, b"()"),
        Val::Object(_) => push_bytes(out, b"()"),
        Val::Chosen { .. } => push_bytes(out, b"()"),
    }
}

/// Puts members of these types, with a comma between two.
#[cycle(write)]
fn push_members(
    out: &mut Vec<u8>,
    names: &Names<'_>,
    members: &[Val],
    types: &MemberTypes<'_>,
) -> Result<(), Exhausted>
    requires { AreOfRunnable names.now.table.now }
    ensures { OnOk result (out.new.items ≡ out.old.items
        ++ members_text names.now.table.now names.now.left.now (types_in types.now) (map value_of members.now)) }
{
    for (i, member) in members.iter().enumerate() {
        push_member(out, names, member, types.get(i), i)?;
    }
    Ok(())
}

/// Puts the i-th member, if there is a type for it.
#[cycle(write)]
fn push_member(
    out: &mut Vec<u8>,
    names: &Names<'_>,
    member: &Val,
    ty: Option<&TypeName>,
    i: usize,
) -> Result<(), Exhausted>
    requires { AreOfRunnable names.now.table.now }
    ensures { OnOk result (out.new.items ≡ out.old.items
        ++ member_text names.now.table.now names.now.left.now i (value_of member.now) (option_copied ty.entry)) }
{
    match ty {
        Some(ty) => {
            push_separator(out, i)?;
            push_value(out, names, member, ty)
        }
        None => Ok(()),
    }
}

/// Puts the case that an enum with these cases is in.
#[cycle(write)]
fn push_case(
    out: &mut Vec<u8>,
    names: &Names<'_>,
    value: &Val,
    cases: &CaseTypes<'_>,
) -> Result<(), Exhausted>
    requires { AreOfRunnable names.now.table.now }
    ensures { OnOk result (out.new.items ≡ out.old.items ++ case_text names.now.table.now names.now.left.now (cases_in cases.now) (value_of value.now)) }
{
    match value {
        Val::Chosen {
            case_index,
            payload,
        } => match cases.get(*case_index) {
            Some(case) => push_chosen(out, names, payload, &case),
            None => Ok(()),
        },
        Val::Int(_) | Val::Object(_) | Val::Group(_) => Ok(()),
    }
}

/// Puts a case with its payload, if it has one.
#[cycle(write)]
fn push_chosen(
    out: &mut Vec<u8>,
    names: &Names<'_>,
    payload: &Option<Boxed<Val>>,
    case: &CaseType<'_>,
) -> Result<(), Exhausted>
    requires { AreOfRunnable names.now.table.now }
    ensures { OnOk result (out.new.items ≡ out.old.items
        ++ chosen_text names.now.table.now names.now.left.now (case_told case.now) (option_map value_of payload.now)) }
{
    push_bytes(out, b".")?;
    push_bytes(out, case.name)?;
    match case.payload {
        Some(ty) => push_payload(out, names, payload, ty),
        None => Ok(()),
    }
}

/// Puts a payload of a type, in parentheses.
#[cycle(write)]
fn push_payload(
    out: &mut Vec<u8>,
    names: &Names<'_>,
    payload: &Option<Boxed<Val>>,
    ty: &TypeName,
) -> Result<(), Exhausted>
    requires { AreOfRunnable names.now.table.now }
    ensures { OnOk result (out.new.items ≡ out.old.items ++ payload_text names.now.table.now names.now.left.now ty.now (option_map value_of payload.now)) }
{
    match payload {
        Some(payload) => {
            push_bytes(out, b"(")?;
            push_value(out, names, payload.get(), ty)?;
            push_bytes(out, b")")
        }
        None => Ok(()),
    }
}

fn push_integer(out: &mut Vec<u8>, value: &Val) -> Result<(), Exhausted>
    ensures { OnOk result (out.new.items ≡ out.old.items ++ if_integer (integer_of (value_of value.now))) }
{
    match value {
        Val::Int(number) => push_signed(out, *number),
        Val::Object(_) | Val::Group(_) | Val::Chosen { .. } => Ok(()),
    }
}

/// Puts a reference with the class of its object.
fn push_reference(out: &mut Vec<u8>, left: &[LeftObject], value: &Val) -> Result<(), Exhausted>
    ensures { OnOk result (out.new.items ≡ out.old.items ++ if_object (class_among left.now) (object_of (value_of value.now))) }
{
    match value {
        Val::Object(object) => push_object(out, class_name(left, *object), *object),
        Val::Int(_) | Val::Group(_) | Val::Chosen { .. } => Ok(()),
    }
}

/// The class that was allocated of an object that is left.
fn class_name(left: &[LeftObject], object: ObjectId) -> &[u8]
    ensures { result.now ≡ class_among left.now object }
{
    match left.iter().find(|x| x.object.0 == object.0) {
        Some(x) => x.class_name.as_slice(),
        None => b"",
    }
}

/// Puts `NAME#3`.
pub(crate) fn push_object(
    out: &mut Vec<u8>,
    class: &[u8],
    object: ObjectId,
) -> Result<(), Exhausted>
    ensures { OnOk result (out.new.items ≡ out.old.items ++ object_text class.now object) }
{
    push_bytes(out, class)?;
    push_number(out, b"#", object.0)
}
