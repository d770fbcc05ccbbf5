//! What members of types find: fields of structs and classes, and cases of enums.

ghost use Rattle.std.specs.Prelude.{◌≡◌, option_map};
ghost use Rattle.std.specs.Option.{option_copied};
ghost use Rattle.sil_ast.specs.declared.type_name.TypeName.{out-TypeName};
ghost use Rattle.sil_types_declarations.specs.TypeDeclarations.inner.Found.{payload_told};
ghost use Rattle.sil_types.specs.Typing.Shapes as shapes;

use crate::table::TypeTable;
use sil_ast::{Decl, Field, Member, TypeName};
use sil_types_declarations::PayloadRef;

/// The fields of a type that is a struct.
pub fn fields_of_struct<'t>(table: &'t TypeTable, ty: &TypeName) -> Option<&'t [Field]>
    ensures { option_copied result ≡ shapes.fields_of_struct table.now ty.now }
{
    match ty {
        TypeName::Named(name) => match table.decl(name) {
            Some(Decl::Struct { fields, .. }) => Some(fields.as_slice()),
            _ => None,
        },
        _ => None,
    }
}

/// The fields of a type that is a class.
fn fields_of_class<'t>(table: &'t TypeTable, ty: &TypeName) -> Option<&'t [Field]>
    ensures { option_copied result ≡ shapes.fields_of_class table.now ty.now }
{
    match ty {
        TypeName::Named(name) => match table.decl(name) {
            Some(Decl::Class { fields, .. }) => Some(fields.as_slice()),
            _ => None,
        },
        _ => None,
    }
}

fn is_owner(member: &Member, ty: &TypeName) -> bool
    ensures { result ≡ shapes.is_owner member.now ty.now }
{
    match ty {
        TypeName::Named(name) => *name == member.owner,
        _ => false,
    }
}

fn field_named<'t>(table: &'t TypeTable, member: &Member) -> Option<&'t Field>
    ensures { option_copied result ≡ shapes.field_named table.now member.now }
{
    match table.field(&member.owner, &member.name) {
        Some(found) => Some(found.field),
        None => None,
    }
}

/// The field `#S.f` of a type that is the struct S.
pub fn struct_field<'t>(table: &'t TypeTable, member: &Member, ty: &TypeName) -> Option<&'t Field>
    ensures { option_copied result ≡ shapes.struct_field table.now member.now ty.now }
{
    if is_owner(member, ty) && fields_of_struct(table, ty).is_some() {
        field_named(table, member)
    } else {
        None
    }
}

/// The field `#C.f` of a type that is the class C.
pub fn class_field<'t>(table: &'t TypeTable, member: &Member, ty: &TypeName) -> Option<&'t Field>
    ensures { option_copied result ≡ shapes.class_field table.now member.now ty.now }
{
    if is_owner(member, ty) && fields_of_class(table, ty).is_some() {
        field_named(table, member)
    } else {
        None
    }
}

fn is_case_owner(member: &Member, ty: &TypeName) -> bool
    ensures { result ≡ shapes.is_case_owner_layer member.now.owner (out-TypeName ty.now) }
{
    match ty {
        TypeName::Named(name) => *name == member.owner,
        TypeName::Optional(_) => member.owner.as_slice() == b"Optional".as_slice(),
        _ => false,
    }
}

/// The case `#E.c` of a type that is the enum E, with its place and its payload.
pub fn case_in<'t>(
    table: &'t TypeTable,
    member: &Member,
    ty: &'t TypeName,
) -> Option<PayloadRef<'t>>
    ensures { option_map payload_told result ≡ shapes.case_in table.now member.now ty.now }
{
    if is_case_owner(member, ty) {
        table.payload(ty, &member.name)
    } else {
        None
    }
}
