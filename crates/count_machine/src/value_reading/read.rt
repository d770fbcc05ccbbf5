//! A value from its leaves, level by level.

ghost use Rattle.std.specs.Prelude.{◌≡◌, ◌+◌, [], Some, map, option_map, IfOk};
ghost use Rattle.std.specs.List.{flat_map};
ghost use Rattle.std.specs.Option.{option_to_list};
ghost use Rattle.numbered_form.specs.Lists.{Each};
ghost use Rattle.holder_model.specs.RunTyping.Runnable.{IsRunnable};
ghost use Rattle.holder_model_values.specs.RunValues.Shapes as shape;
ghost use Rattle.holder_model_values.specs.RunValues.Shapes.{cases_of, members_of, shape_of};
ghost use Rattle.sil_ast.specs.declared.module.Module.{Module};
ghost use Rattle.sil_ast.specs.declared.type_name.TypeName.TheVariants as type_of;
ghost use Rattle.sil_types_declarations.specs.TypeDefinitions.Contained.{field_type, payload_types};
ghost use Rattle.sil_types_declarations.specs.TypeDefinitions.Declarations.{declarations_of};
ghost use Rattle.count_machine.specs.ValueReading.inner.Reading.{IsValueOf, IsWithinLimits};
ghost use Rattle.count_machine.specs.ValueReading.inner.Levels.{IsReadable};
ghost use Rattle.count_machine.specs.ValueReading.inner.Payloads.{IsCaseOf, case_layer_of, optional_of};

use crate::value_reading::leaves::{first_leaves, leaf_count, leaves_behind};
use crate::value_reading::single::{integer_at, no_value, object_at, weak_at};
use holder_model_values::{Leaf, Val};
use sil_ast::{Boxed, Case, Decl, Exhausted, Field, List, Text, TypeName};
use sil_rules::limits::DEPTH;
use sil_types::TypeTable;
use std::alloc::Global;

/// The value of a type that has these leaves, and any value where none has them.
pub fn read_value(
    alloc: Global,
    table: &TypeTable,
    ty: &TypeName,
    leaves: &[Leaf],
) -> Result<Val, Exhausted>
    ensures { (m : Module) → IsRunnable m → table.now ≡ declarations_of m → IsWithinLimits table.now ty.now
        → IfOk result (IsValueOf (shape_of table.now ty.now) leaves.now) }
{
    read_type(alloc, table, DEPTH + 1, ty, leaves)
}

/// The value of a type whose values have fewer levels than these.
#[cycle(read)]
pub(crate) fn read_type(
    alloc: Global,
    table: &TypeTable,
    levels: u32,
    ty: &TypeName,
    leaves: &[Leaf],
) -> Result<Val, Exhausted>
    ensures { IsReadable table.now levels ty.now → IfOk result (IsValueOf (shape_of table.now ty.now) leaves.now) }
{
    if levels == 0 {
        return Ok(no_value());
    }
    match ty {
        TypeName::Int(_) => Ok(integer_at(leaves)),
        TypeName::Named(name) => read_named(alloc, table, levels - 1, name, leaves),
        TypeName::Optional(target) => {
            read_optional(alloc, table, levels - 1, target.get(), leaves)
        }
        TypeName::Tuple(elements) => {
            read_elements(alloc, table, levels - 1, elements.get().as_slice(), leaves)
        }
        TypeName::Weak(_) => weak_at(alloc, leaves),
        TypeName::Unowned(_) => Ok(object_at(leaves)),
        TypeName::Address(_) => Ok(no_value()),
    }
}

/// The value of a declared type.
#[cycle(read)]
fn read_named(
    alloc: Global,
    table: &TypeTable,
    levels: u32,
    name: &Text,
    leaves: &[Leaf],
) -> Result<Val, Exhausted>
    ensures { IsReadable table.now (levels + 1) (type_of.Named name.now)
        → IfOk result (IsValueOf (shape_of table.now (type_of.Named name.now)) leaves.now) }
{
    match table.decl(name) {
        Some(Decl::Struct { fields, .. }) => {
            read_fields(alloc, table, levels, fields.as_slice(), leaves)
        }
        Some(Decl::Enum { cases, .. }) => read_case(alloc, table, levels, cases.as_slice(), leaves),
        Some(Decl::Class { .. }) => Ok(object_at(leaves)),
        None => Ok(no_value()),
    }
}

/// The value of a struct with these fields.
#[cycle(read)]
fn read_fields(
    alloc: Global,
    table: &TypeTable,
    levels: u32,
    fields: &[Field],
    leaves: &[Leaf],
) -> Result<Val, Exhausted>
    ensures { Each (IsReadable table.now levels) (map field_type fields.now)
        → IfOk result (IsValueOf (shape.Tuple (members_of (map (shape_of table.now) (map field_type fields.now)))) leaves.now) }
{
    let mut members = List::new(alloc);
    let mut rest = leaves;
    for field in fields {
        let count = leaf_count(table, &field.ty);
        let member = read_type(alloc, table, levels, &field.ty, first_leaves(rest, count))?;
        members.push(member)?;
        rest = leaves_behind(rest, count);
    }
    Ok(Val::Group(Boxed::new(alloc, members)?))
}

/// The value of a tuple of these types.
#[cycle(read)]
fn read_elements(
    alloc: Global,
    table: &TypeTable,
    levels: u32,
    elements: &[TypeName],
    leaves: &[Leaf],
) -> Result<Val, Exhausted>
    ensures { Each (IsReadable table.now levels) elements.now
        → IfOk result (IsValueOf (shape.Tuple (members_of (map (shape_of table.now) elements.now))) leaves.now) }
{
    let mut members = List::new(alloc);
    let mut rest = leaves;
    for element in elements {
        let count = leaf_count(table, element);
        let member = read_type(alloc, table, levels, element, first_leaves(rest, count))?;
        members.push(member)?;
        rest = leaves_behind(rest, count);
    }
    Ok(Val::Group(Boxed::new(alloc, members)?))
}

/// The value of an enum with these cases.
#[cycle(read)]
fn read_case(
    alloc: Global,
    table: &TypeTable,
    levels: u32,
    cases: &[Case],
    leaves: &[Leaf],
) -> Result<Val, Exhausted>
    ensures { Each (IsReadable table.now levels) (flat_map payload_types cases.now)
        → IfOk result (IsValueOf (shape.Enum [] (cases_of (map (case_layer_of table.now) cases.now))) leaves.now) }
{
    let Some(Leaf::Tag(case_index)) = leaves.first() else {
        return Ok(no_value());
    };
    match cases.get(*case_index as usize) {
        Some(case) => {
            let behind = leaves_behind(leaves, 1);
            read_chosen(alloc, table, levels, *case_index, &case.payload, behind)
        }
        None => Ok(no_value()),
    }
}

/// The value of an Optional of this type.
#[cycle(read)]
fn read_optional(
    alloc: Global,
    table: &TypeTable,
    levels: u32,
    target: &TypeName,
    leaves: &[Leaf],
) -> Result<Val, Exhausted>
    ensures { IsReadable table.now levels target.now
        → IfOk result (IsValueOf (optional_of (shape_of table.now target.now)) leaves.now) }
{
    match leaves.first() {
        Some(Leaf::Tag(0)) => Ok(Val::Chosen {
            case_index: 0,
            payload: None,
        }),
        Some(Leaf::Tag(1)) => {
            read_full(alloc, table, levels, 1, target, leaves_behind(leaves, 1))
        }
        _ => Ok(no_value()),
    }
}

/// The value in the case with this place, by its payload's type and the leaves behind the tag.
#[cycle(read)]
fn read_chosen(
    alloc: Global,
    table: &TypeTable,
    levels: u32,
    case_index: u32,
    payload: &Option<TypeName>,
    leaves: &[Leaf],
) -> Result<Val, Exhausted>
    ensures { Each (IsReadable table.now levels) (option_to_list payload.now)
        → IfOk result (IsCaseOf case_index (option_map (shape_of table.now) payload.now) leaves.now) }
{
    match payload {
        None => Ok(Val::Chosen {
            case_index,
            payload: None,
        }),
        Some(ty) => read_full(alloc, table, levels, case_index, ty, leaves),
    }
}

/// The value in the case with this place, whose payload has this type.
#[cycle(read)]
fn read_full(
    alloc: Global,
    table: &TypeTable,
    levels: u32,
    case_index: u32,
    ty: &TypeName,
    leaves: &[Leaf],
) -> Result<Val, Exhausted>
    ensures { IsReadable table.now levels ty.now → IfOk result (IsCaseOf case_index (Some (shape_of table.now ty.now)) leaves.now) }
{
    let count = leaf_count(table, ty);
    let payload = read_type(alloc, table, levels, ty, first_leaves(leaves, count))?;
    Ok(Val::Chosen {
        case_index,
        payload: Some(Boxed::new(alloc, payload)?),
    })
}
