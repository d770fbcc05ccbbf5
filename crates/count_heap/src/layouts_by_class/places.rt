//! The places of one class's fields.

ghost use Rattle.std.specs.Prelude.{◌≡◌, ◌<◌, ◌+◌, ◌^◌, ◌++◌, ◌∷◌, [], OnOk, IfOk, Some, map};
ghost use Rattle.std.specs.Option.{option_copied};
ghost use Rattle.sil_types.specs.sil_types_declarations.TypeDefinitions.Declarations.{chain};
ghost use Rattle.sil_types.specs.sil_types_declarations.TypeDefinitions.Lookups.{chain_fields, class_named, fields_of};
ghost use Rattle.sil_types.specs.numbered_form.Lists.{Each};
ghost use Rattle.count_heap.specs.LayoutsByClass.ClassFields.{AreFieldsInLimits, IsFieldInLimits, field_leaves, named_fields};
ghost use Rattle.count_heap.specs.LayoutsByClass.Layouts.{places_from, size_of};

use crate::layouts_by_class::field_place::FieldPlace;
use crate::layouts_by_class::fields::count_of_field;
use sil_ast::{Decl, Exhausted, Field, Text};
use sil_rules::limits::DEPTH;
use sil_types::TypeTable;
use std::alloc::Global;

/// The places of some fields, and how many leaves they take.
#[derive(Drop)]
pub(crate) struct Places {
    pub places: Vec<FieldPlace>,
    pub size: u32,
}

/// A field with so many leaves lies behind the others.
fn add_field(places: &mut Places, count: u32) -> Result<(), Exhausted>
    requires { places.old.size + count + 1 < 2 ^ 32 }
    ensures places { OnOk result (places.new.places.items ≡ places.old.places.items ++ record { from = places.old.size; count = count } ∷ []) }
    ensures size { OnOk result (places.new.size ≡ places.old.size + count + 1) }
{
    let from = places.size;
    places.places.push(FieldPlace { from, count })?;
    places.size = from + count + 1;
    Ok(())
}

/// Fields lie behind the others.
fn add_fields(places: &mut Places, table: &TypeTable, fields: &[Field]) -> Result<(), Exhausted>
    requires limits { Each (IsFieldInLimits table.now) fields.now }
    requires room { places.old.size + size_of (map (field_leaves table.now) fields.now) < 2 ^ 32 }
    ensures places { OnOk result (places.new.places.items ≡ places.old.places.items ++ places_from places.old.size (map (field_leaves table.now) fields.now)) }
    ensures size { OnOk result (places.new.size ≡ places.old.size + size_of (map (field_leaves table.now) fields.now)) }
{
    for field in fields {
        add_field(places, count_of_field(table, field))?;
    }
    Ok(())
}

/// The fields of a class and of those above it lie behind the others, the root's first: so many classes at most.
fn add_chain(
    places: &mut Places,
    table: &TypeTable,
    most: u32,
    class: Option<&Text>,
) -> Result<(), Exhausted>
    requires limits { AreFieldsInLimits table.now }
    requires room { places.old.size + size_of (map (field_leaves table.now) (chain_fields table.now (chain table.now most (option_copied class))))
        < 2 ^ 32 }
    ensures places { OnOk result (places.new.places.items ≡ places.old.places.items ++ places_from places.old.size (map (field_leaves table.now)
        (chain_fields table.now (chain table.now most (option_copied class.entry))))) }
    ensures size { OnOk result (places.new.size ≡ places.old.size + size_of (map (field_leaves table.now) (chain_fields table.now (chain table.now most
        (option_copied class.entry))))) }
{
    let Some(class) = class else {
        return Ok(());
    };
    if most == 0 {
        return Ok(());
    }
    add_chain(places, table, most - 1, table.superclass(class))?;
    add_fields(places, table, table.own_fields(class))?;
    Ok(())
}

/// The places of a class's fields, those of its ancestors first.
pub(crate) fn places_of(alloc: Global, table: &TypeTable, class: &Text) -> Result<Places, Exhausted>
    requires { AreFieldsInLimits table.now }
    ensures places { IfOk result (λ p. p.places.items ≡ places_from 0 (map (field_leaves table.now) (fields_of table.now class.now))) }
    ensures size { IfOk result (λ p. p.size ≡ size_of (map (field_leaves table.now) (fields_of table.now class.now))) }
{
    let mut places = Places {
        places: Vec::new(alloc),
        size: 0,
    };
    add_chain(&mut places, table, DEPTH, table.superclass(class))?;
    add_fields(&mut places, table, table.own_fields(class))?;
    Ok(places)
}

/// The places of a declaration's fields, where it is a class.
pub(crate) fn places_of_decl(
    alloc: Global,
    table: &TypeTable,
    decl: &Decl,
) -> Result<Places, Exhausted>
    requires { AreFieldsInLimits table.now }
    ensures places { IfOk result (λ p. p.places.items ≡ places_from 0 (map (field_leaves table.now) (named_fields table.now (class_named (Some decl.now))))) }
    ensures size { IfOk result (λ p. p.size ≡ size_of (map (field_leaves table.now) (named_fields table.now (class_named (Some decl.now))))) }
{
    match decl {
        Decl::Class { name, .. } => places_of(alloc, table, name),
        Decl::Struct { .. } | Decl::Enum { .. } => Ok(Places {
            places: Vec::new(alloc),
            size: 0,
        }),
    }
}
