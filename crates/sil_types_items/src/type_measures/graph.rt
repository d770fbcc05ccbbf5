//! For each declaration the places of those that it holds or inherits from.

ghost use Rattle.std.specs.Prelude.{◌≡◌, ◌++◌, map, IfOk, OnOk};
ghost use Rattle.std.specs.List.{flat_map};
ghost use Rattle.std.specs.Option.{option_to_list};
ghost use Rattle.sil_types_declarations.specs.number_tables.ContainmentOrder.Chains.{IsInRange};
ghost use Rattle.sil_types_declarations.specs.TypeDefinitions.Contained as contained;
ghost use Rattle.sil_types_declarations.specs.TypeDefinitions.Contained.{class_list, field_type, lower_places, names_in, payload_types, place_list};
ghost use Rattle.sil_types_declarations.specs.TypeDefinitions.Declarations.{all_names};
ghost use Rattle.sil_types_items.specs.TypeMeasures.inner.Places.{places_in};

use sil_ast::{Case, Decl, Exhausted, Field, List, Text, TypeName};
use sil_types_declarations::DeclarationTable;
use std::alloc::Global;

/// For each declaration the places of those that it holds, a name as often as it stands there, and of a class that of its superclass.
pub fn containment(alloc: Global, table: &DeclarationTable) -> Result<List<List<usize>>, Exhausted>
    ensures graph { IfOk result (λ graph. graph ≡ contained.containment table.now) }
    ensures range { IfOk result IsInRange }
{
    let mut graph = List::new(alloc);
    for decl in table.decls() {
        graph.push(lower_places(alloc, table, decl)?)?;
    }
    Ok(graph)
}

fn lower_places(
    alloc: Global,
    table: &DeclarationTable,
    decl: &Decl,
) -> Result<List<usize>, Exhausted>
    ensures { IfOk result (λ places. places ≡ lower_places table.now decl.now) }
{
    match decl {
        Decl::Struct { fields, .. } => field_places(alloc, table, fields.as_slice()),
        Decl::Enum { cases, .. } => payload_places(alloc, table, cases.as_slice()),
        Decl::Class {
            superclass: Some(name),
            ..
        } => superclass_places(alloc, table, name),
        Decl::Class { .. } => Ok(List::new(alloc)),
    }
}

/// The place of a superclass, where it is a class.
fn superclass_places(
    alloc: Global,
    table: &DeclarationTable,
    name: &Text,
) -> Result<List<usize>, Exhausted>
    ensures { IfOk result (λ places. places ≡ class_list table.now name.now) }
{
    let mut places = List::new(alloc);
    if table.is_class(name) {
        if let Some(place) = table.place(name) {
            places.push(place)?;
        }
    }
    Ok(places)
}

fn field_places(
    alloc: Global,
    table: &DeclarationTable,
    fields: &[Field],
) -> Result<List<usize>, Exhausted>
    ensures { IfOk result (λ places. places ≡ flat_map (place_list (all_names table.now)) (flat_map names_in (map field_type fields.now))) }
{
    let mut places = List::new(alloc);
    for field in fields {
        add_places(&mut places, table, &field.ty)?;
    }
    Ok(places)
}

fn payload_places(
    alloc: Global,
    table: &DeclarationTable,
    cases: &[Case],
) -> Result<List<usize>, Exhausted>
    ensures { IfOk result (λ places. places ≡ flat_map (place_list (all_names table.now)) (flat_map names_in (flat_map payload_types cases.now))) }
{
    let mut places = List::new(alloc);
    for case in cases {
        add_payload(&mut places, table, &case.payload)?;
    }
    Ok(places)
}

fn add_payload(
    places: &mut List<usize>,
    table: &DeclarationTable,
    payload: &Option<TypeName>,
) -> Result<(), Exhausted>
    ensures { OnOk result (places.new ≡ places.old ++ flat_map (places_in (all_names table.now)) (option_to_list payload.now)) }
{
    match payload {
        Some(payload) => add_places(places, table, payload),
        None => Ok(()),
    }
}

/// Adds the places of the names that the type is made of.
#[cycle(places)]
#[tactic(auto, using(crate::proofs::TypeMeasures::Placing::by_form))]
fn add_places(
    places: &mut List<usize>,
    table: &DeclarationTable,
    ty: &TypeName,
) -> Result<(), Exhausted>
    ensures { OnOk result (places.new ≡ places.old ++ places_in (all_names table.now) ty.now) }
{
    match ty {
        TypeName::Int(_) => Ok(()),
        TypeName::Named(name) => match table.place(name) {
            Some(place) => places.push(place),
            None => Ok(()),
        },
        TypeName::Optional(target) => add_places(places, table, target.get()),
        TypeName::Tuple(elements) => add_all_places(places, table, elements.get().as_slice()),
        TypeName::Weak(target) => add_places(places, table, target.get()),
        TypeName::Unowned(target) => add_places(places, table, target.get()),
        TypeName::Address(target) => add_places(places, table, target.get()),
    }
}

#[cycle(places)]
fn add_all_places(
    places: &mut List<usize>,
    table: &DeclarationTable,
    elements: &[TypeName],
) -> Result<(), Exhausted>
    ensures { OnOk result (places.new ≡ places.old ++ flat_map (places_in (all_names table.now)) elements.now) }
{
    for element in elements {
        add_places(places, table, element)?;
    }
    Ok(())
}
