//! The measures of types, from those of the declarations.

ghost use Rattle.std.specs.Prelude.{◌≡◌, ◌++◌, List, [], ◌∷◌, length, map};
ghost use Rattle.std.specs.Option.{option_to_list};
ghost use Rattle.std.specs.List.{flat_map};
ghost use Rattle.sil_types_declarations.specs.TypeDefinitions.Contained.{field_type, payload_types};
ghost use Rattle.sil_types_declarations.specs.TypeDefinitions.Declarations.{all_names};
ghost use Rattle.sil_types_declarations.specs.TypeDefinitions.Measures as measures;
ghost use Rattle.sil_types_declarations.specs.TypeDefinitions.Measures.{measure_at, measure_with, of_storage};
ghost use Rattle.sil_types_declarations.specs.TypeDefinitions.Mentions.{direct_type, direct_types, operand_types, together};
ghost use Rattle.sil_types_declarations.specs.declared.type_definitions.measure.Measure.{Measure};
ghost use Rattle.sil_types_items.specs.TypeMeasures.inner.Gathered as spec;
ghost use Rattle.sil_types_items.specs.TypeMeasures.inner.Gathered.{capped, gathered, with_members};

use crate::type_measures::gathered::{Gathered, MOST_DEPTH, MOST_LEAVES};
use argument_conventions::direct_count;
use sil_ast::{Case, Decl, Field, Given, Operand, Text, TypeName};
use sil_types_declarations::{DeclarationTable, Measure};

/// Of the declaration at a place, where there is one.
fn known_at(known: &[Measure], place: usize) -> Measure
    ensures { result ≡ capped (spec.known_at known.now place) }
{
    match known.get(place) {
        Some(measure) => Measure {
            trivial: measure.trivial,
            leaves: measure.leaves.min(MOST_LEAVES),
            depth: measure.depth.min(MOST_DEPTH),
        },
        None => Measure {
            trivial: true,
            leaves: 0,
            depth: 0,
        },
    }
}

/// Of a name, by the measures of the declarations.
pub fn measure_name(table: &DeclarationTable, known: &[Measure], name: &Text) -> Measure
    ensures { result ≡ capped (measure_at (all_names table.now) known.now name.now) }
{
    match table.place(name) {
        Some(place) => known_at(known, place),
        None => Measure {
            trivial: true,
            leaves: 0,
            depth: 0,
        },
    }
}

/// Of a type, by the measures of the declarations. Leaves and depth are counted just past the limits.
#[cycle(measure)]
pub fn measure_type(table: &DeclarationTable, known: &[Measure], ty: &TypeName) -> Measure
    ensures { result ≡ capped (measure_with (measure_at (all_names table.now) known.now) ty.now) }
{
    match ty {
        TypeName::Int(_) => Measure {
            trivial: true,
            leaves: 1,
            depth: 1,
        },
        TypeName::Named(name) => measure_name(table, known, name),
        TypeName::Optional(target) => {
            Gathered::new()
                .and(measure_type(table, known, target.get()))
                .as_payloads()
        }
        TypeName::Tuple(elements) => {
            gather_elements(table, known, elements.get().as_slice()).as_members()
        }
        TypeName::Weak(target) => as_storage(measure_type(table, known, target.get())),
        TypeName::Unowned(target) => as_storage(measure_type(table, known, target.get())),
        TypeName::Address(target) => measure_type(table, known, target.get()),
    }
}

#[cycle(measure)]
fn gather_elements(table: &DeclarationTable, known: &[Measure], elements: &[TypeName]) -> Gathered
    ensures { result ≡ gathered (map (measure_with (measure_at (all_names table.now) known.now)) elements.now) }
{
    let mut all = Gathered::new();
    for element in elements {
        all = all.and(measure_type(table, known, element));
    }
    all
}

/// Of weak or unowned storage of something.
fn as_storage(target: Measure) -> Measure
    ensures { (m : Measure) → target ≡ capped m → result ≡ capped (of_storage m) }
{
    Measure {
        trivial: false,
        leaves: 1,
        depth: target.depth.saturating_add(1).min(MOST_DEPTH),
    }
}

fn gather_fields(table: &DeclarationTable, known: &[Measure], fields: &[Field]) -> Gathered
    ensures { result ≡ gathered (map (measure_with (measure_at (all_names table.now) known.now)) (map field_type fields.now)) }
{
    let mut all = Gathered::new();
    for field in fields {
        all = all.and(measure_type(table, known, &field.ty));
    }
    all
}

fn gather_payloads(table: &DeclarationTable, known: &[Measure], cases: &[Case]) -> Gathered
    ensures { result ≡ gathered (map (measure_with (measure_at (all_names table.now) known.now)) (flat_map payload_types cases.now)) }
{
    let mut all = Gathered::new();
    for case in cases {
        all = with_payload(table, known, all, &case.payload);
    }
    all
}

fn with_payload(
    table: &DeclarationTable,
    known: &[Measure],
    all: Gathered,
    payload: &Option<TypeName>,
) -> Gathered
    ensures { (ms : List Measure) → all ≡ gathered ms
        → result ≡ gathered (ms ++ map (measure_with (measure_at (all_names table.now) known.now)) (option_to_list payload.now)) }
{
    match payload {
        Some(payload) => all.and(measure_type(table, known, payload)),
        None => all,
    }
}

/// Of a declared type, by the measures of the declarations that it holds.
pub(crate) fn measure_decl(table: &DeclarationTable, known: &[Measure], decl: &Decl) -> Measure
    ensures { result ≡ capped (measures.measure_decl (measure_at (all_names table.now) known.now) decl.now) }
{
    match decl {
        Decl::Struct { fields, .. } => gather_fields(table, known, fields.as_slice()).as_members(),
        Decl::Enum { cases, .. } => gather_payloads(table, known, cases.as_slice()).as_payloads(),
        Decl::Class { .. } => Measure {
            trivial: false,
            leaves: 1,
            depth: 1,
        },
    }
}

fn gather_results(table: &DeclarationTable, known: &[Measure], results: &[Given]) -> Gathered
    ensures { result ≡ gathered (map (measure_with (measure_at (all_names table.now) known.now)) (direct_types results.now)) }
{
    let mut all = Gathered::new();
    for given in results {
        all = with_result(table, known, all, given);
    }
    all
}

fn with_result(
    table: &DeclarationTable,
    known: &[Measure],
    all: Gathered,
    given: &Given,
) -> Gathered
    ensures { result ≡ with_members all (map (measure_with (measure_at (all_names table.now) known.now)) (direct_types (given.now ∷ []))) }
{
    if given.out {
        all
    } else {
        all.and(measure_type(table, known, &given.ty))
    }
}

/// Of the type that a signature with these results gives.
pub fn measure_results(table: &DeclarationTable, known: &[Measure], results: &[Given]) -> Measure
    ensures { result ≡ capped (measure_with (measure_at (all_names table.now) known.now) (direct_type results.now)) }
{
    let all = gather_results(table, known, results);
    if direct_count(results) == 1 {
        return all.as_itself();
    }
    all.as_members()
}

/// What the operands' types come to, an address as its target.
fn gather_operands(table: &DeclarationTable, known: &[Measure], operands: &[Operand]) -> Gathered
    ensures { result ≡ gathered (map (measure_with (measure_at (all_names table.now) known.now)) (flat_map operand_types operands.now)) }
{
    let mut all = Gathered::new();
    for operand in operands {
        all = with_operand(table, known, all, operand);
    }
    all
}

fn with_operand(
    table: &DeclarationTable,
    known: &[Measure],
    all: Gathered,
    operand: &Operand,
) -> Gathered
    ensures { (ms : List Measure) → all ≡ gathered ms
        → result ≡ gathered (ms ++ map (measure_with (measure_at (all_names table.now) known.now)) (operand_types operand.now)) }
{
    match &operand.ty {
        Some(ty) => all.and(measure_type(table, known, ty)),
        None => all,
    }
}

fn typed_count(operands: &[Operand]) -> usize
    ensures { result ≡ length (flat_map operand_types operands.now) }
{
    let mut count = 0;
    for operand in operands {
        if operand.ty.is_some() {
            count += 1;
        }
    }
    count
}

/// Of the type that a `tuple` instruction with these operands mentions.
pub fn measure_operands(
    table: &DeclarationTable,
    known: &[Measure],
    operands: &[Operand],
) -> Measure
    ensures { result ≡ capped (measure_with (measure_at (all_names table.now) known.now) (together (flat_map operand_types operands.now))) }
{
    let all = gather_operands(table, known, operands);
    if typed_count(operands) == 1 {
        return all.as_itself();
    }
    all.as_members()
}
