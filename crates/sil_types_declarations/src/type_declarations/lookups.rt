//! Fields, payloads, deinitialisers and classes, each found by its name or its place.

ghost use Rattle.std.specs.Prelude.{◌≡◌, ◌≤◌, ◌*◌, length, option_map, slice_get};
ghost use Rattle.std.specs.Option.{option_copied};
ghost use Rattle.sil_rules.specs.declared.limits.TheConstants.{DEPTH, MEMBERS};
ghost use Rattle.sil_types_declarations.specs.TypeDefinitions.Declarations.{all_decls, optional_cases, place_of, swift_structs};
ghost use Rattle.sil_types_declarations.specs.TypeDefinitions.Lookups as lookups;
ghost use Rattle.sil_types_declarations.specs.TypeDefinitions.Lookups.{class_place, field_at_place, field_of, payload_at, payload_of};
ghost use Rattle.sil_types_declarations.specs.TypeDeclarations.inner.Found as found;
ghost use Rattle.sil_types_declarations.specs.TypeDeclarations.inner.Found.{field_told, payload_told};

use crate::type_declarations::table::DeclarationTable;
use sil_ast::{Case, Decl, Field, FuncId, Text, TypeName};

/// A field, with its place among all fields of its owner.
#[derive(Drop)]
pub struct FieldRef<'t> {
    pub index: u32,
    pub field: &'t Field,
}

/// A case's place in its enum, and its payload if it has one.
#[derive(Drop)]
pub struct PayloadRef<'t> {
    pub index: u32,
    pub ty: Option<&'t TypeName>,
}

/// The field at a place among these, before which some others stand.
fn field_ref(before: usize, fields: &[Field], place: Option<u32>) -> Option<FieldRef<'_>>
    requires before { before ≤ DEPTH * MEMBERS }
    requires few { length fields.now ≤ MEMBERS }
    ensures { option_map field_told result ≡ field_at_place before fields.now place }
{
    match place {
        Some(index) => match fields.get(index as usize) {
            Some(field) => Some(FieldRef {
                index: before as u32 + index,
                field,
            }),
            None => None,
        },
        None => None,
    }
}

fn payload_ref(cases: &[Case], place: Option<u32>) -> Option<PayloadRef<'_>>
    ensures { option_map payload_told result ≡ payload_at cases.now place }
{
    match place {
        Some(index) => match cases.get(index as usize) {
            Some(case) => Some(PayloadRef {
                index,
                ty: case.payload.as_ref(),
            }),
            None => None,
        },
        None => None,
    }
}

fn optional_payload<'t>(target: &'t TypeName, case_name: &Text) -> Option<PayloadRef<'t>>
    ensures { option_map payload_told result ≡ lookups.optional_payload target.now (place_of optional_cases case_name.now) }
{
    if case_name.as_slice() == b"none".as_slice() {
        return Some(PayloadRef { index: 0, ty: None });
    }
    if case_name.as_slice() == b"some".as_slice() {
        return Some(PayloadRef {
            index: 1,
            ty: Some(target),
        });
    }
    None
}

impl DeclarationTable {
    /// The place of a name among the fields or cases of the declaration at a place.
    fn member_at(&self, place: usize, name: &Text) -> Option<u32>
        ensures { result ≡ found.member_place (slice_get (all_decls self.now) place) name.now }
    {
        match self.members.get(place) {
            Some(members) => members.number(name),
            None => None,
        }
    }

    /// The field with this name that a struct or class declares itself.
    #[tactic(auto, unfolding(crate::specs::TypeDefinitions::Declarations::ancestors_of))]
    pub fn field(&self, owner: &Text, name: &Text) -> Option<FieldRef<'_>>
        ensures { option_map field_told result ≡ field_of self.now owner.now name.now }
    {
        let place = self.names.place(owner)?;
        match self.all.get(place) {
            Some(Decl::Struct { fields, .. }) => {
                field_ref(0, fields.as_slice(), self.member_at(place, name))
            }
            Some(
                Decl::Class {
                    superclass,
                    fields,
                    ..
                },
            ) => {
                let before = self.count_from(superclass.as_ref());
                field_ref(before, fields.as_slice(), self.member_at(place, name))
            }
            Some(Decl::Enum { .. }) => None,
            None => None,
        }
    }

    /// The case with this name of an enum type: `none` and `some` of an Optional, or one that the text declares.
    pub fn payload<'t>(&'t self, ty: &'t TypeName, case_name: &Text) -> Option<PayloadRef<'t>>
        ensures { option_map payload_told result ≡ payload_of self.now ty.now case_name.now }
    {
        match ty {
            TypeName::Optional(target) => optional_payload(target.get(), case_name),
            TypeName::Named(owner) => self.declared_payload(owner, case_name),
            _ => None,
        }
    }

    fn declared_payload(&self, owner: &Text, case_name: &Text) -> Option<PayloadRef<'_>>
        ensures { option_map payload_told result ≡ lookups.declared_payload self.now owner.now case_name.now }
    {
        let place = self.names.place(owner)?;
        match self.all.get(place) {
            Some(Decl::Enum { cases, .. }) => {
                payload_ref(cases.as_slice(), self.member_at(place, case_name))
            }
            Some(Decl::Struct { .. }) => None,
            Some(Decl::Class { .. }) => None,
            None => None,
        }
    }

    /// The deinitialiser that the vtable of a class names.
    pub fn deinit_of(&self, class_name: &Text) -> Option<FuncId>
        ensures { result ≡ lookups.deinit_of self.now class_name.now }
    {
        match self.classes.place(class_name) {
            Some(place) => match self.vtables.get(place) {
                Some(vtable) => match &vtable.entry {
                    Some(entry) => Some(entry.function),
                    None => None,
                },
                None => None,
            },
            None => None,
        }
    }

    fn imported_count(&self) -> u32
        ensures { result ≡ length (swift_structs self.now.swift) }
    {
        if self.swift { 2 } else { 0 }
    }

    /// The place of a class among the declarations of the text.
    pub fn class_index(&self, class_name: &Text) -> Option<u32>
        ensures { result ≡ class_place self.now class_name.now }
    {
        if !self.is_class(class_name) {
            return None;
        }
        match self.names.number(class_name) {
            Some(place) => Some(place.saturating_sub(self.imported_count())),
            None => None,
        }
    }

    /// The name of the class at a place among the declarations of the text.
    #[tactic(auto, using(crate::proofs::TypeDeclarations::Names::slice_get_drop))]
    pub fn class_at(&self, index: u32) -> Option<&Text>
        ensures { option_copied result ≡ lookups.class_at self.now index }
    {
        match self
            .all
            .get(index as usize + self.imported_count() as usize)
        {
            Some(Decl::Class { name, .. }) => Some(name),
            Some(Decl::Struct { .. }) => None,
            Some(Decl::Enum { .. }) => None,
            None => None,
        }
    }
}
