//! What a module declares, with an index of its names.

ghost use Rattle.std.specs.Prelude.{◌≡◌, ◌+◌, length};
ghost use Rattle.std.specs.Option.{option_copied};
ghost use Rattle.sil_types_declarations.specs.TypeDefinitions.Declarations.{all_decls, all_names, decl_of, has_member, is_class, is_swift_optional};
ghost use Rattle.sil_types_declarations.specs.TypeDefinitions.Declarations.{members_of, optional_cases, place_of, swift_structs};
ghost use Rattle.std.specs.Prelude.{is_some};

use crate::type_declarations::name_index::NameIndex;
use sil_ast::{Decl, List, Text, Vtable};
use std::marker::Model;

/// What a module declares. To a contract it is the declarations and vtables of the text, with whether `Swift` is imported.
#[derive(Drop)]
pub struct DeclarationTable {
    pub(crate) swift: bool,
    /// The structs of `Swift`, and then what the text declares.
    pub(crate) all: List<Decl>,
    pub(crate) names: NameIndex,
    /// Of each declaration the names of its fields or cases.
    pub(crate) members: List<NameIndex>,
    pub(crate) vtables: List<Vtable>,
    /// The classes of the vtables.
    pub(crate) classes: NameIndex,
}

impl Model for DeclarationTable {
    ghost use Rattle.std.specs.Prelude.{◌≡◌, map};
    ghost use Rattle.numbered_form.specs.Lists.{Each};
    ghost use Rattle.numbered_form.specs.Names.{decl_name, member_names, class_name};
    ghost use Rattle.numbered_form.specs.inner.Limits.{IsDeclInLimits};
    ghost use Rattle.sil_types_declarations.specs.TypeDefinitions.Declarations.{Declarations};
    ghost use Rattle.sil_types_declarations.specs.TypeDeclarations.inner.Table.{in_text, IsSplit};
    ghost use Rattle.std.specs.Coded.{codes};
    ghost use Rattle.sil_ast.specs.contracts.type_name.TypeName as type_name;

    ghost Value = { Declarations };

    ghost coded = { Prim.hlevel (codes, type_name.the_row.coded) };

    ghost view = { λ t. record { swift = t.swift; decls = in_text t.swift t.all; vtables = t.vtables } };

    ghost invariant = { λ t. IsSplit t.swift t.all × (t.names ≡ map decl_name t.all) × (t.members ≡ map member_names t.all)
        × (t.classes ≡ map class_name t.vtables) × Each IsDeclInLimits t.all };
}

impl DeclarationTable {
    /// Whether `Swift` is imported.
    pub fn has_swift(&self) -> bool
        ensures { result ≡ self.now.swift }
    {
        self.swift
    }

    /// How many structs come with the imports. They stand before what the text declares.
    pub fn imported(&self) -> usize
        ensures { result ≡ length (swift_structs self.now.swift) }
    {
        if self.swift { 2 } else { 0 }
    }

    /// All declarations: the structs of `Swift`, and then those of the text.
    pub fn decls(&self) -> &[Decl]
        ensures { result.now ≡ all_decls self.now }
    {
        self.all.as_slice()
    }

    /// The place of a name among all declarations.
    pub fn place(&self, name: &Text) -> Option<usize>
        ensures { result ≡ place_of (all_names self.now) name.now }
    {
        self.names.place(name)
    }

    /// The struct, enum or class with this name.
    pub fn decl_of(&self, name: &Text) -> Option<&Decl>
        ensures { option_copied result ≡ decl_of self.now name.now }
    {
        match self.names.place(name) {
            Some(place) => self.all.get(place),
            None => None,
        }
    }

    /// Whether a struct, enum or class has this name.
    pub fn is_name(&self, name: &Text) -> bool
        ensures { result ≡ is_some (decl_of self.now name.now) }
    {
        self.decl_of(name).is_some()
    }

    /// Whether a class has this name.
    pub fn is_class(&self, name: &Text) -> bool
        ensures { result ≡ is_class self.now name.now }
    {
        match self.decl_of(name) {
            Some(Decl::Class { .. }) => true,
            _ => false,
        }
    }

    fn is_swift_optional(&self, name: &Text) -> bool
        ensures { result ≡ is_swift_optional self.now name.now }
    {
        self.swift && name.as_slice() == b"Optional".as_slice()
    }

    /// Whether the name before a member's is one that has members.
    pub fn is_owner(&self, owner: &Text) -> bool
        ensures { result ≡ is_some (members_of self.now owner.now) }
    {
        self.is_swift_optional(owner) || self.is_name(owner)
    }

    /// Whether the owner has a field or case of this name.
    pub fn has_member(&self, owner: &Text, name: &Text) -> bool
        ensures { result ≡ has_member self.now owner.now name.now }
    {
        if self.is_swift_optional(owner) {
            return is_optional_case(name);
        }
        match self.names.place(owner) {
            Some(place) => match self.members.get(place) {
                Some(members) => members.place(name).is_some(),
                None => false,
            },
            None => false,
        }
    }
}

fn is_optional_case(name: &Text) -> bool
    ensures { result ≡ is_some (place_of optional_cases name.now) }
{
    name.as_slice() == b"none".as_slice() || name.as_slice() == b"some".as_slice()
}
