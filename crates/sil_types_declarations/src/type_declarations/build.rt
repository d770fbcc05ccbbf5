//! Makes a table of a module's declarations.

ghost use Rattle.std.specs.Prelude.{◌≡◌, ◌++◌, map, IfOk};
ghost use Rattle.numbered_form.specs.Names.{AreMembersOnce, AreOnce, case_name, class_name, decl_name, field_name, member_names};
ghost use Rattle.numbered_form.specs.Lists.{Each};
ghost use Rattle.numbered_form.specs.inner.NumberedForm.{IsNumbered};
ghost use Rattle.sil_types_declarations.specs.TypeDefinitions.Declarations.{declarations_of, integer_struct, swift_structs};

use crate::type_declarations::name_index::NameIndex;
use crate::type_declarations::table::DeclarationTable;
use sil_ast::{
    Case, Decl, Exhausted, Field, List, Module, Storage, Text, TryClone, TypeName, Vtable,
};
use std::alloc::Global;

impl DeclarationTable {
    /// The table of what the module declares.
    pub fn build(alloc: Global, m: &Module) -> Result<DeclarationTable, Exhausted>
        requires { IsNumbered m.now }
        ensures { IfOk result (λ table. table ≡ declarations_of m.now) }
    {
        let all = all_decls(alloc, m.imports.swift, m.decls.as_slice())?;
        let names = decl_names(alloc, all.as_slice())?;
        let members = all_members(alloc, all.as_slice())?;
        let classes = vtable_classes(alloc, m.vtables.as_slice())?;
        let vtables = m.vtables.try_clone(alloc)?;
        Ok(DeclarationTable {
            swift: m.imports.swift,
            all,
            names,
            members,
            vtables,
            classes,
        })
    }
}

/// `struct NAME { var _value: Builtin.IntN }`
fn integer_struct(alloc: Global, name: &[u8], width: u8) -> Result<Decl, Exhausted>
    ensures { IfOk result (λ decl. decl ≡ integer_struct name.now width) }
{
    let mut fields = List::new(alloc);
    fields.push(Field {
        name: Text::from_slice(alloc, b"_value")?,
        storage: Storage::Strong,
        ty: TypeName::Int(width),
    })?;
    Ok(Decl::Struct {
        name: Text::from_slice(alloc, name)?,
        fields,
    })
}

fn swift_decls(alloc: Global, swift: bool) -> Result<List<Decl>, Exhausted>
    ensures { IfOk result (λ decls. decls ≡ swift_structs swift) }
{
    let mut decls = List::new(alloc);
    if swift {
        decls.push(integer_struct(alloc, b"Int", 64)?)?;
        decls.push(integer_struct(alloc, b"Bool", 1)?)?;
    }
    Ok(decls)
}

fn all_decls(alloc: Global, swift: bool, text: &[Decl]) -> Result<List<Decl>, Exhausted>
    ensures { IfOk result (λ all. all ≡ swift_structs swift ++ text.now) }
{
    let mut all = swift_decls(alloc, swift)?;
    for decl in text {
        all.push(decl.try_clone(alloc)?)?;
    }
    Ok(all)
}

fn name_of(decl: &Decl) -> &Text
    ensures { result.now ≡ decl_name decl.now }
{
    match decl {
        Decl::Struct { name, .. } => name,
        Decl::Enum { name, .. } => name,
        Decl::Class { name, .. } => name,
    }
}

fn decl_names(alloc: Global, decls: &[Decl]) -> Result<NameIndex, Exhausted>
    requires { AreOnce (map decl_name decls.now) }
    ensures { IfOk result (λ names. names ≡ map decl_name decls.now) }
{
    let mut names = NameIndex::new(alloc);
    for decl in decls {
        names.add(alloc, name_of(decl))?;
    }
    Ok(names)
}

fn field_names(alloc: Global, fields: &[Field]) -> Result<NameIndex, Exhausted>
    requires { AreOnce (map field_name fields.now) }
    ensures { IfOk result (λ names. names ≡ map field_name fields.now) }
{
    let mut names = NameIndex::new(alloc);
    for field in fields {
        names.add(alloc, &field.name)?;
    }
    Ok(names)
}

fn case_names(alloc: Global, cases: &[Case]) -> Result<NameIndex, Exhausted>
    requires { AreOnce (map case_name cases.now) }
    ensures { IfOk result (λ names. names ≡ map case_name cases.now) }
{
    let mut names = NameIndex::new(alloc);
    for case in cases {
        names.add(alloc, &case.name)?;
    }
    Ok(names)
}

fn vtable_classes(alloc: Global, vtables: &[Vtable]) -> Result<NameIndex, Exhausted>
    requires { AreOnce (map class_name vtables.now) }
    ensures { IfOk result (λ names. names ≡ map class_name vtables.now) }
{
    let mut names = NameIndex::new(alloc);
    for vtable in vtables {
        names.add(alloc, &vtable.class_name)?;
    }
    Ok(names)
}

fn member_names(alloc: Global, decl: &Decl) -> Result<NameIndex, Exhausted>
    requires { AreMembersOnce decl.now }
    ensures { IfOk result (λ names. names ≡ member_names decl.now) }
{
    match decl {
        Decl::Struct { fields, .. } => field_names(alloc, fields.as_slice()),
        Decl::Enum { cases, .. } => case_names(alloc, cases.as_slice()),
        Decl::Class { fields, .. } => field_names(alloc, fields.as_slice()),
    }
}

fn all_members(alloc: Global, decls: &[Decl]) -> Result<List<NameIndex>, Exhausted>
    requires { Each AreMembersOnce decls.now }
    ensures { IfOk result (λ members. members ≡ map member_names decls.now) }
{
    let mut members = List::new(alloc);
    for decl in decls {
        members.push(member_names(alloc, decl)?)?;
    }
    Ok(members)
}
