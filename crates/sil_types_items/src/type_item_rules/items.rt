//! The first rule that an item breaks, of 101, 103 and 104.

ghost use Rattle.std.specs.Prelude.{◌≡◌};
ghost use Rattle.std.specs.List.{list_any};
ghost use Rattle.sil_types_declarations.specs.TypeDefinitions.Mentions as item;
ghost use Rattle.sil_types_items.specs.TypeItemRules.Faults.{broken_by};
ghost use Rattle.sil_types_declarations.specs.TypeDefinitions.Rules.{is_of_unknown_class, names_other_class};
ghost use Rattle.std.specs.Option.{option_to_list};

use crate::type_item_rules::storage::MisplacedStorage;
use crate::type_item_rules::types::{BadMembers, UnknownOwners, UnknownTypes};
use crate::type_mentions::{any_in_decl, any_in_function, any_member_in_function};
use sil_ast::{Decl, DeinitEntry, Function, Text, Vtable};
use sil_rules::Rule;
use sil_types_declarations::DeclarationTable;

pub(crate) fn broken_by_decl(table: &DeclarationTable, decl: &Decl) -> Option<Rule>
    ensures { result ≡ broken_by table.now (item.decl decl.now) }
{
    if any_in_decl(&UnknownTypes { table }, decl) {
        return Some(Rule::UnknownType);
    }
    if inherits_unknown(table, decl) {
        return Some(Rule::UnknownType);
    }
    if any_in_decl(&MisplacedStorage { table }, decl) {
        return Some(Rule::WeakOrUnownedOutsideStorage);
    }
    None
}

/// Whether the declaration is a class whose superclass is no class.
pub(crate) fn inherits_unknown(table: &DeclarationTable, decl: &Decl) -> bool
    ensures { result ≡ is_of_unknown_class table.now (item.decl decl.now) }
{
    match decl {
        Decl::Class {
            superclass: Some(name),
            ..
        } => !table.is_class(name),
        Decl::Class { .. } => false,
        Decl::Struct { .. } => false,
        Decl::Enum { .. } => false,
    }
}

pub(crate) fn broken_by_function(table: &DeclarationTable, function: &Function) -> Option<Rule>
    ensures { result ≡ broken_by table.now (item.function function.now) }
{
    if any_in_function(&UnknownTypes { table }, function) {
        return Some(Rule::UnknownType);
    }
    if any_member_in_function(&UnknownOwners { table }, function) {
        return Some(Rule::UnknownType);
    }
    if any_member_in_function(&BadMembers { table }, function) {
        return Some(Rule::BadMember);
    }
    if any_in_function(&MisplacedStorage { table }, function) {
        return Some(Rule::WeakOrUnownedOutsideStorage);
    }
    None
}

pub(crate) fn broken_by_vtable(table: &DeclarationTable, vtable: &Vtable) -> Option<Rule>
    ensures { result ≡ broken_by table.now (item.vtable vtable.now) }
{
    if !table.is_class(&vtable.class_name) {
        return Some(Rule::UnknownType);
    }
    if has_entry_of_other(&vtable.class_name, &vtable.entry) {
        return Some(Rule::BadMember);
    }
    None
}

fn has_entry_of_other(class_name: &Text, entry: &Option<DeinitEntry>) -> bool
    ensures { result ≡ list_any (names_other_class class_name.now) (option_to_list entry.now) }
{
    match entry {
        Some(entry) => entry.owner != *class_name,
        None => false,
    }
}
