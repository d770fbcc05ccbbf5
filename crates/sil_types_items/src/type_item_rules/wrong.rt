//! Whether anything is wrong with a type, a member or a vtable. Which rule that breaks is not said here.

ghost use Rattle.std.specs.Prelude.{◌≡◌, ◌<◌, ◌^◌, is_some, length, map};
ghost use Rattle.std.specs.List.{flat_map, list_any};
ghost use Rattle.sil_types_declarations.specs.TypeDefinitions.Mentions.{function_members, mention};
ghost use Rattle.sil_types_declarations.specs.TypeDefinitions.Mentions as item;
ghost use Rattle.sil_types_declarations.specs.TypeDefinitions.Rules.{is_no_member, is_of_unknown_class};
ghost use Rattle.sil_types_items.specs.TypeItemRules.Faults as faults;
ghost use Rattle.sil_types_items.specs.TypeItemRules.Faults.{fault_from};

use crate::type_item_rules::by_item::first_of_vtables;
use crate::type_item_rules::items::inherits_unknown;
use crate::type_item_rules::storage::is_misplaced;
use crate::type_item_rules::types::{BadMembers, is_unknown};
use crate::type_mentions::any_member_in_function;
use sil_ast::{Decl, Function, TypeName, Vtable};
use sil_types_declarations::{DeclarationTable, Standing};

/// Whether a type that stands there has a name that isn't declared, or weak or unowned storage that is misplaced.
pub fn is_wrong_type(table: &DeclarationTable, standing: Standing, ty: &TypeName) -> bool
    ensures { result ≡ faults.is_wrong_type table.now (mention standing ty.now) }
{
    match (standing, ty) {
        (Standing::Object | Standing::Slot | Standing::Value, TypeName::Int(_)) => false,
        (Standing::Object | Standing::Slot | Standing::Value, TypeName::Named(name)) => {
            !table.is_name(name)
        }
        _ => is_unknown(table, standing, ty) || is_misplaced(table, standing, ty),
    }
}

/// Whether an instruction of the functions names a member that its type doesn't have.
pub fn any_bad_member(table: &DeclarationTable, functions: &[Function]) -> bool
    ensures { result ≡ list_any (is_no_member table.now) (flat_map function_members functions.now) }
{
    for function in functions {
        if any_member_in_function(&BadMembers { table }, function) {
            return true;
        }
    }
    false
}

/// Whether the superclass of a class is no class.
pub fn any_unknown_superclass(table: &DeclarationTable, decls: &[Decl]) -> bool
    ensures { result ≡ list_any (is_of_unknown_class table.now) (map item.decl decls.now) }
{
    for decl in decls {
        if inherits_unknown(table, decl) {
            return true;
        }
    }
    false
}

/// Whether a vtable is of no class, or has an entry of another one.
pub fn any_wrong_vtable(table: &DeclarationTable, vtables: &[Vtable]) -> bool
    requires { length vtables.now < 2 ^ 64 }
    ensures { result ≡ is_some (fault_from table.now 0 (map item.vtable vtables.now)) }
{
    first_of_vtables(table, vtables, 0).is_some()
}
