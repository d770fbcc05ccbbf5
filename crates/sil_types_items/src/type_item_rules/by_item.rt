//! The first item of a module that breaks a rule.

ghost use Rattle.std.specs.Prelude.{◌≡◌, ◌+◌, ◌<◌, ◌^◌, map, length};
ghost use Rattle.std.specs.Option.{option_or};
ghost use Rattle.sil_rules.specs.Order.{IsFirst};
ghost use Rattle.sil_types_declarations.specs.TypeDefinitions.Mentions as item;
ghost use Rattle.sil_types_items.specs.TypeItemRules.Faults.{fault_from, fault_key, BreaksIn};

use crate::type_item_rules::items::{broken_by_decl, broken_by_function, broken_by_vtable};
use sil_ast::{Decl, Function, Module, Vtable};
use sil_rules::Rule;
use sil_types_declarations::DeclarationTable;

/// A rule that an item breaks, with the item's number.
#[derive(Clone, Copy, Debug, PartialEq, Eq)]
pub struct ItemFault {
    pub item: usize,
    pub rule: Rule,
}

/// The first item of the module that breaks one of 101, 103 and 104, and the first of these that it breaks.
pub fn first_fault(table: &DeclarationTable, m: &Module) -> Option<ItemFault>
    requires { length m.now.decls + length m.now.functions < 2 ^ 63 }
    ensures { IsFirst fault_key (BreaksIn table.now m.now) result }
{
    fault_of_parts(table, m)
}

fn fault_of_parts(table: &DeclarationTable, m: &Module) -> Option<ItemFault>
    requires { length m.now.decls + length m.now.functions < 2 ^ 63 }
    ensures { result ≡ option_or (option_or
        (fault_from table.now 0 (map item.decl m.now.decls))
        (fault_from table.now (length m.now.decls) (map item.function m.now.functions)))
        (fault_from table.now (length m.now.decls + length m.now.functions) (map item.vtable m.now.vtables)) }
{
    match first_of_decls(table, m.decls.as_slice(), 0) {
        Some(fault) => Some(fault),
        None => match first_of_functions(table, m.functions.as_slice(), m.decls.len()) {
            Some(fault) => Some(fault),
            None => {
                let from = m.decls.len() + m.functions.len();
                first_of_vtables(table, m.vtables.as_slice(), from)
            }
        },
    }
}

fn first_of_decls(table: &DeclarationTable, decls: &[Decl], from: usize) -> Option<ItemFault>
    requires { from + length decls.now < 2 ^ 64 }
    ensures { result ≡ fault_from table.now from (map item.decl decls.now) }
{
    let mut number = from;
    for decl in decls {
        if let Some(rule) = broken_by_decl(table, decl) {
            return Some(ItemFault { item: number, rule });
        }
        number += 1;
    }
    None
}

fn first_of_functions(
    table: &DeclarationTable,
    functions: &[Function],
    from: usize,
) -> Option<ItemFault>
    requires { from + length functions.now < 2 ^ 64 }
    ensures { result ≡ fault_from table.now from (map item.function functions.now) }
{
    let mut number = from;
    for function in functions {
        if let Some(rule) = broken_by_function(table, function) {
            return Some(ItemFault { item: number, rule });
        }
        number += 1;
    }
    None
}

pub(crate) fn first_of_vtables(
    table: &DeclarationTable,
    vtables: &[Vtable],
    from: usize,
) -> Option<ItemFault>
    requires { from + length vtables.now < 2 ^ 64 }
    ensures { result ≡ fault_from table.now from (map item.vtable vtables.now) }
{
    let mut number = from;
    for vtable in vtables {
        if let Some(rule) = broken_by_vtable(table, vtable) {
            return Some(ItemFault { item: number, rule });
        }
        number += 1;
    }
    None
}
