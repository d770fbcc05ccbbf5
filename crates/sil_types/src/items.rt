//! The first item that breaks 101, 103 or 104, as a refusal.

ghost use Rattle.std.specs.Prelude.{◌≡◌, ◌+◌, ◌<◌, ◌^◌, length, OnOk, IfErr};
ghost use Rattle.sil_types_declarations.specs.TypeDefinitions.Declarations.{declarations_of};
ghost use Rattle.sil_types_items.specs.TypeItemRules.Faults.{BreaksIn};
ghost use Rattle.sil_types_items.specs.declared.type_item_rules.by_item.ItemFault.{ItemFault};
ghost use Rattle.sil_types.specs.Refusals.{IsRefusal, IsRule};

use crate::refusal::TypeRefusal;
use sil_ast::Module;
use sil_rules::Rule;
use sil_types_declarations::DeclarationTable;
use sil_types_items::first_fault;

/// The refusal of an item, unless its number is more than one of a module can be: then memory counts as exhausted.
pub(crate) fn refused(rule: Rule, item: usize) -> TypeRefusal
    ensures { IsRule rule item result }
{
    match u32::try_from(item) {
        Ok(item) => TypeRefusal::Rule { rule, item },
        Err(_) => TypeRefusal::Memory,
    }
}

/// Refuses a module with an item that breaks one of the three.
pub(crate) fn check_items(table: &DeclarationTable, m: &Module) -> Result<(), TypeRefusal>
    requires table { table.now ≡ declarations_of m.now }
    requires size { length m.now.decls + length m.now.functions < 2 ^ 63 }
    ensures ok { OnOk result ((f : ItemFault) → BreaksIn (declarations_of m.now) m.now f → ⊥) }
    ensures err { IfErr result (IsRefusal m.now) }
{
    match first_fault(table, m) {
        Some(fault) => Err(refused(fault.rule, fault.item)),
        None => Ok(()),
    }
}
