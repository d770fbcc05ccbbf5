//! Makes a module's type table, or says why it has none.

ghost use Rattle.std.specs.Prelude.{◌≡◌, ◌||◌, ◌+◌, ◌<◌, ◌^◌, ℕ, OnOk, IfOk, IfErr, length, true};
ghost use Rattle.sil_types_declarations.specs.numbered_form.inner.NumberedForm.{IsNumbered};
ghost use Rattle.sil_types_declarations.specs.TypeDefinitions.Declarations.{declarations_of};
ghost use Rattle.sil_types_declarations.specs.TypeDefinitions.Rules.{AreDeclarationsOf, HoldsItself, InLimits, exceeds_depth, exceeds_leaves};
ghost use Rattle.sil_types_items.specs.TypeItemRules.Faults.{BreaksIn};
ghost use Rattle.sil_types_items.specs.declared.type_item_rules.by_item.ItemFault.{ItemFault};
ghost use Rattle.sil_types_items.specs.TypeMeasures.inner.ByParts.{AreByParts};
ghost use Rattle.sil_types.specs.Refusals.{IsRefusal};

use crate::items::check_items;
use crate::limits::{Limit, any_past};
use crate::refusal::TypeRefusal;
use crate::ring::order_of;
use crate::table::TypeTable;
use crate::wrong::any_wrong;
use sil_ast::Module;
use sil_rules::LimitWord;
use sil_types_declarations::DeclarationTable;
use sil_types_items::measures;
use std::alloc::Global;

impl TypeTable {
    /// The type table of a module. The refusal is the first of all that is wrong: 101, 103 and 104 by item and then by rule,
    /// then 102 by item, then the limit on depth, and then the limit on leaves.
    pub fn build(alloc: Global, m: &Module) -> Result<TypeTable, TypeRefusal>
        requires { IsNumbered m.now }
        ensures ok { IfOk result (λ table. AreDeclarationsOf table m.now) }
        ensures measures { IfOk result AreByParts }
        ensures err { IfErr result (IsRefusal m.now) }
    {
        let declarations = DeclarationTable::build(alloc, m)?;
        let order = order_of(alloc, &declarations, m)?;
        let measures = measures(alloc, &declarations, order.as_slice())?;
        let table = TypeTable {
            declarations,
            measures,
        };
        check_items_and_limits(&table, m)?;
        Ok(table)
    }
}

/// Refuses a module with an item that breaks one of 101, 103 and 104, or with a type past a limit. Which of these is first, is
/// asked only where something is wrong.
fn check_items_and_limits(table: &TypeTable, m: &Module) -> Result<(), TypeRefusal>
    requires table { table.now ≡ declarations_of m.now }
    requires size { length m.now.decls + length m.now.functions < 2 ^ 63 }
    requires finite { (n : ℕ) → HoldsItself (declarations_of m.now) n → ⊥ }
    ensures items { OnOk result ((f : ItemFault) → BreaksIn (declarations_of m.now) m.now f → ⊥) }
    ensures limits { OnOk result (InLimits m.now) }
    ensures err { IfErr result (IsRefusal m.now) }
{
    if !any_wrong(table, m) {
        return Ok(());
    }
    check_items(table.declarations(), m)?;
    check_limits(table, m)
}

/// Refuses a module that mentions a type past a limit.
fn check_limits(table: &TypeTable, m: &Module) -> Result<(), TypeRefusal>
    requires table { table.now ≡ declarations_of m.now }
    requires items { (f : ItemFault) → BreaksIn (declarations_of m.now) m.now f → ⊥ }
    requires finite { (n : ℕ) → HoldsItself (declarations_of m.now) n → ⊥ }
    ensures ok { OnOk result (InLimits m.now) }
    ensures err { IfErr result (IsRefusal m.now) }
{
    if any_past(Limit::Either, table, m) {
        return Err(refused_limit(table, m));
    }
    Ok(())
}

/// The refusal of a module that mentions a type past a limit: which of the two that is, is asked only here.
fn refused_limit(table: &TypeTable, m: &Module) -> TypeRefusal
    requires table { table.now ≡ declarations_of m.now }
    requires items { (f : ItemFault) → BreaksIn (declarations_of m.now) m.now f → ⊥ }
    requires finite { (n : ℕ) → HoldsItself (declarations_of m.now) n → ⊥ }
    requires past { (exceeds_depth m.now || exceeds_leaves m.now) ≡ true }
    ensures { IsRefusal m.now result }
{
    if any_past(Limit::Depth, table, m) {
        return TypeRefusal::Limit {
            what: LimitWord::Depth,
        };
    }
    TypeRefusal::Limit {
        what: LimitWord::Leaves,
    }
}
