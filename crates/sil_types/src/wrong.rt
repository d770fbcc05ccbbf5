//! Whether anything is wrong with the items and types of a module. Its types are gone through once, and what is wrong with
//! one of them is not said.

ghost use Rattle.std.specs.Prelude.{◌≡◌, ◌||◌, false};
ghost use Rattle.std.specs.List.{list_any};
ghost use Rattle.sil_types.specs.inner.Limits.{exceeds};
ghost use Rattle.sil_types.specs.declared.limits.Limit.TheVariants.{Either};
ghost use Rattle.sil_types_declarations.specs.TypeDefinitions.Declarations.{declarations_of};
ghost use Rattle.sil_types_declarations.specs.TypeDefinitions.Mentions.{mentions_of};
ghost use Rattle.sil_types_declarations.specs.TypeDefinitions.Rules.{InLimits};
ghost use Rattle.sil_types_items.specs.TypeItemRules.Faults.{BreaksIn, is_wrong_type};
ghost use Rattle.sil_types_items.specs.declared.type_item_rules.by_item.ItemFault.{ItemFault};

use crate::limits::{Limit, PastLimit, any_too_low};
use crate::table::TypeTable;
use sil_ast::{Given, Module, Operand, Text, TypeName};
use sil_types_declarations::Standing;
use sil_types_items::{
    MentionTest, any_bad_member, any_in_module, any_unknown_superclass, any_wrong_vtable,
    is_wrong_type,
};

/// Finds types that break 101 or 104, or exceed a limit.
#[derive(Drop)]
struct WrongTypes<'a> {
    limit: PastLimit<'a>,
}

impl MentionTest for WrongTypes<'_> {
    ghost holds = { λ test t. is_wrong_type test.limit.table.now t || exceeds test.limit.what test.limit.table.now t };

    fn of_written(&self, standing: Standing, ty: &TypeName) -> bool {
        is_wrong_type(self.limit.table.declarations(), standing, ty)
            || self.limit.of_written(standing, ty)
    }

    fn of_declared(&self, name: &Text) -> bool {
        self.limit.of_declared(name)
    }

    fn of_results(&self, results: &[Given]) -> bool {
        self.limit.of_results(results)
    }

    fn of_operands(&self, operands: &[Operand]) -> bool {
        self.limit.of_operands(operands)
    }
}

fn any_wrong_type(table: &TypeTable, m: &Module) -> bool
    ensures { result ≡ list_any (λ t. is_wrong_type table.now t || exceeds Either table.now t) (mentions_of m.now) }
{
    let test = WrongTypes {
        limit: PastLimit::new(Limit::Either, table),
    };
    any_in_module(&test, m)
}

/// Whether an item breaks one of 101, 103 and 104, or a type that the module mentions exceeds a limit.
pub(crate) fn any_wrong(table: &TypeTable, m: &Module) -> bool
    requires { table.now ≡ declarations_of m.now }
    ensures items { result ≡ false → (f : ItemFault) → BreaksIn (declarations_of m.now) m.now f → ⊥ }
    ensures limits { result ≡ false → InLimits m.now }
{
    if any_wrong_type(table, m) {
        return true;
    }
    if any_too_low(table.declarations(), m.decls.as_slice()) {
        return true;
    }
    let declarations = table.declarations();
    if any_unknown_superclass(declarations, m.decls.as_slice()) {
        return true;
    }
    if any_bad_member(declarations, m.functions.as_slice()) {
        return true;
    }
    any_wrong_vtable(declarations, m.vtables.as_slice())
}
