//! The first declaration that holds itself, as a refusal, or an order of all.

ghost use Rattle.std.specs.Prelude.{◌≡◌, ◌+◌, ◌<◌, ◌^◌, ℕ, IfOk, OnOk, IfErr, length};
ghost use Rattle.number_tables.specs.ContainmentOrder.inner.Order.{IsOrder};
ghost use Rattle.sil_types_declarations.specs.TypeDefinitions.Contained as contained;
ghost use Rattle.sil_types_declarations.specs.TypeDefinitions.Declarations.{declarations_of};
ghost use Rattle.sil_types_declarations.specs.TypeDefinitions.Rules.{HoldsItself};
ghost use Rattle.sil_types.specs.Refusals.{IsRefusal};

use crate::items::{check_items, refused};
use crate::refusal::TypeRefusal;
use number_tables::{Containment, order_or_ring};
use sil_ast::Module;
use sil_rules::Rule;
use sil_types_declarations::DeclarationTable;
use sil_types_items::containment;
use std::alloc::Global;

/// An order of all declarations in which parts stand before wholes. A module in which one holds itself is refused, for that or
/// for an item that breaks another rule.
pub(crate) fn order_of(
    alloc: Global,
    table: &DeclarationTable,
    m: &Module,
) -> Result<Vec<usize>, TypeRefusal>
    requires table { table.now ≡ declarations_of m.now }
    requires size { length m.now.decls + length m.now.functions < 2 ^ 63 }
    ensures order { IfOk result (λ order. IsOrder (contained.containment table.now) order.items) }
    ensures finite { OnOk result ((n : ℕ) → HoldsItself (declarations_of m.now) n → ⊥) }
    ensures err { IfErr result (IsRefusal m.now) }
{
    let graph = containment(alloc, table)?;
    match order_or_ring(alloc, graph.as_slice())? {
        Containment::Order(order) => Ok(order),
        Containment::Ring(place) => {
            check_items(table, m)?;
            let item = place.saturating_sub(table.imported());
            Err(refused(Rule::InfiniteType, item))
        }
    }
}
