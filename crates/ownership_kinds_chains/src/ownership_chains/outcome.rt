//! All kinds and bases, and the first value on a ring.

ghost use Rattle.std.specs.Prelude.{◌≡◌, IfOk, IfSome, IfNone, length};
ghost use Rattle.ownership_kinds_chains.specs.OwnershipChains.Chains.{HasNoRing, IsFirstCyclic, IsInRange};
ghost use Rattle.ownership_kinds_chains.specs.OwnershipChains.Facts.{told_at};
ghost use Rattle.ownership_kinds_chains.specs.OwnershipChains.inner.Outcome.{AreAll, KnowsAllButRings, IsExact, IsTold};

use crate::ownership_chains::definition::Definition;
use crate::ownership_chains::facts::Facts;
use crate::ownership_chains::order::are_in_order;
use crate::ownership_chains::rings::order_and_ring;
use crate::ownership_chains::settle::all_facts;
use sil_ast::{Exhausted, List, ValueId};
use std::alloc::Global;

/// What is known of the values of a function.
#[derive(Drop)]
pub struct Outcome {
    /// By the number of a value its kind and bases, where every chain from it ends.
    pub table: List<Option<Facts>>,
    /// The first value from which a chain returns to itself. Where there is none, each value has facts.
    pub cyclic: Option<ValueId>,
}

/// The kinds and bases of all values, and the first value on a ring.
/// The time goes with the number of operands and the lengths of their lists of bases.
pub fn kinds_of(alloc: Global, defs: &[Definition]) -> Result<Outcome, Exhausted>
    requires { IsInRange defs.now }
    ensures size { IfOk result (λ o. length o.table ≡ length defs.now) }
    ensures exact { IfOk result (λ o. IsExact defs.now (told_at o.table)) }
    ensures told { IfOk result (λ o. IsTold defs.now (told_at o.table)) }
    ensures unknown { IfOk result (λ o. KnowsAllButRings defs.now o.table) }
    ensures cyclic { IfOk result (λ o. IfSome o.cyclic (IsFirstCyclic defs.now)) }
    ensures acyclic { IfOk result (λ o. IfNone o.cyclic (HasNoRing defs.now)) }
    ensures all { IfOk result (λ o. IfNone o.cyclic (AreAll defs.now o.table)) }
{
    if are_in_order(defs) {
        let table = all_facts(alloc, defs, &[])?;
        return Ok(Outcome {
            table: List::from_vec(table),
            cyclic: None,
        });
    }
    let rings = order_and_ring(alloc, defs)?;
    let table = all_facts(alloc, defs, rings.order.as_slice())?;
    Ok(Outcome {
        table: List::from_vec(table),
        cyclic: rings.first,
    })
}
