//! The first value on a ring, with the order of the values that was found on the way.

ghost use Rattle.std.specs.Prelude.{◌≡◌, ◌<◌, ◌^◌, IfNone, IfOk, IfSome, option_map};
ghost use Rattle.ownership_kinds_chains.specs.OwnershipChains.Chains.{HasNoRing, IsFirstCyclic, IsInRange};
ghost use Rattle.ownership_kinds_chains.specs.OwnershipChains.Facts.{value_of};

use crate::ownership_chains::definition::Definition;
use crate::ownership_chains::numbers::numbers_of;
use crate::ownership_chains::order::are_in_order;
use number_tables::rings_of;
use sil_ast::{Exhausted, ValueId};
use std::alloc::Global;

/// An order of all values, and the first on a ring.
#[derive(Drop)]
pub(crate) struct Rings {
    /// Operands stand before what is made from them, wherever no ring is in the way. It is advice: nothing is promised of it.
    pub order: Vec<usize>,
    pub first: Option<ValueId>,
}

/// The value with the number, if there is one.
fn value_at(number: Option<usize>) -> Option<ValueId>
    requires { IfSome number (λ n. n < 2 ^ 32) }
    ensures { result ≡ option_map value_of number }
{
    match number {
        Some(number) => Some(ValueId(number as u32)),
        None => None,
    }
}

/// An order of all values, and the first from which a chain returns to itself. The time goes with the number of operands.
pub(crate) fn order_and_ring(alloc: Global, defs: &[Definition]) -> Result<Rings, Exhausted>
    requires { IsInRange defs.now }
    ensures some { IfOk result (λ r. IfSome r.first (IsFirstCyclic defs.now)) }
    ensures none { IfOk result (λ r. IfNone r.first (HasNoRing defs.now)) }
{
    let graph = numbers_of(alloc, defs)?;
    let rings = rings_of(alloc, graph.as_slice())?;
    Ok(Rings {
        order: rings.order,
        first: value_at(rings.first),
    })
}

/// The first value from which a chain returns to itself, if there is one.
/// The time goes with the number of operands.
pub fn first_cyclic(alloc: Global, defs: &[Definition]) -> Result<Option<ValueId>, Exhausted>
    requires { IsInRange defs.now }
    ensures some { IfOk result (λ o. IfSome o (IsFirstCyclic defs.now)) }
    ensures none { IfOk result (λ o. IfNone o (HasNoRing defs.now)) }
{
    if are_in_order(defs) {
        return Ok(None);
    }
    let rings = order_and_ring(alloc, defs)?;
    Ok(rings.first)
}
