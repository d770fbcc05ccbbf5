//! An order of all numbers, or the first on a ring.

ghost use Rattle.std.specs.Prelude.{IfOk};
ghost use Rattle.number_tables.specs.ContainmentOrder.Chains.{HasNoRing, IsInRange};
ghost use Rattle.number_tables.specs.ContainmentOrder.inner.Order.{IsOrder};
ghost use Rattle.number_tables.specs.ContainmentOrder.inner.Outcome.{IsFound};

use crate::containment_order::rings::rings_of;
use crate::containment_order::settle::settle;
use sil_ast::{Exhausted, List};
use std::alloc::Global;

/// What a graph of containment has.
#[derive(Drop)]
pub enum Containment {
    /// An order of all numbers in which parts stand before wholes: there is no ring.
    Order(Vec<usize>),
    /// The first number that holds itself.
    Ring(usize),
}

/// All numbers, each behind its parts.
fn order_of(alloc: Global, graph: &[List<usize>], advice: &[usize]) -> Result<Vec<usize>, Exhausted>
    requires range { IsInRange graph.now }
    requires none { HasNoRing graph.now }
    ensures { IfOk result (λ order. IsOrder graph.now order.items) }
{
    let mut marks = vec![in alloc; false; graph.len()]?;
    let mut order = Vec::new(alloc);
    settle(graph, marks.as_mut_slice(), &mut order, advice)?;
    Ok(order)
}

/// An order of all numbers in which parts stand before wholes, or the first number that holds itself.
/// The time goes with the number of parts, whether there is a ring or not.
pub fn order_or_ring(alloc: Global, graph: &[List<usize>]) -> Result<Containment, Exhausted>
    requires { IsInRange graph.now }
    ensures { IfOk result (IsFound graph.now) }
{
    let rings = rings_of(alloc, graph)?;
    match rings.first {
        Some(value) => Ok(Containment::Ring(value)),
        None => Ok(Containment::Order(order_of(alloc, graph, rings.order.as_slice())?)),
    }
}
