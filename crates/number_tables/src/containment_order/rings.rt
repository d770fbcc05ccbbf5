//! The first number on a ring, with the order that was found on the way.

ghost use Rattle.std.specs.Prelude.{◌≡◌, ◌<◌, ◌↔◌, IsTrue, IfOk, IfSome, IfNone, length};
ghost use Rattle.std.specs.Bool.{OnTrue};
ghost use Rattle.number_tables.specs.ContainmentOrder.Chains.{HasNoRing, IsCyclic, IsFirstCyclic, IsInRange};
ghost use Rattle.number_tables.specs.ContainmentOrder.inner.Ranks.{NeverFall};

use crate::containment_order::advice::{parts_first, ranks_along};
use crate::containment_order::ranks::{never_fall, rises};
use crate::containment_order::search::is_cyclic;
use sil_ast::{Exhausted, List};
use std::alloc::Global;

/// Whether the number is on a ring. Where ranks never fall, one whose parts all rise isn't, and no search is made.
fn is_on_ring(
    alloc: Global,
    graph: &[List<usize>],
    ranks: &[usize],
    are_ranked: bool,
    marks: &mut [bool],
    value: usize,
) -> Result<bool, Exhausted>
    requires value { value < length graph.now }
    requires range { IsInRange graph.now }
    requires size { length marks.old ≡ length graph.now }
    requires ranked { OnTrue are_ranked (NeverFall graph.now ranks.now) }
    ensures { IfOk result (λ cyclic. IsTrue cyclic ↔ IsCyclic graph.now value) }
{
    if are_ranked && rises(graph, ranks, value) {
        return Ok(false);
    }
    is_cyclic(alloc, graph, marks, value)
}

/// The first number on a ring, if there is one. With good ranks one search is made.
fn first_on_ring(
    alloc: Global,
    graph: &[List<usize>],
    ranks: &[usize],
) -> Result<Option<usize>, Exhausted>
    requires { IsInRange graph.now }
    ensures some { IfOk result (λ o. IfSome o (IsFirstCyclic graph.now)) }
    ensures none { IfOk result (λ o. IfNone o (HasNoRing graph.now)) }
{
    let are_ranked = never_fall(graph, ranks);
    let mut marks = vec![in alloc; false; graph.len()]?;
    for value in 0..graph.len() {
        if is_on_ring(alloc, graph, ranks, are_ranked, marks.as_mut_slice(), value)? {
            return Ok(Some(value));
        }
    }
    Ok(None)
}

/// An order of all numbers, and the first on a ring.
#[derive(Drop)]
pub struct Rings {
    /// Parts stand before wholes wherever no ring is in the way. It is advice: nothing is promised of it.
    pub order: Vec<usize>,
    pub first: Option<usize>,
}

/// An order of all numbers, and the first that holds itself. The time goes with the number of parts, whether there is a ring or not.
pub fn rings_of(alloc: Global, graph: &[List<usize>]) -> Result<Rings, Exhausted>
    requires { IsInRange graph.now }
    ensures some { IfOk result (λ r. IfSome r.first (IsFirstCyclic graph.now)) }
    ensures none { IfOk result (λ r. IfNone r.first (HasNoRing graph.now)) }
{
    let order = parts_first(alloc, graph)?;
    let ranks = ranks_along(alloc, graph, order.as_slice())?;
    let first = first_on_ring(alloc, graph, ranks.as_slice())?;
    Ok(Rings { order, first })
}
