//! The nearest crossing of one slot.

ghost use Rattle.std.specs.Prelude.{◌≡◌, IfOk, length, AllPairs, ◌<◌};
ghost use Rattle.sil_cfg.specs.Layout.{item_count};
ghost use Rattle.memory_rules_accesses.specs.reach_engine_marks.PathPatterns.inner.Reads.{accesses_at};
ghost use Rattle.memory_rules_slots.specs.inner.Searches.{IsPairSearched, IsNearer, IsNearest};

use crate::crossing::Crossing;
use crate::pair::Pair;
use memory_rules_accesses::Access;
use reach_engine::{Found, search};
use sil_ast::{Exhausted, ValueId};
use sil_cfg::Graph;
use std::alloc::Global;

/// A walk of fewest edges that breaks the order of the two slots, if any does.
fn crossing_of(
    alloc: Global,
    g: &Graph,
    accesses: &[Vec<Access>],
    first: ValueId,
    second: ValueId,
) -> Result<Option<Crossing>, Exhausted>
    requires items { length accesses.now ≡ item_count g.now }
    ensures { IfOk result (IsPairSearched g.now (accesses_at accesses.now) first second) }
{
    let pair = Pair {
        accesses,
        first,
        second,
    };
    match search(alloc, g, &pair)? {
        Found::Clean(_) => Ok(None),
        Found::Fault { walk, point, .. } => Ok(Some(Crossing {
            first,
            walk,
            point,
            other: second,
        })),
    }
}

/// The one with fewer edges, or else the one before.
fn nearer(best: Option<Crossing>, next: Option<Crossing>) -> Option<Crossing>
    ensures { IsNearer best next result }
{
    match (best, next) {
        (None, next) => next,
        (Some(best), None) => Some(best),
        (Some(best), Some(next)) => {
            if next.walk.len() < best.walk.len() {
                Some(next)
            } else {
                Some(best)
            }
        }
    }
}

/// Of the slots that cross the first one, in ascending order, the one whose walk has fewest edges, and the least of these.
pub fn nearest_crossing(
    alloc: Global,
    g: &Graph,
    accesses: &[Vec<Access>],
    slots: &[ValueId],
    first: ValueId,
) -> Result<Option<Crossing>, Exhausted>
    requires items { length accesses.now ≡ item_count g.now }
    requires ascending { AllPairs (λ a b. a.0 < b.0) slots.now }
    ensures { IfOk result (IsNearest g.now (accesses_at accesses.now) first slots.now) }
{
    let mut best = None;
    for second in slots {
        let next = crossing_of(alloc, g, accesses, first, *second)?;
        best = nearer(best, next);
    }
    Ok(best)
}
