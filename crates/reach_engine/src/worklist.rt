//! Breadth first over pairs of block and state.

ghost use Rattle.std.specs.Prelude.{◌≡◌, ◌<◌, IfOk};
ghost use Rattle.sil_cfg.specs.Layout.{item_count};
ghost use Rattle.sil_cfg.specs.Flow.{numbered};
ghost use Rattle.reach_engine.specs.inner.Reach.{ReachesFirst, ReachesPoint};
ghost use Rattle.reach_engine.specs.inner.Search.{IfClean, IfFault, IsClean, IsExact, IsLeastCode, IsShortest};
ghost use Rattle.reach_engine.specs.inner.Searched as searched;

use crate::found::{Found, Searched, StateMap};
use crate::frontier::{explore, start, walk_of};
use crate::scan::Scan;
use sil_ast::{Exhausted, List};
use sil_cfg::Graph;
use std::alloc::Global;

/// Searches all walks: `Clean` where none breaks the automaton. Else the least code that some walk reaches first,
/// and a walk of fewest edges among those that reach it first.
pub fn search<S: Scan>(alloc: Global, g: &Graph, scan: &S) -> Result<Found, Exhausted>
    requires items { S.item_count scan.now ≡ item_count g.now }
    requires states { 0 < S.state_count scan.now }
    ensures clean { IfOk result (λ found. IfClean found (λ _. IsClean (numbered g.now) (S.step_of scan.now))) }
    ensures map { IfOk result (λ found. IfClean found (IsExact (numbered g.now) (S.step_of scan.now) (S.state_count scan.now))) }
    ensures fault { IfOk result (λ found. IfFault found (λ walk point code. ReachesPoint g.now (S.step_of scan.now) walk code point)) }
    ensures least { IfOk result (λ found. IfFault found (λ walk point code. IsLeastCode (numbered g.now) (S.step_of scan.now) code)) }
    ensures shortest { IfOk result (λ found. IfFault found (λ walk point code. IsShortest (numbered g.now) (S.step_of scan.now) code walk)) }
{
    match search_walks(alloc, g, scan)? {
        Searched::Clean(map) => Ok(Found::Clean(map)),
        Searched::Breaks { walk, item, code } => Ok(Found::Fault {
            walk,
            point: g.point(item),
            code,
        }),
    }
}

/// The same search as `search`, which names the item that breaks in place of its point.
pub fn search_walks<S: Scan>(alloc: Global, g: &Graph, scan: &S) -> Result<Searched, Exhausted>
    requires items { S.item_count scan.now ≡ item_count g.now }
    requires states { 0 < S.state_count scan.now }
    ensures clean { IfOk result (λ r. searched.IfClean r (λ _. IsClean (numbered g.now) (S.step_of scan.now))) }
    ensures map { IfOk result (λ r. searched.IfClean r (IsExact (numbered g.now) (S.step_of scan.now) (S.state_count scan.now))) }
    ensures breaks { IfOk result (λ r. searched.IfBreaks r (λ walk item code. ReachesFirst (numbered g.now) (S.step_of scan.now) walk code item)) }
    ensures within { IfOk result (λ r. searched.IfBreaks r (λ walk item code. item < item_count g.now)) }
    ensures least { IfOk result (λ r. searched.IfBreaks r (λ walk item code. IsLeastCode (numbered g.now) (S.step_of scan.now) code)) }
    ensures shortest { IfOk result (λ r. searched.IfBreaks r (λ walk item code. IsShortest (numbered g.now) (S.step_of scan.now) code walk)) }
{
    let blocks = g.blocks() as usize;
    let states = scan.states() as usize;
    let mut front = start(alloc, g, states)?;
    let mut at = 0;
    while at < front.queue.len() {
        explore(&mut front, g, scan, at)?;
        at += 1;
    }
    match front.best {
        None => Ok(Searched::Clean(StateMap::from_marks(blocks, states, front.seen))),
        Some(fault) => {
            let walk = walk_of(alloc, &front.queue, fault)?;
            Ok(Searched::Breaks {
                walk: List::from_vec(walk),
                item: fault.item,
                code: fault.code,
            })
        }
    }
}
