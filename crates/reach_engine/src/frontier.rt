//! The search's frontier: which blocks were entered in which states, in the order of their depths.

ghost use Rattle.std.specs.Prelude.{◌≡◌, ◌⊎◌, ℕ, ◌+◌, ◌*◌, ◌<◌, ◌≤◌, ◌^◌, Some, length, slice_get, IfOk, OnOk};
ghost use Rattle.sil_cfg.specs.Layout.{item_count};
ghost use Rattle.sil_cfg.specs.Flow.{items_at, edge_item, IsEdge, numbered};
ghost use Rattle.reach_engine.specs.inner.Run.{run};
ghost use Rattle.reach_engine.specs.declared.scan.Step.TheVariants.{Go};
ghost use Rattle.reach_engine.specs.declared.scan.Step.{Step};
ghost use Rattle.reach_engine.specs.inner.Frontier.{FrontOf, Noted, Climbs, ParentsFirst, EdgeDone, Grows, IsWalkOf};

use crate::scan::{Passed, Scan, Step, pass};
use sil_ast::{BlockId, EdgeId, Exhausted};
use sil_cfg::Graph;
use std::alloc::Global;

/// A block that was entered in a state: by which edge, from which visit, after how many edges.
#[derive(Clone, Copy)]
pub struct Visit {
    pub block: u32,
    pub state: u8,
    pub parent: usize,
    pub edge: EdgeId,
    pub depth: usize,
}

/// A bad item: its code, how many edges lead to it, and the visit and the edge behind which it stands.
#[derive(Clone, Copy)]
pub struct Fault {
    pub code: u8,
    pub item: usize,
    pub length: usize,
    pub visit: usize,
    pub edge: Option<EdgeId>,
}

/// The visits in the order of their depths, which pairs of block and state they are, and the best fault.
#[derive(Drop)]
pub struct Frontier {
    pub queue: Vec<Visit>,
    pub seen: Vec<bool>,
    pub best: Option<Fault>,
}

/// The better of two faults: the one with the lesser code, and then with fewer edges.
fn better(best: Option<Fault>, fault: Fault) -> Option<Fault>
    ensures kept { (code n : ℕ) → Noted best code n → Noted result code n }
    ensures noted { Noted result fault.code fault.length }
    ensures either { (result ≡ best) ⊎ (result ≡ Some fault) }
{
    match best {
        None => Some(fault),
        Some(old) => {
            if fault.code < old.code || (fault.code == old.code && fault.length < old.length) {
                Some(fault)
            } else {
                Some(old)
            }
        }
    }
}

/// The edges by which the visit was come to, from the first visit.
fn walk_to(alloc: Global, queue: &[Visit], at: usize) -> Result<Vec<EdgeId>, Exhausted>
    requires at { at < length queue.now }
    requires parents { ParentsFirst queue.now }
    ensures { IfOk result (λ walk. Climbs queue.now 0 walk.items at) }
{
    let mut walk = Vec::new(alloc);
    let mut here = at;
    while here != 0 {
        let visit = queue[here];
        walk.push(visit.edge)?;
        here = visit.parent;
    }
    walk.reverse();
    Ok(walk)
}

/// The walk that shows the fault: to its visit, and then its edge.
pub fn walk_of(alloc: Global, queue: &[Visit], fault: Fault) -> Result<Vec<EdgeId>, Exhausted>
    requires at { fault.visit < length queue.now }
    requires parents { ParentsFirst queue.now }
    ensures { IfOk result (λ walk. IsWalkOf queue.now fault walk.items) }
{
    let mut walk = walk_to(alloc, queue, fault.visit)?;
    match fault.edge {
        None => Ok(walk),
        Some(edge) => {
            walk.push(edge)?;
            Ok(walk)
        }
    }
}

/// The search before its first step: the entry block in state 0.
pub fn start(alloc: Global, g: &Graph, states: usize) -> Result<Frontier, Exhausted>
    requires { (0 < states) × (states < 256) }
    ensures { IfOk result (λ front. (f : ℕ → ℕ → Step) → FrontOf (numbered g.now) f states front 0) }
{
    let mut seen = vec![in alloc; false; g.blocks() as usize * states]?;
    seen[0] = true;
    let mut queue = Vec::new(alloc);
    queue.push(Visit {
        block: 0,
        state: 0,
        parent: 0,
        edge: EdgeId {
            block: BlockId(0),
            index: 0,
        },
        depth: 0,
    })?;
    Ok(Frontier {
        queue,
        seen,
        best: None,
    })
}

/// Takes one edge behind a visit, in the state after the block's items.
fn follow<S: Scan>(
    front: &mut Frontier,
    g: &Graph,
    scan: &S,
    at: usize,
    visit: Visit,
    state: u8,
    edge: EdgeId,
) -> Result<(), Exhausted>
    requires items { S.item_count scan.now ≡ item_count g.now }
    requires front { FrontOf (numbered g.now) (S.step_of scan.now) (S.state_count scan.now) front.old at }
    requires visit { slice_get front.old.queue.items at ≡ Some visit }
    requires passed { run (S.step_of scan.now) (Go visit.state) (items_at (numbered g.now) visit.block) ≡ Go state }
    requires state { state < S.state_count scan.now }
    requires edge { IsEdge (numbered g.now) edge }
    requires from { edge.block.0 ≡ visit.block }
    ensures front { OnOk result (FrontOf (numbered g.now) (S.step_of scan.now) (S.state_count scan.now) front.new at) }
    ensures done { OnOk result (EdgeDone (numbered g.now) (S.step_of scan.now) front.new.queue.items front.new.best visit edge) }
    ensures grows { OnOk result (Grows front.old front.new) }
{
    let item = g.edge_item(edge);
    match scan.step(state, item) {
        Step::Bad(code) => {
            let fault = Fault {
                code,
                item,
                length: visit.depth + 1,
                visit: at,
                edge: Some(edge),
            };
            front.best = better(front.best, fault);
            Ok(())
        }
        Step::Go(next) => {
            let block = g.edge_to(edge).0;
            let place = block as usize * scan.states() as usize + next as usize;
            if front.seen[place] {
                return Ok(());
            }
            front.queue.push(Visit {
                block,
                state: next,
                parent: at,
                edge,
                depth: visit.depth + 1,
            })?;
            front.seen[place] = true;
            Ok(())
        }
    }
}

/// Explores one visit: its block's items, and then each edge.
pub fn explore<S: Scan>(
    front: &mut Frontier,
    g: &Graph,
    scan: &S,
    at: usize,
) -> Result<(), Exhausted>
    requires items { S.item_count scan.now ≡ item_count g.now }
    requires front { FrontOf (numbered g.now) (S.step_of scan.now) (S.state_count scan.now) front.old at }
    requires at { at < length front.old.queue.items }
    ensures { OnOk result (FrontOf (numbered g.now) (S.step_of scan.now) (S.state_count scan.now) front.new (at + 1)) }
{
    let visit = front.queue[at];
    match pass(scan, g.items_of(BlockId(visit.block)), visit.state) {
        Passed::Breaks { code, item } => {
            let fault = Fault {
                code,
                item,
                length: visit.depth,
                visit: at,
                edge: None,
            };
            front.best = better(front.best, fault);
            Ok(())
        }
        Passed::Stays(state) => {
            for index in 0..g.edges(BlockId(visit.block)) {
                let edge = EdgeId {
                    block: BlockId(visit.block),
                    index,
                };
                follow(front, g, scan, at, visit, state, edge)?;
            }
            Ok(())
        }
    }
}
