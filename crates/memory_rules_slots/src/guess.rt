//! Which slots may be allocated at the entries of blocks, and ranks that rise along walks. It is advice: nothing is promised of it.

ghost use Rattle.std.specs.Prelude.{◌≡◌, length};
ghost use Rattle.sil_cfg.specs.Layout.{item_count};

use crate::doubts::Doubts;
use crate::nested::{is_within, stack_of};
use crate::stack::{follow_items, rank_of};
use crate::walk_order::blocks_in_order;
use memory_rules_accesses::{Access, Source};
use sil_ast::{BlockId, EdgeId, Exhausted, ValueId};
use sil_cfg::Graph;
use std::alloc::Global;

/// The most slots that all stacks have together.
const MOST_SLOTS: usize = 1 << 22;

/// How often all blocks are passed while a stack still grows.
const MOST_PASSES: usize = 8;

/// A rank for each value, and a stack for each block that was reached while there was room.
#[derive(Drop)]
pub struct Guess {
    pub ranks: Vec<u32>,
    pub stacks: Vec<Option<Vec<ValueId>>>,
    room: usize,
    grown: bool,
}

/// The slots of both stacks, in the order of their ranks.
fn merged(
    alloc: Global,
    ranks: &[u32],
    stack: &[ValueId],
    other: &[ValueId],
) -> Result<Vec<ValueId>, Exhausted> {
    let mut all = stack.to_vec(alloc)?;
    all.extend_from_slice(other)?;
    all.sort_by_key(|slot| rank_of(ranks, *slot))?;
    all.dedup();
    Ok(all)
}

/// Ranks in the order of allocation along these blocks.
fn ranks_along(
    alloc: Global,
    g: &Graph,
    accesses: &[Vec<Access>],
    values: usize,
    order: &[BlockId],
) -> Result<Vec<u32>, Exhausted>
    requires items { length accesses.now ≡ item_count g.now }
{
    let mut ranks = vec![in alloc; 0; values]?;
    let mut next: u32 = 0;
    for block in order {
        if block.0 < g.blocks() {
            next = rank_items(accesses, g.items_of(*block), ranks.as_mut_slice(), next);
        }
    }
    Ok(ranks)
}

/// The same along items.
fn rank_items(accesses: &[Vec<Access>], items: &[usize], ranks: &mut [u32], first: u32) -> u32 {
    let mut next = first;
    for item in items {
        if *item < accesses.len() {
            next = rank_accesses(accesses[*item].as_slice(), ranks, next);
        }
    }
    next
}

/// The same along accesses.
fn rank_accesses(accesses: &[Access], ranks: &mut [u32], first: u32) -> u32 {
    let mut next = first;
    for access in accesses {
        if let Access::Allocates(value) = *access {
            let index = value.0 as usize;
            if index < ranks.len() {
                ranks[index] = next;
                next = next.saturating_add(1);
            }
        }
    }
    next
}

impl Guess {
    /// Takes the slots into the block's stack, if there is room.
    fn put(&mut self, alloc: Global, block: BlockId, stack: &[ValueId]) -> Result<(), Exhausted> {
        let index = block.0 as usize;
        if index >= self.stacks.len() || stack.len() > self.room {
            return Ok(());
        }
        let all = match stack_of(self.stacks.as_slice(), block) {
            None => stack.to_vec(alloc)?,
            Some(known) => {
                if is_within(stack, known) {
                    return Ok(());
                }
                merged(alloc, self.ranks.as_slice(), known, stack)?
            }
        };
        self.room -= stack.len();
        self.stacks[index] = Some(all);
        self.grown = true;
        Ok(())
    }

    /// Goes on from the block's stack along its items and edges.
    fn go_on(
        &mut self,
        alloc: Global,
        g: &Graph,
        sources: &[Source],
        accesses: &[Vec<Access>],
        block: BlockId,
        doubts: &mut Doubts,
    ) -> Result<(), Exhausted>
        requires items { length accesses.now ≡ item_count g.now }
    {
        if block.0 >= g.blocks() {
            return Ok(());
        }
        let mut last = match stack_of(self.stacks.as_slice(), block) {
            None => return Ok(()),
            Some(stack) => stack.to_vec(alloc)?,
        };
        follow_items(
            self.ranks.as_slice(),
            sources,
            accesses,
            g.items_of(block),
            &mut last,
            doubts,
        )?;
        for index in 0..g.edges(block) {
            let edge = EdgeId { block, index };
            let mut stack = last.as_slice().to_vec(alloc)?;
            follow_items(
                self.ranks.as_slice(),
                sources,
                accesses,
                &[g.edge_item(edge)],
                &mut stack,
                doubts,
            )?;
            self.put(alloc, g.edge_to(edge), stack.as_slice())?;
        }
        Ok(())
    }

    /// Goes on from each of these blocks, and tells whether a stack grew.
    fn pass(
        &mut self,
        alloc: Global,
        g: &Graph,
        sources: &[Source],
        accesses: &[Vec<Access>],
        order: &[BlockId],
        doubts: &mut Doubts,
    ) -> Result<bool, Exhausted>
        requires items { length accesses.now ≡ item_count g.now }
    {
        self.grown = false;
        for block in order {
            self.go_on(alloc, g, sources, accesses, *block, doubts)?;
        }
        Ok(self.grown)
    }
}

/// Ranks and stacks: all that each walk leaves on a block's stack, while there is room.
pub fn guess_stacks(
    alloc: Global,
    g: &Graph,
    sources: &[Source],
    accesses: &[Vec<Access>],
) -> Result<Guess, Exhausted>
    requires items { length accesses.now ≡ item_count g.now }
{
    let order = blocks_in_order(alloc, g)?;
    let ranks = ranks_along(alloc, g, accesses, sources.len(), order.as_slice())?;
    let mut stacks = Vec::new(alloc);
    for _ in 0..g.blocks() {
        stacks.push(None)?;
    }
    let mut guess = Guess {
        ranks,
        stacks,
        room: MOST_SLOTS,
        grown: false,
    };
    let mut doubts = Doubts::none(alloc, 0)?;
    guess.put(alloc, BlockId(0), &[])?;
    for _ in 0..MOST_PASSES {
        if !guess.pass(alloc, g, sources, accesses, order.as_slice(), &mut doubts)? {
            return Ok(guess);
        }
    }
    Ok(guess)
}
