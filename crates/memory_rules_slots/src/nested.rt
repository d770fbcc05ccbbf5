//! Which slots are never deallocated before a later one, as stacks at the entries of blocks show it. No search is needed for such a slot as the first of two.

ghost use Rattle.std.specs.Prelude.{◌≡◌, ◌≤◌, ◌<◌, ℕ, IfOk, IsSome, IsTrue, All, Contains, length, option_map};
ghost use Rattle.sil_ast.specs.declared.place.ValueId as value;
ghost use Rattle.sil_cfg.specs.Layout.{item_count};
ghost use Rattle.sil_cfg.specs.Flow.{block_count, edge_id, numbered, IsEdge};
ghost use Rattle.memory_rules_accesses.specs.reach_engine_marks.PathPatterns.inner.Reads.{accesses_at};
ghost use Rattle.memory_rules_slots.specs.Pairs.{IsSlot};
ghost use Rattle.memory_rules_slots.specs.inner.Searches.{IsUncrossed};
ghost use Rattle.memory_rules_slots.specs.inner.Trust.{IsTrusted, Keeps};
ghost use Rattle.memory_rules_slots.specs.inner.Nesting.{stack_at, AreRising, Meets, IsEdgeNested, IsBlockNested};

use crate::doubts::Doubts;
use crate::guess::guess_stacks;
use crate::stack::{follow_items, is_above};
use memory_rules_accesses::{Access, Source};
use sil_ast::{BlockId, EdgeId, Exhausted, ValueId};
use sil_cfg::Graph;
use std::alloc::Global;

/// Whether the slots of the one stack are found in the other, in the same order.
pub fn is_within(stack: &[ValueId], other: &[ValueId]) -> bool
    ensures { IsTrue result → All (λ u. Contains other.now u) stack.now }
{
    let mut found = 0;
    for slot in other {
        if found < stack.len() && stack[found].0 == slot.0 {
            found += 1;
        }
    }
    found == stack.len()
}

/// Whether the ranks in a stack rise from the lowest slot to the top.
fn are_rising(ranks: &[u32], stack: &[ValueId]) -> bool
    ensures { IsTrue result → AreRising ranks.now stack.now }
{
    for index in 0..stack.len() {
        if !is_above(ranks, &stack[..index], stack[index]) {
            return false;
        }
    }
    true
}

/// The stack at the block's entry, where it is known.
pub fn stack_of(stacks: &[Option<Vec<ValueId>>], block: BlockId) -> Option<&[ValueId]>
    ensures { option_map (λ s. s.now) result ≡ stack_at stacks.now block.0 }
{
    match stacks.get(block.0 as usize) {
        Some(Some(stack)) => Some(stack.as_slice()),
        _ => None,
    }
}

/// Compares the stack with that of the target. Where this isn't known, or lacks one of the slots, all are in doubt.
fn meet(stacks: &[Option<Vec<ValueId>>], target: BlockId, stack: &[ValueId], doubts: &mut Doubts)
    ensures keeps { Keeps doubts.old doubts.new }
    ensures meets { (a : value.ValueId) → IsTrusted doubts.new a → Meets stack.now (stack_at stacks.now target.0) a }
{
    match stack_of(stacks, target) {
        None => doubts.add_all(),
        Some(known) => {
            if is_within(stack, known) {
                return;
            }
            doubts.add_each(stack);
        }
    }
}

/// Follows the stack along the edge to that of its target.
fn follow_edge(
    alloc: Global,
    g: &Graph,
    sources: &[Source],
    accesses: &[Vec<Access>],
    ranks: &[u32],
    stacks: &[Option<Vec<ValueId>>],
    stack: &[ValueId],
    edge: EdgeId,
    doubts: &mut Doubts,
) -> Result<(), Exhausted>
    requires items { length accesses.now ≡ item_count g.now }
    requires edge { IsEdge (numbered g.now) edge }
    requires rising { AreRising ranks.now stack.now }
    ensures keeps { IfOk result (λ _. Keeps doubts.old doubts.new) }
    ensures nested { IfOk result (λ _. (a : value.ValueId) → IsTrusted doubts.new a
        → IsEdgeNested sources.now ranks.now (accesses_at accesses.now) (numbered g.now) (stack_at stacks.now) stack.now edge a) }
{
    let mut last = Vec::from_slice(alloc, stack)?;
    follow_items(
        ranks,
        sources,
        accesses,
        &[g.edge_item(edge)],
        &mut last,
        doubts,
    )?;
    meet(stacks, g.edge_to(edge), last.as_slice(), doubts);
    Ok(())
}

/// Follows the stack along each edge of the block.
fn follow_edges(
    alloc: Global,
    g: &Graph,
    sources: &[Source],
    accesses: &[Vec<Access>],
    ranks: &[u32],
    stacks: &[Option<Vec<ValueId>>],
    stack: &[ValueId],
    block: BlockId,
    doubts: &mut Doubts,
) -> Result<(), Exhausted>
    requires items { length accesses.now ≡ item_count g.now }
    requires block { block.0 < block_count (numbered g.now) }
    requires rising { AreRising ranks.now stack.now }
    ensures keeps { IfOk result (λ _. Keeps doubts.old doubts.new) }
    ensures nested { IfOk result (λ _. (a : value.ValueId) → IsTrusted doubts.new a → (i : ℕ) → IsEdge (numbered g.now) (edge_id block.0 i)
        → IsEdgeNested sources.now ranks.now (accesses_at accesses.now) (numbered g.now) (stack_at stacks.now) stack.now (edge_id block.0 i) a) }
{
    for index in 0..g.edges(block) {
        let edge = EdgeId { block, index };
        follow_edge(
            alloc, g, sources, accesses, ranks, stacks, stack, edge, doubts,
        )?;
    }
    Ok(())
}

/// Follows the block's stack, if it has one, along its items and each of its edges.
fn follow_block(
    alloc: Global,
    g: &Graph,
    sources: &[Source],
    accesses: &[Vec<Access>],
    ranks: &[u32],
    stacks: &[Option<Vec<ValueId>>],
    block: BlockId,
    doubts: &mut Doubts,
) -> Result<(), Exhausted>
    requires items { length accesses.now ≡ item_count g.now }
    requires block { block.0 < block_count (numbered g.now) }
    ensures keeps { IfOk result (λ _. Keeps doubts.old doubts.new) }
    ensures nested { IfOk result (λ _. (a : value.ValueId) → IsTrusted doubts.new a
        → IsBlockNested sources.now ranks.now (accesses_at accesses.now) (numbered g.now) (stack_at stacks.now) block.0 a) }
{
    match stack_of(stacks, block) {
        None => Ok(()),
        Some(stack) => {
            if !are_rising(ranks, stack) {
                doubts.add_all();
                return Ok(());
            }
            let mut last = Vec::from_slice(alloc, stack)?;
            follow_items(
                ranks,
                sources,
                accesses,
                g.items_of(block),
                &mut last,
                doubts,
            )?;
            follow_edges(
                alloc,
                g,
                sources,
                accesses,
                ranks,
                stacks,
                last.as_slice(),
                block,
                doubts,
            )?;
            Ok(())
        }
    }
}

/// Follows the stack of each block.
fn follow_blocks(
    alloc: Global,
    g: &Graph,
    sources: &[Source],
    accesses: &[Vec<Access>],
    ranks: &[u32],
    stacks: &[Option<Vec<ValueId>>],
    doubts: &mut Doubts,
) -> Result<(), Exhausted>
    requires items { length accesses.now ≡ item_count g.now }
    ensures { IfOk result (λ _. (a : value.ValueId) → IsTrusted doubts.new a → (b : ℕ) → b < block_count (numbered g.now)
        → IsBlockNested sources.now ranks.now (accesses_at accesses.now) (numbered g.now) (stack_at stacks.now) b a) }
{
    for number in 0..g.blocks() {
        follow_block(
            alloc,
            g,
            sources,
            accesses,
            ranks,
            stacks,
            BlockId(number),
            doubts,
        )?;
    }
    Ok(())
}

/// Whether the entry's stack is known, and there is no stack of a block that isn't there.
fn has_start(g: &Graph, stacks: &[Option<Vec<ValueId>>]) -> bool
    ensures few { IsTrue result → length stacks.now ≤ block_count (numbered g.now) }
    ensures known { IsTrue result → IsSome (stack_at stacks.now 0) }
{
    if stacks.len() > g.blocks() as usize {
        return false;
    }
    match stack_of(stacks, BlockId(0)) {
        None => false,
        Some(_) => true,
    }
}

/// The slots that may be deallocated before a later one. It takes time that is linear in the items and in the depth.
pub fn doubted_slots(
    alloc: Global,
    g: &Graph,
    sources: &[Source],
    accesses: &[Vec<Access>],
) -> Result<Doubts, Exhausted>
    requires items { length accesses.now ≡ item_count g.now }
    ensures { IfOk result (λ doubts. (a : value.ValueId) → IsTrusted doubts a → IsSlot sources.now a → (b : value.ValueId) → IsSlot sources.now b
        → IsUncrossed g.now (accesses_at accesses.now) a b) }
{
    let guess = guess_stacks(alloc, g, sources, accesses)?;
    let ranks = guess.ranks.as_slice();
    let stacks = guess.stacks.as_slice();
    let mut doubts = Doubts::none(alloc, sources.len())?;
    if !has_start(g, stacks) {
        doubts.add_all();
        return Ok(doubts);
    }
    follow_blocks(alloc, g, sources, accesses, ranks, stacks, &mut doubts)?;
    Ok(doubts)
}
