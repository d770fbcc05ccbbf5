//! The slots that may be allocated, in the order of their ranks, along items. A slot that is deallocated below another one is in doubt from there on.

ghost use Rattle.std.specs.Prelude.{◌≡◌, ◌<◌, ◌∷◌, [], ℕ, List, IfOk, IfSome, IsTrue, All, length};
ghost use Rattle.memory_rules_accesses.specs.reach_engine_marks.PathPatterns.inner.Reads.{accesses_at};
ghost use Rattle.memory_rules_accesses.specs.Sources as slots;
ghost use Rattle.memory_rules_accesses.specs.declared.access.Access.TheVariants as access;
ghost use Rattle.memory_rules_accesses.specs.declared.source.Source as source;
ghost use Rattle.memory_rules_slots.specs.inner.Nesting.{rank_at, AreRising};
ghost use Rattle.memory_rules_slots.specs.inner.Followed.{AreFollowed, ArePassed, IsTop, StandsAt};

use crate::doubts::Doubts;
use memory_rules_accesses::{Access, Source};
use sil_ast::{Exhausted, ValueId};

/// Whether the value is a slot.
fn is_slot(sources: &[Source], value: ValueId) -> bool
    ensures { result ≡ slots.is_slot sources.now value }
{
    match sources.get(value.0 as usize) {
        None => false,
        Some(source) => source.is_slot(),
    }
}

pub fn rank_of(ranks: &[u32], slot: ValueId) -> u32
    ensures { result ≡ rank_at ranks.now slot }
{
    match ranks.get(slot.0 as usize) {
        None => 0,
        Some(rank) => *rank,
    }
}

/// Whether the slot's rank is above all those in the stack.
pub fn is_above(ranks: &[u32], stack: &[ValueId], slot: ValueId) -> bool
    ensures { IsTrue result → AreRising ranks.now stack.now → All (λ u. rank_at ranks.now u < rank_at ranks.now slot) stack.now }
{
    match stack.last() {
        None => true,
        Some(top) => rank_of(ranks, *top) < rank_of(ranks, slot),
    }
}

/// Whether the slot stands on top.
fn is_top(stack: &[ValueId], slot: ValueId) -> bool
    ensures { IsTrue result → IsTop stack.now slot }
{
    match stack.last() {
        None => false,
        Some(top) => top.0 == slot.0,
    }
}

/// Where the slot stands in the stack, if it does.
fn place_in(stack: &[ValueId], slot: ValueId) -> Option<usize>
    ensures { IfSome result (StandsAt stack.now slot) }
{
    for index in 0..stack.len() {
        if stack[index].0 == slot.0 {
            return Some(index);
        }
    }
    None
}

/// Puts the slot on top. Where others stand as high by their ranks, all are in doubt.
fn enter(
    ranks: &[u32],
    sources: &[Source],
    slot: ValueId,
    stack: &mut Vec<ValueId>,
    doubts: &mut Doubts,
) -> Result<(), Exhausted>
    ensures { IfOk result (λ _. AreFollowed sources.now ranks.now stack.old.items (access.Allocates slot ∷ []) stack.new.items doubts.old doubts.new) }
{
    if !is_slot(sources, slot) {
        return Ok(());
    }
    if is_top(stack.as_slice(), slot) {
        return Ok(());
    }
    if !is_above(ranks, stack.as_slice(), slot) {
        doubts.add_each(stack.as_slice());
        stack.clear();
    }
    stack.push(slot)?;
    Ok(())
}

/// Takes the slot off the stack. Where it doesn't stand on top, it is in doubt.
fn leave(slot: ValueId, stack: &mut Vec<ValueId>, doubts: &mut Doubts)
    ensures { (sources : List source.Source) (ranks : List ℕ)
        → AreFollowed sources ranks stack.old.items (access.Deallocates slot ∷ []) stack.new.items doubts.old doubts.new }
{
    if is_top(stack.as_slice(), slot) {
        stack.pop();
        return;
    }
    doubts.add(slot);
    if let Some(place) = place_in(stack.as_slice(), slot) {
        stack.remove(place);
        return;
    }
}

/// One access.
fn follow(
    ranks: &[u32],
    sources: &[Source],
    access: &Access,
    stack: &mut Vec<ValueId>,
    doubts: &mut Doubts,
) -> Result<(), Exhausted>
    ensures { IfOk result (λ _. AreFollowed sources.now ranks.now stack.old.items (access.now ∷ []) stack.new.items doubts.old doubts.new) }
{
    match *access {
        Access::Allocates(slot) => enter(ranks, sources, slot, stack, doubts),
        Access::Deallocates(slot) => {
            leave(slot, stack, doubts);
            Ok(())
        }
        _ => Ok(()),
    }
}

/// The accesses of one item, one after another.
fn follow_all(
    ranks: &[u32],
    sources: &[Source],
    accesses: &[Access],
    stack: &mut Vec<ValueId>,
    doubts: &mut Doubts,
) -> Result<(), Exhausted>
    ensures { IfOk result (λ _. AreFollowed sources.now ranks.now stack.old.items accesses.now stack.new.items doubts.old doubts.new) }
{
    for access in accesses {
        follow(ranks, sources, access, stack, doubts)?;
    }
    Ok(())
}

/// The accesses of an item.
fn accesses_of_item(accesses: &[Vec<Access>], item: usize) -> &[Access]
    requires { item < length accesses.now }
    ensures { result.now ≡ accesses_at accesses.now item }
{
    accesses[item].as_slice()
}

/// The items, one after another.
pub fn follow_items(
    ranks: &[u32],
    sources: &[Source],
    accesses: &[Vec<Access>],
    items: &[usize],
    stack: &mut Vec<ValueId>,
    doubts: &mut Doubts,
) -> Result<(), Exhausted>
    requires { All (λ i. i < length accesses.now) items.now }
    ensures { IfOk result (λ _. ArePassed sources.now ranks.now (accesses_at accesses.now) stack.old.items items.now stack.new.items doubts.old doubts.new) }
{
    for item in items {
        follow_all(
            ranks,
            sources,
            accesses_of_item(accesses, *item),
            stack,
            doubts,
        )?;
    }
    Ok(())
}
