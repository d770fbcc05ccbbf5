//! The search for the nearest crossing of one slot.

ghost use Rattle.std.specs.Prelude.{◌≡◌, ◌<◌, IfOk, IsTrue, All, AllPairs, length};
ghost use Rattle.sil_cfg.specs.Layout.{item_count};
ghost use Rattle.memory_rules_accesses.specs.reach_engine_marks.PathPatterns.inner.Reads.{accesses_at};
ghost use Rattle.memory_rules_slots.specs.inner.Searches.{IsNearest, IsUncrossed};
ghost use Rattle.memory_rules_slots.specs.inner.Chunks.{IsChunkOf, slots_in};

use crate::chunk::Chunk;
use crate::crossing::Crossing;
use crate::nearest::nearest_crossing;
use crate::rivals::Rivals;
use memory_rules_accesses::Access;
use reach_engine::first_broken;
use sil_ast::{Exhausted, ValueId};
use sil_cfg::Graph;
use std::alloc::Global;

/// Whether no walk deallocates the first slot before a later one of the chunk.
fn is_uncrossed(
    alloc: Global,
    g: &Graph,
    accesses: &[Vec<Access>],
    chunk: &Chunk,
    first: ValueId,
) -> Result<bool, Exhausted>
    requires items { length accesses.now ≡ item_count g.now }
    requires chunk { IsChunkOf accesses.now chunk.now }
    ensures { IfOk result (λ clean. IsTrue clean → All (IsUncrossed g.now (accesses_at accesses.now) first) chunk.now.slots.items) }
{
    let rivals = Rivals {
        accesses,
        first,
        chunk,
    };
    match first_broken(alloc, g, &rivals)? {
        None => Ok(true),
        Some(_) => Ok(false),
    }
}

/// The same for all chunks.
fn are_uncrossed(
    alloc: Global,
    g: &Graph,
    accesses: &[Vec<Access>],
    chunks: &[Chunk],
    first: ValueId,
) -> Result<bool, Exhausted>
    requires items { length accesses.now ≡ item_count g.now }
    requires chunks { All (IsChunkOf accesses.now) chunks.now }
    ensures { IfOk result (λ clean. IsTrue clean → All (IsUncrossed g.now (accesses_at accesses.now) first) (slots_in chunks.now)) }
{
    for chunk in chunks {
        if !is_uncrossed(alloc, g, accesses, chunk, first)? {
            return Ok(false);
        }
    }
    Ok(true)
}

/// Of the slots that cross the first one, the one whose walk has fewest edges, and the least of these. All are searched together;
/// only where one is found, each by itself.
pub fn crossing_of_first(
    alloc: Global,
    g: &Graph,
    accesses: &[Vec<Access>],
    slots: &[ValueId],
    chunks: &[Chunk],
    first: ValueId,
) -> Result<Option<Crossing>, Exhausted>
    requires items { length accesses.now ≡ item_count g.now }
    requires ascending { AllPairs (λ a b. a.0 < b.0) slots.now }
    requires chunks { All (IsChunkOf accesses.now) chunks.now }
    requires slots { slots_in chunks.now ≡ slots.now }
    ensures { IfOk result (IsNearest g.now (accesses_at accesses.now) first slots.now) }
{
    let clean = are_uncrossed(alloc, g, accesses, chunks, first)?;
    if clean {
        return Ok(None);
    }
    nearest_crossing(alloc, g, accesses, slots, first)
}
