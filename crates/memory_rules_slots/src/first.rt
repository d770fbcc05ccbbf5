//! The first crossing of all slots.

ghost use Rattle.std.specs.Prelude.{◌≡◌, ◌<◌, ℕ, IfOk, All, AllPairs, length, Option};
ghost use Rattle.sil_ast.specs.declared.place.ValueId as value;
ghost use Rattle.sil_cfg.specs.Layout.{item_count};
ghost use Rattle.sil_cfg.specs.inner.Build.{IsGraphOf};
ghost use Rattle.ownership_kinds_chains.specs.declared.ownership_chains.facts.Facts.{Facts};
ghost use Rattle.ownership_kinds_chains.specs.OwnershipMarks.Known.{AreKindsBy};
ghost use Rattle.memory_rules_accesses.specs.reach_engine_marks.PathPatterns.inner.Reads.{AgreesWith, accesses_at};
ghost use Rattle.memory_rules_accesses.specs.Accesses.{accesses_of};
ghost use Rattle.memory_rules_slots.specs.Pairs.{IsFirstCrossing};
ghost use Rattle.memory_rules_slots.specs.inner.Searches.{IsNearest, IsUncrossed};
ghost use Rattle.memory_rules_slots.specs.inner.Trust.{IsTrusted};
ghost use Rattle.memory_rules_slots.specs.inner.Chunks.{IsChunkOf, slots_in};

use crate::chunk::{Chunk, chunks_of};
use crate::crossing::Crossing;
use crate::deallocated::deallocated_slots;
use crate::doubts::Doubts;
use crate::nested::doubted_slots;
use crate::search::crossing_of_first;
use crate::slots::slots_of;
use memory_rules_accesses::{Access, Source};
use ownership_kinds_chains::Kinds;
use sil_ast::{Exhausted, Function, ValueId};
use sil_cfg::Graph;
use std::alloc::Global;

/// The nearest crossing of the slot, which is searched only where it is in doubt and deallocated at all.
fn crossing_in_doubt(
    alloc: Global,
    g: &Graph,
    accesses: &[Vec<Access>],
    slots: &[ValueId],
    chunks: &[Chunk],
    doubts: &Doubts,
    deallocated: &Doubts,
    first: ValueId,
) -> Result<Option<Crossing>, Exhausted>
    requires items { length accesses.now ≡ item_count g.now }
    requires ascending { AllPairs (λ a b. a.0 < b.0) slots.now }
    requires chunks { All (IsChunkOf accesses.now) chunks.now }
    requires slots { slots_in chunks.now ≡ slots.now }
    requires never { IsTrusted deallocated.now first → All (IsUncrossed g.now (accesses_at accesses.now) first) slots.now }
    requires trusted { IsTrusted doubts.now first → All (IsUncrossed g.now (accesses_at accesses.now) first) slots.now }
    ensures { IfOk result (IsNearest g.now (accesses_at accesses.now) first slots.now) }
{
    if doubts.has(first) && deallocated.has(first) {
        crossing_of_first(alloc, g, accesses, slots, chunks, first)
    } else {
        Ok(None)
    }
}

/// The first slot by its number that some walk deallocates while a slot that was allocated after it still is allocated, with a walk of fewest edges,
/// its last point, and the least such later slot there.
/// `sources` has what each value is to memory, and `accesses` what each item of the function's graph does, by the item's number.
pub fn first_crossing(
    alloc: Global,
    f: &Function,
    g: &Graph,
    k: &Kinds,
    sources: &[Source],
    accesses: &[Vec<Access>],
) -> Result<Option<Crossing>, Exhausted>
    requires graph { IsGraphOf g.now f.now }
    requires items { length accesses.now ≡ item_count g.now }
    requires accesses { (count : ℕ) (facts : value.ValueId → Option Facts) → AreKindsBy count facts f.now g.now k.now
        → AgreesWith g.now (accesses_at accesses.now) (accesses_of sources.now facts f.now) }
    ensures { IfOk result (IsFirstCrossing sources.now f.now g.now k.now) }
{
    let listed = slots_of(alloc, sources)?;
    let slots = listed.as_slice();
    if slots.is_empty() {
        return Ok(None);
    }
    let doubts = doubted_slots(alloc, g, sources, accesses)?;
    let deallocated = deallocated_slots(alloc, sources.len(), accesses)?;
    let parts = chunks_of(alloc, slots, accesses)?;
    let chunks = parts.as_slice();
    for first in slots {
        if let Some(crossing) = crossing_in_doubt(
            alloc,
            g,
            accesses,
            slots,
            chunks,
            &doubts,
            &deallocated,
            *first,
        )? {
            return Ok(Some(crossing));
        }
    }
    Ok(None)
}
