//! Slots in parts that can be searched together.

ghost use Rattle.std.specs.Prelude.{◌≡◌, ◌≤◌, ◌<◌, IfOk, All, AllPairs, length};
ghost use Rattle.memory_rules_slots.specs.inner.Chunks.{IsChunkOf, slots_in};

use crate::touched::{all_places, touched_slots};
use memory_rules_accesses::Access;
use sil_ast::{Exhausted, ValueId};
use std::alloc::Global;

/// The most slots that are searched together.
const CHUNK: usize = 1024;

/// A few slots in ascending order, for each item the places of those that it allocates or deallocates, and the places of all.
#[derive(Drop)]
pub struct Chunk {
    pub slots: Vec<ValueId>,
    pub touched: Vec<Vec<u32>>,
    pub all: Vec<u32>,
}

/// These slots as one chunk.
fn chunk_of(alloc: Global, slots: &[ValueId], accesses: &[Vec<Access>]) -> Result<Chunk, Exhausted>
    requires few { length slots.now ≤ 1024 }
    requires ascending { AllPairs (λ a b. a.0 < b.0) slots.now }
    ensures slots { IfOk result (λ c. c.slots.items ≡ slots.now) }
    ensures chunk { IfOk result (IsChunkOf accesses.now) }
{
    let touched = touched_slots(alloc, slots, accesses)?;
    let all = all_places(alloc, slots.len())?;
    let slots = Vec::from_slice(alloc, slots)?;
    Ok(Chunk {
        slots,
        touched,
        all,
    })
}

/// The slots in chunks, in order.
pub fn chunks_of(
    alloc: Global,
    slots: &[ValueId],
    accesses: &[Vec<Access>],
) -> Result<Vec<Chunk>, Exhausted>
    requires ascending { AllPairs (λ a b. a.0 < b.0) slots.now }
    ensures slots { IfOk result (λ v. slots_in v.items ≡ slots.now) }
    ensures each { IfOk result (λ v. All (IsChunkOf accesses.now) v.items) }
{
    let mut chunks = Vec::new(alloc);
    let mut first = 0;
    while first < slots.len() {
        let count = CHUNK.min(slots.len() - first);
        chunks.push(chunk_of(alloc, &slots[first..first + count], accesses)?)?;
        first += count;
    }
    Ok(chunks)
}
