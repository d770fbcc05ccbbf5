//! The slots of a function.

ghost use Rattle.std.specs.Prelude.{IfOk, length};
ghost use Rattle.memory_rules_slots.specs.inner.Searches.{AreSlots};

use memory_rules_accesses::Source;
use sil_ast::{Exhausted, ValueId};
use std::alloc::Global;

/// The slots among values, in ascending order. Values that have no number are reported as exhausted.
pub fn slots_of(alloc: Global, sources: &[Source]) -> Result<Vec<ValueId>, Exhausted>
    ensures { IfOk result (λ v. AreSlots sources.now (length sources.now) v.items) }
{
    let mut slots = Vec::new(alloc);
    for index in 0..sources.len() {
        if sources[index].is_slot() {
            let Ok(number) = u32::try_from(index) else {
                return Err(Exhausted);
            };
            slots.push(ValueId(number))?;
        }
    }
    Ok(slots)
}
