//! Allocation. All growths are made first.

ghost use Rattle.std.specs.Prelude.{◌≡◌, ◌<◌, ◌≤◌, ◌^◌, IfOk, OnErr, ℕ, true, if◌then◌else◌, is_ok, is_some, length};
ghost use Rattle.sil_types.specs.sil_types_declarations.TypeDefinitions.Lookups as lookups;
ghost use Rattle.count_heap.specs.HeapModel.HeapCalls.{allocated_in};
ghost use Rattle.count_heap.specs.inner.Allocating.{IsSlotForNew};
ghost use Rattle.count_heap.specs.inner.Objects.{record_at};

use crate::heap::Heap;
use crate::slot_record::{NO_RECORD, SlotRecord};
use holder_model_values::Phase;
use number_tables::NumberTable;
use sil_ast::{Exhausted, ObjectId};
use weak_unowned::SideCounts;

/// A slot for a new object: an idle one, or a further one where none is idle. A refusal leaves the slots as they are.
fn slot_for_new(
    numbers: &mut NumberTable,
    records: &mut Vec<SlotRecord>,
    sides: &mut SideCounts,
) -> Result<usize, Exhausted>
    requires slots { length sides.old ≤ numbers.old.slots }
    requires records { length sides.old ≤ length records.old.items }
    ensures numbers { numbers.new.places ≡ numbers.old.places }
    ensures slots { length sides.new ≤ numbers.new.slots }
    ensures records { length sides.new ≤ length records.new.items }
    ensures kept { (s : ℕ) → record_at records.new.items s ≡ record_at records.old.items s }
    ensures ok { IfOk result (λ s. IsSlotForNew sides.old sides.new s) }
    ensures err { OnErr result (sides.new ≡ sides.old) }
{
    if let Some(slot) = sides.take_idle() {
        return Ok(slot);
    }
    let slot = sides.len();
    if numbers.slots() <= slot {
        numbers.add_slot()?;
    }
    if records.len() <= slot {
        records.push(NO_RECORD)?;
    }
    sides.add_slot()?;
    Ok(slot)
}

impl Heap {
    /// A new object of the class at this place among the declarations. It is live, with one strong reference and no field written.
    /// Where there is no memory for it, nothing changes.
    pub fn allocate(&mut self, class_index: u32) -> Result<ObjectId, Exhausted>
        requires class { is_some (lookups.class_at self.old.declarations class_index) ≡ true }
        requires few { length self.old.objects < 2 ^ 63 }
        ensures number { IfOk result (λ o. o.0 ≡ length self.old.objects) }
        ensures heap { self.new ≡ (if is_ok result then allocated_in self.old class_index else self.old) }
    {
        let piece = self.pool.take(self.layouts.size(class_index))?;
        match slot_for_new(&mut self.numbers, &mut self.records, &mut self.sides) {
            Ok(slot) => {
                self.records[slot] = SlotRecord {
                    strong: 1,
                    piece,
                    class: class_index,
                    phase: Phase::Live,
                };
                let number = self.numbers.given();
                self.numbers.give(slot);
                Ok(ObjectId(number))
            }
            Err(error) => {
                self.pool.give_back(piece);
                Err(error)
            }
        }
    }
}
