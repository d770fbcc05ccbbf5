//! Which of some slots an item allocates or deallocates.

ghost use Rattle.std.specs.Prelude.{◌≡◌, ◌≤◌, ◌<◌, ℕ, IfOk, AllPairs, Contains, length};
ghost use Rattle.memory_rules_accesses.specs.reach_engine_marks.PathPatterns.inner.Reads.{accesses_at};
ghost use Rattle.memory_rules_slots.specs.inner.Touched.{IsRising};
ghost use Rattle.memory_rules_slots.specs.inner.Touched as touched;
ghost use Rattle.memory_rules_slots.specs.inner.Touched.{HasTouched, IsPut};

use memory_rules_accesses::Access;
use sil_ast::{Exhausted, ValueId};
use std::alloc::Global;

/// The slot that the access allocates or deallocates. An object is taken for a slot here.
pub fn slot_in(access: &Access) -> Option<u32>
    ensures { result ≡ touched.slot_in access.now }
{
    match *access {
        Access::Allocates(value) => Some(value.0),
        Access::Deallocates(value) => Some(value.0),
        _ => None,
    }
}

/// Whether that is this slot.
fn is_of(slot: ValueId, access: &Access) -> bool
    ensures { result ≡ touched.is_in slot.0 (touched.slot_in access.now) }
{
    match slot_in(access) {
        None => false,
        Some(value) => value == slot.0,
    }
}

/// Whether one of the accesses allocates or deallocates the slot.
pub fn has_slot(accesses: &[Access], slot: ValueId) -> bool
    ensures { result ≡ touched.has_slot slot accesses.now }
{
    for access in accesses {
        if is_of(slot, access) {
            return true;
        }
    }
    false
}

/// The place of the value among slots in ascending order, if it has one.
fn place_of(slots: &[ValueId], value: u32) -> Option<usize>
    requires { AllPairs (λ a b. a.0 < b.0) slots.now }
    ensures { touched.IsPlaceOf slots.now value result }
{
    let place = slots.partition_point(|slot| slot.0 < value);
    if place < slots.len() && slots[place].0 == value {
        Some(place)
    } else {
        None
    }
}

/// Adds the place of the access's slot, if it is one of these.
fn put_in(slots: &[ValueId], access: &Access, places: &mut Vec<u32>) -> Result<(), Exhausted>
    requires few { length slots.now ≤ 1024 }
    requires ascending { AllPairs (λ a b. a.0 < b.0) slots.now }
    ensures { IfOk result (λ _. IsPut slots.now access.now places.old.items places.new.items) }
{
    let Some(value) = slot_in(access) else {
        return Ok(());
    };
    if let Some(place) = place_of(slots, value) {
        places.push(place as u32)?;
        return Ok(());
    }
    Ok(())
}

/// The places of the slots that the accesses allocate or deallocate, in ascending order.
fn touched_by(alloc: Global, slots: &[ValueId], accesses: &[Access]) -> Result<Vec<u32>, Exhausted>
    requires few { length slots.now ≤ 1024 }
    requires ascending { AllPairs (λ a b. a.0 < b.0) slots.now }
    ensures rising { IfOk result (λ v. IsRising (length slots.now) v.items) }
    ensures all { IfOk result (λ v. HasTouched slots.now accesses.now v.items) }
{
    let mut places = Vec::new(alloc);
    for access in accesses {
        put_in(slots, access, &mut places)?;
    }
    places.sort()?;
    places.dedup();
    Ok(places)
}

/// The same for the accesses of every item.
pub fn touched_slots(
    alloc: Global,
    slots: &[ValueId],
    accesses: &[Vec<Access>],
) -> Result<Vec<Vec<u32>>, Exhausted>
    requires few { length slots.now ≤ 1024 }
    requires ascending { AllPairs (λ a b. a.0 < b.0) slots.now }
    ensures size { IfOk result (λ v. length v.items ≡ length accesses.now) }
    ensures rising { IfOk result (λ v. (i : ℕ) → IsRising (length slots.now) (accesses_at v.items i)) }
    ensures all { IfOk result (λ v. (i : ℕ) → HasTouched slots.now (accesses_at accesses.now i) (accesses_at v.items i)) }
{
    let mut places = Vec::with_capacity(alloc, accesses.len())?;
    for item in accesses {
        places.push(touched_by(alloc, slots, item.as_slice())?)?;
    }
    Ok(places)
}

/// The places of all slots.
pub fn all_places(alloc: Global, count: usize) -> Result<Vec<u32>, Exhausted>
    requires few { count ≤ 1024 }
    ensures rising { IfOk result (λ v. IsRising count v.items) }
    ensures all { IfOk result (λ v. (u : ℕ) → u < count → (Contains v.items u → ⊥) → ⊥) }
{
    let mut places = Vec::new(alloc);
    for place in 0..count {
        places.push(place as u32)?;
    }
    Ok(places)
}
