//! Weak and unowned storage: what it holds, and how it is emptied.

ghost use Rattle.std.specs.Prelude.{◌≡◌, false};
ghost use Rattle.count_heap.specs.HeapModel.HeapViews.{is_dead_in};
ghost use Rattle.count_machine_model.specs.MachineSteps.Held.{empty_at, empty_slot, held_at, held_by, held_in_slot};
ghost use Rattle.count_machine_model.specs.MachineSteps.Views.{MachineView};
ghost use Rattle.count_machine_model.specs.declared.machine_steps.address.Home.TheVariants as home;
ghost use Rattle.count_machine_state.specs.inner.NameHeld.{as_name, LiesAlive, UnlessDead};

use crate::machine::Machine;
use count_heap::Heap;
use count_machine_leaves::{empty_field, field_of, is_dead, leaf_at};
use count_machine_model::{Address, Home, OpenSlot};
use holder_model_values::Leaf;
use sil_ast::ObjectId;

/// What storage holds: nothing, since its slot is gone or its object is dead or it is empty, or the leaf that keeps its object.
#[derive(Clone, Copy)]
pub enum NameHeld {
    Gone,
    OfDead { object: ObjectId },
    Empty,
    Full { leaf: Leaf },
}

/// What storage in a field holds.
#[inline]
fn held_in_field(heap: &Heap, object: ObjectId, field: u32, from: u32) -> NameHeld
    ensures held { (st : MachineView) → st.heap ≡ heap.now → result ≡ as_name (held_by st from 1 (home.Field object field)) }
    ensures alive { UnlessDead result (is_dead_in heap.now object ≡ false) }
{
    if is_dead(heap, object) {
        return NameHeld::OfDead { object };
    }
    match field_of(heap, object, field) {
        Some(leaves) => NameHeld::Full {
            leaf: leaf_at(leaves, from as usize),
        },
        None => NameHeld::Empty,
    }
}

impl Machine {
    /// What storage in a slot holds.
    #[inline]
    fn held_in_slot(&self, slot: Option<OpenSlot>, from: u32) -> NameHeld
        ensures { result ≡ as_name (held_in_slot self.now from 1 slot) }
    {
        match slot {
            Some(slot) => {
                if slot.is_full {
                    NameHeld::Full {
                        leaf: leaf_at(&self.slot_leaves, slot.from.saturating_add(from as usize)),
                    }
                } else {
                    NameHeld::Empty
                }
            }
            None => NameHeld::Gone,
        }
    }

    /// What the storage with an address holds.
    #[inline]
    pub fn held_name(&self, place: Address) -> NameHeld
        ensures held { result ≡ as_name (held_at self.now place 1) }
        ensures alive { UnlessDead result (LiesAlive self.now.heap place.home) }
    {
        match place.home {
            Home::Slot { index, serial } => self.held_in_slot(
                self.open_slot(index, serial),
                place.from,
            ),
            Home::Field { object, field } => held_in_field(&self.heap, object, field, place.from),
        }
    }

    /// A slot is empty.
    #[inline]
    fn empty_slot(&mut self, index: u32, slot: Option<OpenSlot>)
        ensures { self.new ≡ empty_slot self.old index slot }
    {
        let Some(slot) = slot else {
            return;
        };
        let index = index as usize;
        if index < self.slots.len() {
            self.slots[index] = OpenSlot {
                is_full: false,
                ..slot
            };
        }
    }

    /// A place is empty.
    #[inline]
    pub fn empty_place(&mut self, place: Address)
        requires { LiesAlive self.old.heap place.home }
        ensures { self.new ≡ empty_at self.old place }
    {
        match place.home {
            Home::Slot { index, serial } => {
                let slot = self.open_slot(index, serial);
                self.empty_slot(index, slot);
            }
            Home::Field { object, field } => empty_field(&mut self.heap, object, field),
        }
    }
}
