//! Slots: how they come and go, and how they are read and written.

ghost use Rattle.std.specs.Prelude.{◌≡◌, [], IfOk, OnOk, take, length, drop, set, true};
ghost use Rattle.count_machine_model.specs.MachineSteps.Held.{slot_in};
ghost use Rattle.count_machine_model.specs.MachineSteps.Operands.{contents, put, laid_over};
ghost use Rattle.count_machine_model.specs.MachineSteps.Places.{removes_slot, slot_address, with_slot};
ghost use Rattle.count_machine_state.specs.GoingOn.{GoesOver};

use crate::machine::Machine;
use crate::stop::{Stop, fault};
use count_machine_leaves::{lay_over, window};
use count_machine_model::{Address, Frame, Home, Local, OpenSlot};
use holder_model::LowFault;
use holder_model_values::Leaf;
use sil_ast::Exhausted;

impl Machine {
    /// The slot that an address names, if it is still open.
    #[inline]
    pub fn open_slot(&self, index: u32, serial: u64) -> Option<OpenSlot>
        ensures { result ≡ slot_in self.now index serial }
    {
        let slot = *self.slots.get(index as usize)?;
        if slot.serial == serial {
            Some(slot)
        } else {
            None
        }
    }

    /// How many slots are open.
    #[inline]
    pub fn slot_count(&self) -> usize
        ensures { result ≡ length self.now.slots }
    {
        self.slots.len()
    }

    /// A new slot with so many leaves, and its address.
    pub fn add_slot(&mut self, frame: &Frame, size: u32) -> Result<Address, Exhausted>
        ensures address { IfOk result (λ a. a ≡ slot_address self.old frame.now []) }
        ensures slot { OnOk result (self.new ≡ with_slot self.old frame.now [] size) }
    {
        let serial = self.serials;
        let Ok(index) = u32::try_from(self.slots.len()) else {
            return Err(Exhausted);
        };
        let Some(serials) = serial.checked_add(1) else {
            return Err(Exhausted);
        };
        let from = self.slot_leaves.len();
        self.slots.push(OpenSlot {
            serial,
            from,
            is_full: false,
        })?;
        self.slot_leaves.resize(from + size as usize, Leaf::Blank)?;
        self.serials = serials;
        Ok(Address {
            home: Home::Slot { index, serial },
            from: 0,
            is_part: false,
        })
    }

    /// The slots from one on are gone, with their leaves.
    fn cut_slots(&mut self, index: usize, from: usize)
        ensures { self.new ≡ record self.old { slots = take index self.old.slots; slot_leaves = take from self.old.slot_leaves } }
    {
        self.slots.truncate(index);
        self.slot_leaves.truncate(from);
    }

    /// The newest slot of the frame goes.
    #[inline]
    pub fn remove_open_slot(
        &mut self,
        frame: &Frame,
        index: u32,
        slot: Option<OpenSlot>,
    ) -> Result<(), Stop>
        ensures { GoesOver self.old frame.now (λ rest. removes_slot self.old frame.now rest index slot) result self.new }
    {
        let Some(slot) = slot else {
            return Err(fault(LowFault::Slot));
        };
        let index = index as usize;
        if index + 1 != self.slots.len() || index < frame.slots {
            return Err(fault(LowFault::Slot));
        }
        self.cut_slots(index, slot.from);
        self.go_on()
    }

    /// A value becomes what a slot holds.
    #[inline]
    pub fn put_from_slot(&mut self, frame: &Frame, from: usize, to: Local)
        ensures { self.new ≡ put self.old frame.now to (take to.size (drop from self.old.slot_leaves)) }
    {
        let place = frame.leaves.saturating_add(to.at as usize);
        lay_over(
            &mut self.leaves,
            place,
            window(&self.slot_leaves, from, to.size as usize),
        );
        self.put_there(frame, to.value);
    }

    /// A slot becomes what a value is, from a place among the leaves of slots on.
    #[inline]
    pub fn put_in_slot(
        &mut self,
        frame: &Frame,
        from: Local,
        begin: usize,
        index: u32,
        slot: OpenSlot,
    )
        ensures { self.new ≡ record self.old {
          slots = set self.old.slots index (record slot { is_full = true });
          slot_leaves = laid_over begin (contents self.old frame.now from) self.old.slot_leaves;
        } }
    {
        let at = frame.leaves.saturating_add(from.at as usize);
        lay_over(
            &mut self.slot_leaves,
            begin,
            window(&self.leaves, at, from.size as usize),
        );
        fill_slot(&mut self.slots, index, slot);
    }
}

/// A slot becomes full.
#[inline]
pub(crate) fn fill_slot(slots: &mut [OpenSlot], index: u32, slot: OpenSlot)
    ensures { slots.new ≡ set slots.old index (record slot { is_full = true }) }
{
    let index = index as usize;
    if index < slots.len() {
        slots[index] = OpenSlot {
            is_full: true,
            ..slot
        };
    }
}
