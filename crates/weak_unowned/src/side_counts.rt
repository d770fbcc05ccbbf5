//! Side counts by slot. Only `add_slot` takes memory.

ghost use Rattle.std.specs.Prelude.{◌≡◌, ◌<◌, ◌≤◌, ◌^◌, ◌++◌, ◌∷◌, [], ◌↔◌, false, true, IfSome, IsNone, OnErr, OnOk, length};
ghost use Rattle.weak_unowned.specs.Sides.{changed, counts_of, idle_count, is_idle, is_idle_at, less_unowned, less_weak, marked};
ghost use Rattle.weak_unowned.specs.Sides.{more_unowned, more_weak, no_sides, sides_at, unmarked};

use crate::side::{Side, SlotSides};
use sil_ast::Exhausted;
use std::alloc::Global;
use std::marker::Model;

/// The side counts of objects, by their slots, and which slots are idle: those that a dead object had which no place names any more.
/// To a contract it is the list of what the slots keep.
#[derive(Drop)]
pub struct SideCounts {
    slots: Vec<SlotSides>,
    /// The idle slots, with room for every slot.
    idle: Vec<usize>,
}

impl Model for SideCounts {
    ghost use Rattle.std.specs.Prelude.{List, ◌≤◌, length};
    ghost use Rattle.std.specs.Vec.{vec_capacity};
    ghost use Rattle.weak_unowned.specs.declared.side.SlotSides.{SlotSides};
    ghost use Rattle.weak_unowned.specs.inner.IdleSlots.{AreIdleSlots};

    ghost Value = { List SlotSides };

    ghost view = { λ s. s.slots.items };

    ghost invariant = { λ s. AreIdleSlots s.slots.items s.idle.items × (length s.slots.items ≤ vec_capacity s.idle) };
}

/// Whether a new object may take the slot.
#[inline]
fn is_idle(slot: SlotSides) -> bool
    ensures { result ≡ is_idle slot }
{
    slot.marked && slot.unowned == 0 && slot.weak == 0
}

impl SideCounts {
    /// No slots.
    pub fn new(alloc: Global) -> SideCounts
        ensures { result ≡ [] }
    {
        SideCounts {
            slots: Vec::new(alloc),
            idle: Vec::new(alloc),
        }
    }

    /// How many slots there are.
    #[inline]
    pub fn len(&self) -> usize
        ensures { result ≡ length self.now }
    {
        self.slots.len()
    }

    /// One slot more, for an object that nothing names. Where there is no memory for it, nothing changes.
    pub fn add_slot(&mut self) -> Result<(), Exhausted>
        ensures ok { OnOk result (self.new ≡ self.old ++ no_sides ∷ []) }
        ensures err { OnErr result (self.new ≡ self.old) }
    {
        self.idle.reserve(self.slots.len() + 1 - self.idle.len())?;
        self.slots.push(SlotSides {
            unowned: 0,
            weak: 0,
            marked: false,
        })?;
        Ok(())
    }

    /// How many places name the slot's object.
    #[inline]
    pub fn counts(&self, o: usize) -> Side
        requires { o < length self.now }
        ensures { result ≡ counts_of (sides_at self.now o) }
    {
        let slot = &self.slots[o];
        Side {
            unowned: slot.unowned,
            weak: slot.weak,
        }
    }

    /// Whether the slot's object is dead, and no place names it.
    #[inline]
    pub fn is_idle(&self, o: usize) -> bool
        requires { o < length self.now }
        ensures { result ≡ is_idle_at self.now o }
    {
        is_idle(self.slots[o])
    }

    /// One weak place more.
    #[inline]
    pub fn add_weak(&mut self, o: usize)
        requires there { o < length self.old }
        requires count { (sides_at self.old o).weak < 2 ^ 63 }
        requires taken { is_idle_at self.old o ≡ false }
        ensures { self.new ≡ changed more_weak self.old o }
    {
        let slot = &mut self.slots[o];
        slot.weak += 1;
    }

    /// One unowned place more.
    #[inline]
    pub fn add_unowned(&mut self, o: usize)
        requires there { o < length self.old }
        requires count { (sides_at self.old o).unowned < 2 ^ 63 }
        requires taken { is_idle_at self.old o ≡ false }
        ensures { self.new ≡ changed more_unowned self.old o }
    {
        let slot = &mut self.slots[o];
        slot.unowned += 1;
    }

    /// One weak place less.
    #[inline]
    pub fn drop_weak(&mut self, o: usize)
        requires there { o < length self.old }
        requires count { 1 ≤ (sides_at self.old o).weak }
        ensures { self.new ≡ changed less_weak self.old o }
    {
        let slot = &mut self.slots[o];
        slot.weak -= 1;
        if is_idle(*slot) {
            self.idle.push_reserved(o);
        }
    }

    /// One unowned place less.
    #[inline]
    pub fn drop_unowned(&mut self, o: usize)
        requires there { o < length self.old }
        requires count { 1 ≤ (sides_at self.old o).unowned }
        ensures { self.new ≡ changed less_unowned self.old o }
    {
        let slot = &mut self.slots[o];
        slot.unowned -= 1;
        if is_idle(*slot) {
            self.idle.push_reserved(o);
        }
    }

    /// The slot's object is dead.
    #[inline]
    pub fn mark(&mut self, o: usize)
        requires there { o < length self.old }
        requires alive { (sides_at self.old o).marked ≡ false }
        ensures { self.new ≡ changed marked self.old o }
    {
        let slot = &mut self.slots[o];
        slot.marked = true;
        if is_idle(*slot) {
            self.idle.push_reserved(o);
        }
    }

    /// Some idle slot, for a new object, where there is one.
    #[inline]
    pub fn take_idle(&mut self) -> Option<usize>
        ensures none { IsNone result ↔ (idle_count self.old ≡ 0) }
        ensures some { IfSome result (λ o. (o < length self.old) × (is_idle_at self.old o ≡ true) × (self.new ≡ changed unmarked self.old o)) }
        ensures same { IsNone result → self.new ≡ self.old }
    {
        match self.idle.pop() {
            Some(o) => {
                let slot = &mut self.slots[o];
                slot.marked = false;
                Some(o)
            }
            None => None,
        }
    }
}
