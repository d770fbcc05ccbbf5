//! Slots that may be deallocated before a later one, for all that is shown so far.

ghost use Rattle.std.specs.Prelude.{◌≡◌, ◌↔◌, false, All};
ghost use Rattle.sil_ast.specs.declared.place.ValueId as value;
ghost use Rattle.memory_rules_slots.specs.inner.Trust.{IsTrusted, Keeps};

use sil_ast::{Exhausted, ValueId};
use std::alloc::Global;

/// Those of some values that are in doubt, or all.
#[derive(Drop)]
pub struct Doubts {
    pub slots: Vec<bool>,
    pub all: bool,
}

impl Doubts {
    /// No doubt of so many values.
    pub fn none(alloc: Global, values: usize) -> Result<Doubts, Exhausted> {
        Ok(Doubts {
            slots: vec![in alloc; false; values]?,
            all: false,
        })
    }

    pub fn add(&mut self, slot: ValueId)
        ensures keeps { Keeps self.old self.new }
        ensures added { IsTrusted self.new slot → ⊥ }
    {
        let index = slot.0 as usize;
        if index < self.slots.len() {
            self.slots[index] = true;
        }
    }

    pub fn add_each(&mut self, slots: &[ValueId])
        ensures keeps { Keeps self.old self.new }
        ensures added { All (λ a. IsTrusted self.new a → ⊥) slots.now }
    {
        for slot in slots {
            self.add(*slot);
        }
    }

    pub fn add_all(&mut self)
        ensures keeps { Keeps self.old self.new }
        ensures added { (a : value.ValueId) → IsTrusted self.new a → ⊥ }
    {
        self.all = true;
    }

    /// Whether the slot is in doubt.
    pub fn has(&self, slot: ValueId) -> bool
        ensures { (result ≡ false) ↔ IsTrusted self.now slot }
    {
        if self.all {
            return true;
        }
        match self.slots.get(slot.0 as usize) {
            None => true,
            Some(doubted) => *doubted,
        }
    }
}
