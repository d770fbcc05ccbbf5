//! What is read of an object.

ghost use Rattle.std.specs.Prelude.{◌≡◌, false, is_some, length, true};
ghost use Rattle.std.specs.Option.{option_copied};
ghost use Rattle.sil_types.specs.sil_types_declarations.TypeDefinitions.Lookups as lookups;
ghost use Rattle.count_heap.specs.HeapModel.HeapViews.{
  class_in,
  fields_in,
  is_dead_in,
  is_named_or_alive,
  is_unfreed,
  phase_in,
  strong_in,
  unowned_in,
  weak_in,
};

use crate::heap::Heap;
use holder_model_values::Phase;
use sil_ast::{ObjectId, Text};
use weak_unowned::Side;

impl Heap {
    /// An object that was freed, or never allocated, is dead.
    #[inline]
    pub fn phase(&self, o: ObjectId) -> Phase
        ensures { result ≡ phase_in self.now o }
    {
        match self.numbers.find(o.0) {
            Some(slot) => self.records[slot].phase,
            None => Phase::Dead,
        }
    }

    /// How many strong references of the object there are.
    #[inline]
    pub fn strong(&self, o: ObjectId) -> u64
        ensures { result ≡ strong_in self.now o }
    {
        match self.numbers.find(o.0) {
            Some(slot) => self.records[slot].strong,
            None => 0,
        }
    }

    /// How many unowned and weak places name the object: none where it isn't unfreed. An object is unfreed just where it isn't dead, or
    /// one of its counts isn't 0.
    #[inline]
    pub fn counts(&self, o: ObjectId) -> Side
        ensures unowned { result.unowned ≡ unowned_in self.now o }
        ensures weak { result.weak ≡ weak_in self.now o }
        ensures unfreed { is_unfreed self.now o ≡ is_named_or_alive self.now o }
    {
        match self.numbers.find(o.0) {
            Some(slot) => self.sides.counts(slot),
            None => Side {
                unowned: 0,
                weak: 0,
            },
        }
    }

    /// Whether the object isn't freed.
    #[inline]
    pub fn is_unfreed(&self, o: ObjectId) -> bool
        ensures { result ≡ is_unfreed self.now o }
    {
        self.numbers.find(o.0).is_some()
    }

    /// The class with which the object was allocated, by its place among the declarations.
    #[inline]
    pub fn class_of(&self, o: ObjectId) -> u32
        requires { is_unfreed self.now o ≡ true }
        ensures { result ≡ class_in self.now o }
    {
        self.records[self.numbers.slot_of(o.0)].class
    }

    /// How many fields an object has that isn't dead.
    #[inline]
    pub fn field_count(&self, o: ObjectId) -> u32
        requires { is_dead_in self.now o ≡ false }
        ensures { result ≡ length (fields_in self.now o) }
    {
        let class = self.records[self.numbers.slot_of(o.0)].class;
        self.layouts.field_count(class)
    }

    /// The name of the class at this place among the declarations.
    #[inline]
    pub fn class_name(&self, index: u32) -> Option<&Text>
        ensures { option_copied result ≡ lookups.class_at self.now.declarations index }
    {
        self.layouts.class_name(index)
    }

    /// Whether the declaration at this place is a class.
    #[inline]
    pub fn is_class(&self, index: u32) -> bool
        ensures { result ≡ is_some (lookups.class_at self.now.declarations index) }
    {
        self.layouts.class_name(index).is_some()
    }
}
