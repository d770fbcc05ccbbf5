//! Fields.

ghost use Rattle.std.specs.Prelude.{◌≡◌, ◌+◌, ◌<◌, ◌≤◌, IfSome, None, Some, false, is_some, length, true};
ghost use Rattle.std.specs.Option.{option_copied};
ghost use Rattle.count_heap.specs.HeapModel.HeapCalls.{changed, with_field, with_field_of, with_part};
ghost use Rattle.count_heap.specs.HeapModel.HeapViews.{field_in, fields_in, is_dead_in, leaves_at};

use crate::heap::Heap;
use crate::parts::{NOT_WRITTEN, count_at, field_at, write_field};
use holder_model_values::Leaf;
use sil_ast::ObjectId;

impl Heap {
    /// The leaves of a field, where it is written.
    #[inline]
    pub fn field(&self, o: ObjectId, index: u32) -> Option<&[Leaf]>
        requires alive { is_dead_in self.now o ≡ false }
        requires field { index < length (fields_in self.now o) }
        ensures { option_copied result ≡ field_in self.now o index }
    {
        let record = self.records[self.numbers.slot_of(o.0)];
        let place = self.layouts.fields(record.class)[index as usize];
        field_at(self.pool.leaves(record.piece), place)
    }

    /// Writes a field.
    pub fn set_field(&mut self, o: ObjectId, index: u32, leaves: &[Leaf])
        requires alive { is_dead_in self.old o ≡ false }
        requires fits { leaves_at self.old o index ≡ Some (length leaves.now) }
        ensures { self.new ≡ with_field self.old o index leaves.now }
    {
        let record = self.records[self.numbers.slot_of(o.0)];
        let place = self.layouts.fields(record.class)[index as usize];
        write_field(&mut self.pool, record.piece, place, leaves);
    }

    /// Writes some leaves of a field that is written, from the one with a number on.
    pub fn set_part(&mut self, o: ObjectId, index: u32, from: u32, leaves: &[Leaf])
        requires alive { is_dead_in self.old o ≡ false }
        requires fits { IfSome (field_in self.old o index) (λ old. from + length leaves.now ≤ length old) }
        requires written { is_some (field_in self.old o index) ≡ true }
        ensures { self.new ≡ with_part self.old o index from leaves.now }
    {
        let record = self.records[self.numbers.slot_of(o.0)];
        let place = self.layouts.fields(record.class)[index as usize];
        self.pool.write(
            record.piece,
            place.from as usize + 1 + from as usize,
            leaves,
        );
    }

    /// Empties a field.
    pub fn clear_field(&mut self, o: ObjectId, index: u32)
        requires alive { is_dead_in self.old o ≡ false }
        requires field { index < length (fields_in self.old o) }
        ensures { self.new ≡ changed (with_field_of index None) self.old o }
    {
        let record = self.records[self.numbers.slot_of(o.0)];
        let place = self.layouts.fields(record.class)[index as usize];
        self.pool
            .write(record.piece, place.from as usize, &NOT_WRITTEN);
    }

    /// How many leaves the type of a field has.
    pub fn field_size(&self, o: ObjectId, index: u32) -> Option<u32>
        ensures { result ≡ leaves_at self.now o index }
    {
        match self.numbers.find(o.0) {
            Some(slot) => count_at(self.layouts.fields(self.records[slot].class), index),
            None => None,
        }
    }
}
