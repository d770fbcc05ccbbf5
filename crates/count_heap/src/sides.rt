//! Weak and unowned places.

ghost use Rattle.std.specs.Prelude.{◌≡◌, ◌<◌, ◌≤◌, ◌^◌, false};
ghost use Rattle.count_heap.specs.HeapModel.HeapCalls.{unowned_named, unowned_unnamed, weakly_named, weakly_unnamed};
ghost use Rattle.count_heap.specs.HeapModel.HeapViews.{is_dead_in, unowned_in, weak_in};

use crate::heap::Heap;
use sil_ast::ObjectId;

impl Heap {
    /// One weak place more names the object.
    #[inline]
    pub fn add_weak(&mut self, o: ObjectId)
        requires alive { is_dead_in self.old o ≡ false }
        requires count { weak_in self.old o < 2 ^ 63 }
        ensures { self.new ≡ weakly_named self.old o }
    {
        let slot = self.numbers.slot_of(o.0);
        self.sides.add_weak(slot);
    }

    /// One weak place less names the object. A dead one is freed where that was the last place.
    #[inline]
    pub fn drop_weak(&mut self, o: ObjectId)
        requires { 1 ≤ weak_in self.old o }
        ensures { self.new ≡ weakly_unnamed self.old o }
    {
        let slot = self.numbers.slot_of(o.0);
        self.sides.drop_weak(slot);
        if self.sides.is_idle(slot) {
            self.numbers.take_out(o.0);
        }
    }

    /// One unowned place more names the object.
    #[inline]
    pub fn add_unowned(&mut self, o: ObjectId)
        requires alive { is_dead_in self.old o ≡ false }
        requires count { unowned_in self.old o < 2 ^ 63 }
        ensures { self.new ≡ unowned_named self.old o }
    {
        let slot = self.numbers.slot_of(o.0);
        self.sides.add_unowned(slot);
    }

    /// One unowned place less names the object. A dead one is freed where that was the last place.
    #[inline]
    pub fn drop_unowned(&mut self, o: ObjectId)
        requires { 1 ≤ unowned_in self.old o }
        ensures { self.new ≡ unowned_unnamed self.old o }
    {
        let slot = self.numbers.slot_of(o.0);
        self.sides.drop_unowned(slot);
        if self.sides.is_idle(slot) {
            self.numbers.take_out(o.0);
        }
    }
}
